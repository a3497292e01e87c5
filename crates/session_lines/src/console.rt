// Who answers lines, and the input fed to it in parts cut anywhere: each line is answered when its end has come.
ghost use Rattle.std.specs.Prelude.{◌≡◌, ℕ, List, ◌≤◌, length};
ghost use Rattle.session_lines.specs.declared.kept.Kept.{Kept};
ghost use Rattle.session_lines.specs.Kept.{line_in};
ghost use Rattle.session_lines.specs.Consoles.{fed_by, fed_bytes_by, finished_by, finished_bytes_by, refusal_number};
ghost use Rattle.session_lines.specs.Laws.Refusals.{refusal_above};
ghost use Rattle.session_lines.specs.Session.{over};

use crate::gathering;
use crate::gathering::Gathered;
use crate::kept::Kept;

pub trait Console: Copy {
    // Room for what any one line is answered.
    const ROOM: usize;

    ghost ROOM: { ℕ };

    ghost kept_of: { Self → Kept };

    ghost keeping: { Self → Kept → Self };

    ghost left_by: { Self → List ℕ → Self };

    ghost said_by: { Self → List ℕ → List ℕ };

    // The line that has begun.
    fn kept(self) -> Kept
        ensures { result ≡ kept_of self };

    fn with_kept(self, kept: Kept) -> Self
        ensures { result ≡ keeping self kept };

    // What a line leaves, and how many bytes it is answered.
    fn answer(self, line: Kept, out: &mut [u8]) -> (Self, usize)
        requires { ROOM ≤ length out.old }
        ensures left { result.0 ≡ left_by self (line_in line) }
        ensures written { result.1 ≡ length (said_by self (line_in line)) }
        ensures said { out.new ≡ over (said_by self (line_in line)) out.old };
}

// What a part of the input has done: how much of it is used, and how many bytes are written.
#[derive(Clone, Copy)]
pub struct Fed<C> {
    pub console: C,
    pub used: usize,
    pub written: usize,
}

#[derive(Clone, Copy, PartialEq, Eq)]
pub enum Refusal {
    // The output buffer is below the console's room.
    Length,
}

impl ground::Refusal for Refusal {
    ghost number_of = { refusal_number };

    ghost is_no_zero = { refusal_above };

    fn number(self) -> u8 {
        match self {
            Refusal::Length => 9,
        }
    }
}

// A part of the input, up to its first line end, whose line is then answered, or whole, where no line ends in it.
pub fn feed_any<C: Console>(console: C, input: &[u8], out: &mut [u8]) -> Result<Fed<C>, Refusal>
    ensures fed { result ≡ fed_by C.ROOM C.kept_of C.keeping C.left_by C.said_by console input.now out.old }
    ensures bytes { out.new ≡ fed_bytes_by C.ROOM C.kept_of C.said_by console input.now out.old }
{
    if out.len() < C::ROOM {
        return Err(Refusal::Length);
    }
    match gathering::gather(console.kept(), input) {
        Gathered::Ended(line, used) => {
            let (console, written) = console.answer(line, out);
            Ok(Fed {
                console,
                used,
                written,
            })
        }
        Gathered::Open(kept) => Ok(Fed {
            console: console.with_kept(kept),
            used: input.len(),
            written: 0,
        }),
    }
}

// The end of the input: a line that lacks its end is answered.
pub fn finish_any<C: Console>(console: C, out: &mut [u8]) -> Result<Fed<C>, Refusal>
    ensures fed { result ≡ finished_by C.ROOM C.kept_of C.left_by C.said_by console out.old }
    ensures bytes { out.new ≡ finished_bytes_by C.ROOM C.kept_of C.said_by console out.old }
{
    if out.len() < C::ROOM {
        return Err(Refusal::Length);
    }
    let line = console.kept();
    if line.is_empty() {
        return Ok(Fed {
            console,
            used: 0,
            written: 0,
        });
    }
    let (console, written) = console.answer(line, out);
    Ok(Fed {
        console,
        used: 0,
        written,
    })
}
