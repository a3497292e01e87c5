// A whole input, read to its end: what each line is answered is written as it comes.
ghost use Rattle.std.specs.Prelude.{◌≡◌, ◌<◌, length, OnErr, OnOk};
ghost use Rattle.session_lines.specs.Running.{FedParts, Ran, ended_by, left_by_whole};

use crate::console;
use crate::console::{Console, Refusal};
use std::io::Read;

// A whole part of the input, line by line, and whether to read on: where an answer cannot be written there is nobody to read on for. What
// the part has behind it is answered all the same, and may be written.
fn feed_all<C: Console>(
    rt: &impl Print,
    console: &mut C,
    input: &[u8],
    out: &mut [u8],
) -> Result<bool, Refusal>
    ensures left { OnOk result (console.new ≡ left_by_whole C.ROOM C.kept_of C.keeping C.left_by C.said_by console.old input.now) }
    ensures refused { OnErr result (length out.old < C.ROOM) }
{
    let mut goes_on = true;
    let mut rest = input;
    while !rest.is_empty() {
        let fed = console::feed_any(*console, rest, out)?;
        *console = fed.console;
        let wrote = rt.write_all(&out[..fed.written]).is_ok();
        goes_on = goes_on & wrote;
        rest = &rest[fed.used..];
    }
    Ok(goes_on)
}

// Where a read fails there is no more input. A proved loop has to end, and nothing says that the input does: the turns are counted up to a
// number that no run uses up.
fn feed_read<C: Console, R: Read>(
    rt: &impl Print,
    from: &mut R,
    console: &mut C,
    out: &mut [u8],
) -> Result<(), Refusal>
    ensures fed { OnOk result (FedParts C.ROOM C.kept_of C.keeping C.left_by C.said_by console.old console.new (R.remaining from.old) (R.remaining from.new)) }
    ensures refused { OnErr result (length out.old < C.ROOM) }
{
    let mut buffer = [0u8; 4096];
    for _ in 0..u64::MAX {
        let Ok(n) = from.read(&mut buffer) else {
            break;
        };
        if n == 0 {
            break;
        }
        if !feed_all(rt, console, &buffer[..n], out)? {
            break;
        }
    }
    Ok(())
}

// The last line may lack its end.
fn end<C: Console>(rt: &impl Print, console: C, out: &mut [u8]) -> Result<C, Refusal>
    ensures { result ≡ ended_by C.ROOM C.kept_of C.keeping C.left_by C.said_by console out.old }
{
    let fed = console::finish_any(console, out)?;
    let _ = rt.write_all(&out[..fed.written]);
    Ok(fed.console)
}

// The console as the input leaves it. Where the buffer is below its room nothing is read.
pub fn run<C: Console, R: Read>(
    rt: &impl Print,
    from: &mut R,
    mut console: C,
    out: &mut [u8],
) -> Result<C, Refusal>
    ensures ran { Ran C.ROOM C.kept_of C.keeping C.left_by C.said_by console out.old (R.remaining from.old) (R.remaining from.new) result }
    ensures unread { OnErr result (from.new ≡ from.old) }
{
    if out.len() < C::ROOM {
        return Err(Refusal::Length);
    }
    feed_read(rt, from, &mut console, out)?;
    end(rt, console, out)
}
