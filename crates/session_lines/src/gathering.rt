// The input taken up to its first line end, for any who read lines.
ghost use Rattle.std.specs.Prelude.{◌≡◌};
ghost use Rattle.session_lines.specs.Gathering.{gathered_of, told};

use crate::kept::Kept;

// A line with what a part of the input has of it.
#[derive(Clone, Copy)]
pub enum Gathered {
    // Its end has come, behind so much of the part.
    Ended(Kept, usize),
    // All of the part belongs to it.
    Open(Kept),
}

const LINE_END: u8 = b'\n';

pub fn gather(mut kept: Kept, input: &[u8]) -> Gathered
    ensures { result ≡ told (gathered_of kept input.now) }
{
    let end = text::piece_end(input, 0, input.len(), LINE_END);
    kept.extend(&input[..end]);
    if end < input.len() {
        Gathered::Ended(kept, end + 1)
    } else {
        Gathered::Open(kept)
    }
}
