// Where a line of a recording ends, and how long it may be.
ghost use Rattle.std.specs.Prelude.{◌≡◌, drop};
ghost use Rattle.recording.specs.Line.{found_of};

#[derive(Clone, Copy)]
pub(crate) enum Found {
    // no byte is left
    Nothing,
    // the line has no end yet
    Open,
    // nor has this one, and it is too long already
    TooLong,
    // where its end is
    Ends(usize),
}

const LINE_END: u8 = b'\n';

// 'Lines hold at most 8,192 bytes.'
pub(crate) const MOST: usize = 8192;

// The line that begins at a place.
pub(crate) fn find(text: &[u8], at: usize) -> Found
    ensures { result ≡ found_of at (drop at text.now) }
{
    if text.len() <= at {
        return Found::Nothing;
    }
    let end = text::piece_end(text, at, text.len(), LINE_END);
    if end < text.len() {
        return Found::Ends(end);
    }
    if MOST < text.len() - at {
        return Found::TooLong;
    }
    Found::Open
}
