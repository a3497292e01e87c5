// The notes: the recording and the mended one walked side by side.
ghost use Rattle.std.specs.Prelude.{◌≡◌, [], ◌∷◌, ◌+◌, ◌-◌, ◌≤◌, ◌<◌, drop, get_or, length};
ghost use Rattle.std.proofs.Math.Seq.{slice};
ghost use Rattle.mending.specs.Laws.Noting.{note_read, to_read};
ghost use Rattle.mending.specs.Laws.Sweeps.{notes_swept};
ghost use Rattle.mending.specs.Laws.Reads.{Bounds};
ghost use Rattle.mending.specs.Lines.{lines_with};
ghost use Rattle.mending.specs.Mending.{note_text};
ghost use Rattle.text.specs.Ascii.{ascii};
ghost use Rattle.text.specs.Output.{Put};

use crate::line;
use crate::line::Read;

const TAB: u8 = b'\t';

const LINE_END: u8 = b'\n';

// A line was dropped, whose bytes lie up to `end`.
fn put_dropped(
    number: u64,
    text: &[u8],
    at: usize,
    end: usize,
    notes: &mut [u8],
    start: usize,
) -> usize
    requires { (at ≤ end) × (end ≤ length text.now) × (start + length (note_text number (ascii "line") (slice at end text.now) []) ≤ length notes.old) }
    ensures { Put (note_text number (ascii "line") (slice at end text.now) []) start notes.old result notes.new }
{
    let second = text::put_decimal(number, TAB, notes, start);
    let third = text::put(b"line\t", notes, second);
    let fourth = text::put(&text[at..end], notes, third);
    text::put(b"\t\n", notes, fourth)
}

// The second digit of H4 was restored.
fn put_restored(number: u64, high: u8, old: u8, new: u8, notes: &mut [u8], start: usize) -> usize
    requires { start + length (note_text number (ascii "H4") (high ∷ old ∷ []) (high ∷ new ∷ [])) ≤ length notes.old }
    ensures { Put (note_text number (ascii "H4") (high ∷ old ∷ []) (high ∷ new ∷ [])) start notes.old result notes.new }
{
    let second = text::put_decimal(number, TAB, notes, start);
    let third = text::put(b"H4\t", notes, second);
    text::put(&[high, old, TAB, high, new, LINE_END], notes, third)
}

fn byte_at(text: &[u8], place: usize) -> u8
    ensures { result ≡ get_or text.now place 0 }
{
    if place < text.len() { text[place] } else { 0 }
}

// The note of a line, if it has one. to: from where on its line lies in the mended recording.
fn put_note(
    read: Read,
    number: u64,
    text: &[u8],
    at: usize,
    mended: &[u8],
    to: usize,
    notes: &mut [u8],
    start: usize,
) -> usize
    requires { Bounds at (length text.now) read × (to ≤ at) × (start + length (note_read number text.now at mended.now to read) ≤ length notes.old) }
    ensures { Put (note_read number text.now at mended.now to read) start notes.old result notes.new }
{
    if !read.kept {
        return put_dropped(number, text, at, read.end, notes, start);
    }
    let digit = read.digit;
    let old = byte_at(text, digit);
    let new = byte_at(mended, to + (digit - at));
    if old == new {
        return start;
    }
    put_restored(number, byte_at(text, digit - 1), old, new, notes, start)
}

// Where the next line lies in the mended recording.
fn after(read: Read, at: usize, to: usize) -> usize
    requires { (at ≤ read.next) × (to ≤ at) }
    ensures { result ≡ to_read at to read }
{
    if read.kept {
        return to + (read.next - at);
    }
    to
}

#[inline(never)]
pub(crate) fn put_notes(
    text: &[u8],
    start: usize,
    ports: u32,
    size: u32,
    mended: &[u8],
    notes: &mut [u8],
)
    requires { (start ≤ length text.now) × (ports ≤ 64) × (length notes.old ≡ length (notes_swept ports size mended.now 2 start (lines_with (drop start text.now)))) }
    ensures { notes.new ≡ notes_swept ports size mended.now 2 start (lines_with (drop start text.now)) }
{
    let mut at = start;
    let mut to = start;
    let mut number = 2u64;
    let mut written = 0;
    while at < text.len() {
        let read = line::read_line(text, at, ports, size);
        written = put_note(read, number, text, at, mended, to, notes, written);
        to = after(read, at, to);
        at = read.next;
        number += 1;
    }
}
