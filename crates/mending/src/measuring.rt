// How long the mended recording and the notes are, with nothing written.
ghost use Rattle.std.specs.Prelude.{◌≡◌, ◌+◌, ◌≤◌, drop, length};
ghost use Rattle.mending.specs.Laws.Counting.{count_in, noted_by};
ghost use Rattle.mending.specs.Laws.Sweeps.{count_start, dropped_length, kept_length, length_end, notes_length, restored_length, restored_lengths};
ghost use Rattle.mending.specs.Lines.{lines_with};
ghost use Rattle.mending.specs.Told.{told};
ghost use Rattle.text.specs.Output.{ended, number_text};
ghost use Rattle.text.specs.Text.{TAB};

use crate::follow::{Follow, Keys};
use crate::line::Read;
use crate::{follow, line};

// answer: 0, 13 or 4; under 13 and 4 there are no lengths.
#[derive(Clone, Copy)]
pub struct Lengths {
    pub mended: usize,
    pub notes: usize,
    pub answer: u8,
}

const LARGEST: usize = 18446744073709551615;

pub(crate) fn refused(answer: u8) -> Lengths
    ensures { result ≡ record { mended = 0; notes = 0; answer = answer } }
{
    Lengths {
        mended: 0,
        notes: 0,
        answer,
    }
}

// A sum, or the largest number that there is.
fn more(n: usize, m: usize) -> usize
    ensures { result ≡ told (n + m) }
{
    if LARGEST - n < m {
        return LARGEST;
    }
    n + m
}

// How many bytes a number takes, with a tab behind it.
fn number_length(number: u64) -> usize
    ensures { (result ≡ length (ended (number_text number) TAB)) × (result ≤ 21) }
{
    let mut room = [0u8; 21];
    text::put_decimal(number, b'\t', &mut room, 0)
}

// The note of a dropped line of so many bytes.
fn dropped_length(number: u64, bytes: usize) -> usize
    ensures { result ≡ told (dropped_length number bytes) }
{
    more(number_length(number) + 7, bytes)
}

// That of a restored one, if it is restored.
fn restored_length(is: bool, number: usize) -> usize
    ensures { (result ≡ restored_length is number) × (result ≤ 30) }
{
    if is {
        return number_length(number as u64) + 9;
    }
    0
}

// Of those that a port's next line lets be restored.
fn restored_lengths(before: Follow, after: Follow, numbers: Keys) -> usize
    ensures { result ≡ restored_lengths before after numbers }
{
    let first = follow::is_first(before, after);
    let second = follow::is_second(before, after);
    let third = follow::is_third(before, after);
    restored_length(first, numbers.first)
        + restored_length(second, numbers.second)
        + restored_length(third, numbers.third)
}

// The notes that a line brings: of those that it lets be restored, or its own.
fn noted_by(
    read: Read,
    before: Follow,
    after: Follow,
    numbers: Keys,
    number: usize,
    at: usize,
) -> usize
    requires { at ≤ read.end }
    ensures { result ≡ noted_by read before after numbers number at }
{
    if read.kept {
        return restored_lengths(before, after, numbers);
    }
    dropped_length(number as u64, read.end - at)
}

// Those of the lines that are restored at the end, behind so many bytes of notes.
fn with_last(follows: &[Follow; 64], keys: &[Keys; 64], before: usize) -> usize
    ensures { result ≡ told (before + length_end 64 (count_in follows.now keys.now 0)) }
{
    let mut notes = before;
    let mut i = 0;
    while i < 64 {
        let f = follows[i];
        let numbers = keys[i];
        let is = follow::is_last(f);
        let noted = restored_length(is, numbers.second);
        notes = more(notes, noted);
        i += 1;
    }
    notes
}

// The lines behind the first, which lies up to `start`.
pub(crate) fn lengths_from(
    text: &[u8],
    start: usize,
    ports: u32,
    size: u32,
    counted: bool,
) -> Lengths
    requires { (start ≤ length text.now) × (ports ≤ 64) }
    ensures { result ≡ record { mended = start + kept_length ports size (lines_with (drop start text.now)); notes = told (notes_length counted ports size count_start (lines_with (drop start text.now))); answer = 0 } }
{
    let begun = follow::none_yet();
    let none = follow::no_keys();
    let mut follows = [begun; 64];
    let mut keys = [none; 64];
    let mut at = start;
    let mut mended = start;
    let mut notes = 0;
    let mut number = 2;
    while at < text.len() {
        let read = line::read_line(text, at, ports, size);
        let next = read.next;
        let port = read.port;
        let before = follows[port];
        let numbers = keys[port];
        let after = follow::followed_if(counted, before, read.count);
        let noted = noted_by(read, before, after, numbers, number, at);
        notes = more(notes, noted);
        let own = number;
        number += 1;
        if read.kept {
            let shifted = follow::with_key(numbers, own);
            follows[port] = after;
            keys[port] = shifted;
            mended += next - at;
        }
        at = next;
    }
    let all = with_last(&follows, &keys, notes);
    Lengths {
        mended,
        notes: all,
        answer: 0,
    }
}
