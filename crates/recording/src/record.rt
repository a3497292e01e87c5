// A frame's line (2026-05): 'port, H4 in two hex digits, fail flag, payload in hex'.
ghost use Rattle.std.specs.Prelude.{◌≡◌, ◌+◌, ◌≤◌, ◌<◌, drop, length, IfSome};
ghost use Rattle.recording.specs.Laws.Here.{frame_behind, parted_at};
ghost use Rattle.recording.specs.Record.{flag_in, frame_by, last_record, line_record, record_by, record_in};
ghost use Rattle.text.specs.Text.{fields_of};

use crate::line;
use crate::line::{Found, MOST};

// What stands at a place of a recording. next: the place of the next line.
#[derive(Clone, Copy)]
pub enum Record {
    // place: that of the payload's digits
    Frame {
        port: u32,
        h4: u8,
        flag: bool,
        place: usize,
        next: usize,
    },
    Malformed {
        next: usize,
    },
    // a line of more than 8,192 bytes that has no end yet
    Long,
    // a line that has no end yet
    Unfinished,
    End,
}

const TAB: u8 = b'\t';

const LINE_END: u8 = b'\n';

#[tactic(auto, unfolding(crate::specs::Record::flag_in))]
fn flag_in(field: &[u8]) -> Option<bool>
    ensures { result ≡ flag_in field.now }
{
    if text::is_word(field, b"0") {
        return Some(false);
    }
    if text::is_word(field, b"1") {
        return Some(true);
    }
    None
}

// A frame by its fields as they are read.
#[tactic(auto, unfolding(crate::specs::Record::frame_by))]
fn frame_by(
    ports: u32,
    port: Option<u32>,
    h4: Option<u32>,
    flag: Option<bool>,
    payload: bool,
    place: usize,
    next: usize,
) -> Record
    ensures { result ≡ frame_by ports port h4 flag payload place next }
{
    let (Some(port), Some(h4), Some(flag)) = (port, h4, flag) else {
        return Record::Malformed { next };
    };
    if port < ports && h4 < 256 && payload {
        return Record::Frame {
            port,
            h4: h4 as u8,
            flag,
            place,
            next,
        };
    }
    Record::Malformed { next }
}

fn digits_of(size: u32) -> usize
    ensures { result ≡ size + size }
{
    size as usize + size as usize
}

// A line whose bytes end at `end`.
fn short_record(line: &[u8], end: usize, next: usize, ports: u32, size: u32) -> Record
    requires { length line.now ≤ end }
    ensures { result ≡ record_by ports size end next (fields_of line.now) }
{
    let Some((port, rest)) = text::parted(line) else {
        return Record::Malformed { next };
    };
    let Some((h4, rest)) = text::parted(rest) else {
        return Record::Malformed { next };
    };
    let Some((flag, payload)) = text::parted(rest) else {
        return Record::Malformed { next };
    };
    if let Some(_) = text::parted(payload) {
        return Record::Malformed { next };
    }
    frame_by(
        ports,
        text::read_number(port, 9),
        text::read_hex(h4, 2),
        flag_in(flag),
        text::is_hex(payload, digits_of(size)),
        end - payload.len(),
        next,
    )
}

// 'Lines hold at most 8,192 bytes.'
#[tactic(auto, unfolding(crate::specs::Record::line_record))]
fn line_record(line: &[u8], at: usize, next: usize, ports: u32, size: u32) -> Record
    requires { at + length line.now < 18446744073709551616 }
    ensures { result ≡ line_record ports size at next line.now }
{
    if MOST < line.len() {
        return Record::Malformed { next };
    }
    short_record(line, at + line.len(), next, ports, size)
}

// Whether the tabs behind port, H4 and flag of a frame's line are there, and its end.
#[tactic(auto, unfolding(crate::specs::Laws::Here::parted_at))]
fn is_parted(text: &[u8], first: usize, end: usize) -> bool
    requires { (first + 6 ≤ end) × (end < length text.now) }
    ensures { result ≡ parted_at first end text.now }
{
    (text[first] == TAB)
        & (text[first + 3] == TAB)
        & (text[first + 5] == TAB)
        & (text[end] == LINE_END)
}

// A line whose port ends at `first`, its other fields taken from where a frame's line has them.
#[tactic(auto, using(std::proofs::lemmas::Slice::between_is), unfolding(crate::specs::Laws::Here::frame_behind))]
fn frame_behind(text: &[u8], at: usize, first: usize, end: usize, ports: u32, size: u32) -> Record
    requires { (at ≤ first) × (first + 6 ≤ end) × (end < length text.now) }
    ensures { result ≡ frame_behind ports size at first end text.now }
{
    frame_by(
        ports,
        text::read_number(&text[at..first], 9),
        text::read_hex(&text[first + 1..first + 3], 2),
        flag_in(&text[first + 4..first + 5]),
        text::is_hex(&text[first + 6..end], digits_of(size)),
        first + 6,
        end + 1,
    )
}

// A frame's line is as long as its port and P say: it is read without a search for its end. Any other line is no frame here.
fn frame_here(text: &[u8], at: usize, ports: u32, size: u32) -> Option<Record>
    ensures { IfSome result (λ found. found ≡ record_in ports size at (drop at text.now)) }
{
    if text.len() <= at {
        return None;
    }
    let first = text::piece_end(text, at, at + 10, TAB);
    let end = first + 6 + digits_of(size);
    if text.len() <= end || MOST < end - at || !is_parted(text, first, end) {
        return None;
    }
    let found = frame_behind(text, at, first, end, ports, size);
    matches!(found, Record::Frame { .. }).then_some(found)
}

// Any line.
#[tactic(auto, unfolding(crate::specs::Record::record_in))]
fn any_record(text: &[u8], at: usize, ports: u32, size: u32) -> Record
    ensures { result ≡ record_in ports size at (drop at text.now) }
{
    match line::find(text, at) {
        Found::Nothing => Record::End,
        Found::Open => Record::Unfinished,
        Found::TooLong => Record::Long,
        Found::Ends(end) => line_record(&text[at..end], at, end + 1, ports, size),
    }
}

// What stands at a place of a text, for a group of so many ports and bytes a frame.
pub fn record_in(text: &[u8], at: usize, ports: u32, size: u32) -> Record
    ensures { result ≡ record_in ports size at (drop at text.now) }
{
    match frame_here(text, at, ports, size) {
        Some(frame) => frame,
        None => any_record(text, at, ports, size),
    }
}

// The same where the rest of the text is a line that lacks its end.
#[tactic(auto, unfolding(crate::specs::Record::last_record))]
pub fn last_record(text: &[u8], at: usize, ports: u32, size: u32) -> Record
    ensures { result ≡ last_record ports size at (drop at text.now) }
{
    if text.len() <= at {
        return Record::End;
    }
    line_record(&text[at..], at, text.len(), ports, size)
}
