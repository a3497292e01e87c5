// A line of a recording behind the first, read at its place.
ghost use Rattle.std.specs.Prelude.{◌≡◌, ◌≤◌, ◌<◌, length};
ghost use Rattle.mending.specs.Laws.Reads.{Bounds, dropped_to, is_unended, next_of, place_of, read_at, read_found};

use recording::Record;

// kept: it is a frame's. next: the place of the next line. end: where its bytes end. Of a frame: its port, its count, and the place of that digit.
#[derive(Clone, Copy)]
pub(crate) struct Read {
    pub next: usize,
    pub end: usize,
    pub digit: usize,
    pub port: usize,
    pub count: u8,
    pub kept: bool,
}

fn dropped(next: usize, end: usize) -> Read
    ensures { result ≡ dropped_to next end }
{
    Read {
        next,
        end,
        digit: 0,
        port: 0,
        count: 0,
        kept: false,
    }
}

// The rest of the text is a line that lacks its end.
fn is_unended(found: Record) -> bool
    ensures { result ≡ is_unended found }
{
    matches!(found, Record::Long | Record::Unfinished)
}

// Before a payload stand the second digit of H4, a tab, the flag and a tab. back: how many bytes the line's end has.
#[tactic(auto, unfolding(crate::specs::Laws::Reads::read_found))]
fn read_as(found: Record, back: usize) -> Read
    requires { (4 ≤ place_of found) × (back ≤ next_of found) }
    ensures { result ≡ read_found back found }
{
    match found {
        Record::Frame {
            port,
            h4,
            place,
            next,
            ..
        } => Read {
            next,
            end: next - back,
            digit: place - 4,
            port: port as usize,
            count: h4 % 16,
            kept: true,
        },
        Record::Malformed { next } => dropped(next, next - back),
        _ => dropped(1, 0),
    }
}

// The last line of a recording may lack its end.
pub(crate) fn read_line(text: &[u8], at: usize, ports: u32, size: u32) -> Read
    requires { (at < length text.now) × (ports ≤ 64) }
    ensures { (result ≡ read_at ports size at text.now) × Bounds at (length text.now) result }
{
    let found = recording::record_at(text, at, ports, size);
    if is_unended(found) {
        let last = recording::last_record(text, at, ports, size);
        return read_as(last, 0);
    }
    read_as(found, 1)
}
