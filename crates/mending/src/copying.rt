// The lines of a recording that are frames, copied one behind the other. A count is restored at its place in what is written already.
ghost use Rattle.std.specs.Prelude.{◌≡◌, ◌≤◌, ◌<◌, drop, length, take};
ghost use Rattle.mending.specs.Laws.Copies.{sweep_in};
ghost use Rattle.mending.specs.Laws.Sweeps.{sweep_end, sweep_start, swept, restored_in, set_if};
ghost use Rattle.mending.specs.Lines.{capital, lines_with};

use crate::follow::{Follow, Keys};
use crate::{follow, line};

// A digit as a capital.
fn capital_of(n: u8) -> u8
    requires { n < 16 }
    ensures { result ≡ capital n }
{
    if n < 10 { 48 + n } else { 55 + n }
}

// A count restored, if it is to be, at its place.
fn restore_at(is: bool, place: usize, count: u8, mended: &mut [u8])
    requires { count < 16 }
    ensures { mended.new ≡ set_if is place (capital count) mended.old }
{
    if is {
        if place < mended.len() {
            mended[place] = capital_of(count);
        }
    }
}

// What a port's next line lets be restored.
fn restore(before: Follow, after: Follow, places: Keys, mended: &mut [u8])
    ensures { mended.new ≡ restored_in before after places mended.old }
{
    let first = follow::is_first(before, after);
    let second = follow::is_second(before, after);
    let third = follow::is_third(before, after);
    restore_at(
        first,
        places.first,
        follow::count_back(before, after.v, 3),
        mended,
    );
    restore_at(
        second,
        places.second,
        follow::count_back(before, after.v, 2),
        mended,
    );
    restore_at(
        third,
        places.third,
        follow::count_back(before, after.v, 1),
        mended,
    );
}

// What is restored at the end.
fn finish(follows: &[Follow; 64], keys: &[Keys; 64], mended: &mut [u8])
    ensures { mended.new ≡ sweep_end 64 (sweep_in follows.now keys.now mended.old) }
{
    let mut i = 0;
    while i < 64 {
        let f = follows[i];
        let places = keys[i];
        let is = follow::is_last(f);
        let count = follow::count_back(f, f.first, 2);
        restore_at(is, places.second, count, mended);
        i += 1;
    }
}

// The lines behind the first, which lies up to `start` and is written already.
fn copy_lines(text: &[u8], start: usize, ports: u32, size: u32, counted: bool, mended: &mut [u8])
    requires { (start ≤ length text.now) × (ports ≤ 64) × (start ≤ length mended.old)
        × (length mended.old ≡ length (swept counted ports size (sweep_start (take start mended.old)) (lines_with (drop start text.now))).written) }
    ensures { mended.new ≡ sweep_end 64 (swept counted ports size (sweep_start (take start mended.old)) (lines_with (drop start text.now))) }
{
    let begun = follow::none_yet();
    let none = follow::no_keys();
    let mut follows = [begun; 64];
    let mut keys = [none; 64];
    let mut at = start;
    let mut to = start;
    while at < text.len() {
        let read = line::read_line(text, at, ports, size);
        let next = read.next;
        if read.kept {
            let port = read.port;
            let before = follows[port];
            let places = keys[port];
            let after = follow::followed_if(counted, before, read.count);
            restore(before, after, places, mended);
            payload::lay(&text[at..next], to, mended);
            let key = to + (read.digit - at);
            let shifted = follow::with_key(places, key);
            follows[port] = after;
            keys[port] = shifted;
            to += next - at;
        }
        at = next;
    }
    finish(&follows, &keys, mended);
}

// The first line, which lies up to `start`, as it is, and the others.
#[inline(never)]
pub(crate) fn copy_all(
    text: &[u8],
    start: usize,
    ports: u32,
    size: u32,
    counted: bool,
    mended: &mut [u8],
)
    requires { (start ≤ length text.now) × (ports ≤ 64)
        × (length mended.old ≡ length (swept counted ports size (sweep_start (take start text.now)) (lines_with (drop start text.now))).written) }
    ensures { mended.new ≡ sweep_end 64 (swept counted ports size (sweep_start (take start text.now)) (lines_with (drop start text.now))) }
{
    payload::lay(&text[..start], 0, mended);
    copy_lines(text, start, ports, size, counted, mended);
}
