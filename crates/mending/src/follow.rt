// The H4 count of one port, followed line by line (2026-11).
ghost use Rattle.std.specs.Prelude.{◌≡◌, ◌≤◌, ◌<◌};
ghost use Rattle.mending.specs.Follow.{afresh, beginning, count_back, fed, fed_by, fed_if, going, less_place, restores_first, restores_last, restores_second, restores_third};
ghost use Rattle.mending.specs.Laws.Sweeps.{no_keys, with_key};

// begun: the port has had a line. v: the count less the place, modulo 16, of the last good line. place: that of the port's next line, modulo 16.
// pending: broken lines in a row, which are the port's last ones. first, second, third: count less place of its last three lines, third the latest.
#[derive(Clone, Copy)]
pub struct Follow {
    pub begun: bool,
    pub v: u8,
    pub place: u8,
    pub pending: u8,
    pub first: u8,
    pub second: u8,
    pub third: u8,
}

pub(crate) fn none_yet() -> Follow
    ensures { result ≡ beginning }
{
    Follow {
        begun: false,
        v: 0,
        place: 0,
        pending: 0,
        first: 0,
        second: 0,
        third: 0,
    }
}

fn less_place(count: u8, place: u8) -> u8
    ensures { result ≡ less_place count place }
{
    (count % 16 + 16 - place % 16) % 16
}

// The count that a line gets, so many lines before the one to come.
pub(crate) fn count_back(f: Follow, v: u8, back: u8) -> u8
    requires { back ≤ 16 }
    ensures { (result ≡ count_back f v back) × (result < 16) }
{
    (v % 16 + 16 + f.place % 16 - back) % 16
}

// A line more.
fn gone_on(f: Follow, v: u8, pending: u8, o: u8) -> Follow
    ensures { result ≡ going f v pending o }
{
    Follow {
        begun: true,
        v,
        place: (f.place % 16 + 1) % 16,
        pending,
        first: f.second,
        second: f.third,
        third: o,
    }
}

// Afresh at the first of four broken lines: how many of them are still pending.
fn still_pending(f: Follow, o: u8) -> u8
    ensures { result ≡ afresh f o }
{
    if o == f.first {
        return 0;
    }
    if f.third == f.first {
        return 1;
    }
    if f.second == f.first {
        return 2;
    }
    3
}

fn follow_on(f: Follow, o: u8) -> Follow
    ensures { result ≡ fed_by f o }
{
    if !f.begun {
        return gone_on(f, o, 0, o);
    }
    if o == f.v {
        return gone_on(f, f.v, 0, o);
    }
    if f.pending < 3 {
        return gone_on(f, f.v, f.pending + 1, o);
    }
    gone_on(f, f.first, still_pending(f, o), o)
}

// The next line of the port.
pub(crate) fn followed(f: Follow, count: u8) -> Follow
    ensures { result ≡ fed f count }
{
    follow_on(f, less_place(count, f.place))
}

// The same where lines have counts; where they have none, nothing is to be restored.
pub(crate) fn followed_if(counted: bool, f: Follow, count: u8) -> Follow
    ensures { result ≡ fed_if counted f count }
{
    if counted {
        return followed(f, count);
    }
    let o = less_place(count, f.place);
    gone_on(f, o, 0, o)
}

// Whether the next line lets one of the last three be restored, the first, second or third of them.
pub(crate) fn is_first(before: Follow, after: Follow) -> bool
    ensures { result ≡ restores_first before after }
{
    (3 <= before.pending) & (after.pending <= 3) & !(before.first == after.v)
}

pub(crate) fn is_second(before: Follow, after: Follow) -> bool
    ensures { result ≡ restores_second before after }
{
    (2 <= before.pending) & (after.pending <= 2) & !(before.second == after.v)
}

pub(crate) fn is_third(before: Follow, after: Follow) -> bool
    ensures { result ≡ restores_third before after }
{
    (1 <= before.pending) & (after.pending <= 1) & !(before.third == after.v)
}

// Whether the second is restored at the end.
pub(crate) fn is_last(f: Follow) -> bool
    ensures { result ≡ restores_last f }
{
    (3 <= f.pending) & (f.third == f.first) & !(f.second == f.first)
}

// What is remembered of a port's last three lines, third the latest: the places of their digits, or their numbers.
#[derive(Clone, Copy)]
pub(crate) struct Keys {
    pub first: usize,
    pub second: usize,
    pub third: usize,
}

pub(crate) fn no_keys() -> Keys
    ensures { result ≡ no_keys }
{
    Keys {
        first: 0,
        second: 0,
        third: 0,
    }
}

pub(crate) fn with_key(keys: Keys, key: usize) -> Keys
    ensures { result ≡ with_key keys key }
{
    Keys {
        first: keys.second,
        second: keys.third,
        third: key,
    }
}
