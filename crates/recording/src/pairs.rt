// The pairs behind the three numbers of a first line (2026-05): each a name and what it says, in any order, each at most once.
ghost use Rattle.std.specs.Prelude.{◌≡◌};
ghost use Rattle.recording.specs.Laws.Pairs.{fields_in, settings_told};
ghost use Rattle.recording.specs.Pairs.{count_put, field_in, first_pairs, kind_read, named, pairs_from, time_from, time_named, time_read, with_time, wrong_field};

use packet::kinds;

// A group's settings. hold_off, restore: the number of each port.
#[derive(Clone, Copy)]
pub struct Settings {
    pub hold_off: [u32; 64],
    pub restore: [u32; 64],
    pub kind: u8,
    pub ports: u32,
    // P
    pub size: u32,
    // W
    pub window: u32,
}

// The two times of a port (2026-03).
#[derive(Clone, Copy)]
pub(crate) enum Timer {
    HoldOff,
    Restore,
}

// What the next field has to be.
#[derive(Clone, Copy)]
pub(crate) enum Awaited {
    // a pair's name
    Name,
    // a kind
    Kind,
    // the number of a port
    Time(Timer, u32),
    // a field was wrong
    Nothing,
}

// The settings as far as they are read, each pair once it is.
#[derive(Clone, Copy)]
pub(crate) struct Pairs {
    pub ports: u32,
    pub size: u32,
    pub window: u32,
    pub kind: Option<u8>,
    pub hold_off: Option<[u32; 64]>,
    pub restore: Option<[u32; 64]>,
    pub awaited: Awaited,
}

impl Pairs {
    // The settings, where no pair is left half.
    pub(crate) fn settings(self) -> Option<Settings>
        ensures { result ≡ settings_told self }
    {
        let Awaited::Name = self.awaited else {
            return None;
        };
        Some(Settings {
            hold_off: self.hold_off.unwrap_or([0; 64]),
            restore: self.restore.unwrap_or([0; 64]),
            kind: self.kind.unwrap_or(kinds::H4),
            ports: self.ports,
            size: self.size,
            window: self.window,
        })
    }
}

// No pair yet.
pub(crate) fn no_pairs(ports: u32, size: u32, window: u32) -> Pairs
    ensures { result ≡ first_pairs ports size window }
{
    Pairs {
        ports,
        size,
        window,
        kind: None,
        hold_off: None,
        restore: None,
        awaited: Awaited::Name,
    }
}

// A field that may not stand here.
fn wrong_field(pairs: Pairs) -> Pairs
    ensures { result ≡ wrong_field pairs }
{
    Pairs {
        awaited: Awaited::Nothing,
        ..pairs
    }
}

fn time_from(timer: Timer, ports: u32, i: u64) -> Awaited
    ensures { result ≡ time_from timer ports i }
{
    if i < u64::from(ports) {
        return Awaited::Time(timer, i as u32);
    }
    Awaited::Name
}

fn time_named(pairs: Pairs, timer: Timer) -> Pairs
    ensures { result ≡ time_named pairs timer }
{
    let awaited = time_from(timer, pairs.ports, 0);
    let zeros = Some([0; 64]);
    match timer {
        Timer::HoldOff => Pairs {
            hold_off: zeros,
            awaited,
            ..pairs
        },
        Timer::Restore => Pairs {
            restore: zeros,
            awaited,
            ..pairs
        },
    }
}

// A name that has not been given yet.
#[tactic(auto, unfolding(crate::specs::Pairs::named))]
fn read_name(pairs: Pairs, field: &[u8]) -> Pairs
    ensures { result ≡ named pairs field.now }
{
    if text::is_word(field, b"kind") & pairs.kind.is_none() {
        return Pairs {
            awaited: Awaited::Kind,
            ..pairs
        };
    }
    if text::is_word(field, b"hold-off") & pairs.hold_off.is_none() {
        return time_named(pairs, Timer::HoldOff);
    }
    if text::is_word(field, b"wait-to-restore") & pairs.restore.is_none() {
        return time_named(pairs, Timer::Restore);
    }
    wrong_field(pairs)
}

#[tactic(auto, unfolding(crate::specs::Pairs::kind_read))]
fn read_kind(pairs: Pairs, field: &[u8]) -> Pairs
    ensures { result ≡ kind_read pairs field.now }
{
    let kind = if text::is_word(field, b"H4") {
        kinds::H4
    } else if text::is_word(field, b"FIXED") {
        kinds::FIXED
    } else if text::is_word(field, b"VC12") {
        kinds::VC12
    } else {
        return wrong_field(pairs);
    };
    Pairs {
        kind: Some(kind),
        awaited: Awaited::Name,
        ..pairs
    }
}

// The number of a port into a list, which has 64.
fn put_count(counts: Option<[u32; 64]>, i: u32, n: u32) -> Option<[u32; 64]>
    ensures { result ≡ count_put counts i n }
{
    let mut next = counts?;
    if i < 64 {
        next[i as usize] = n;
    }
    Some(next)
}

fn with_time(pairs: Pairs, timer: Timer, i: u32, n: u32) -> Pairs
    ensures { result ≡ with_time pairs timer i n }
{
    match timer {
        Timer::HoldOff => Pairs {
            hold_off: put_count(pairs.hold_off, i, n),
            ..pairs
        },
        Timer::Restore => Pairs {
            restore: put_count(pairs.restore, i, n),
            ..pairs
        },
    }
}

#[tactic(auto, unfolding(crate::specs::Pairs::time_read))]
fn read_time(pairs: Pairs, timer: Timer, i: u32, number: Option<u32>) -> Pairs
    ensures { result ≡ time_read pairs timer i number }
{
    let Some(n) = number else {
        return wrong_field(pairs);
    };
    Pairs {
        awaited: time_from(timer, pairs.ports, u64::from(i) + 1),
        ..with_time(pairs, timer, i, n)
    }
}

#[tactic(auto, unfolding(crate::specs::Pairs::field_in))]
fn read_field(pairs: Pairs, field: &[u8]) -> Pairs
    ensures { result ≡ field_in pairs field.now }
{
    match pairs.awaited {
        Awaited::Name => read_name(pairs, field),
        Awaited::Kind => read_kind(pairs, field),
        Awaited::Time(timer, i) => read_time(pairs, timer, i, text::read_number(field, 9)),
        Awaited::Nothing => pairs,
    }
}

// The fields of the rest of a line, if there is one.
pub(crate) fn read_pairs(first: Pairs, fields: Option<&[u8]>) -> Pairs
    ensures { result ≡ pairs_from first (fields_in fields.entry) }
{
    let Some(mut rest) = fields else {
        return first;
    };
    let mut pairs = first;
    while let Some((field, behind)) = text::parted(rest) {
        pairs = read_field(pairs, field);
        rest = behind;
    }
    read_field(pairs, rest)
}
