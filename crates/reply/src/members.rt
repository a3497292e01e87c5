// A port as its member state is worked out.
ghost use Rattle.std.specs.Prelude.{◌≡◌, ◌≤◌, length, take};
ghost use Rattle.reply.specs.Members.{has_hold_off, is_candidate, is_idle, is_restoring, size_of, was_ok};

use packet::Word;

#[derive(Clone, Copy)]
pub struct Port {
    // the word and number of the last good packet; the word is 255 where there was none
    pub word: u8,
    pub number: u8,
    // the state of the last report, and the number under which the port had it
    pub state: u8,
    pub state_number: u8,
    // the word and number of the last good packet at the last report
    pub told_word: u8,
    pub told_number: u8,
    pub readable: bool,
    // hold-off and wait-to-restore, in reports
    pub hold_off: u16,
    pub restore: u16,
    // at how many reports the timer has run: hold-off in OK, restoring in FAIL
    pub elapsed: u16,
}

impl Port {
    // The word of a port with no good packet yet.
    pub const NO_WORD: u8 = 255;

    pub const IDLE: u8 = 0;

    pub const FAIL: u8 = 1;

    pub const OK: u8 = 2;

    pub(crate) fn is_idle(self) -> bool
        ensures { result ≡ is_idle self }
    {
        self.word == Port::NO_WORD || self.word == Word::IDLE.0
    }

    pub(crate) fn is_candidate(self) -> bool
        ensures { result ≡ is_candidate self }
    {
        !self.is_idle() && self.readable && self.number < 64
    }

    pub(crate) fn was_ok(self) -> bool
        ensures { result ≡ was_ok self }
    {
        self.state == Port::OK && self.state_number == self.number
    }

    // A FAIL port whose claim has not stood long enough.
    pub(crate) fn is_restoring(self) -> bool
        ensures { result ≡ is_restoring self }
    {
        self.state == Port::FAIL && self.elapsed < self.restore
    }

    // An OK port that can lose its claim and not go FAIL yet.
    pub(crate) fn has_hold_off(self) -> bool
        ensures { result ≡ has_hold_off self }
    {
        self.state == Port::OK
            && self.elapsed < self.hold_off
            && self.state_number < 64
            && !self.is_idle()
    }
}

// A group's ports: so many of a table, its first.
#[derive(Clone, Copy)]
pub(crate) struct Ports<'a> {
    pub(crate) table: &'a [Port; 64],
    pub(crate) count: usize,
    ghost is_within: { count ≤ 64 },
}

impl<'a> Ports<'a> {
    pub(crate) fn of(table: &'a [Port; 64], count: u8) -> Ports<'a>
        ensures { (result.table.now ≡ table.now) × (result.count ≡ size_of count) }
    {
        Ports {
            table,
            count: ground::size_of(count),
        }
    }

    pub(crate) fn all(&self) -> &'a [Port]
        ensures first { result.now ≡ take self.now.count self.now.table.now }
        ensures many { length result.now ≡ self.now.count }
        ensures room { self.now.count ≤ length self.now.table.now }
    {
        let table = self.table;
        &table[..self.count]
    }
}
