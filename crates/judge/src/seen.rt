// What is seen of a port: the packet that rules it, and whether its frames stand in the store. And the ports of a group.
ghost use Rattle.std.specs.Prelude.{◌≡◌, ◌≤◌, List, length, take};
ghost use Rattle.judge.specs.declared.seen.Seen.{Seen};
ghost use Rattle.judge.specs.Seen.{active_seen, eos_seen, lacking_seen, numbered_seen, refused_seen, size_of, unidle_seen};

use packet::Word;
use std::marker::Model;

#[derive(Clone, Copy)]
pub struct Seen {
    // whether a ruling packet arrived whole, and whether it was read with 0
    pub whole: bool,
    pub good: bool,
    // of a good one
    pub word: u8,
    pub number: u8,
    pub gid: u8,
    // whether the epoch's frames of this port stand in the store
    pub here: bool,
}

impl Seen {
    pub(crate) fn is_refused(self) -> bool
        ensures { result ≡ refused_seen self }
    {
        self.whole & !self.good
    }

    pub(crate) fn is_active(self) -> bool
        ensures { result ≡ active_seen self }
    {
        self.whole
            & self.good
            & ((self.word == Word::NORM.0)
                | (self.word == Word::EOS.0)
                | (self.word == Word::FIXED.0))
    }

    pub(crate) fn is_numbered(self) -> bool
        ensures { result ≡ numbered_seen self }
    {
        self.whole
            & self.good
            & ((self.word == Word::NORM.0)
                | (self.word == Word::EOS.0)
                | (self.word == Word::FIXED.0)
                | (self.word == Word::DNU.0))
    }

    pub(crate) fn is_eos(self) -> bool
        ensures { result ≡ eos_seen self }
    {
        self.whole & self.good & (self.word == Word::EOS.0)
    }

    pub(crate) fn is_unidle(self) -> bool
        ensures { result ≡ unidle_seen self }
    {
        self.whole & self.good & (self.word != Word::IDLE.0)
    }

    pub(crate) fn is_lacking(self) -> bool
        ensures { result ≡ lacking_seen self }
    {
        self.is_active() & !self.here
    }
}

// The ports of a group. In a clause they are a list.
#[derive(Drop)]
pub(crate) struct Ports<'a> {
    pub(crate) seen: &'a [Seen],
}

impl<'a> Model for Ports<'a> {
    ghost Value = { List Seen };

    ghost view = { λ ports. ports.seen.now };

    ghost invariant = { λ ports. length ports.seen.now ≤ 64 };
}

impl<'a> Ports<'a> {
    // The first ports of a table.
    pub(crate) fn of(table: &'a [Seen; 64], count: u8) -> Ports<'a>
        ensures first { result ≡ take (size_of count) table.now }
        ensures many { length result ≡ size_of count }
    {
        Ports {
            seen: &table[..ground::size_of(count)],
        }
    }

    // The first i of them.
    pub(crate) fn below(&self, i: usize) -> Ports<'a>
        requires { i ≤ length self.now }
        ensures first { result ≡ take i self.now }
        ensures many { length result ≡ i }
    {
        Ports {
            seen: &self.seen[..i],
        }
    }
}
