// A list of changes by value, and what the calls of this crate refuse.
ghost use Rattle.std.specs.Prelude.{◌≡◌, ◌+◌, ◌<◌, set, take};
ghost use Rattle.spoken.specs.Answers.{refusal_number};
ghost use Rattle.spoken.specs.Changes.{no_change};
ghost use Rattle.spoken.specs.Laws.Answers.{refusal_above};

use packet::Word;
use sender::Row;

// A slot, what it showed before and what it shows now.
#[derive(Clone, Copy)]
pub struct Change {
    pub slot: u8,
    pub old: Row,
    pub new: Row,
}

#[derive(Clone, Copy, PartialEq, Eq)]
pub enum WaitChange {
    Same,
    Opened,
    Closed,
}

// The first count of the list are changes. What stands behind them is not looked at.
#[derive(Clone, Copy)]
pub struct Changes {
    pub list: [Change; 64],
    pub count: u8,
    pub wait: WaitChange,
}

impl Change {
    pub(crate) fn none() -> Change
        ensures { result ≡ no_change }
    {
        let row = Row {
            word: Word(0),
            number: 0,
        };
        Change {
            slot: 0,
            old: row,
            new: row,
        }
    }
}

impl Changes {
    // Any count is taken: above 64 all of the list are changes.
    pub(crate) fn as_slice(&self) -> &[Change]
        ensures { result.now ≡ take self.now.count self.now.list }
    {
        &self.list[..usize::from(self.count).min(self.list.len())]
    }

    pub(crate) fn push(&mut self, change: Change)
        requires { self.old.count < 64 }
        ensures { self.new ≡ record self.old { list = set self.old.list self.old.count change; count = self.old.count + 1 } }
    {
        self.list[usize::from(self.count)] = change;
        self.count += 1;
    }
}

#[derive(Clone, Copy, PartialEq, Eq)]
pub enum Refusal {
    // Changes that fit no board or not this one, or a word with no name.
    Unfit,
    // Boards of different counts, or of more than 64 slots.
    Counts,
    // A buffer below SPEECH_ROOM.
    Length,
}

impl ground::Refusal for Refusal {
    ghost number_of = { refusal_number };

    ghost is_no_zero = { refusal_above };

    fn number(self) -> u8 {
        match self {
            Refusal::Unfit => 2,
            Refusal::Counts => 4,
            Refusal::Length => 9,
        }
    }
}
