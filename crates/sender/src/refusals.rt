// What the sender's calls refuse with (01, 'Answer numbers').
ghost use Rattle.std.specs.Prelude.{◌≡◌};
ghost use Rattle.sender.specs.Answers.{refusal_number, unwritten_as};
ghost use Rattle.std.proofs.Common.{rules};

use packet::Unwritten;

#[derive(Clone, Copy, PartialEq, Eq)]
pub enum Refusal {
    NoSlot,
    NotAllowed,
    WaitOpen,
    OutOfRange,
    Field,
    Length,
}

impl ground::Refusal for Refusal {
    ghost number_of = { refusal_number };

    fn number(self) -> u8 {
        match self {
            Refusal::NoSlot => 1,
            Refusal::NotAllowed => 2,
            Refusal::WaitOpen => 3,
            Refusal::OutOfRange => 4,
            Refusal::Field => 8,
            Refusal::Length => 9,
        }
    }

    ghost is_no_zero = { Prim.search rules };
}

impl From<Unwritten> for Refusal {
    ghost from_gives = { λ e r. r ≡ unwritten_as e };

    fn from(unwritten: Unwritten) -> Refusal {
        match unwritten {
            Unwritten::Length => Refusal::Length,
            Unwritten::Field => Refusal::Field,
        }
    }
}
