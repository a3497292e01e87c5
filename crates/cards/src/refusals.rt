// What a card's calls refuse with: what a sender's do, then 14 and 15 (02, 2026-06).
ghost use Rattle.std.specs.Prelude.{◌≡◌};
ghost use Rattle.cards.specs.Answers.{from_refusal, group_answer, only_told, refusal_number};
ghost use Rattle.std.proofs.Common.{rules};

#[derive(Clone, Copy, PartialEq, Eq)]
pub enum Refusal {
    NoSlot,
    NotAllowed,
    WaitOpen,
    OutOfRange,
    Field,
    Length,
    Owned,
    Used,
}

impl ground::Refusal for Refusal {
    ghost number_of = { refusal_number };

    fn number(self) -> u8 {
        match self {
            Refusal::NoSlot => 1,
            Refusal::NotAllowed => 2,
            Refusal::WaitOpen => 3,
            Refusal::OutOfRange => 4,
            Refusal::Field => 8,
            Refusal::Length => 9,
            Refusal::Owned => 14,
            Refusal::Used => 15,
        }
    }

    ghost is_no_zero = { Prim.search rules };
}

impl From<sender::Refusal> for Refusal {
    ghost from_gives = { λ e r. r ≡ from_refusal e };

    fn from(refusal: sender::Refusal) -> Refusal {
        match refusal {
            sender::Refusal::NoSlot => Refusal::NoSlot,
            sender::Refusal::NotAllowed => Refusal::NotAllowed,
            sender::Refusal::WaitOpen => Refusal::WaitOpen,
            sender::Refusal::OutOfRange => Refusal::OutOfRange,
            sender::Refusal::Field => Refusal::Field,
            sender::Refusal::Length => Refusal::Length,
        }
    }
}

// 'a group other than the two is 1'
pub(crate) fn check_group(group: u32) -> Result<(), Refusal>
    ensures { result ≡ only_told (group_answer group) }
{
    if group < 2 {
        Ok(())
    } else {
        Err(Refusal::NoSlot)
    }
}
