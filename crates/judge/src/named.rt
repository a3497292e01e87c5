// Marks and causes by name.
ghost use Rattle.std.specs.Prelude.{◌≡◌};
ghost use Rattle.judge.specs.Named.{by_number, cause_number, decided_number, mark_number};

#[derive(Clone, Copy, PartialEq, Eq)]
pub enum Mark {
    Held,
    Doubtful,
    Sure,
}

impl Mark {
    // In a report, where 0 says that none is due.
    pub fn number(self) -> u8
        ensures { result ≡ mark_number self }
    {
        match self {
            Mark::Held => 1,
            Mark::Doubtful => 2,
            Mark::Sure => 3,
        }
    }
}

// The clauses that hold an epoch or leave it doubtful, in 01's order.
#[derive(Clone, Copy, PartialEq, Eq)]
pub(crate) enum Cause {
    Refused,
    Lacking,
    Repeated,
    Gid,
    Eos,
    Unseen,
    Numbers,
}

impl Cause {
    pub(crate) fn number(self) -> u8
        ensures { result ≡ cause_number self }
    {
        match self {
            Cause::Refused => 1,
            Cause::Lacking => 2,
            Cause::Repeated => 3,
            Cause::Gid => 4,
            Cause::Eos => 5,
            Cause::Unseen => 6,
            Cause::Numbers => 7,
        }
    }

    pub(crate) fn by_number(number: u8) -> Option<Cause>
        ensures { result ≡ by_number number }
    {
        match number {
            1 => Some(Cause::Refused),
            2 => Some(Cause::Lacking),
            3 => Some(Cause::Repeated),
            4 => Some(Cause::Gid),
            5 => Some(Cause::Eos),
            6 => Some(Cause::Unseen),
            7 => Some(Cause::Numbers),
            _ => None,
        }
    }
}

// 0 says that none decided.
pub(crate) fn decided_number(cause: Option<Cause>) -> u8
    ensures { result ≡ decided_number cause }
{
    match cause {
        Some(cause) => cause.number(),
        None => 0,
    }
}
