// Changes in runs: slots next to each other, with old and new words alike and numbers that rise by one with each slot or are alike.
ghost use Rattle.std.specs.Prelude.{◌≡◌};
ghost use Rattle.spoken.specs.Runs.{continues, numbers_continue, row_continues, single};

use crate::lists::Change;
use sender::Row;

// From the first change of a run to its last. What lies between them they say.
#[derive(Clone, Copy)]
pub struct Run {
    pub first: Change,
    pub last: Change,
}

// Numbers of the slots `from` and `to`, and of the next slot: all alike, or each as far from the first as its slot.
fn numbers_continue(first: u8, last: u8, next: u8, from: u8, to: u8) -> bool
    ensures { result ≡ numbers_continue first last next from to }
{
    ((last == first) & (next == first))
        | ((u16::from(last) + u16::from(from) == u16::from(first) + u16::from(to))
            & (u16::from(next) == u16::from(last) + 1))
}

fn row_continues(first: Row, last: Row, next: Row, from: u8, to: u8) -> bool
    ensures { result ≡ row_continues first last next from to }
{
    (next.word == first.word) & numbers_continue(first.number, last.number, next.number, from, to)
}

impl Run {
    pub(crate) fn single(change: Change) -> Run
        ensures { result ≡ single change }
    {
        Run {
            first: change,
            last: change,
        }
    }

    // Whether a change is the run's next.
    pub(crate) fn continues(self, next: Change) -> bool
        ensures { result ≡ continues self next }
    {
        let (first, last) = (self.first, self.last);
        (u16::from(next.slot) == u16::from(last.slot) + 1)
            & row_continues(first.old, last.old, next.old, first.slot, last.slot)
            & row_continues(first.new, last.new, next.new, first.slot, last.slot)
    }
}
