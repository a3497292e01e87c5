// 'the slot that holds that number is found, if there is one' (01, 'The sender's table').
ghost use Rattle.std.specs.Prelude.{◌≡◌, position};
ghost use Rattle.sender.specs.Table.{holds};

use crate::table;
use crate::table::Slot;

fn is_holder(slot: Slot, number: u8) -> bool
    ensures { result ≡ holds slot number }
{
    table::is_member(slot.state) && slot.number == number
}

pub(crate) fn find(slots: &[Slot], number: u8) -> Option<usize>
    ensures { result ≡ position (λ s. holds s number) slots.now }
{
    slots.iter().position(|slot| is_holder(*slot, number))
}
