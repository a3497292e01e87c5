// The table of slots by value.
ghost use Rattle.std.specs.Prelude.{◌≡◌, ◌≤◌, count_by, length};
ghost use Rattle.sender.specs.Table.{is_add, is_active, is_member, slot_count};

#[derive(Clone, Copy)]
pub enum State {
    Idle,
    Add,
    Active,
    Dnu,
}

#[derive(Clone, Copy)]
pub struct Slot {
    pub state: State,
    pub number: u8,
}

// wait: a wait is open. remembered: the RS-Ack that is remembered. kind: the kind of packet.
#[derive(Clone, Copy)]
pub struct Table {
    pub slots: [Slot; 64],
    pub count: u8,
    pub wait: bool,
    pub remembered: u8,
    pub kind: u8,
}

pub fn is_member(state: State) -> bool
    ensures { result ≡ is_member state }
{
    !matches!(state, State::Idle)
}

pub(crate) fn is_add(state: State) -> bool
    ensures { result ≡ is_add state }
{
    matches!(state, State::Add)
}

pub(crate) fn is_active(state: State) -> bool
    ensures { result ≡ is_active state }
{
    matches!(state, State::Active)
}

// How many slots there are: a count above 64, which no call returns, is taken as 64.
pub(crate) fn size(count: u8) -> usize
    ensures value { result ≡ slot_count count }
    ensures within { result ≤ 64 }
{
    ground::size_of(count)
}

// How many slots are not IDLE.
pub(crate) fn members(slots: &[Slot]) -> u8
    requires { length slots.now ≤ 64 }
    ensures { result ≡ count_by (λ s. is_member s.state) slots.now }
{
    slots.iter().filter(|slot| is_member(slot.state)).count() as u8
}
