// When an epoch is due, and when no port is readable any more.
ghost use Rattle.std.specs.Prelude.{◌≡◌};
ghost use Rattle.rows.specs.Packets.{marks_at};
ghost use Rattle.rows.specs.Step.{step_at};
ghost use Rattle.phases.specs.Due.{brought, owes_nothing, silent};

use crate::flags::is_set;
use rows::{Group, Step, packets};
use store::marks;

fn owes_nothing(group: Group, step: Step, row: [u8; 16]) -> bool
    ensures { result ≡ owes_nothing group step row }
{
    !step::is_readable(group, step)
        | marks::first(row)
        | (is_set(step.joined) & is_set(step.joined_at))
}

fn port_owes_nothing(group: Group, state: &[[u8; 16]], port: u8) -> bool
    ensures { result ≡ owes_nothing group (step_at state.now port) (marks_at state.now port) }
{
    let step = rows::step::get(state, port);
    let row = packets::marks(state, port);
    owes_nothing(group, step, row)
}

// Whether the oldest epoch lies whole in the store, as far as readable ports have joined. Ends at the first port that still owes a frame.
pub fn is_complete(group: Group, state: &[[u8; 16]], ports: u8) -> bool
    ensures { result ≡ brought group state.now ports }
{
    (0..ports).all(|i| port_owes_nothing(group, state, i))
}

pub(crate) fn is_silent(group: Group, state: &[[u8; 16]], ports: u8) -> bool
    ensures { result ≡ silent group state.now ports }
{
    (0..ports).all(|i| !step::is_readable(group, rows::step::get(state, i)))
}
