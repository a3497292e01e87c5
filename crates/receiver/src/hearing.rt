// The way back: what the far end says in the epoch just reported.
#![tactic(auto, unfolding(crate::specs::Heard::said_at, crate::specs::Heard::heard_fit, crate::specs::Heard::heard_answer, crate::specs::Heard::heard_out))]

ghost use Rattle.std.specs.Prelude.{◌≡◌, length};
ghost use Rattle.packet.specs.Shares.{shares_of};
ghost use Rattle.receiver.specs.Heard.{heard_answer, heard_of, heard_out, said_at};

use crate::{lengths, report, seeing};
use rows::Group;
use step::answers;

fn said_at(group: Group, state: &[[u8; 16]], port: u8) -> [u8; 4]
    ensures { result ≡ said_at group state.now port }
{
    let carried = seeing::carried_at(group, state, port);
    [1, carried.epoch, carried.mst, carried.rs_ack]
}

// Ends at the lowest port whose packet is whole and good.
fn heard_of(table: &[[u8; 256]; 7], group: Group, state: &[[u8; 16]], ports: u8) -> [u8; 4]
    requires { table.now ≡ shares_of }
    ensures { result ≡ heard_of group state.now ports }
{
    for port in 0..ports {
        let one = report::seen_of(table, group, state, port);
        if one.whole & one.good {
            return said_at(group, state, port);
        }
    }
    [0, 0, 0, 0]
}

// Four bytes: 1, epoch, MST and RS-Ack; or four zeros.
pub fn heard(state: &[[u8; 16]], out: &mut [u8]) -> u8
    ensures { (result ≡ heard_answer state.now (length out.old))
        × (out.new ≡ heard_out state.now out.old) }
{
    let group = rows::group::get(state);
    let ports = phases::ports_in(group);
    if !lengths::is_lent(ports, state.len(), out.len(), 4) {
        return answers::LENGTH;
    }
    let table = packet::share_table();
    out.copy_from_slice(&heard_of(&table, group, state, ports));
    answers::DONE
}
