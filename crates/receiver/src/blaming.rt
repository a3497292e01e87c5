// Why the oldest epoch not yet reported would be held or doubtful, and the port: read before a fetch.
#![tactic(auto, unfolding(crate::specs::Cause::cause_in, crate::specs::Cause::cause_fit, crate::specs::Cause::cause_answer, crate::specs::Cause::cause_out))]

ghost use Rattle.std.specs.Prelude.{◌≡◌, length};
ghost use Rattle.receiver.specs.Cause.{cause_answer, cause_in, cause_out};

use crate::{lengths, report};
use rows::Group;
use step::answers;

fn cause_of(group: Group, state: &[[u8; 16]], ports: u8) -> [u8; 2]
    ensures { result ≡ cause_in group state.now ports }
{
    let table = packet::share_table();
    let seen = report::seen_all(&table, group, state, ports);
    let cause = judge::cause(group.kind, seen, ports);
    let port = judge::blamed(seen, ports, cause);
    [cause, port]
}

// Two bytes: the cause, and the lowest port to which its clause applies, 255 none.
pub fn cause(state: &[[u8; 16]], out: &mut [u8]) -> u8
    ensures { (result ≡ cause_answer state.now (length out.old))
        × (out.new ≡ cause_out state.now out.old) }
{
    let group = rows::group::get(state);
    let ports = phases::ports_in(group);
    if !lengths::is_lent(ports, state.len(), out.len(), 2) {
        return answers::LENGTH;
    }
    out.copy_from_slice(&cause_of(group, state, ports));
    answers::DONE
}
