// How far each port lies behind the foremost.
#![tactic(auto, unfolding(crate::specs::Behind::behind_by, crate::specs::Behind::behind_in, crate::specs::Behind::behind_answer, crate::specs::Behind::behind_out, crate::specs::Shown::shown_fit))]

ghost use Rattle.std.specs.Prelude.{◌≡◌, length};
ghost use Rattle.receiver.specs.Behind.{behind_answer, behind_by, behind_out};
ghost use Rattle.rows.specs.Step.{step_at};

use crate::{each, lengths};
use packet::kinds;
use rows::{Group, Step};
use step::answers;

// What stands for a port that is not in step.
const NO_STEP: u32 = 65535;

fn behind_by(group: Group, fore: u16, step: Step) -> u32
    ensures { result ≡ behind_by group fore step }
{
    if step::in_step(group, step) {
        let tag = phases::latest(group, step);
        return kinds::distance(group.kind, fore, tag) as u32;
    }
    NO_STEP
}

fn behind_at(group: Group, fore: u16, state: &[[u8; 16]], port: u8) -> u32
    ensures { result ≡ behind_by group fore (step_at state.now port) }
{
    behind_by(group, fore, rows::step::get(state, port))
}

// A number for each port.
pub fn behind(state: &[[u8; 16]], out: &mut [u32]) -> u8
    ensures { (result ≡ behind_answer state.now (length out.old))
        × (out.new ≡ behind_out state.now out.old) }
{
    let group = rows::group::get(state);
    let count = phases::ports_in(group);
    if !lengths::is_lent(count, state.len(), out.len(), count as usize) {
        return answers::LENGTH;
    }
    let fore = phases::foremost(group, state, count);
    each::put_each(count, out, |port| behind_at(group, fore, state, port));
    answers::DONE
}
