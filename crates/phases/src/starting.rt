// When receiving begins (01, 'Beginning').
ghost use Rattle.std.specs.Prelude.{◌≡◌, ◌&&◌, ◌||◌, ◌/◌, ◌==◌};
ghost use Rattle.ground.specs.Plain.{◌<?◌};
ghost use Rattle.ground.specs.Counting.Words.{every};
ghost use Rattle.packet.specs.Kinds.{distance_of, tags};
ghost use Rattle.rows.specs.Step.{step_at};
ghost use Rattle.step.specs.Arrival.{in_step};
ghost use Rattle.phases.specs.Beginning.{begins, foremost, further, latest, no_tag, ready, in_arc};

use crate::flags::is_set;
use packet::kinds;
use rows::{Group, Step};

fn is_ready(group: Group, step: Step) -> bool
    ensures { result ≡ ready group step }
{
    let in_step = step::in_step(group, step);
    is_set(step.heard) & (in_step | is_set(step.failed))
}

pub fn latest(group: Group, step: Step) -> u16
    ensures { result ≡ latest group step }
{
    kinds::previous_tag(group.kind, step.next)
}

// What stands for no tag.
fn no_tag(group: Group) -> u16
    ensures { result ≡ no_tag group }
{
    kinds::tag_count(group.kind)
}

fn leads(group: Group, fore: u16, step: Step) -> bool
    ensures { result ≡ (in_step group step && (fore == no_tag group || distance_of group.kind (latest group step) fore <? tags group.kind / 2)) }
{
    let in_step = step::in_step(group, step);
    let tag = latest(group, step);
    let none = no_tag(group);
    let distance = kinds::distance(group.kind, tag, fore);
    in_step & ((fore == none) | (distance < none / 2))
}

fn further(group: Group, fore: u16, step: Step) -> u16
    ensures { result ≡ further group fore step }
{
    if leads(group, fore, step) {
        return latest(group, step);
    }
    fore
}

pub fn foremost(group: Group, state: &[[u8; 16]], ports: u8) -> u16
    ensures { result ≡ foremost group state.now ports }
{
    let mut fore = no_tag(group);
    for i in 0..ports {
        fore = further(group, fore, rows::step::get(state, i));
    }
    fore
}

fn is_in_arc(group: Group, fore: u16, step: Step) -> bool
    ensures { result ≡ in_arc group fore step }
{
    let in_step = step::in_step(group, step);
    let tag = latest(group, step);
    let distance = kinds::distance(group.kind, fore, tag);
    let frames = kinds::epoch_frames(group.kind);
    !in_step | (distance as u32 + frames as u32 <= group.window as u32)
}

// Ends at the first port that is not ready.
fn all_ready(group: Group, state: &[[u8; 16]], ports: u8) -> bool
    ensures { result ≡ every ports (λ i. ready group (step_at state.now i)) }
{
    (0..ports).all(|i| is_ready(group, rows::step::get(state, i)))
}

fn all_in_arc(group: Group, fore: u16, state: &[[u8; 16]], ports: u8) -> bool
    ensures { result ≡ every ports (λ i. in_arc group fore (step_at state.now i)) }
{
    (0..ports).all(|i| is_in_arc(group, fore, rows::step::get(state, i)))
}

pub(crate) fn is_begun_by(group: Group, state: &[[u8; 16]], ports: u8) -> bool
    ensures { result ≡ begins group state.now ports }
{
    if !all_ready(group, state, ports) {
        return false;
    }
    let fore = foremost(group, state, ports);
    let within = all_in_arc(group, fore, state, ports);
    (fore != no_tag(group)) & within
}
