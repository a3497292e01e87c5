// What a frame does (01, 'Beginning', 'Window'), decided on the group's and the port's records.
#![tactic(auto, unfolding(crate::specs::Arrival::in_step, crate::specs::Arrival::readable, crate::specs::Arrival::distance_in, crate::specs::Arrival::flagged, crate::specs::Arrival::counts_on, crate::specs::Arrival::frame_dropped, crate::specs::Arrival::outside, crate::specs::Arrival::keeps, crate::specs::Arrival::joining, crate::specs::Arrival::by_window, crate::specs::Arrival::by_start, crate::specs::Arrival::arrives, crate::specs::Arrival::taken_of))]

ghost use Rattle.std.specs.declared.option.Option.TheVariants.{None};
ghost use Rattle.std.specs.Prelude.{◌≡◌, false};
ghost use Rattle.step.specs.Arrival.{arrives, frame_dropped, by_start, by_window, counts_on, distance_in, flagged, in_step, joining, keeps, outside, readable, settles_at, step_to, taken_of};

use crate::run::Run;
use crate::{answers, run};
pub(crate) use ground::is_set;
use packet::kinds;
use rows::{Group, Step};

#[derive(Clone, Copy)]
pub struct Taken {
    // the port's step afterwards
    pub step: Step,
    pub answer: u8,
    // whether the frame's nibble goes into the packet being gathered
    pub counted: bool,
    // how far the frame lies after the window's first, where it is stored
    pub kept: Option<u16>,
    // whether the port joins with this frame, at the epoch step.joined_at
    pub joins: bool,
    // whether something follows for all ports: stopping, beginning or gathering
    pub settles: bool,
}

pub fn in_step(group: Group, step: Step) -> bool
    ensures { result ≡ in_step group step }
{
    run::is_step(group.kind, step.count)
}

pub fn is_readable(group: Group, step: Step) -> bool
    ensures { result ≡ readable group step }
{
    is_set(group.begun) & in_step(group, step) & (is_set(step.joined) | is_set(step.ever_since))
}

// How far a tag lies after the window's first.
pub fn distance_in(group: Group, tag: u16) -> u16
    ensures { result ≡ distance_in group tag }
{
    let first = kinds::first_tag(group.kind, group.oldest);
    kinds::distance(group.kind, tag, first)
}

fn step_to(step: Step, failed: u8, run: Run, joined: u8, since: u8, later: u8) -> Step
    ensures { result ≡ step_to step failed run joined since later }
{
    Step {
        heard: 1,
        failed,
        count: run.count,
        next: run.next,
        joined,
        ever_since: since,
        joined_at: later,
        breaks: run.breaks,
        odd: run.odd,
        bits: run.bits,
        ..step
    }
}

fn settles_at(group: Group, before: Step, now: Step) -> bool
    ensures { result ≡ settles_at group before now }
{
    !is_set(group.begun) | in_step(group, before) & !in_step(group, now)
}

// A frame that counts for nothing, is not stored and lets nothing follow.
fn nothing_kept(step: Step, answer: u8) -> Taken
    ensures { result ≡ (record { step = step; answer = answer; counted = false; kept = None; joins = false; settles = false }) }
{
    Taken {
        step,
        answer,
        counted: false,
        kept: None,
        joins: false,
        settles: false,
    }
}

fn flagged(group: Group, step: Step) -> Taken
    ensures { result ≡ flagged group step }
{
    let run = Run {
        bits: step.bits,
        ..run::NO_RUN
    };
    let now = step_to(step, 1, run, 0, 0, 0);
    Taken {
        settles: settles_at(group, step, now),
        ..nothing_kept(now, answers::FLAGGED)
    }
}

fn counts_on(group: Group, step: Step, run: Run) -> Taken
    ensures { result ≡ counts_on group step run }
{
    let now = step_to(step, 0, run, 0, 0, 0);
    Taken {
        counted: run.count != 0,
        settles: settles_at(group, step, now),
        ..nothing_kept(now, answers::NOT_IN_STEP)
    }
}

fn frame_dropped(group: Group, step: Step, run: Run) -> Taken
    ensures { result ≡ frame_dropped group step run }
{
    let now = step_to(step, 0, run, step.joined, step.ever_since, step.joined_at);
    Taken {
        counted: true,
        settles: !is_set(group.begun),
        ..nothing_kept(now, answers::DONE)
    }
}

fn outside(step: Step) -> Taken
    ensures { result ≡ outside step }
{
    nothing_kept(step, answers::OUTSIDE)
}

fn keeps(group: Group, step: Step, run: Run, at: u16) -> Taken
    ensures { result ≡ keeps group step run at }
{
    let now = step_to(step, 0, run, step.joined, step.ever_since, step.joined_at);
    Taken {
        counted: true,
        kept: Some(at),
        settles: !is_set(group.gathered)
            & kinds::ends_epoch(group.kind, at)
            & (kinds::epochs_in(group.kind, at) == 0),
        ..nothing_kept(now, answers::DONE)
    }
}

fn joining(group: Group, step: Step, run: Run, at: u16) -> Taken
    ensures { result ≡ joining group step run at }
{
    let later = kinds::epochs_in(group.kind, at);
    let now = step_to(step, 0, run, 1, step.ever_since, later);
    Taken {
        counted: true,
        kept: Some(at),
        joins: true,
        ..nothing_kept(now, answers::DONE)
    }
}

// A frame in step of a joined port.
fn by_window(group: Group, step: Step, run: Run, at: u16) -> Taken
    ensures { result ≡ by_window group step run at }
{
    if at < group.window {
        keeps(group, step, run, at)
    } else {
        outside(step)
    }
}

// A frame in step of a port that has not joined.
fn by_start(group: Group, step: Step, run: Run, at: u16) -> Taken
    ensures { result ≡ by_start group step run at }
{
    let starts = kinds::starts_epoch(group.kind, step.next);
    if starts & (at < group.window) {
        joining(group, step, run, at)
    } else {
        frame_dropped(group, step, run)
    }
}

fn arrives(group: Group, step: Step, run: Run) -> Taken
    ensures { result ≡ arrives group step run }
{
    if !is_set(group.begun) {
        return frame_dropped(group, step, run);
    }
    let at = distance_in(group, step.next);
    if is_set(step.joined) {
        return by_window(group, step, run, at);
    }
    by_start(group, step, run, at)
}

// What a frame does: flagged, or with its H4 byte, by which it ends an odd packet or not.
pub fn decide(group: Group, step: Step, failed: bool, odd: bool, h4: u8) -> Taken
    ensures { result ≡ taken_of group step failed odd h4 }
{
    if failed {
        return flagged(group, step);
    }
    let run = run::run_on(group.kind, Run::from(step), odd, h4);
    if run::is_step(group.kind, run.count) {
        return arrives(group, step, run);
    }
    counts_on(group, step, run)
}
