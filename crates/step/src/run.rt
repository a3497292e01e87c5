// The step rule (01, 'Step'; request 2026-04): frames that count rightly in a row, from one with MFI1 0 on, and in step the receiver's own count.
#![tactic(auto, unfolding(crate::specs::Run::in_step_at, crate::specs::Run::begun_run, crate::specs::Run::second_run, crate::specs::Run::further_run, crate::specs::Run::gained_run, crate::specs::Run::ends_packet, crate::specs::Run::breaks_after, crate::specs::Run::odd_after, crate::specs::Run::loses, crate::specs::Run::stayed_run, crate::specs::Run::h4_run_on, crate::specs::Run::run_on))]

ghost use Rattle.std.specs.Prelude.{◌≡◌, false, ◌<◌};
ghost use Rattle.step.specs.Arrival.{run_of};
ghost use Rattle.step.specs.Run.{begun_run, breaks_after, ends_packet, further_run, gained_run, h4_run_on, in_step_at, loses, odd_after, run_on, second_run, stayed_run};

use crate::starts;
use packet::{counts, kinds};
use rows::Step;

#[derive(Clone, Copy)]
pub struct Run {
    // how many frames, up to the number that makes a step
    pub count: u8,
    // the tag that the next one should have
    pub next: u16,
    // in step: how many in a row, up to the latest, broke the count
    pub breaks: u8,
    // and not 0 where the latest packet had a right CRC and another MFI2
    pub odd: u8,
    // of VC-12: what the bits of the latest packet's count say, as far as they have come
    pub bits: u8,
}

impl From<Step> for Run {
    fn from(step: Step) -> Run
        ensures { result ≡ run_of step }
    {
        Run {
            count: step.count,
            next: step.next,
            breaks: step.breaks,
            odd: step.odd,
            bits: step.bits,
        }
    }
}

// No frame counts.
pub(crate) const NO_RUN: Run = Run {
    count: 0,
    next: 0,
    breaks: 0,
    odd: 0,
    bits: 0,
};

// How many frames in a row bring a port into step: two multiframes.
pub(crate) fn is_step(kind: u8, count: u8) -> bool
    ensures { result ≡ in_step_at kind count }
{
    kinds::epoch_frames(kind) as u16 * 2 <= count as u16
}

// A frame as the first of a new run, if it can be.
pub(crate) fn begun_run(kind: u8, h4: u8) -> Run
    ensures { result ≡ begun_run kind h4 }
{
    if counts::starts_count(kind, h4) {
        return Run {
            count: 1,
            next: counts::tag_by_high(kind, h4),
            ..NO_RUN
        };
    }
    NO_RUN
}

fn second(kind: u8, run: Run, h4: u8) -> Run
    ensures { result ≡ second_run kind run h4 }
{
    if counts::carries_low(kind, h4) {
        return Run {
            count: 2,
            next: counts::tag_by_low(kind, run.next, h4),
            ..NO_RUN
        };
    }
    begun_run(kind, h4)
}

fn further(kind: u8, run: Run, h4: u8) -> Run
    requires { in_step_at kind run.count ≡ false }
    ensures { result ≡ further_run kind run h4 }
{
    if counts::is_counted(run.next, h4) {
        return Run {
            count: run.count + 1,
            next: kinds::next_tag(kind, run.next),
            ..NO_RUN
        };
    }
    begun_run(kind, h4)
}

// Coming into step.
fn gains(kind: u8, run: Run, h4: u8) -> Run
    requires { in_step_at kind run.count ≡ false }
    ensures { result ≡ gained_run kind run h4 }
{
    match run.count {
        0 => begun_run(kind, h4),
        1 => second(kind, run, h4),
        _ => further(kind, run, h4),
    }
}

// The last frame of an epoch ends its packet.
pub(crate) fn ends_packet(kind: u8, tag: u16) -> bool
    ensures { result ≡ ends_packet kind tag }
{
    let place = kinds::place_of(kind, tag);
    kinds::ends_epoch(kind, place as u16)
}

fn breaks_after(counted: bool, breaks: u8) -> u8
    requires { counted ≡ false → breaks < 3 }
    ensures { result ≡ breaks_after counted breaks }
{
    if counted {
        return 0;
    }
    breaks + 1
}

fn odd_after(kind: u8, run: Run, odd: bool) -> u8
    ensures { result ≡ odd_after kind run odd }
{
    if ends_packet(kind, run.next) {
        return u8::from(odd);
    }
    run.odd
}

// The fourth frame in a row that breaks the count, or the end of a second odd packet in a row.
fn is_lost(counted: bool, run: Run, odd: bool) -> bool
    ensures { result ≡ loses counted run odd }
{
    !counted & (3 <= run.breaks) | odd & (run.odd != 0)
}

// In step.
fn stays(kind: u8, run: Run, odd: bool, h4: u8) -> Run
    ensures { result ≡ stayed_run kind run odd h4 }
{
    let counted = counts::is_counted(run.next, h4);
    if is_lost(counted, run, odd) {
        return begun_run(kind, h4);
    }
    Run {
        next: kinds::next_tag(kind, run.next),
        breaks: breaks_after(counted, run.breaks),
        odd: odd_after(kind, run, odd),
        ..run
    }
}

// A frame of H4 more, which ends an odd packet or not.
fn h4_run_on(kind: u8, run: Run, odd: bool, h4: u8) -> Run
    ensures { result ≡ h4_run_on kind run odd h4 }
{
    if is_step(kind, run.count) {
        return stays(kind, run, odd, h4);
    }
    gains(kind, run, h4)
}

// A frame more.
pub(crate) fn run_on(kind: u8, run: Run, odd: bool, h4: u8) -> Run
    ensures { result ≡ run_on kind run odd h4 }
{
    if kind == kinds::VC12 {
        return starts::starts_run(run, h4);
    }
    Run {
        bits: run.bits,
        ..h4_run_on(kind, run, odd, h4)
    }
}
