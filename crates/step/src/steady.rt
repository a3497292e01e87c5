// The frame of H4 that comes most often: it changes a port's next tag and one nibble alone.
#![tactic(auto, unfolding(crate::specs::Steady::mid_epoch, crate::specs::Steady::steady))]

ghost use Rattle.std.specs.Prelude.{◌≡◌, ◌&&◌, ◌==◌};
ghost use Rattle.packet.specs.Counts.{h4_counts};
ghost use Rattle.step.specs.Arrival.{flag_of, in_step};
ghost use Rattle.step.specs.Steady.{mid_epoch, steady};

use crate::arrival;
use packet::{counts, kinds};
use rows::{Group, Step};

// A joined port in step. Had, failed and breaks stand as the rule writes them, so that nothing else changes. What is of the group comes first: then
// the compiler tests byte after byte of the port's row where it stands, and none is kept for later.
fn is_undisturbed(group: Group, step: Step) -> bool
    ensures { result ≡ (flag_of group.begun && step.heard == 1 && step.failed == 0 && step.breaks == 0 && in_step group step && flag_of step.joined) }
{
    arrival::is_set(group.begun)
        & (step.heard == 1)
        & (step.failed == 0)
        & (step.breaks == 0)
        & arrival::in_step(group, step)
        & arrival::is_set(step.joined)
}

// From MFI1 2 on a frame counts by its MFI1 alone.
fn is_counted(tag: u16, h4: u8) -> bool
    ensures { result ≡ h4_counts tag h4 }
{
    if 1 < tag % 16 {
        return h4 % 16 == (tag % 16) as u8;
    }
    counts::is_counted(tag, h4)
}

// Of a joined port in step, with the tag that was to come.
pub fn is_steady(group: Group, step: Step, failed: bool, h4: u8) -> bool
    ensures { result ≡ steady group step failed h4 }
{
    if failed {
        return false;
    }
    if is_undisturbed(group, step) {
        return is_counted(step.next, h4);
    }
    false
}

// In the window and not the last frame of its epoch.
pub fn is_mid_epoch(group: Group, at: u16) -> bool
    ensures { result ≡ mid_epoch group at }
{
    if kinds::ends_epoch(group.kind, at) {
        return false;
    }
    at < group.window
}
