// What a receiver was started with.
#![tactic(auto, unfolding(crate::specs::Settings::settings_of, crate::specs::Settings::settings_fit, crate::specs::Settings::settings_answer, crate::specs::Settings::settings_out))]

ghost use Rattle.std.specs.Prelude.{◌≡◌, length};
ghost use Rattle.receiver.specs.Settings.{settings_answer, settings_of, settings_out};

use crate::lengths;
use rows::Group;
use step::answers;

fn settings_of(group: Group, count: u8) -> [u32; 4]
    ensures { result ≡ settings_of group count }
{
    if count == 0 {
        return [0; 4];
    }
    [
        u32::from(group.kind),
        u32::from(count),
        u32::from(group.payload),
        u32::from(group.window),
    ]
}

// Four numbers: kind, ports, P and W.
pub fn settings(state: &[[u8; 16]], out: &mut [u32]) -> u8
    ensures { (result ≡ settings_answer state.now (length out.old))
        × (out.new ≡ settings_out state.now out.old) }
{
    let group = rows::group::get(state);
    let count = phases::ports_in(group);
    if !lengths::is_lent(count, state.len(), out.len(), 4) {
        return answers::LENGTH;
    }
    out.copy_from_slice(&settings_of(group, count));
    answers::DONE
}
