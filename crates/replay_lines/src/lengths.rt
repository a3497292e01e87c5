// What a recording's first line asks to be lent, told before its replay begins.
ghost use Rattle.std.specs.Prelude.{◌≡◌};
ghost use Rattle.replay_lines.specs.Laws.Starts.{Small};
ghost use Rattle.replay_lines.specs.Lengths.{in_range, lengths_in, lengths_of, lengths_with, no_lengths};

use crate::{lent, replay};
use recording::{Opening, Settings};

// answer: 0, or 13 or 4 and no lengths. store: the bytes of the receiver's store. out: those of an epoch's output.
#[derive(Clone, Copy)]
pub struct Lengths {
    pub store: usize,
    pub out: usize,
    pub answer: u8,
}

fn none(answer: u8) -> Lengths
    ensures { result ≡ no_lengths answer }
{
    Lengths {
        store: 0,
        out: 0,
        answer,
    }
}

fn is_in_range(settings: Settings) -> bool
    ensures { result ≡ in_range settings }
{
    if phases::is_startable(
        settings.kind,
        settings.ports,
        settings.size,
        settings.window,
    ) {
        return lent::times_fit(settings);
    }
    false
}

fn lengths_with(settings: Settings) -> Lengths
    requires { Small settings }
    ensures { result ≡ lengths_with settings }
{
    let ports = settings.ports as u8;
    let size = settings.size as u16;
    let window = settings.window as u16;
    let store = replay::store_of(ports, size, window);
    let out = replay::output_of(settings.kind, ports, size);
    Lengths {
        store,
        out,
        answer: 0,
    }
}

fn lengths_in(settings: Settings) -> Lengths
    ensures { result ≡ lengths_in settings }
{
    if is_in_range(settings) {
        return lengths_with(settings);
    }
    none(4)
}

// Of the first line of a text, which may lack its end.
#[tactic(auto, unfolding(crate::specs::Lengths::lengths_of))]
pub fn replay_lengths(text: &[u8]) -> Lengths
    ensures { result ≡ lengths_of text.now }
{
    match recording::opening_at(text, 0, true) {
        Opening::Settings(settings, _) => lengths_in(settings),
        _ => none(13),
    }
}
