// The first line of a recording: whether it can be read, and whether its settings are in range.
ghost use Rattle.std.specs.Prelude.{◌≡◌, ◌≤◌};
ghost use Rattle.mending.specs.Laws.Starts.{no_start, start_of, start_with, times_both};
ghost use Rattle.mending.specs.Mending.{fitting};

use packet::kinds;
use recording::{Opening, Settings};

// answer: 0, 13 or 4. next: the place of the second line. ports, size: of the group. counted: its lines have an H4 count.
#[derive(Clone, Copy)]
pub(crate) struct Start {
    pub next: usize,
    pub ports: u32,
    pub size: u32,
    pub counted: bool,
    pub answer: u8,
}

fn refused(answer: u8) -> Start
    ensures { result ≡ no_start answer }
{
    Start {
        next: 0,
        ports: 0,
        size: 0,
        counted: false,
        answer,
    }
}

// The times of the group's ports are in range.
fn times_fit(settings: Settings) -> bool
    requires { settings.ports ≤ 64 }
    ensures { result ≡ times_both settings }
{
    let n = settings.ports as usize;
    receiver::times_within(&settings.hold_off[..n]) & receiver::times_within(&settings.restore[..n])
}

fn is_fitting(settings: Settings) -> bool
    ensures { result ≡ fitting settings }
{
    if phases::is_startable(
        settings.kind,
        settings.ports,
        settings.size,
        settings.window,
    ) {
        return times_fit(settings);
    }
    false
}

fn opened_with(settings: Settings, next: usize) -> Start
    ensures { result ≡ start_with settings next }
{
    if is_fitting(settings) {
        return Start {
            next,
            ports: settings.ports,
            size: settings.size,
            counted: !(settings.kind == kinds::VC12),
            answer: 0,
        };
    }
    refused(4)
}

#[tactic(auto, unfolding(crate::specs::Laws::Starts::start_of))]
pub(crate) fn opened(text: &[u8]) -> Start
    ensures { result ≡ start_of text.now }
{
    match recording::opening_at(text, 0, true) {
        Opening::Settings(settings, next) => opened_with(settings, next),
        _ => refused(13),
    }
}
