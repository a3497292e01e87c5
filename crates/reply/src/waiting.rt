// Waiting before crying failure (02, 2026-03): hold-off, wait-to-restore, and what a report leaves of each port.
ghost use Rattle.std.specs.Prelude.{◌≡◌, [], ◌∷◌, ◌+◌, get_or, replicate, if◌then◌else◌};
ghost use Rattle.ground.specs.Counting.Each.{each};
ghost use Rattle.reply.specs.Choosing.{grant};
ghost use Rattle.reply.specs.Members.{fail_state, has_hold_off, ok_state, port_at, size_of};
ghost use Rattle.reply.specs.Waiting.{chosen_of, has_claim, joins_kept, keeps_number, more_kept, must_keep, no_standing, some_join, standing, standing_by, standings_of, with_claim, without_claim};

use crate::choosing;
use crate::members::{Port, Ports};

// What a report leaves of a port: its state, the number under which it has it, and at how many reports its timer has run.
#[derive(Clone, Copy)]
pub struct Standing {
    pub state: u8,
    pub number: u8,
    pub elapsed: u16,
}

// Whether a port is a candidate whose number no other port has.
fn has_claim(chosen: [u8; 64], i: u8, port: Port) -> bool
    ensures { result ≡ has_claim chosen i port }
{
    let holder = choosing::holder_of(chosen, port.number);
    port.is_candidate() && (holder == choosing::NO_PORT || holder == i)
}

// Whether a port keeps the number under which it is OK, having lost its claim.
fn must_keep(chosen: [u8; 64], i: u8, port: Port) -> bool
    ensures { result ≡ must_keep chosen i port }
{
    port.has_hold_off() && !has_claim(chosen, i, port)
}

fn joins_kept(chosen: [u8; 64], kept: [u8; 64], i: u8, port: Port) -> bool
    ensures { result ≡ joins_kept chosen kept i port }
{
    must_keep(chosen, i, port) && choosing::holder_of(kept, port.state_number) == choosing::NO_PORT
}

fn keep_one(chosen: [u8; 64], kept: &mut [u8; 64], i: u8, port: Port)
    ensures { kept.new ≡ grant (must_keep chosen i port) port.state_number kept.old i }
{
    if joins_kept(chosen, *kept, i, port) {
        kept[port.state_number as usize] = i;
    }
}

impl Ports<'_> {
    fn keep_more(&self, chosen: [u8; 64], kept: &mut [u8; 64])
        ensures { kept.new ≡ more_kept chosen self.now.table.now self.now.count kept.old }
    {
        for (i, port) in self.all().iter().enumerate() {
            keep_one(chosen, kept, i as u8, *port);
        }
    }

    fn some_join(&self, chosen: [u8; 64], kept: [u8; 64]) -> bool
        ensures { result ≡ some_join chosen kept self.now.table.now self.now.count }
    {
        for (i, port) in self.all().iter().enumerate() {
            if joins_kept(chosen, kept, i as u8, *port) {
                return true;
            }
        }
        false
    }

    // The candidates choose, and those that lose keep their numbers, until none more does.
    fn choose_in_rounds(&self) -> [u8; 64]
        ensures { result ≡ chosen_of self.now.table.now self.now.count }
    {
        let mut kept = [choosing::NO_PORT; 64];
        for k in 0..self.count {
            let chosen = self.choose(kept);
            if !self.some_join(chosen, kept) {
                return chosen;
            }
            self.keep_more(chosen, &mut kept);
        }
        self.choose(kept)
    }

    fn standings_by(&self, chosen: [u8; 64]) -> [Standing; 64]
        ensures { result ≡ each self.now.count (λ i. standing_by chosen i (port_at self.now.table.now i)) (replicate 64 no_standing) }
    {
        let mut all = [Standing {
            state: Port::IDLE,
            number: 0,
            elapsed: 0,
        }; 64];
        for (i, port) in self.all().iter().enumerate() {
            all[i] = standing_by(chosen, i as u8, *port);
        }
        all
    }
}

fn with_claim(port: Port) -> Standing
    ensures { result ≡ with_claim port }
{
    if port.is_restoring() {
        return Standing {
            state: Port::FAIL,
            number: port.number,
            elapsed: port.elapsed + 1,
        };
    }
    Standing {
        state: Port::OK,
        number: port.number,
        elapsed: 0,
    }
}

fn keeps_number(chosen: [u8; 64], i: u8, port: Port) -> bool
    ensures { result ≡ keeps_number chosen i port }
{
    port.state == Port::OK
        && port.elapsed < port.hold_off
        && choosing::holder_of(chosen, port.state_number) == i
}

fn without_claim(chosen: [u8; 64], i: u8, port: Port) -> Standing
    ensures { result ≡ without_claim chosen i port }
{
    if keeps_number(chosen, i, port) {
        return Standing {
            state: Port::OK,
            number: port.state_number,
            elapsed: port.elapsed + 1,
        };
    }
    Standing {
        state: Port::FAIL,
        number: port.number,
        elapsed: 0,
    }
}

fn standing_by(chosen: [u8; 64], i: u8, port: Port) -> Standing
    ensures { result ≡ standing_by chosen i port }
{
    if port.is_idle() {
        return Standing {
            state: Port::IDLE,
            number: port.number,
            elapsed: 0,
        };
    }
    if has_claim(chosen, i, port) {
        return with_claim(port);
    }
    without_claim(chosen, i, port)
}

fn without_claim_alone(port: Port) -> Standing
    ensures { result ≡ (if has_hold_off port then standing ok_state port.state_number (port.elapsed + 1) else standing fail_state port.number 0) }
{
    if port.has_hold_off() {
        return Standing {
            state: Port::OK,
            number: port.state_number,
            elapsed: port.elapsed + 1,
        };
    }
    Standing {
        state: Port::FAIL,
        number: port.number,
        elapsed: 0,
    }
}

// What this report leaves of a port alone, with no table of 64 handed on. Nobody can take its number: it has its claim where it is a candidate, and
// keeps its number where it has hold-off left.
pub fn standing_alone(port: Port) -> Standing
    ensures { result ≡ get_or (standings_of (port ∷ []) 1) 0 no_standing }
{
    if port.is_idle() {
        return Standing {
            state: Port::IDLE,
            number: port.number,
            elapsed: 0,
        };
    }
    if port.is_candidate() {
        return with_claim(port);
    }
    without_claim_alone(port)
}

// What this report leaves of each port.
pub fn standings(ports: [Port; 64], count: u8) -> [Standing; 64]
    ensures { result ≡ standings_of ports (size_of count) }
{
    let group = Ports::of(&ports, count);
    group.standings_by(group.choose_in_rounds())
}
