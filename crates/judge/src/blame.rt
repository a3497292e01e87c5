// The port to which the clause applies that decides. Asked for at a desk and not in a fetch, so each port may take a walk over those below it.
ghost use Rattle.std.specs.Prelude.{◌≡◌, not, ◌&&◌, ◌<◌, ◌==◌, length};
ghost use Rattle.std.specs.Bool.{beq};
ghost use Rattle.judge.specs.Cause.{applies, blamed_by, gid_unlike};
ghost use Rattle.judge.specs.Named.{cause_number};
ghost use Rattle.judge.specs.Seen.{active_seen, eos_seen, size_of};

use crate::named::Cause;
use crate::seen::{Ports, Seen};

// No port.
const NOBODY: u8 = 255;

fn is_eos_wrong(port: Seen, top: u8) -> bool
    ensures { result ≡ not (beq (eos_seen port) (active_seen port && port.number == top)) }
{
    port.is_eos() != (port.is_active() & (port.number == top))
}

impl Ports<'_> {
    // One of them is not IDLE and has another GID.
    fn is_gid_unlike(&self, gid: u8) -> bool
        ensures { result ≡ gid_unlike self.now (length self.now) gid }
    {
        self.seen
            .iter()
            .any(|port| port.is_unidle() & ((port.gid == 0) != (gid == 0)))
    }

    // The clause applies to port i.
    fn is_applied(&self, top: u8, cause: Cause, i: usize) -> bool
        requires { i < length self.now }
        ensures { result ≡ applies self.now top (cause_number cause) i }
    {
        let seen = self.seen;
        let port = seen[i];
        match cause {
            Cause::Refused => port.is_refused(),
            Cause::Lacking => port.is_lacking(),
            Cause::Repeated => port.is_numbered() & self.below(i).is_taken(port.number),
            Cause::Gid => port.is_unidle() & self.below(i).is_gid_unlike(port.gid),
            Cause::Eos => is_eos_wrong(port, top),
            Cause::Unseen => !port.whole,
            Cause::Numbers => false,
        }
    }

    // Ends at the lowest.
    fn blamed_by(&self, cause: Cause) -> u8
        ensures { result ≡ blamed_by self.now (length self.now) (cause_number cause) }
    {
        let top = self.highest();
        for i in 0..self.seen.len() {
            if self.is_applied(top, cause, i) {
                return i as u8;
            }
        }
        NOBODY
    }
}

// The lowest port to which the clause applies, or none. Any number may be given for a clause.
pub fn blamed(ports: [Seen; 64], count: u8, cause: u8) -> u8
    ensures { result ≡ blamed_by ports (size_of count) cause }
{
    match Cause::by_number(cause) {
        Some(cause) => Ports::of(&ports, count).blamed_by(cause),
        None => NOBODY,
    }
}
