// Candidates choose their numbers (01, 'Member states and reply').
ghost use Rattle.std.specs.Prelude.{◌≡◌, ◌&&◌, ◌==◌};
ghost use Rattle.reply.specs.Choosing.{FREE, chooses, claims, grant, holder_of, holders};

use crate::members::{Port, Ports};

// Stands for the holder of a number that no port has.
pub(crate) const NO_PORT: u8 = 255;

// The port that has a number.
pub(crate) fn holder_of(chosen: [u8; 64], number: u8) -> u8
    ensures { result ≡ holder_of chosen number }
{
    if number < 64 {
        chosen[number as usize]
    } else {
        NO_PORT
    }
}

// Whether a port chooses in this round and finds its number free.
fn takes(first: bool, holder: u8, port: Port) -> bool
    ensures { result ≡ (chooses first port && holder == FREE) }
{
    port.is_candidate() && !port.is_restoring() && port.was_ok() == first && holder == NO_PORT
}

fn claim_one(first: bool, chosen: &mut [u8; 64], i: u8, port: Port)
    ensures { chosen.new ≡ grant (chooses first port) port.number chosen.old i }
{
    if takes(first, holder_of(*chosen, port.number), port) {
        chosen[port.number as usize] = i;
    }
}

impl Ports<'_> {
    // One round.
    fn claim_all(&self, first: bool, chosen: &mut [u8; 64])
        ensures { chosen.new ≡ claims first self.now.table.now self.now.count chosen.old }
    {
        for (i, port) in self.all().iter().enumerate() {
            claim_one(first, chosen, i as u8, *port);
        }
    }

    // Who gets which of the numbers that no port keeps.
    pub(crate) fn choose(&self, kept: [u8; 64]) -> [u8; 64]
        ensures { result ≡ holders self.now.table.now self.now.count kept }
    {
        let mut chosen = kept;
        self.claim_all(true, &mut chosen);
        self.claim_all(false, &mut chosen);
        chosen
    }
}
