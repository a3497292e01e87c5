// Held, doubtful, sure, and why (01, 'Report of an epoch').
ghost use Rattle.std.specs.Prelude.{◌≡◌, true, [], ◌∷◌, ◌≤◌, ◌<◌, length};
ghost use Rattle.judge.specs.Full.{Full};
ghost use Rattle.judge.specs.Cause.{cause_of, fixed_cause, lcas_cause, mark_of};
ghost use Rattle.judge.specs.Named.{decided_number, mark_by, mark_number};
ghost use Rattle.judge.specs.Seen.{size_of};
ghost use Rattle.judge.specs.Tally.{common_cause, doubt_cause, eos_alone_by, exact_to, fixed_cause_with, held_cause, tally_of, tally_with};
ghost use Rattle.judge.specs.Verdict.{highest, repeats, takes};

use crate::named::{Cause, Mark, decided_number};
use crate::seen::{Ports, Seen};
use packet::kinds;

// What one walk over the ports finds.
#[derive(Clone, Copy, Default)]
struct Tally {
    refused: bool,
    lacking: bool,
    // a GID of 0 and another, of ports that are not IDLE
    zero: bool,
    other: bool,
    active: bool,
    eos: bool,
    missing: bool,
    // the highest number of an active port
    highest: u8,
    // how many are active or DNU
    numbered: u8,
}

impl Tally {
    fn with(self, port: Seen) -> Tally
        requires { self.numbered < 64 }
        ensures { result ≡ tally_with self port }
    {
        let higher = port.is_active() & (self.highest < port.number);
        Tally {
            refused: self.refused | port.is_refused(),
            lacking: self.lacking | port.is_lacking(),
            zero: self.zero | (port.is_unidle() & (port.gid == 0)),
            other: self.other | (port.is_unidle() & (port.gid != 0)),
            active: self.active | port.is_active(),
            eos: self.eos | port.is_eos(),
            missing: self.missing | !port.whole,
            highest: if higher { port.number } else { self.highest },
            numbered: self.numbered + u8::from(port.is_numbered()),
        }
    }

    // The clauses that hold an epoch in any group.
    fn common_cause(self, repeated: bool) -> Option<Cause>
        ensures { decided_number result ≡ common_cause self repeated }
    {
        if self.refused {
            return Some(Cause::Refused);
        }
        if self.lacking {
            return Some(Cause::Lacking);
        }
        if repeated {
            Some(Cause::Repeated)
        } else {
            None
        }
    }

    fn held_cause(self, repeated: bool, alone: bool) -> Option<Cause>
        ensures { decided_number result ≡ held_cause self repeated alone }
    {
        let common = self.common_cause(repeated);
        if common.is_some() {
            return common;
        }
        if self.zero & self.other {
            return Some(Cause::Gid);
        }
        if self.active & !alone & !(!self.eos & self.missing) {
            return Some(Cause::Eos);
        }
        None
    }

    // A fixed group (request 2026-12).
    fn fixed_cause(self, repeated: bool, exact: bool) -> Option<Cause>
        ensures { decided_number result ≡ fixed_cause_with self repeated exact }
    {
        if self.missing {
            return Some(Cause::Unseen);
        }
        let held = self.common_cause(repeated);
        if held.is_some() {
            return held;
        }
        if exact { None } else { Some(Cause::Numbers) }
    }
}

fn doubt_cause(unseen: bool, exact: bool) -> Option<Cause>
    ensures { decided_number result ≡ doubt_cause unseen exact }
{
    if unseen {
        return Some(Cause::Unseen);
    }
    if exact { None } else { Some(Cause::Numbers) }
}

impl Ports<'_> {
    fn tally(&self) -> Tally
        ensures { result ≡ tally_of self.now (length self.now) }
    {
        let mut tally = Tally::default();
        for port in self.seen {
            tally = tally.with(*port);
        }
        tally
    }

    // The highest number of an active port.
    pub(crate) fn highest(&self) -> u8
        ensures { result ≡ highest self.now (length self.now) }
    {
        self.tally().highest
    }

    // An active or DNU port has the number.
    pub(crate) fn is_taken(&self, number: u8) -> bool
        ensures { result ≡ takes self.now (length self.now) number }
    {
        self.seen
            .iter()
            .any(|port| port.is_numbered() & (port.number == number))
    }

    fn has_pairs(&self) -> bool
        ensures { result ≡ repeats self.now (length self.now) }
    {
        let mut found = false;
        for (i, port) in self.seen.iter().enumerate() {
            found |= port.is_numbered() & self.below(i).is_taken(port.number);
        }
        found
    }

    // 'numbers of active and DNU ports repeat'
    fn has_repeats(&self, full: bool) -> bool
        requires { full ≡ true → Full self.now (length self.now) }
        ensures { result ≡ repeats self.now (length self.now) }
    {
        !full && self.has_pairs()
    }

    fn is_eos_alone(&self, highest: u8) -> bool
        ensures { result ≡ eos_alone_by self.now (length self.now) highest }
    {
        self.seen.iter().all(|port| port.is_eos() == (port.is_active() & (port.number == highest)))
    }

    // Each of the numbers below the limit is taken.
    fn is_exact(&self, limit: u8, full: bool) -> bool
        requires { (limit ≤ length self.now) × (full ≡ true → Full self.now (length self.now)) }
        ensures { result ≡ exact_to self.now (length self.now) limit }
    {
        full || (0..limit).all(|number| self.is_taken(number))
    }

    fn lcas_cause(&self) -> Option<Cause>
        ensures { decided_number result ≡ lcas_cause self.now (length self.now) }
    {
        let full = self.is_full();
        let tally = self.tally();
        let repeated = self.has_repeats(full);
        let alone = self.is_eos_alone(tally.highest);
        let held = tally.held_cause(repeated, alone);
        if held.is_some() {
            return held;
        }
        doubt_cause(tally.missing, self.is_exact(tally.numbered, full))
    }

    // X is the number of its ports, so no report of a fixed group is doubtful.
    fn fixed_cause(&self) -> Option<Cause>
        ensures { decided_number result ≡ fixed_cause self.now (length self.now) }
    {
        let full = self.is_full();
        let repeated = self.has_repeats(full);
        let exact = self.is_exact(self.seen.len() as u8, full);
        self.tally().fixed_cause(repeated, exact)
    }
}

// A port alone is judged by itself: no table of 64 is handed on.
fn tallied_alone(port: Seen) -> Tally
    ensures { result ≡ tally_of (port ∷ []) 1 }
{
    Tally::default().with(port)
}

fn is_eos_last(port: Seen, highest: u8) -> bool
    ensures { result ≡ eos_alone_by (port ∷ []) 1 highest }
{
    port.is_eos() == (port.is_active() & (port.number == highest))
}

fn has_zero(port: Seen) -> bool
    ensures { result ≡ takes (port ∷ []) 1 0 }
{
    port.is_numbered() & (port.number == 0)
}

fn lcas_alone(port: Seen) -> Option<Cause>
    ensures { decided_number result ≡ lcas_cause (port ∷ []) 1 }
{
    let tally = tallied_alone(port);
    let alone = is_eos_last(port, tally.highest);
    let held = tally.held_cause(false, alone);
    if held.is_some() {
        return held;
    }
    doubt_cause(tally.missing, (tally.numbered == 0) | has_zero(port))
}

fn fixed_alone(port: Seen) -> Option<Cause>
    ensures { decided_number result ≡ fixed_cause (port ∷ []) 1 }
{
    tallied_alone(port).fixed_cause(false, has_zero(port))
}

fn cause_alone(kind: u8, port: Seen) -> Option<Cause>
    ensures { decided_number result ≡ cause_of kind (port ∷ []) 1 }
{
    if kind == kinds::FIXED {
        return fixed_alone(port);
    }
    lcas_alone(port)
}

// Apart from `cause`, since a table that is lent is copied first, which a port alone need not pay for.
fn cause_among(kind: u8, ports: [Seen; 64], count: u8) -> Option<Cause>
    ensures { decided_number result ≡ cause_of kind ports (size_of count) }
{
    let group = Ports::of(&ports, count);
    if kind == kinds::FIXED {
        return group.fixed_cause();
    }
    group.lcas_cause()
}

// Why the epoch is held or doubtful; the mark follows from it. A number, as the report and the host have it.
pub fn cause(kind: u8, ports: [Seen; 64], count: u8) -> u8
    ensures { result ≡ cause_of kind ports (size_of count) }
{
    if count == 1 {
        return decided_number(cause_alone(kind, ports[0]));
    }
    decided_number(cause_among(kind, ports, count))
}

// By any number of a clause.
pub fn mark(kind: u8, cause: u8) -> Mark
    ensures { (result ≡ mark_by (mark_of kind cause)) × (mark_number result ≡ mark_of kind cause) }
{
    if cause == 0 {
        return Mark::Sure;
    }
    if (kind == kinds::FIXED) | (cause < Cause::Unseen.number()) {
        return Mark::Held;
    }
    Mark::Doubtful
}
