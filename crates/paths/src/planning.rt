// The planner. Of the candidates in order, k in a row lie closest; of all such stretches it proposes the tightest.
ghost use Rattle.std.specs.Prelude.{◌≡◌, ◌+◌, ◌≤◌, ◌<◌, length};
ghost use Rattle.std.specs.Result.{result_unwrap_or};
ghost use Rattle.ground.specs.Drawn.{within};
ghost use Rattle.paths.specs.Answers.{Range};
ghost use Rattle.paths.specs.Planning.{listed_plan, nothing, proposal_in, plan_of, proposed_plan, stretch_from, tighter, tightest, told};

use crate::answers::OutOfRange;
use crate::{answers, order};

#[derive(Clone, Copy)]
pub struct Proposal {
    // the chosen candidates' numbers, rising, then 255
    pub paths: [u8; 64],
    // how many are chosen: k, or 0 for none
    pub count: u8,
}

const NONE: Proposal = Proposal {
    paths: [255; 64],
    count: 0,
};

// The candidates in a row from a rank on: the rank, and their spread.
#[derive(Clone, Copy)]
struct Stretch {
    first: usize,
    spread: u32,
}

fn stretch_from(sorted: &[u32; 64], far: usize, first: usize) -> Stretch
    requires { first + far < 64 }
    ensures { result ≡ stretch_from sorted.now far first }
{
    let spread = sorted[first + far].saturating_sub(sorted[first]);
    Stretch { first, spread }
}

fn tighter(one: Stretch, other: Stretch) -> Stretch
    ensures { result ≡ tighter one other }
{
    if other.spread < one.spread {
        other
    } else {
        one
    }
}

fn tightest(sorted: &[u32; 64], far: usize, starts: usize) -> Stretch
    requires { (starts + far ≤ 64) × (far < 64) }
    ensures { result ≡ tightest sorted.now far starts }
{
    let mut best = stretch_from(sorted, far, 0);
    for first in 0..starts {
        best = tighter(best, stretch_from(sorted, far, first));
    }
    best
}

fn is_within(rank: u8, first: usize, k: usize) -> bool
    requires { first + k ≤ 128 }
    ensures { result ≡ within first k rank }
{
    (first..first + k).contains(&(rank as usize))
}

// The candidates whose ranks are the k from the first on.
fn listed(ranks: &[u8; 64], n: usize, first: usize, k: usize) -> Proposal
    requires { (n ≤ 64) × (first + k ≤ 128) }
    ensures { result ≡ proposal_in (listed_plan ranks.now n first k) }
{
    let mut paths = [255; 64];
    let mut count = 0;
    for i in 0..n {
        if is_within(ranks[i], first, k) {
            paths[count] = i as u8;
            count += 1;
        }
    }
    Proposal {
        paths,
        count: count as u8,
    }
}

fn proposed(delays: &[u32], k: usize, room: u32) -> Proposal
    requires { (length delays.now ≤ 64) × (1 ≤ k) × (k ≤ length delays.now) }
    ensures { result ≡ proposal_in (proposed_plan delays.now k room) }
{
    let n = delays.len();
    let ranks = order::ranked(delays);
    let sorted = order::sorted(delays, &ranks);
    let stretch = tightest(&sorted, k - 1, n + 1 - k);
    if stretch.spread <= room {
        listed(&ranks, n, stretch.first, k)
    } else {
        NONE
    }
}

// Refused, it names no path: 64 times 255, and 0.
pub fn plan(delays: &[u32], k: u32, window: u32) -> Result<Proposal, OutOfRange>
    ensures told { result ≡ told (plan_of delays.now k window) }
    ensures left { result_unwrap_or result (proposal_in (nothing Range)) ≡ proposal_in (plan_of delays.now k window) }
{
    answers::asked(delays, k, window)?;
    Ok(proposed(delays, k as usize, window - 16))
}
