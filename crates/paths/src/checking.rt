// The check: it 'accepts a proposal only if it names k different candidates within that spread, and accepts every such set'.
ghost use Rattle.std.specs.Prelude.{◌≡◌, ◌<◌, length, false};
ghost use Rattle.std.specs.Result.{result_unwrap_or};
ghost use Rattle.paths.specs.Checking.{accepts, agree, agrees_with, checked_of, entry_fits, told};

use crate::answers::OutOfRange;
use crate::{answers, order};

// Two entries name different candidates, no further apart than the room.
#[tactic(auto, using(crate::proofs::Chains::apart), unfolding(crate::specs::Checking::agree))]
fn do_agree(delays: &[u32], one: u8, other: u8, room: u32) -> bool
    ensures { result ≡ agree delays.now room one other }
{
    let x = order::delay_at(delays, one as usize);
    let y = order::delay_at(delays, other as usize);
    one != other && x.abs_diff(y) <= room
}

// Entry a agrees with every entry before it.
fn agrees(delays: &[u32], set: &[u8], a: usize, room: u32) -> bool
    requires { a < length set.now }
    ensures { result ≡ agrees_with delays.now set.now room a }
{
    let path = set[a];
    set[..a]
        .iter()
        .all(|before| do_agree(delays, *before, path, room))
}

fn entry_fits(delays: &[u32], set: &[u8], a: usize, room: u32) -> bool
    requires { a < length set.now }
    ensures { result ≡ entry_fits delays.now set.now room a }
{
    (set[a] as usize) < delays.len() && agrees(delays, set, a, room)
}

// Entries are gone through only where there are k.
fn is_accepted(delays: &[u32], k: usize, room: u32, set: &[u8]) -> bool
    ensures { result ≡ accepts delays.now k room set.now }
{
    set.len() == k && (0..set.len()).all(|a| entry_fits(delays, set, a, room))
}

pub fn check(delays: &[u32], k: u32, window: u32, set: &[u8]) -> Result<bool, OutOfRange>
    ensures told { result ≡ told (checked_of delays.now k window set.now) }
    ensures left { result_unwrap_or result false ≡ (checked_of delays.now k window set.now).accepted }
{
    answers::asked(delays, k, window)?;
    Ok(is_accepted(delays, k as usize, window - 16, set))
}
