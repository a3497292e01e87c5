// The changes from one board to another: 'slot, old state and number, new state and number, in slot order, then the wait if it differs.'
ghost use Rattle.std.specs.Prelude.{◌≡◌, ◌≤◌};
ghost use Rattle.std.specs.Result.{result_unwrap_or};
ghost use Rattle.spoken.specs.Answers.{told_changes};
ghost use Rattle.spoken.specs.Changes.{changes_in, compared_of, no_changes, wait_change};

use crate::lists::{Change, Changes, Refusal, WaitChange};
use sender::{Board, Row};

fn wait_change(old: bool, new: bool) -> WaitChange
    ensures { result ≡ wait_change old new }
{
    match (old, new) {
        (false, true) => WaitChange::Opened,
        (true, false) => WaitChange::Closed,
        _ => WaitChange::Same,
    }
}

// The changes of the first n slots.
fn changes_in(old: &[Row; 64], new: &[Row; 64], n: usize, wait: WaitChange) -> Changes
    requires { n ≤ 64 }
    ensures { result ≡ changes_in old.now new.now n wait }
{
    let mut changes = Changes {
        list: [Change::none(); 64],
        count: 0,
        wait,
    };
    for i in 0..n {
        let (before, after) = (old[i], new[i]);
        if before != after {
            changes.push(Change {
                slot: i as u8,
                old: before,
                new: after,
            });
        }
    }
    changes
}

// 4 where the counts differ or are above 64; no changes then, as between a board and itself.
pub fn changes_between(old: Board, new: Board) -> Result<Changes, Refusal>
    ensures told { result ≡ told_changes (compared_of old new) }
    ensures left { result_unwrap_or result no_changes ≡ (compared_of old new).changes }
{
    if old.count != new.count || old.count > 64 {
        return Err(Refusal::Counts);
    }
    let wait = wait_change(old.wait, new.wait);
    Ok(changes_in(&old.rows, &new.rows, usize::from(old.count), wait))
}
