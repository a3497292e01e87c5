// Changes applied to a board: 'changes that don't fit the board they are applied to is 2, and the board stays.' All are judged against the board as it stands before the first is applied.
ghost use Rattle.std.specs.Prelude.{◌≡◌, ℕ, ◌≤◌, ◌<◌, length};
ghost use Rattle.std.specs.Result.{result_unwrap_or};
ghost use Rattle.spoken.specs.Answers.{told_board};
ghost use Rattle.spoken.specs.Applying.{applied_of, change_in, changes_fit, fits, fits_by, laid_to, rises_at, wait_after, wait_fits};

use crate::lists::{Change, Changes, Refusal, WaitChange};
use sender::{Board, Row};

// Opened on an open wait does not fit, nor Closed on none.
fn wait_fits(wait: bool, change: WaitChange) -> bool
    ensures { result ≡ wait_fits wait change }
{
    match change {
        WaitChange::Same => true,
        WaitChange::Opened => !wait,
        WaitChange::Closed => wait,
    }
}

fn wait_after(wait: bool, change: WaitChange) -> bool
    ensures { result ≡ wait_after wait change }
{
    match change {
        WaitChange::Same => wait,
        WaitChange::Opened => true,
        WaitChange::Closed => false,
    }
}

// The slots of the changes rise strictly.
pub(crate) fn rises_at(changes: &[Change], k: usize) -> bool
    requires { k < length changes.now }
    ensures { result ≡ rises_at changes.now k }
{
    k == 0 || changes[k - 1].slot < changes[k].slot
}

// One change against the row of its slot: the old word and number are the board's, and the new ones are others.
fn fits_by(change: Change, row: Row, count: u8, rises: bool) -> bool
    ensures { result ≡ fits_by change row count rises }
{
    change.slot < count && rises && change.old == row && change.old != change.new
}

fn changes_fit(rows: &[Row; 64], count: u8, changes: &[Change]) -> bool
    requires { count ≤ 64 }
    ensures { result ≡ changes_fit rows.now count changes.now (length changes.now) }
{
    for (k, change) in changes.iter().enumerate() {
        // a slot that no board has is refused whatever row is looked at
        let row = rows[usize::from(change.slot % 64)];
        if !fits_by(*change, row, count, rises_at(changes, k)) {
            return false;
        }
    }
    true
}

fn does_fit(board: &Board, changes: &Changes) -> bool
    ensures { result ≡ fits board.now changes.now }
{
    if board.count > 64 || changes.count > 64 {
        return false;
    }
    wait_fits(board.wait, changes.wait) && changes_fit(&board.rows, board.count, changes.as_slice())
}

// The rows with the changes laid on them.
fn lay(mut rows: [Row; 64], changes: &[Change]) -> [Row; 64]
    requires { (k : ℕ) → k < length changes.now → (change_in changes.now k).slot < 64 }
    ensures { result ≡ laid_to rows changes.now (length changes.now) }
{
    for change in changes {
        rows[usize::from(change.slot)] = change.new;
    }
    rows
}

pub fn apply(board: Board, changes: Changes) -> Result<Board, Refusal>
    ensures told { result ≡ told_board (applied_of board changes) }
    ensures left { result_unwrap_or result board ≡ (applied_of board changes).board }
{
    if !does_fit(&board, &changes) {
        return Err(Refusal::Unfit);
    }
    Ok(Board {
        rows: lay(board.rows, changes.as_slice()),
        wait: wait_after(board.wait, changes.wait),
        ..board
    })
}
