// The changes of the board going out for C. 'A board is taken only at an epoch's start': the board is taken from the state itself and not handed in, so
// that a console cannot speak another.
ghost use Rattle.std.specs.Prelude.{◌≡◌};
ghost use Rattle.c_cards.specs.Going.{changes_answer_c, changes_answer_on, changes_bytes_c, changes_bytes_on, changes_told_c, changes_told_on, going_answer, going_changes, going_told};

use crate::changes::CHANGES_BYTES;
use crate::{boards, card_calls, changes, keeping};
use c_face::boards::BOARD_BYTES;
use c_face::keeping::SENDER_BYTES;
use ground::Refusal;
use sender::Board;

fn tell(going: Board, told: &mut [u8], changes: &mut [u8]) -> u8
    ensures { (result ≡ going_answer going told.old changes.old)
        × (told.new ≡ going_told going told.old changes.old)
        × (changes.new ≡ going_changes going told.old changes.old) }
{
    if told.len() != BOARD_BYTES {
        return 9;
    }
    if changes.len() != CHANGES_BYTES {
        return 9;
    }
    let old = changes::board_from(told);
    match spoken::changes_between(old, going) {
        Ok(list) => {
            changes::put_changes(list, changes);
            boards::put_board(going, told);
            0
        }
        Err(refusal) => refusal.number(),
    }
}

pub fn levelspruce_sender_changes(state: &[u8], told: &mut [u8], changes: &mut [u8]) -> u8
    ensures { (result ≡ changes_answer_c state.now told.old changes.old)
        × (told.new ≡ changes_told_c state.now told.old changes.old)
        × (changes.new ≡ changes_bytes_c state.now told.old changes.old) }
{
    if state.len() != SENDER_BYTES {
        return 9;
    }
    let sender = keeping::sender_of(state);
    let going = spoken::taken(sender);
    tell(going, told, changes)
}

pub fn levelspruce_card_changes(state: &[u8], group: u32, told: &mut [u8], changes: &mut [u8]) -> u8
    ensures { (result ≡ changes_answer_on state.now group told.old changes.old)
        × (told.new ≡ changes_told_on state.now group told.old changes.old)
        × (changes.new ≡ changes_bytes_on state.now group told.old changes.old) }
{
    let first = card_calls::refusal(state.len(), group);
    if first != 0 {
        return first;
    }
    let sender = card_calls::part_in(state, group);
    let going = spoken::taken(sender);
    tell(going, told, changes)
}
