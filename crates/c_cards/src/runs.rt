// The spoken board in runs, for C: changes, and a whole board as it stands.
ghost use Rattle.std.specs.Prelude.{◌≡◌};
ghost use Rattle.c_cards.specs.Runs.{runs_answer_c, runs_bytes_c, runs_written_c, whole_answer_c, whole_bytes_c, whole_written_c};

use crate::changes;
use crate::changes::CHANGES_BYTES;
use c_face::boards::BOARD_BYTES;
use ground::Refusal;

pub fn levelspruce_board_speak_runs(changes: &[u8], text: &mut [u8], written: &mut usize) -> u8
    ensures { (result ≡ runs_answer_c changes.now text.old)
        × (text.new ≡ runs_bytes_c changes.now text.old)
        × (written.new ≡ runs_written_c changes.now text.old written.old) }
{
    if changes.len() != CHANGES_BYTES {
        return 9;
    }
    if text.len() < spoken::SPEECH_ROOM {
        return 9;
    }
    if changes[1] >= 3 {
        return 2;
    }
    let told = changes::changes_from(changes);
    match spoken::speak_runs(told, text) {
        Ok(length) => {
            *written = length;
            0
        }
        Err(refusal) => refusal.number(),
    }
}

pub fn levelspruce_board_speak_whole(board: &[u8], text: &mut [u8], written: &mut usize) -> u8
    ensures { (result ≡ whole_answer_c board.now text.old)
        × (text.new ≡ whole_bytes_c board.now text.old)
        × (written.new ≡ whole_written_c board.now text.old written.old) }
{
    if board.len() != BOARD_BYTES {
        return 9;
    }
    if text.len() < spoken::SPEECH_ROOM {
        return 9;
    }
    let shown = changes::board_from(board);
    match spoken::speak_whole(shown, text) {
        Ok(length) => {
            *written = length;
            0
        }
        Err(refusal) => refusal.number(),
    }
}
