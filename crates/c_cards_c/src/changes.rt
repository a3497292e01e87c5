// c_cards::changes for C.
ghost use Rattle.std.specs.Prelude.{◌≡◌};
ghost use Rattle.c_cards.specs.Changes.{applied_answer_c, applied_bytes_c, compared_answer_c, compared_bytes_c, spoken_answer_c, spoken_bytes_c, written_c};

#[unsafe(no_mangle)]
pub extern "C" fn levelspruce_board_changes(before: &[u8], after: &[u8], changes: &mut [u8]) -> u8
    ensures { (result ≡ compared_answer_c before.now after.now changes.old)
        × (changes.new ≡ compared_bytes_c before.now after.now changes.old) }
{
    c_cards::changes::levelspruce_board_changes(before, after, changes)
}

#[unsafe(no_mangle)]
pub extern "C" fn levelspruce_board_apply(board: &mut [u8], changes: &[u8]) -> u8
    ensures { (result ≡ applied_answer_c board.old changes.now)
        × (board.new ≡ applied_bytes_c board.old changes.now) }
{
    c_cards::changes::levelspruce_board_apply(board, changes)
}

#[unsafe(no_mangle)]
pub extern "C" fn levelspruce_board_speak(
    changes: &[u8],
    text: &mut [u8],
    written: &mut usize,
) -> u8
    ensures { (result ≡ spoken_answer_c changes.now text.old)
        × (text.new ≡ spoken_bytes_c changes.now text.old)
        × (written.new ≡ written_c changes.now text.old written.old) }
{
    c_cards::changes::levelspruce_board_speak(changes, text, written)
}
