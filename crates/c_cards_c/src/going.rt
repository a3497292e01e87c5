// c_cards::going for C.
ghost use Rattle.std.specs.Prelude.{◌≡◌};
ghost use Rattle.c_cards.specs.Going.{changes_answer_c, changes_answer_on, changes_bytes_c, changes_bytes_on, changes_told_c, changes_told_on};

#[unsafe(no_mangle)]
pub extern "C" fn levelspruce_sender_changes(
    state: &[u8],
    told: &mut [u8],
    changes: &mut [u8],
) -> u8
    ensures { (result ≡ changes_answer_c state.now told.old changes.old)
        × (told.new ≡ changes_told_c state.now told.old changes.old)
        × (changes.new ≡ changes_bytes_c state.now told.old changes.old) }
{
    c_cards::going::levelspruce_sender_changes(state, told, changes)
}

#[unsafe(no_mangle)]
pub extern "C" fn levelspruce_card_changes(
    state: &[u8],
    group: u32,
    told: &mut [u8],
    changes: &mut [u8],
) -> u8
    ensures { (result ≡ changes_answer_on state.now group told.old changes.old)
        × (told.new ≡ changes_told_on state.now group told.old changes.old)
        × (changes.new ≡ changes_bytes_on state.now group told.old changes.old) }
{
    c_cards::going::levelspruce_card_changes(state, group, told, changes)
}
