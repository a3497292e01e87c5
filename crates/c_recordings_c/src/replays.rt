// c_recordings::replays for C.
ghost use Rattle.std.specs.Prelude.{◌≡◌, length};
ghost use Rattle.c_recordings.specs.Replays.{begin_answer_c, begin_state_c, lengths_answer_c, out_length_c, store_length_c, turn_answer_c, turn_at_c, turn_out_c, turn_rows_c, turn_said_c, turn_state_c, turn_store_c, turn_wants_c, turn_written_c};

#[unsafe(no_mangle)]
pub extern "C" fn levelspruce_replay_lengths(
    recording: &[u8],
    store_length: &mut usize,
    out_length: &mut usize,
) -> u8
    ensures { (result ≡ lengths_answer_c recording.now)
        × (store_length.new ≡ store_length_c recording.now store_length.old)
        × (out_length.new ≡ out_length_c recording.now out_length.old) }
{
    c_recordings::replays::levelspruce_replay_lengths(recording, store_length, out_length)
}

#[unsafe(no_mangle)]
pub extern "C" fn levelspruce_replay_begin(state: &mut [u8]) -> u8
    ensures { (result ≡ begin_answer_c state.old) × (state.new ≡ begin_state_c state.old) }
{
    c_recordings::replays::levelspruce_replay_begin(state)
}

#[unsafe(no_mangle)]
pub extern "C" fn levelspruce_replay_turn(
    state: &mut [u8],
    text: &[u8],
    at: &mut usize,
    last: u32,
    rows: &mut [[u8; 16]],
    store: &mut [u8],
    out: &mut [u8],
    said: &mut [u8],
    written: &mut usize,
    wants: &mut u8,
) -> u8
    ensures { (result ≡ turn_answer_c state.old text.now at.old last rows.old store.old out.old (length said.old))
        × (state.new ≡ turn_state_c state.old text.now at.old last rows.old store.old out.old (length said.old))
        × (at.new ≡ turn_at_c state.old text.now at.old last rows.old store.old out.old (length said.old))
        × (rows.new ≡ turn_rows_c state.old text.now at.old last rows.old store.old out.old (length said.old))
        × (store.new ≡ turn_store_c state.old text.now at.old last rows.old store.old out.old (length said.old))
        × (out.new ≡ turn_out_c state.old text.now at.old last rows.old store.old out.old (length said.old))
        × (said.new ≡ turn_said_c state.old text.now at.old last rows.old store.old out.old said.old)
        × (written.new ≡ turn_written_c state.old text.now at.old last rows.old store.old out.old (length said.old) written.old)
        × (wants.new ≡ turn_wants_c state.old text.now at.old last rows.old store.old out.old (length said.old) wants.old) }
{
    c_recordings::replays::levelspruce_replay_turn(
        state, text, at, last, rows, store, out, said, written, wants,
    )
}
