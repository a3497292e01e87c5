// A recording run again, for C. The replay itself is a lent buffer, and the receiver's rows, its store, its output and what is printed are
// lent beside it.
ghost use Rattle.std.specs.Prelude.{◌≡◌, ◌≤◌, length};
ghost use Rattle.c_recordings.specs.Replays.{begin_answer_c, begin_state_c, bytes_of, four_of, last_c, lengths_answer_c, line_in, out_length_c, phase_code, phase_of, replay_bytes, replay_of, store_length_c, turn_answer_c, turn_at_c, turn_out_c, turn_rows_c, turn_said_c, turn_state_c, turn_store_c, turn_wants_c, turn_written_c, two_of};

use crate::keeping;
use replay_lines::{Phase, Replay};

// A replay's state.
const REPLAY_BYTES: usize = 17;

fn phase_of(code: u8) -> Phase
    ensures { result ≡ phase_of code }
{
    match code {
        1 => Phase::Reading,
        2 => Phase::Fetching,
        3 => Phase::Skipping,
        4 => Phase::Ended,
        _ => Phase::Settings,
    }
}

fn phase_code(phase: Phase) -> u8
    ensures { result ≡ phase_code phase }
{
    match phase {
        Phase::Settings => 0,
        Phase::Reading => 1,
        Phase::Fetching => 2,
        Phase::Skipping => 3,
        Phase::Ended => 4,
    }
}

fn two(high: u8, low: u8) -> u16
    ensures { result ≡ two_of high low }
{
    high as u16 * 256 + low as u16
}

fn wide(byte: u8) -> u64
    ensures { (result ≡ byte) × (result ≤ 255) }
{
    byte as u64
}

fn four(a: u8, b: u8, c: u8, d: u8) -> u64
    ensures { (result ≡ four_of a b c d) × (result ≤ 4294967295) }
{
    wide(a) * 16777216 + wide(b) * 65536 + wide(c) * 256 + wide(d)
}

fn line_in(state: &[u8]) -> u64
    requires { length state.now ≡ replay_bytes }
    ensures { result ≡ line_in state.now }
{
    let high = four(state[1], state[2], state[3], state[4]);
    let low = four(state[5], state[6], state[7], state[8]);
    high * 4294967296 + low
}

// Any bytes are a replay.
fn replay_of(state: &[u8]) -> Replay
    requires { length state.now ≡ replay_bytes }
    ensures { result ≡ replay_of state.now }
{
    let phase = phase_of(state[0]);
    let line = line_in(state);
    let left = two(state[9], state[10]);
    let size = two(state[13], state[14]);
    let window = two(state[15], state[16]);
    Replay {
        phase,
        line,
        left,
        kind: state[11],
        ports: state[12],
        size,
        window,
    }
}

fn bytes_of(replay: Replay) -> [u8; 17]
    ensures { result ≡ bytes_of replay }
{
    let phase = replay.phase;
    let line = replay.line;
    [
        phase_code(phase),
        (line / 72057594037927936) as u8,
        (line / 281474976710656 % 256) as u8,
        (line / 1099511627776 % 256) as u8,
        (line / 4294967296 % 256) as u8,
        (line / 16777216 % 256) as u8,
        (line / 65536 % 256) as u8,
        (line / 256 % 256) as u8,
        (line % 256) as u8,
        (replay.left / 256) as u8,
        (replay.left % 256) as u8,
        replay.kind,
        replay.ports,
        (replay.size / 256) as u8,
        (replay.size % 256) as u8,
        (replay.window / 256) as u8,
        (replay.window % 256) as u8,
    ]
}

fn put_replay(replay: Replay, state: &mut [u8])
    requires { length state.old ≡ replay_bytes }
    ensures { state.new ≡ bytes_of replay }
{
    let bytes = bytes_of(replay);
    keeping::put_bytes(&bytes, 0, state);
}

pub fn levelspruce_replay_lengths(
    recording: &[u8],
    store_length: &mut usize,
    out_length: &mut usize,
) -> u8
    ensures { (result ≡ lengths_answer_c recording.now)
        × (store_length.new ≡ store_length_c recording.now store_length.old)
        × (out_length.new ≡ out_length_c recording.now out_length.old) }
{
    let told = replay_lines::replay_lengths(recording);
    if told.answer != 0 {
        return told.answer;
    }
    *store_length = told.store;
    *out_length = told.out;
    0
}

pub fn levelspruce_replay_begin(state: &mut [u8]) -> u8
    ensures { (result ≡ begin_answer_c state.old) × (state.new ≡ begin_state_c state.old) }
{
    if state.len() != REPLAY_BYTES {
        return 9;
    }
    let replay = replay_lines::begin();
    put_replay(replay, state);
    0
}

fn is_last(last: u32) -> bool
    ensures { result ≡ last_c last }
{
    !(last == 0)
}

pub fn levelspruce_replay_turn(
    state: &mut [u8],
    text: &[u8],
    at: &mut usize,
    last: u32,
    rows: &mut [[u8; 16]],
    store: &mut [u8],
    out: &mut [u8],
    said: &mut [u8],
    written: &mut usize,
    wants: &mut u8,
) -> u8
    ensures { (result ≡ turn_answer_c state.old text.now at.old last rows.old store.old out.old (length said.old))
        × (state.new ≡ turn_state_c state.old text.now at.old last rows.old store.old out.old (length said.old))
        × (at.new ≡ turn_at_c state.old text.now at.old last rows.old store.old out.old (length said.old))
        × (rows.new ≡ turn_rows_c state.old text.now at.old last rows.old store.old out.old (length said.old))
        × (store.new ≡ turn_store_c state.old text.now at.old last rows.old store.old out.old (length said.old))
        × (out.new ≡ turn_out_c state.old text.now at.old last rows.old store.old out.old (length said.old))
        × (said.new ≡ turn_said_c state.old text.now at.old last rows.old store.old out.old said.old)
        × (written.new ≡ turn_written_c state.old text.now at.old last rows.old store.old out.old (length said.old) written.old)
        × (wants.new ≡ turn_wants_c state.old text.now at.old last rows.old store.old out.old (length said.old) wants.old) }
{
    if state.len() != REPLAY_BYTES {
        return 9;
    }
    let from = *at;
    if text.len() < from {
        return 9;
    }
    let replay = replay_of(state);
    let ended = is_last(last);
    let turn = replay_lines::turn(replay, text, from, ended, rows, store, out, said);
    if turn.answer != 0 {
        return turn.answer;
    }
    let after = turn.replay;
    put_replay(after, state);
    *at = turn.used;
    *written = turn.written;
    *wants = ground::one_if(turn.wants);
    0
}
