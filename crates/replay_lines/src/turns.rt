// One turn of a replay (2026-05): a line read, or a report fetched.
ghost use Rattle.std.specs.Prelude.{◌≡◌, ◌+◌, ◌-◌, ◌*◌, ◌≤◌, length, drop, replicate};
ghost use Rattle.std.proofs.Math.Seq.{slice};
ghost use Rattle.recording.specs.Later.{later};
ghost use Rattle.replay_lines.specs.Laws.Lent.{Lent};
ghost use Rattle.replay_lines.specs.Laws.Starts.{Small};
ghost use Rattle.replay_lines.specs.Output.{ROOM};
ghost use Rattle.replay_lines.specs.Turn.{answered_said, answered_turn, ended_turn, fetch_out_by, fetch_record_by, fetch_rows_by, fetched_said, fetched_turn, framed_turn, framed_rows, framed_store, is_lent, is_open, open_rows, open_said, open_turn, open_with_rows, open_with_said, open_with_turn, payload_at, placed, read_rows, read_said, read_store, read_turn, record_now, refused_turn, report_out, report_rows, report_said, report_turn, reported_turn, read_on_turn, rows_started, skip_turn, skipped_to, startable, started_turn, store_by, turn_of, turn_out, turn_rows, turn_said, turn_store, waiting_turn};
ghost use Rattle.rows.specs.Rows.{rows_for};
ghost use Rattle.text.specs.Fields.{bytes_in};

use crate::replay::{Phase, Replay};
use crate::{changes, lent, output, replay};
use recording::{Opening, Record, Settings};
use rows::group;

// What a turn has done. answer: 0, or 9 where what is lent is too short, and then nothing is done. used: how many bytes of the text are used
// now, the place to which it has come. wants: nothing more can be done without more of the text.
#[derive(Clone, Copy)]
pub struct Replayed {
    pub replay: Replay,
    pub answer: u8,
    pub used: usize,
    pub written: usize,
    pub wants: bool,
}

// Room for what one turn writes.
pub const REPLAY_ROOM: usize = 1219;

// Rows for 64 ports.
const ROWS_MOST: usize = 321;

// The longest payload.
const SIZE_MOST: u16 = 2340;

fn refused(replay: Replay, at: usize) -> Replayed
    ensures { result ≡ placed at (refused_turn replay) }
{
    Replayed {
        replay,
        answer: 9,
        used: at,
        written: 0,
        wants: true,
    }
}

fn waiting(replay: Replay, at: usize) -> Replayed
    ensures { result ≡ placed at (waiting_turn replay) }
{
    Replayed {
        replay,
        answer: 0,
        used: at,
        written: 0,
        wants: true,
    }
}

// A line refused, and what comes then.
fn answered(replay: Replay, phase: Phase, number: u8, used: usize, said: &mut [u8]) -> Replayed
    requires { ROOM ≤ length said.old }
    ensures { (result ≡ answered_turn replay phase number used) × (said.new ≡ answered_said replay number said.old) }
{
    let line = replay::next_line(replay.line);
    let written = output::put_answer(number, line, said);
    Replayed {
        replay: Replay {
            phase,
            line,
            left: 0,
            ..replay
        },
        answer: 0,
        used,
        written,
        wants: false,
    }
}

// Settings in range, and a store that is lent.
fn is_startable(settings: Settings, store: usize) -> bool
    ensures { result ≡ startable settings store }
{
    if !phases::is_startable(
        settings.kind,
        settings.ports,
        settings.size,
        settings.window,
    ) {
        return false;
    }
    let times = lent::times_fit(settings);
    let bytes = replay::store_of(
        settings.ports as u8,
        settings.size as u16,
        settings.window as u16,
    );
    times & (bytes <= store)
}

// The group's receiver is started.
fn open_as(replay: Replay, settings: Settings, next: usize, rows: &mut [[u8; 16]]) -> Replayed
    requires { Small settings × (321 ≤ length rows.old) }
    ensures { (result ≡ started_turn replay settings next) × (rows.new ≡ rows_started settings rows.old) }
{
    let ports = settings.ports as u8;
    let size = settings.size as u16;
    let window = settings.window as u16;
    let bytes = replay::store_of(ports, size, window);
    let n = group::rows_for(ports);
    lent::start(settings, bytes, rows, n);
    let line = replay::next_line(replay.line);
    Replayed {
        replay: Replay {
            phase: Phase::Reading,
            line,
            left: 0,
            kind: settings.kind,
            ports,
            size,
            window,
        },
        answer: 0,
        used: next,
        written: 0,
        wants: false,
    }
}

fn open_with(
    replay: Replay,
    settings: Settings,
    at: usize,
    next: usize,
    rows: &mut [[u8; 16]],
    store: usize,
    said: &mut [u8],
) -> Replayed
    requires { (ROOM ≤ length said.old) × (321 ≤ length rows.old) × (at ≤ next) }
    ensures { (result ≡ placed at (open_with_turn replay settings (next - at) store))
        × (rows.new ≡ open_with_rows settings store rows.old)
        × (said.new ≡ open_with_said replay settings store said.old) }
{
    if is_startable(settings, store) {
        return open_as(replay, settings, next, rows);
    }
    answered(replay, Phase::Ended, 4, at, said)
}

// The first line.
fn open(
    replay: Replay,
    text: &[u8],
    at: usize,
    last: bool,
    rows: &mut [[u8; 16]],
    store: usize,
    said: &mut [u8],
) -> Replayed
    ensures { (result ≡ placed at (open_turn replay (drop at text.now) last (length rows.old) store (length said.old)))
        × (rows.new ≡ open_rows (drop at text.now) last rows.old store (length said.old))
        × (said.new ≡ open_said replay (drop at text.now) last (length rows.old) store said.old) }
{
    if said.len() < REPLAY_ROOM || rows.len() < ROWS_MOST {
        return refused(replay, at);
    }
    match recording::opening_at(text, at, last) {
        Opening::Settings(settings, next) => {
            open_with(replay, settings, at, next, rows, store, said)
        }
        Opening::Malformed => answered(replay, Phase::Ended, 13, at, said),
        Opening::Unfinished | Opening::End => waiting(replay, at),
    }
}

// The store of a group that starts is cleared.
fn store_by(phase: Phase, store: &mut [u8])
    ensures { store.new ≡ store_by phase store.old }
{
    if let Phase::Reading = phase {
        store.fill(0);
    }
}

// The first line, with all that is lent for it.
fn open_all(
    replay: Replay,
    text: &[u8],
    at: usize,
    last: bool,
    rows: &mut [[u8; 16]],
    store: &mut [u8],
    said: &mut [u8],
) -> Replayed
    ensures { (result ≡ placed at (open_turn replay (drop at text.now) last (length rows.old) (length store.old) (length said.old)))
        × (rows.new ≡ open_rows (drop at text.now) last rows.old (length store.old) (length said.old))
        × (store.new ≡ store_by (open_turn replay (drop at text.now) last (length rows.old) (length store.old) (length said.old)).replay.phase store.old)
        × (said.new ≡ open_said replay (drop at text.now) last (length rows.old) (length store.old) said.old) }
{
    let done = open(replay, text, at, last, rows, store.len(), said);
    store_by(done.replay.phase, store);
    done
}

// What is lent is long enough for the receiver and for what is printed.
fn is_lent(replay: Replay, rows: usize, store: usize, out: usize, said: usize) -> bool
    ensures { result ≡ is_lent replay rows store out said }
{
    let n = group::rows_for(replay.ports);
    let m = replay::store_of(replay.ports, replay.size, replay.window);
    let o = replay::output_of(replay.kind, replay.ports, replay.size);
    (REPLAY_ROOM <= said)
        & (replay.ports <= 64)
        & (replay.size <= SIZE_MOST)
        & (n <= rows)
        & (m <= store)
        & (o <= out)
}

fn is_open(found: Record) -> bool
    ensures { result ≡ is_open found }
{
    matches!(found, Record::Unfinished)
}

// The record at a place of a text; the last line may lack its end.
fn record_now(text: &[u8], at: usize, last: bool, ports: u8, size: u16) -> Record
    ensures { result ≡ later at (record_now ports size last (drop at text.now)) }
{
    let found = recording::record_at(text, at, ports as u32, size as u32);
    if is_open(found) & last {
        return recording::last_record(text, at, ports as u32, size as u32);
    }
    found
}

// The payload's digits as bytes.
fn read_payload(text: &[u8], place: usize, payload: &mut [u8])
    requires { length payload.old ≤ 2340 }
    ensures { payload.new ≡ bytes_in (slice place (place + length payload.old + length payload.old) text.now) payload.old }
{
    let n = payload.len();
    if place <= text.len() {
        text::read_bytes(text::field(text, place, place + n + n), payload);
    }
}

// Room for a payload of at most 64 bytes, and for any.
fn few_zeros() -> [u8; 64]
    ensures { result ≡ replicate 64 0 }
{
    [0u8; 64]
}

fn zeros() -> [u8; 2340]
    ensures { result ≡ replicate 2340 0 }
{
    [0u8; 2340]
}

// A frame handed to the receiver on the parts of rows and store that are its own. Its bytes are read into lent zeros.
fn hand(
    replay: Replay,
    text: &[u8],
    port: u32,
    h4: u8,
    flag: bool,
    place: usize,
    payload: &mut [u8],
    rows: &mut [[u8; 16]],
    store: &mut [u8],
)
    requires { (replay.size ≤ 2340) × (payload.old ≡ replicate replay.size 0) × (rows_for replay.ports ≤ length rows.old) × (replay.ports * replay.window * (replay.size + 1) ≤ length store.old) }
    ensures { (rows.new ≡ framed_rows replay port h4 flag (payload_at replay.size place text.now) rows.old store.old)
        × (store.new ≡ framed_store replay port h4 flag (payload_at replay.size place text.now) rows.old store.old) }
{
    read_payload(text, place, payload);
    let n = group::rows_for(replay.ports);
    let m = replay::store_of(replay.ports, replay.size, replay.window);
    receiver::frame(&mut rows[..n], port, flag, h4, payload, &mut store[..m]);
}

// A frame handed to the receiver. Clearing room for the longest payload would take some 7 % of the time of a short line.
fn take_frame(
    replay: Replay,
    text: &[u8],
    port: u32,
    h4: u8,
    flag: bool,
    place: usize,
    rows: &mut [[u8; 16]],
    store: &mut [u8],
)
    requires { (replay.size ≤ 2340) × (rows_for replay.ports ≤ length rows.old) × (replay.ports * replay.window * (replay.size + 1) ≤ length store.old) }
    ensures { (rows.new ≡ framed_rows replay port h4 flag (payload_at replay.size place text.now) rows.old store.old)
        × (store.new ≡ framed_store replay port h4 flag (payload_at replay.size place text.now) rows.old store.old) }
{
    let size = replay.size as usize;
    if size <= 64 {
        let mut few = few_zeros();
        hand(
            replay,
            text,
            port,
            h4,
            flag,
            place,
            &mut few[..size],
            rows,
            store,
        );
        return;
    }
    let mut payload = zeros();
    hand(
        replay,
        text,
        port,
        h4,
        flag,
        place,
        &mut payload[..size],
        rows,
        store,
    );
}

fn framed(replay: Replay, next: usize) -> Replayed
    ensures { result ≡ framed_turn replay next }
{
    let line = replay::next_line(replay.line);
    Replayed {
        replay: Replay {
            phase: Phase::Fetching,
            line,
            left: replay.window,
            ..replay
        },
        answer: 0,
        used: next,
        written: 0,
        wants: false,
    }
}

// The end of a text, or the place where that lies behind it.
fn end_behind(text: &[u8], at: usize) -> usize
    ensures { result ≡ at + length (drop at text.now) }
{
    text.len().max(at)
}

// A line.
fn read(
    replay: Replay,
    text: &[u8],
    at: usize,
    last: bool,
    rows: &mut [[u8; 16]],
    store: &mut [u8],
    out: usize,
    said: &mut [u8],
) -> Replayed
    ensures { (result ≡ placed at (read_turn replay (drop at text.now) last (length rows.old) (length store.old) out (length said.old)))
        × (rows.new ≡ read_rows replay (drop at text.now) last rows.old store.old out (length said.old))
        × (store.new ≡ read_store replay (drop at text.now) last rows.old store.old out (length said.old))
        × (said.new ≡ read_said replay (drop at text.now) last (length rows.old) (length store.old) out said.old) }
{
    if !is_lent(replay, rows.len(), store.len(), out, said.len()) {
        return refused(replay, at);
    }
    match record_now(text, at, last, replay.ports, replay.size) {
        Record::Frame {
            port,
            h4,
            flag,
            place,
            next,
        } => {
            take_frame(replay, text, port, h4, flag, place, rows, store);
            framed(replay, next)
        }
        Record::Malformed { next } => answered(replay, Phase::Reading, 13, next, said),
        Record::Long => answered(replay, Phase::Skipping, 13, end_behind(text, at), said),
        Record::Unfinished | Record::End => waiting(replay, at),
    }
}

// No report is due: the next line may come.
fn read_on(replay: Replay, at: usize) -> Replayed
    ensures { result ≡ placed at (read_on_turn replay) }
{
    Replayed {
        replay: Replay {
            phase: Phase::Reading,
            left: 0,
            ..replay
        },
        answer: 0,
        used: at,
        written: 0,
        wants: false,
    }
}

fn reported(replay: Replay, at: usize, written: usize) -> Replayed
    requires { 1 ≤ replay.left }
    ensures { result ≡ placed at (reported_turn replay written) }
{
    Replayed {
        replay: Replay {
            phase: Phase::Fetching,
            left: replay.left - 1,
            ..replay
        },
        answer: 0,
        used: at,
        written,
        wants: false,
    }
}

// A fetch of one report on the receiver's own parts.
fn fetch(replay: Replay, rows: &mut [[u8; 16]], store: &[u8], out: &mut [u8]) -> [u8; 8]
    requires { (rows_for replay.ports ≤ length rows.old) × (replay.ports * replay.window * (replay.size + 1) ≤ length store.now) }
    ensures { (result ≡ fetch_record_by replay rows.old store.now out.old)
        × (rows.new ≡ fetch_rows_by replay rows.old store.now out.old)
        × (out.new ≡ fetch_out_by replay rows.old store.now out.old) }
{
    let mut given = [0u8; 8];
    let n = group::rows_for(replay.ports);
    let m = replay::store_of(replay.ports, replay.size, replay.window);
    lent::fetch(rows, n, store, m, out, &mut given);
    given
}

// A fetch, and its report with the states that it changed.
fn report_now(
    replay: Replay,
    at: usize,
    rows: &mut [[u8; 16]],
    store: &[u8],
    out: &mut [u8],
    said: &mut [u8],
) -> Replayed
    requires { Lent replay (length rows.old) (length store.now) (length out.old) (length said.old) × (1 ≤ replay.left) }
    ensures { (result ≡ placed at (fetched_turn replay rows.old store.now out.old))
        × (rows.new ≡ fetch_rows_by replay rows.old store.now out.old)
        × (out.new ≡ fetch_out_by replay rows.old store.now out.old)
        × (said.new ≡ fetched_said replay rows.old store.now out.old said.old) }
{
    let before = changes::states_in(replay.kind, rows);
    let n = group::rows_for(replay.ports);
    let blamed = lent::blamed(rows, n);
    let given = fetch(replay, rows, store, out);
    if given[0] == 0 {
        return read_on(replay, at);
    }
    let after = changes::states_in(replay.kind, rows);
    let written = changes::put_report(
        given,
        blamed,
        replay.line,
        before,
        after,
        replay.ports,
        said,
    );
    reported(replay, at, written)
}

// A report, if one is due. Most frames make none due, and the states are then not looked at.
fn report(
    replay: Replay,
    at: usize,
    rows: &mut [[u8; 16]],
    store: &[u8],
    out: &mut [u8],
    said: &mut [u8],
) -> Replayed
    ensures { (result ≡ placed at (report_turn replay rows.old store.now out.old (length said.old)))
        × (rows.new ≡ report_rows replay rows.old store.now out.old (length said.old))
        × (out.new ≡ report_out replay rows.old store.now out.old (length said.old))
        × (said.new ≡ report_said replay rows.old store.now out.old said.old) }
{
    if !is_lent(replay, rows.len(), store.len(), out.len(), said.len()) {
        return refused(replay, at);
    }
    if replay.left == 0 {
        return read_on(replay, at);
    }
    let n = group::rows_for(replay.ports);
    if lent::is_due(rows, n) {
        return report_now(replay, at, rows, store, out, said);
    }
    read_on(replay, at)
}

// The rest of a line that is too long.
fn skip(replay: Replay, text: &[u8], at: usize, last: bool) -> Replayed
    ensures { result ≡ placed at (skip_turn replay (drop at text.now) last) }
{
    let end = text::piece_end(text, at, text.len(), b'\n');
    if end < text.len() {
        return Replayed {
            replay: Replay {
                phase: Phase::Reading,
                left: 0,
                ..replay
            },
            answer: 0,
            used: end + 1,
            written: 0,
            wants: false,
        };
    }
    let phase = skipped_to(last);
    Replayed {
        replay: Replay {
            phase,
            left: 0,
            ..replay
        },
        answer: 0,
        used: end,
        written: 0,
        wants: true,
    }
}

fn skipped_to(last: bool) -> Phase
    ensures { result ≡ skipped_to last }
{
    if last {
        Phase::Reading
    } else {
        Phase::Skipping
    }
}

// The first line was refused: the rest is swallowed.
fn swallow(replay: Replay, text: &[u8], at: usize) -> Replayed
    ensures { result ≡ placed at (ended_turn replay (length (drop at text.now))) }
{
    Replayed {
        replay,
        answer: 0,
        used: end_behind(text, at),
        written: 0,
        wants: true,
    }
}

// One turn on a text from a place on. The text stays where it is lent, and the place to which it has come is handed back. Rows are lent for 64 ports, and as much store as may be; `out` takes a report's bytes, `said` what is
// printed.
pub fn turn(
    replay: Replay,
    text: &[u8],
    at: usize,
    last: bool,
    rows: &mut [[u8; 16]],
    store: &mut [u8],
    out: &mut [u8],
    said: &mut [u8],
) -> Replayed
    ensures { (result ≡ placed at (turn_of replay (drop at text.now) last rows.old store.old out.old (length said.old)))
        × (rows.new ≡ turn_rows replay (drop at text.now) last rows.old store.old out.old (length said.old))
        × (store.new ≡ turn_store replay (drop at text.now) last rows.old store.old out.old (length said.old))
        × (out.new ≡ turn_out replay rows.old store.old out.old (length said.old))
        × (said.new ≡ turn_said replay (drop at text.now) last rows.old store.old out.old said.old) }
{
    match replay.phase {
        Phase::Settings => open_all(replay, text, at, last, rows, store, said),
        Phase::Reading => read(replay, text, at, last, rows, store, out.len(), said),
        Phase::Fetching => report(replay, at, rows, store, out, said),
        Phase::Skipping => skip(replay, text, at, last),
        Phase::Ended => swallow(replay, text, at),
    }
}
