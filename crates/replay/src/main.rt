// Replays a recording (2026-05) and prints what its receiver reports: the files that the arguments name, each a part of one recording and '-'
// standard input, or standard input where none is named.
#![tactic(auto)]

ghost use Rattle.std.specs.Prelude.{◌≡◌, ◌≤◌, length};
ghost use Rattle.replay_lines.specs.Deeds.{Carried, desk_with};
ghost use Rattle.replay_lines.specs.Replay.{STORE};

use replay_lines::Replay;
use std::env::FillError;
use std::fs::File;
use std::io;
use std::io::Read;
use std::rt::Env;

// Rows for 64 ports, the most that a recording can name: the group's own, and five to a port.
const ROWS_MOST: usize = 321;

// 'a store above 65,536 bytes in the program' is 4. No other length is lent: `run_file` asks for STORE.
const STORE_BYTES: usize = 65536;

// at: the place of the text to which it has come. wrote: whether what it prints could be written.
#[derive(Clone, Copy)]
struct Done {
    replay: Replay,
    at: usize,
    goes_on: bool,
    wrote: bool,
}

fn at_most(n: usize, most: usize) -> usize
    ensures { result ≤ most }
{
    if n < most { n } else { most }
}

// One turn on a text from a place on, and what it prints. Where that cannot be written there is nobody to go on for.
// Each function below gives the replay that it is handed, with its rows and its store, carried on by turns alone.
fn take_turn(
    rt: &impl Print,
    replay: Replay,
    text: &[u8],
    at: usize,
    last: bool,
    rows: &mut [[u8; 16]],
    store: &mut [u8],
    out: &mut [u8],
    said: &mut [u8],
) -> Done
    ensures at { result.at ≤ length text.now }
    ensures carried { Carried (desk_with replay rows.old store.old) (desk_with result.replay rows.new store.new) }
{
    let turn = replay_lines::turn(replay, text, at, last, rows, store, out, said);
    let after = turn.replay;
    let written = at_most(turn.written, said.len());
    let wrote = rt.write_all(&said[..written]).is_ok();
    Done {
        replay: after,
        at: at_most(turn.used, text.len()),
        goes_on: wrote & !turn.wants,
        wrote,
    }
}

// A text until more of it is wanted. A proved loop has to end, and nothing says that its input does: turns are counted up to a number that
// no run uses up.
fn run_text(
    rt: &impl Print,
    replay: Replay,
    text: &[u8],
    last: bool,
    rows: &mut [[u8; 16]],
    store: &mut [u8],
    out: &mut [u8],
) -> Done
    ensures at { result.at ≤ length text.now }
    ensures carried { Carried (desk_with replay rows.old store.old) (desk_with result.replay rows.new store.new) }
{
    let mut said = [0u8; 4096];
    let mut now = replay;
    let mut at = 0;
    let mut goes_on = true;
    let mut wrote = true;
    for _ in 0..u64::MAX {
        let turn = take_turn(rt, now, text, at, last, rows, store, out, &mut said);
        let next = turn.replay;
        now = next;
        at = turn.at;
        goes_on = turn.goes_on;
        wrote = turn.wrote;
        if !goes_on {
            break;
        }
    }
    Done {
        replay: now,
        at,
        goes_on,
        wrote,
    }
}

// What is left of a buffer's first bytes, moved to its front.
fn keep_rest(buffer: &mut [u8], from: usize, end: usize) -> usize
    requires { (from ≤ end) × (end ≤ length buffer.old) }
    ensures { result ≤ length buffer.old }
{
    buffer.copy_within(from..end, 0);
    end - from
}

// The first bytes of a buffer as a text.
fn run_front(
    rt: &impl Print,
    replay: Replay,
    buffer: &[u8],
    end: usize,
    last: bool,
    rows: &mut [[u8; 16]],
    store: &mut [u8],
    out: &mut [u8],
) -> Done
    requires { end ≤ length buffer.now }
    ensures { Carried (desk_with replay rows.old store.old) (desk_with result.replay rows.new store.new) }
{
    run_text(rt, replay, &buffer[..end], last, rows, store, out)
}

// Reads until the buffer is full or the input ends, and says how many bytes that gave. Where a read fails there is no more input.
fn read_full(from: &mut impl Read, buffer: &mut [u8]) -> usize
    ensures { result ≤ length buffer.new }
{
    let mut done = 0;
    while done < buffer.len() {
        match from.read(&mut buffer[done..]) {
            Ok(0) | Err(_) => break,
            Ok(n) => done += n,
        }
    }
    done
}

#[derive(Clone, Copy)]
struct Part {
    replay: Replay,
    kept: usize,
    goes_on: bool,
}

// A part of a file behind what is kept of it.
fn run_some(
    rt: &impl Print,
    from: &mut impl Read,
    replay: Replay,
    kept: usize,
    buffer: &mut [u8],
    rows: &mut [[u8; 16]],
    store: &mut [u8],
    out: &mut [u8],
) -> Part
    requires { kept ≤ length buffer.old }
    ensures kept { result.kept ≤ length buffer.old }
    ensures carried { Carried (desk_with replay rows.old store.old) (desk_with result.replay rows.new store.new) }
{
    let got = read_full(from, &mut buffer[kept..]);
    let end = at_most(kept + got, buffer.len());
    let last = got == 0;
    let done = run_front(rt, replay, buffer, end, last, rows, store, out);
    let after = done.replay;
    let used = at_most(done.at, end);
    Part {
        replay: after,
        kept: keep_rest(buffer, used, end),
        goes_on: done.wrote & !last,
    }
}

// A whole file; its last line may lack its end.
fn run_file(
    rt: &impl Print,
    from: &mut impl Read,
    replay: Replay,
    rows: &mut [[u8; 16]],
    store: &mut [u8],
    out: &mut [u8],
) -> Replay
    requires { length store.old ≡ STORE }
    ensures { Carried (desk_with replay rows.old store.old) (desk_with result rows.new store.new) }
{
    let mut buffer = [0u8; 65536];
    let mut now = replay;
    let mut kept = 0;
    for _ in 0..u64::MAX {
        let part = run_some(rt, from, now, kept, &mut buffer, rows, store, out);
        let next = part.replay;
        now = next;
        kept = part.kept;
        if !part.goes_on {
            break;
        }
    }
    now
}

// How many arguments there are, the program's own name among them.
fn argument_count(rt: &impl Env) -> usize {
    let mut word = [0u8; 4096];
    for i in 0..usize::MAX {
        if let Err(FillError::NotPresent) = rt.arg(i, &mut word) {
            return i;
        }
    }
    usize::MAX
}

// An argument at a buffer's front: how many bytes it has, or 0 where it is longer than the buffer.
fn argument(rt: &impl Env, place: usize, word: &mut [u8]) -> usize
    ensures { result ≤ length word.new }
{
    match rt.arg(place, word) {
        Ok(length) => length,
        Err(_) => 0,
    }
}

fn is_standard_input(path: &[u8]) -> bool {
    if path.len() == 1 {
        return path[0] == b'-';
    }
    false
}

// A line to standard error: what could not be read, and the system's words for why, without their number.
fn fail(rt: &HostRuntime, path: &[u8], error: io::Error) {
    let _ = rt.stderr().write_all(path);
    let _ = match format!(in rt.alloc(); "{error}") {
        Ok(said) => match said.split_once(" (os error ") {
            Some((words, _)) => eprintln!(rt; ": {words}"),
            None => eprintln!(rt; ": {said}"),
        },
        Err(_) => eprintln!(rt; ": {error}"),
    };
}

// A file to read. Its name has to be UTF-8.
fn open_to_read(rt: &HostRuntime, path: &[u8]) -> io::Result<File> {
    match str::from_utf8(path) {
        Ok(name) => File::open(rt, name),
        Err(_) => Err(io::Error::new(io::ErrorKind::InvalidInput, "the name is not UTF-8")),
    }
}

// The file that an argument names. One that cannot be read is passed over.
fn run_named(
    rt: &HostRuntime,
    replay: Replay,
    place: usize,
    rows: &mut [[u8; 16]],
    store: &mut [u8],
    out: &mut [u8],
) -> Replay
    requires { length store.old ≡ STORE }
    ensures { Carried (desk_with replay rows.old store.old) (desk_with result rows.new store.new) }
{
    let mut path = [0u8; 4096];
    let length = argument(rt, place, &mut path);
    if is_standard_input(&path[..length]) {
        return run_file(rt, &mut rt.stdin(), replay, rows, store, out);
    }
    match open_to_read(rt, &path[..length]) {
        Ok(mut file) => run_file(rt, &mut file, replay, rows, store, out),
        Err(error) => {
            fail(rt, &path[..length], error);
            replay
        }
    }
}

// The files that the arguments name, one behind the other.
fn run_all(
    rt: &HostRuntime,
    replay: Replay,
    count: usize,
    rows: &mut [[u8; 16]],
    store: &mut [u8],
    out: &mut [u8],
) -> Replay
    requires { length store.old ≡ STORE }
    ensures { Carried (desk_with replay rows.old store.old) (desk_with result rows.new store.new) }
{
    let mut now = replay;
    for i in 1..count {
        let next = run_named(rt, now, i, rows, store, out);
        now = next;
    }
    now
}

fn main(rt: HostRuntime) {
    let mut rows = [[0u8; 16]; ROWS_MOST];
    let mut store = [0u8; STORE_BYTES];
    let mut out = [0u8; 65536];
    let count = argument_count(&rt);
    if count < 2 {
        run_file(
            &rt,
            &mut rt.stdin(),
            replay_lines::begin(),
            &mut rows,
            &mut store,
            &mut out,
        );
        return;
    }
    run_all(
        &rt,
        replay_lines::begin(),
        count,
        &mut rows,
        &mut store,
        &mut out,
    );
}
