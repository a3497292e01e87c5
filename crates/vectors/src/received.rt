// The rows of data/receiver.txt: what ports send in some epochs, and what the receiver then says of the last one, of the ports and to the far end.

use crate::link::{Lent, Sent};
use crate::{link, show, text};
use packet::kinds::H4;
use packet::{Word, kinds};
use reply::Port;
use rows::group;

// The group that a row is about: how many ports it has, and the epoch that comes next.
#[derive(Clone, Copy)]
struct At {
    ports: u8,
    epoch: u8,
}

pub(crate) fn run(rt: &HostRuntime) {
    let mut file = [0u8; 4096];
    let n = text::read(rt, "receiver.txt", &mut file);
    let mut state = [[0u8; 16]; 51];
    let mut store = [0u8; 480];
    lines(rt, &file[..n], &mut state, &mut store);
}

fn lines(rt: &impl Print, file: &[u8], state: &mut [[u8; 16]], store: &mut [u8]) {
    let mut at = At { ports: 0, epoch: 0 };
    for one in file.split(|byte| *byte == b'\n') {
        at = line(rt, one, at, state, store);
    }
}

// A group is lent as many rows and as much store as it asks for.
fn line(rt: &impl Print, line: &[u8], before: At, state: &mut [[u8; 16]], store: &mut [u8]) -> At {
    let at = at_line(line, before);
    let rows = group::rows_for(at.ports);
    let bytes = at.ports as usize * 48;
    if state.len() < rows || store.len() < bytes {
        return before;
    }
    let mut lent = Lent {
        state: &mut state[..rows],
        store: &mut store[..bytes],
    };
    row(rt, line, at, &mut lent);
    counted_on(line, at)
}

// A line of ports is about a group of its own.
fn at_line(line: &[u8], before: At) -> At {
    if text::column(line, 0) == b'p' {
        return At {
            ports: text::number_at(line, 7),
            epoch: 0,
        };
    }
    before
}

// A line of epochs takes so many.
fn counted_on(line: &[u8], at: At) -> At {
    if text::column(line, 0) == b'e' {
        return At {
            epoch: at.epoch.wrapping_add(text::number_at(line, 7)),
            ..at
        };
    }
    at
}

// A line that begins otherwise is passed over.
fn row(rt: &impl Print, line: &[u8], at: At, lent: &mut Lent<'_>) {
    match text::column(line, 0) {
        b'p' => start(rt, line, at.ports, lent),
        b'e' => epochs(rt, line, at, lent),
        b'r' => reply(rt, line, lent),
        _ => {}
    }
}

fn start(rt: &impl Print, line: &[u8], ports: u8, lent: &mut Lent<'_>) {
    show::text(rt, line);
    let answer = receiver::start(
        H4,
        ports as u32,
        link::PAYLOAD,
        16,
        lent.store.len(),
        lent.state,
    );
    show::named(rt, b"\tstart ", answer as u16);
    show::end_line(rt);
}

fn reply(rt: &impl Print, line: &[u8], lent: &Lent<'_>) {
    show::text(rt, line);
    let [mst, rs_ack] = lent.reply(text::number_at(line, 7));
    show::byte(rt, b"\tMST ", mst);
    show::named(rt, b"\tRS-Ack ", rs_ack as u16);
    show::end_line(rt);
}

fn epochs(rt: &impl Print, line: &[u8], at: At, lent: &mut Lent<'_>) {
    show::text(rt, line);
    let mut out = [0u8; 320];
    let mut report = [0u8; 8];
    let turns = turns_in(line, at, lent, &mut out, &mut report);
    show_states(rt, lent.state, at.ports);
    let [mst, _] = lent.reply(0);
    show::byte(rt, b"\tMST ", mst);
    show::named(rt, b"\tturns ", turns as u16);
    show::report(rt, report);
    show_frame(rt, report[2], &out);
    show::end_line(rt);
}

// The epochs of a line, each one fetched: how often RS-Ack turned.
fn turns_in(line: &[u8], at: At, lent: &mut Lent<'_>, out: &mut [u8], report: &mut [u8]) -> u8 {
    let mut turns = 0;
    for i in 0..text::number_at(line, 7) {
        let epoch = at.epoch.wrapping_add(i);
        if has_turned(line, at.ports, epoch, lent, out, report) {
            turns += 1;
        }
    }
    turns
}

fn has_turned(
    line: &[u8],
    ports: u8,
    epoch: u8,
    lent: &mut Lent<'_>,
    out: &mut [u8],
    report: &mut [u8],
) -> bool {
    let [_, before] = lent.reply(0);
    send(line, ports, epoch, lent);
    lent.fetch(out, report);
    let [_, after] = lent.reply(0);
    before != after
}

// An epoch's frames, each tag to every port.
fn send(line: &[u8], ports: u8, epoch: u8, lent: &mut Lent<'_>) {
    let first = kinds::first_tag(H4, epoch);
    for i in 0..16 {
        send_tag(line, ports, link::tag_after(first, i), lent);
    }
}

fn send_tag(line: &[u8], ports: u8, tag: u16, lent: &mut Lent<'_>) {
    for port in 0..ports {
        lent.frame(port, sent_in(line, port), tag);
    }
}

// What a port sends: its word begins in the first of its seven columns.
fn sent_in(line: &[u8], port: u8) -> Sent {
    let at = port as usize * 7 + 11;
    let word = text::word_at(line, at);
    Sent {
        word,
        number: number_in(word, text::column(line, at + 5)),
        damaged: text::column(line, at + 6) == b'!',
        failed: text::column(line, at) == b'f',
    }
}

fn number_in(word: Word, column: u8) -> u8 {
    if word.0 == Word::IDLE.0 {
        255
    } else {
        text::digit(column)
    }
}

fn show_states(rt: &impl Print, state: &[[u8; 16]], ports: u8) {
    let mut seen = [[0u8; 8]; 10];
    let n = ports as usize;
    if n <= 10 {
        show_seen(rt, state, &mut seen[..n]);
    }
}

fn show_seen(rt: &impl Print, state: &[[u8; 16]], seen: &mut [[u8; 8]]) {
    show::text(rt, b"\tstates");
    receiver::ports(state, seen);
    for one in seen.iter() {
        show_state(rt, one[0]);
    }
}

fn show_state(rt: &impl Print, state: u8) {
    let word: &[u8] = match state {
        Port::OK => b" OK",
        Port::FAIL => b" FAIL",
        _ => b" IDLE",
    };
    show::text(rt, word);
}

// The last one of the sixteen group frames.
fn show_frame(rt: &impl Print, x: u8, out: &[u8]) {
    show::text(rt, b"\tframe");
    let bytes = x as usize * 2;
    if bytes * 16 <= out.len() {
        show::bytes(rt, &out[bytes * 15..bytes * 16]);
    }
}
