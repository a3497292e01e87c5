// VC-12 (request 2026-01): three packets written as a frame's byte each and read again; and a port of 130 frames with P 136, which are too many for
// a proof to compute.
use crate::show;
use packet::kinds::VC12;
use packet::{Fields, Word};

pub(crate) fn run(rt: &impl Print) {
    row(
        rt,
        b"row\tVC-12 IDLE 63 epoch  0 gid 0 mst FF ack 0\t",
        fields(0, Word::IDLE, 0, 255, 0, 63),
    );
    row(
        rt,
        b"row\tVC-12 EOS   0 epoch  1 gid 1 mst FF ack 0\t",
        fields(1, Word::EOS, 1, 255, 0, 0),
    );
    row(
        rt,
        b"row\tVC-12 NORM 63 epoch 31 gid 1 mst 00 ack 1\t",
        fields(31, Word::NORM, 1, 0, 1, 63),
    );
    receive(rt);
}

fn fields(epoch: u8, word: Word, gid: u8, mst: u8, rs_ack: u8, sq: u8) -> Fields {
    Fields {
        epoch,
        word,
        gid,
        mst,
        rs_ack,
        sq,
        reserved: 0,
    }
}

fn written(fields: Fields) -> [u8; 32] {
    let mut frames = [0u8; 32];
    let _ = packet::write_vc12(fields, &mut frames);
    frames
}

fn is_read_as(frames: [u8; 32], fields: Fields) -> bool {
    packet::read_vc12(&frames).is_ok_and(|found| found == fields)
}

fn row(rt: &impl Print, words: &[u8], fields: Fields) {
    show::text(rt, words);
    let frames = written(fields);
    show::small(rt, &frames);
    show::either(
        rt,
        is_read_as(frames, fields),
        b"\tread as given\n",
        b"\tNOT read as given\n",
    );
}

fn receive(rt: &impl Print) {
    let mut state = [[0u8; 16]; 6];
    let mut store = [0u8; 4384];
    let answer = receiver::start(VC12, 1, 136, 32, 4384, &mut state);
    show::named(rt, b"ports\t1 VC-12\tstart ", answer as u16);
    show::end_line(rt);
    let steady = send(rt, &mut state, &mut store);
    show::named(rt, b"frames\t130\tin step ", steady);
    show::end_line(rt);
}

// Packets 5, 6, 7, 8 and the first two frames of 9, reports fetched behind each frame: how many were in step.
fn send(rt: &impl Print, state: &mut [[u8; 16]], store: &mut [u8]) -> u16 {
    let mut steady: u16 = 0;
    for i in 0..130 {
        steady = steady.wrapping_add(frame(160 + i, state, store));
        fetch(rt, i + 1, state, store);
    }
    steady
}

// One where the frame is answered 0.
fn frame(tag: u16, state: &mut [[u8; 16]], store: &mut [u8]) -> u16 {
    let epoch = (tag / 32 % 32) as u8;
    let sent = written(fields(epoch, Word::EOS, 0, 255, 0, 0));
    let place = tag as usize % 32;
    let byte = sent[place];
    let told = (tag % 256) as u8;
    let payload = [told; 136];
    let answer = receiver::frame(state, 0, false, byte, &payload, store);
    u16::from(answer == 0)
}

fn fetch(rt: &impl Print, frames: u16, state: &mut [[u8; 16]], store: &[u8]) {
    let mut out = [0u8; 4352];
    let mut report = [0u8; 8];
    receiver::fetch(state, store, &mut out, &mut report);
    if report[0] != 0 {
        show::named(rt, b"report\tbehind frame ", frames);
        show::report(rt, report);
        show::byte(rt, b"\tfirst ", out[0]);
        show::byte(rt, b"\tlast ", out[4351]);
        show::end_line(rt);
    }
}
