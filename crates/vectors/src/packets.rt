// The rows of data/packets.txt, each with its fields and its sixteen H4 bytes in columns of their own: the fields are written and compared with
// the bytes, and the bytes are read and compared with the fields.
ghost use Rattle.std.specs.Prelude.{◌<◌};

use crate::{given, show, text};
use packet::Fields;

pub(crate) fn run(rt: &HostRuntime) {
    let mut file = [0u8; 8192];
    let n = text::read(rt, "packets.txt", &mut file);
    lines(rt, &file[..n]);
}

fn lines(rt: &impl Print, file: &[u8]) {
    for one in file.split(|byte| *byte == b'\n') {
        line(rt, one);
    }
}

// A line that is no whole row is passed over.
fn line(rt: &impl Print, line: &[u8]) {
    if line.len() < 134 {
        return;
    }
    if line[0] != b'H' {
        return;
    }
    show::text(rt, b"row\t");
    show::text(rt, &line[0..84]);
    row(rt, fields_in(line), bytes_in(line));
}

fn row(rt: &impl Print, fields: Fields, h4: [u8; 16]) {
    show::either(
        rt,
        is_written_as(fields, h4),
        b"\twritten as given",
        b"\tNOT written as given",
    );
    show::either(
        rt,
        given::is_read_as(h4, fields),
        b"\tread as given\n",
        b"\tNOT read as given\n",
    );
}

fn is_written_as(fields: Fields, h4: [u8; 16]) -> bool {
    given::written(fields) == h4
}

fn fields_in(line: &[u8]) -> Fields {
    Fields {
        epoch: text::number_at(line, 26),
        word: text::word_at(line, 30),
        gid: text::digit(text::column(line, 46)),
        mst: byte_at(line, 52),
        rs_ack: text::digit(text::column(line, 59)),
        sq: text::number_at(line, 38),
        reserved: reserved_at(line, 70),
    }
}

// Seven hex digits.
fn reserved_at(line: &[u8], at: usize) -> u32
    requires { at < 900 }
{
    let first = text::digit(text::column(line, at)) as u32;
    let second = byte_at(line, at + 1) as u32;
    let third = byte_at(line, at + 3) as u32;
    let last = byte_at(line, at + 5) as u32;
    first * 16777216 + second * 65536 + third * 256 + last
}

fn bytes_in(line: &[u8]) -> [u8; 16] {
    let mut bytes = [0u8; 16];
    for i in 0..16 {
        bytes[i] = byte_at(line, 87 + 3 * i);
    }
    bytes
}

fn byte_at(line: &[u8], at: usize) -> u8
    requires { at < 1000 }
{
    let high = text::digit(text::column(line, at));
    let low = text::digit(text::column(line, at + 1));
    high * 16 + low
}
