// A file of data, and the columns of its lines.
ghost use Rattle.std.specs.Prelude.{◌≡◌, ◌≤◌, ◌<◌, length, take};

use packet::Word;
use std::{fs, io};

// A file of data: how many bytes it has.
pub(crate) fn read(rt: &HostRuntime, path: &str, file: &mut [u8]) -> usize
    ensures in_bounds { result ≤ length file.new }
    ensures prefix { result ≡ length (take result file.new) }
{
    match fs::read(rt, path) {
        Ok(bytes) => put(bytes.as_slice(), file),
        Err(error) => {
            fail(rt, path, error);
            0
        }
    }
}

// Bytes at a buffer's front, as many as it has room for: how many those are.
fn put(bytes: &[u8], buffer: &mut [u8]) -> usize
    ensures { result ≤ length buffer.new }
{
    let n = bytes.len().min(buffer.len());
    buffer[..n].copy_from_slice(&bytes[..n]);
    n
}

// A line to standard error: what could not be read, and the system's words for why, without their number.
fn fail(rt: &HostRuntime, path: &str, error: io::Error) {
    let _ = match format!(in rt.alloc(); "{error}") {
        Ok(said) => match said.split_once(" (os error ") {
            Some((words, _)) => eprintln!(rt; "{path}: {words}"),
            None => eprintln!(rt; "{path}: {said}"),
        },
        Err(_) => eprintln!(rt; "{path}: {error}"),
    };
}

// The byte in a column; 0 behind the line's end.
pub(crate) fn column(line: &[u8], at: usize) -> u8 {
    if at < line.len() { line[at] } else { 0 }
}

// No two of the words begin alike.
pub(crate) fn word_at(line: &[u8], at: usize) -> Word {
    match column(line, at) {
        b'A' => Word::ADD,
        b'N' => Word::NORM,
        b'E' => Word::EOS,
        b'I' => Word::IDLE,
        b'D' => Word::DNU,
        _ => Word::FIXED,
    }
}

// The value of a digit in either base; 0 of the spaces before a number.
pub(crate) fn digit(byte: u8) -> u8
    ensures { result < 16 }
{
    match byte {
        b'0'..=b'9' => byte - b'0',
        b'A'..=b'F' => byte - b'A' + 10,
        _ => 0,
    }
}

// Three columns of decimal digits, with spaces before them.
pub(crate) fn number_at(line: &[u8], at: usize) -> u8
    requires { at < 1000 }
{
    let hundreds = digit(column(line, at)) as u16;
    let tens = digit(column(line, at + 1)) as u16;
    let ones = digit(column(line, at + 2)) as u16;
    ((hundreds * 100 + tens * 10 + ones) % 256) as u8
}
