// What the program prints: words, numbers and bytes, to standard output. What cannot be written is left out: whoever compares the lines misses it.
pub(crate) fn text(rt: &impl Print, words: &[u8]) {
    let _ = rt.write_all(words);
}

pub(crate) fn end_line(rt: &impl Print) {
    text(rt, b"\n");
}

// Words, and a number after them.
pub(crate) fn named(rt: &impl Print, words: &[u8], number: u16) {
    text(rt, words);
    let _ = rt.print(number);
}

// A whole line of two such pairs.
pub(crate) fn pair(rt: &impl Print, words: &[u8], number: u16, then: &[u8], other: u16) {
    named(rt, words, number);
    named(rt, then, other);
    end_line(rt);
}

// Words, and a byte after them in two digits, in upper case as 01 and the rows have them.
pub(crate) fn byte(rt: &impl Print, words: &[u8], byte: u8) {
    text(rt, words);
    text(rt, &[digit(byte / 16), digit(byte % 16)]);
}

fn digit(nibble: u8) -> u8 {
    if nibble < 10 {
        nibble + b'0'
    } else {
        nibble % 16 + (b'A' - 10)
    }
}

// Each byte with a space before it.
pub(crate) fn bytes(rt: &impl Print, all: &[u8]) {
    for one in all {
        byte(rt, b" ", *one);
    }
}

// One of two words, by what a test found.
pub(crate) fn either(rt: &impl Print, found: bool, yes: &[u8], no: &[u8]) {
    text(rt, if found { yes } else { no });
}

// Numbers below ten, each as its digit.
pub(crate) fn small(rt: &impl Print, all: &[u8]) {
    for number in all {
        text(rt, &[digit(*number % 10)]);
    }
}

// The epoch and the mark of a report.
pub(crate) fn report(rt: &impl Print, report: [u8; 8]) {
    named(rt, b"\tepoch ", report[1] as u16);
    let mark: &[u8] = match report[0] {
        0 => b"\tnone due",
        1 => b"\theld",
        2 => b"\tdoubtful",
        _ => b"\tsure",
    };
    text(rt, mark);
}
