// Payload order by rows and columns (source document 002, 5.2). A container has nine rows of C columns, its group rows of C X. What stands in
// row r and column k of the group, both counted from 1, is byte (r - 1) C + (k - 1) div X of the member ranked (k - 1) mod X.
ghost use Rattle.std.specs.Prelude.{◌<◌};

use crate::show;

pub(crate) fn run(rt: &impl Print) {
    vc4_by_five(rt, 1, 1296);
    vc4_by_five(rt, 9, 1300);
    vc3_by_three(rt, 1, 250);
    vc3_by_three(rt, 2, 1);
}

// 260 columns.
fn vc4_by_five(rt: &impl Print, row: usize, column: usize) {
    show::text(rt, b"column\tVC-4\tX 5");
    place_in::<5, 2340, 11700>(rt, row, column);
}

// 84 columns.
fn vc3_by_three(rt: &impl Print, row: usize, column: usize) {
    show::text(rt, b"column\tVC-3\tX 3");
    place_in::<3, 756, 2268>(rt, row, column);
}

// A group of X members of P bytes each, and so of ALL: nine rows, each of a ninth.
fn place_in<const X: usize, const P: usize, const ALL: usize>(
    rt: &impl Print,
    row: usize,
    column: usize,
)
    requires { (0 < P) × (ALL < 65536) }
{
    let mut frame = [0u8; ALL];
    let mut members = [0u8; ALL];
    let at = from_zero(row) * (ALL / 9) + from_zero(column);
    mark(&mut frame, at);
    let found = spread(X, P, &frame, &mut members);
    line(rt, row, column, found / P, found % P);
}

// One less, for a count from 1 that is below 4,096.
fn from_zero(count: usize) -> usize
    ensures { result < 4096 }
{
    (count % 4096 + 4095) % 4096
}

// A frame is spread: where its one byte of 1 stands among the members.
fn spread(x: usize, p: usize, frame: &[u8], members: &mut [u8]) -> usize {
    payload::spread(x, p, frame, members);
    first(members)
}

fn mark(frame: &mut [u8], at: usize) {
    if at < frame.len() {
        frame[at] = 1;
    }
}

fn first(bytes: &[u8]) -> usize {
    match bytes.iter().position(|byte| *byte == 1) {
        Some(i) => i,
        None => bytes.len(),
    }
}

fn line(rt: &impl Print, row: usize, column: usize, rank: usize, byte: usize) {
    show::named(rt, b"\trow ", as_u16(row));
    show::named(rt, b"\tcolumn ", as_u16(column));
    show::pair(rt, b"\trank ", as_u16(rank), b"\tbyte ", as_u16(byte));
}

fn as_u16(number: usize) -> u16 {
    (number % 65536) as u16
}
