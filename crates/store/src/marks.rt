// A port's marks: 128 bits in one row. Bit i says that all frames of the i-th epoch of the window, counted from the oldest, stand in the store.
ghost use Rattle.std.specs.Prelude.{◌≡◌, ◌*◌, ◌/◌, ◌%◌, ◌^◌};
ghost use Rattle.store.specs.Marks.{cut_byte, cut_from, first_mark, marked_at, marked_byte, passed_byte, passed_marks};

fn power(i: u8) -> u8
    ensures { result ≡ 2 ^ (i % 8) }
{
    let powers = [1, 2, 4, 8, 16, 32, 64, 128];
    powers[(i % 8) as usize]
}

fn marked_byte(byte: u8, i: u8) -> u8
    ensures { result ≡ marked_byte byte i }
{
    let bit = power(i);
    if byte / bit % 2 == 1 {
        return byte;
    }
    byte + bit
}

// With epoch i marked too.
pub fn mark(row: [u8; 16], i: u8) -> [u8; 16]
    ensures { result ≡ marked_at row i }
{
    let at = (i / 8) as usize;
    if 16 <= at {
        return row;
    }
    let mut marks = row;
    marks[at] = marked_byte(row[at], i);
    marks
}

fn cut_byte(byte: u8, k: u8, i: u8) -> u8
    ensures { result ≡ cut_byte byte k i }
{
    if k < i / 8 {
        return byte;
    }
    if i / 8 < k {
        return 0;
    }
    byte % power(i)
}

// Without epoch i and all later ones.
pub fn cut(row: [u8; 16], i: u8) -> [u8; 16]
    ensures { result ≡ cut_from row i }
{
    let mut marks = [0; 16];
    for k in 0..16u8 {
        marks[k as usize] = cut_byte(row[k as usize], k, i);
    }
    marks
}

fn passed_byte(byte: u8, next: u8) -> u8
    ensures { result ≡ passed_byte byte next }
{
    byte / 2 + next % 2 * 128
}

// As the window passes its oldest epoch: each bit moves down by one.
pub fn pass(row: [u8; 16]) -> [u8; 16]
    ensures { result ≡ passed_marks row }
{
    let mut marks = [0; 16];
    for k in 0..15 {
        marks[k] = passed_byte(row[k], row[k + 1]);
    }
    marks[15] = row[15] / 2;
    marks
}

// Whether the oldest epoch stands whole.
pub fn first(row: [u8; 16]) -> bool
    ensures { result ≡ first_mark row }
{
    row[0] % 2 == 1
}
