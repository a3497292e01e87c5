// Texts, numbers and words put one behind the other into a lent buffer. Each gives the place where the next one goes; where one does not
// fit nothing is written and that place is its own.
ghost use Rattle.std.specs.Prelude.{◌≡◌, drop, slice_index};
ghost use Rattle.text.specs.Output.{decimal_text, ended, number_text, put_bytes, put_next, word_text};
ghost use Rattle.text.specs.Text.{TAB};

use packet::Word;

#[tactic(auto, unfolding(crate::specs::Output::put_next, crate::specs::Output::put_bytes))]
pub fn put(text: &[u8], out: &mut [u8], at: usize) -> usize
    ensures { (result ≡ put_next text.now at out.old) × (out.new ≡ put_bytes text.now at out.old) }
{
    if out.len() < at || out.len() - at < text.len() {
        return at;
    }
    let next = at + text.len();
    out[at..next].copy_from_slice(text);
    next
}

// A byte in decimal and the mark behind it.
#[tactic(auto, unfolding(crate::specs::Output::decimal_text))]
pub fn put_number(n: u8, mark: u8, out: &mut [u8], at: usize) -> usize
    ensures { (result ≡ put_next (ended (decimal_text n) mark) at out.old) × (out.new ≡ put_bytes (ended (decimal_text n) mark) at out.old) }
{
    if n < 10 {
        return put(&[48 + n, mark], out, at);
    }
    if n < 100 {
        return put(&[48 + n / 10, 48 + n % 10, mark], out, at);
    }
    put(
        &[48 + n / 100, 48 + n / 10 % 10, 48 + n % 10, mark],
        out,
        at,
    )
}

// The digits of a number, put before the last byte; and where they begin.
fn put_digits(n: u64, bytes: &mut [u8; 21]) -> usize
    ensures { drop result bytes.new ≡ ended (number_text n) (slice_index bytes.old 20) }
{
    let mut rest = n;
    for place in (0..20).rev() {
        bytes[place] = 48 + (rest % 10) as u8;
        rest /= 10;
        if rest == 0 {
            return place;
        }
    }
    unreachable!()
}

// A number of any size in decimal and the mark behind it.
pub fn put_decimal(n: u64, mark: u8, out: &mut [u8], at: usize) -> usize
    ensures { (result ≡ put_next (ended (number_text n) mark) at out.old) × (out.new ≡ put_bytes (ended (number_text n) mark) at out.old) }
{
    let mut bytes = [mark; 21];
    let start = put_digits(n, &mut bytes);
    put(&bytes[start..], out, at)
}

// A control word and a tab.
#[tactic(auto, unfolding(crate::specs::Output::word_text))]
pub fn put_word(word: Word, out: &mut [u8], at: usize) -> usize
    ensures { (result ≡ put_next (ended (word_text word) TAB) at out.old) × (out.new ≡ put_bytes (ended (word_text word) TAB) at out.old) }
{
    let name: &[u8] = if word.0 == Word::ADD.0 {
        b"ADD\t"
    } else if word.0 == Word::NORM.0 {
        b"NORM\t"
    } else if word.0 == Word::EOS.0 {
        b"EOS\t"
    } else if word.0 == Word::DNU.0 {
        b"DNU\t"
    } else {
        b"IDLE\t"
    };
    put(name, out, at)
}
