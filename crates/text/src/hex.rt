// Fields of hex digits, two for each byte.
ghost use Rattle.std.specs.Prelude.{◌≡◌, true, ◌+◌, ◌*◌, ◌<◌, length};
ghost use Rattle.text.specs.Fields.{are_digits, bytes_in, bytes_of, digit_of, is_hex};

use crate::fields;

// Whether the field is that many hex digits.
#[tactic(auto, unfolding(crate::specs::Fields::is_hex))]
pub fn is_hex(field: &[u8], digits: usize) -> bool
    ensures { result ≡ is_hex digits field.now }
{
    field.len() == digits && fields::are_digits(field, 16)
}

// A byte by its two digits.
fn byte_of(high: u8, low: u8) -> u8
    requires { (digit_of high < 16) × (digit_of low < 16) }
    ensures { result ≡ digit_of high * 16 + digit_of low }
{
    fields::digit_of(high) * 16 + fields::digit_of(low)
}

fn fill(digits: &[u8], out: &mut [u8])
    requires { (length digits.now ≡ 2 * length out.old) × (are_digits 16 digits.now ≡ true) }
    ensures { out.new ≡ bytes_of digits.now }
{
    for (i, byte) in out.iter_mut().enumerate() {
        *byte = byte_of(digits[2 * i], digits[2 * i + 1]);
    }
}

// The bytes that a field of hex digits stands for, two digits for each byte of the lent slice; where it is no such field nothing is written.
#[tactic(auto, unfolding(crate::specs::Fields::bytes_in, crate::specs::Fields::is_hex))]
pub fn read_bytes(field: &[u8], out: &mut [u8]) -> bool
    ensures { (result ≡ is_hex (2 * length out.old) field.now) × (out.new ≡ bytes_in field.now out.old) }
{
    let is = is_hex(field, 2 * out.len());
    if is {
        fill(field, out);
    }
    is
}
