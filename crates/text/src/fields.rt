// Lines of a lent text, parted into fields, and what a field says.
ghost use Rattle.std.specs.Prelude.{◌≡◌, true, ◌+◌, ◌^◌, ◌≤◌, ◌<◌, ◌==◌, length, take, Some, None, if◌then◌else◌, position, MatchOption, [], ◌∷◌};
ghost use Rattle.std.proofs.Math.Seq.{slice};
ghost use Rattle.ground.specs.Plain.{◌<?◌};
ghost use Rattle.ground.specs.Finding.{index_of};
ghost use Rattle.text.specs.Text.{fields_of, first_part, lent_parts};
ghost use Rattle.text.specs.Fields.{are_digits, digit_of, hex_of, number_of, same_bytes, value_of};

// The limit, or the text's end if that comes first.
pub fn end_of(text: &[u8], limit: usize) -> usize
    ensures { result ≡ length (take limit text.now) }
{
    limit.min(text.len())
}

// The bytes from a place up to a limit, which may lie past the text's end; none where the limit lies before the place.
pub fn field(text: &[u8], at: usize, limit: usize) -> &[u8]
    ensures { result.now ≡ slice at limit text.now }
{
    let end = end_of(text, limit);
    if end < at {
        return &[];
    }
    &text[at..end]
}

// The place of the first mark.
fn first(bytes: &[u8], mark: u8) -> Option<usize>
    ensures { result ≡ position (λ byte. byte == mark) bytes.now }
{
    bytes.iter().position(|byte| *byte == mark)
}

// Where the piece that begins at `at` ends: at the first mark, or at the limit.
pub fn piece_end(text: &[u8], at: usize, limit: usize, mark: u8) -> usize
    ensures { result ≡ at + index_of mark (slice at limit text.now) }
{
    let rest = field(text, at, limit);
    at + first(rest, mark).unwrap_or(rest.len())
}

// The first field of a line and what stands behind its tab, if there is one.
pub fn parted(line: &[u8]) -> Option<(&[u8], &[u8])>
    ensures parts { lent_parts result ≡ first_part line.now }
    ensures fields { MatchOption result (fields_of line.now ≡ line.now ∷ [])
        (λ (field, rest). (fields_of line.now ≡ field.now ∷ fields_of rest.now) × (length field.now + 1 + length rest.now ≡ length line.now)) }
{
    let tab = first(line, b'\t')?;
    Some((&line[..tab], &line[tab + 1..]))
}

// Whether a byte is a digit below the base. Digits of a payload come by chance, and a branch on them would be guessed wrong every third time: no
// branch goes by them here, nor in their value.
#[tactic(auto, using(crate::specs::Laws::Digits::digit_below))]
fn is_digit(byte: u8, base: u8) -> bool
    requires { base ≤ 16 }
    ensures { result ≡ (digit_of byte <? base) }
{
    ((b'0' <= byte) & (byte <= b'9') & (byte < b'0' + base))
        | ((b'A' <= byte) & (byte <= b'F') & (byte < b'A' - 10 + base))
        | ((b'a' <= byte) & (byte <= b'f') & (byte < b'a' - 10 + base))
}

// The value of a digit: its low four bits, and nine more for a letter.
#[tactic(auto, using(crate::specs::Laws::Digits::digit_value))]
pub(crate) fn digit_of(byte: u8) -> u8
    requires { digit_of byte < 16 }
    ensures { result ≡ digit_of byte }
{
    byte % 16 + byte / 64 * 9
}

// Whether there are digits below the base alone.
pub(crate) fn are_digits(digits: &[u8], base: u8) -> bool
    requires { base ≤ 16 }
    ensures { result ≡ are_digits base digits.now }
{
    let mut good = true;
    for byte in digits {
        good &= is_digit(*byte, base);
    }
    good
}

// Digits by value, so few of them that it fits.
fn value_of(digits: &[u8], base: u8) -> u32
    requires { (are_digits base digits.now ≡ true) × (0 < base) × (base ^ length digits.now ≤ 4294967296) × (base ≤ 16) }
    ensures { result ≡ value_of base 0 digits.now }
{
    let mut value = 0;
    for byte in digits {
        value = value * u32::from(base) + u32::from(digit_of(*byte));
    }
    value
}

// Digits below the base by value, where there are no others.
fn read_digits(digits: &[u8], base: u8) -> Option<u32>
    requires { (0 < base) × (base ^ length digits.now ≤ 4294967296) × (base ≤ 16) }
    ensures { result ≡ (if are_digits base digits.now then Some (value_of base 0 digits.now) else None) }
{
    are_digits(digits, base).then(|| value_of(digits, base))
}

// A number of one to `most` decimal digits, and never more than nine.
#[tactic(auto, unfolding(crate::specs::Fields::number_of))]
pub fn read_number(field: &[u8], most: usize) -> Option<u32>
    ensures { result ≡ number_of most field.now }
{
    if field.is_empty() || most < field.len() || 9 < field.len() {
        return None;
    }
    read_digits(field, 10)
}

// A number of that many hex digits, one to eight.
#[tactic(auto, unfolding(crate::specs::Fields::hex_of))]
pub fn read_hex(field: &[u8], digits: usize) -> Option<u32>
    ensures { result ≡ hex_of digits field.now }
{
    if field.is_empty() || 8 < field.len() || field.len() != digits {
        return None;
    }
    read_digits(field, 16)
}

// Whether a field is the given word.
pub fn is_word(field: &[u8], word: &[u8]) -> bool
    ensures { result ≡ same_bytes field.now word.now }
{
    field == word
}

// Whether the field from a place up to a limit is the given word.
pub fn same(text: &[u8], at: usize, limit: usize, word: &[u8]) -> bool
    ensures { result ≡ same_bytes (slice at limit text.now) word.now }
{
    is_word(field(text, at, limit), word)
}
