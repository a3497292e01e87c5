// What a line means (01, 'Session').
ghost use Rattle.std.specs.Prelude.{◌≡◌};
ghost use Rattle.std.proofs.Math.Seq.{slice};
ghost use Rattle.session_lines.specs.Line.{hex_of, line_of, meaning_of, number_line, number_of, report_line, report_read, word_line};
ghost use Rattle.text.specs.Text.{fields_of};

#[derive(Clone, Copy)]
pub enum Line {
    Size(u32),
    Add(u32),
    Remove(u32),
    Report(u8, u8, u8),
    Lapse,
    Board,
    Malformed,
}

// A line of one field.
#[tactic(auto, unfolding(crate::specs::Line::word_line))]
fn word_line(word: &[u8]) -> Line
    ensures { result ≡ word_line word.now }
{
    if text::is_word(word, b"lapse") {
        return Line::Lapse;
    }
    if text::is_word(word, b"board") {
        return Line::Board;
    }
    Line::Malformed
}

// A line of a word and a number.
#[tactic(auto, unfolding(crate::specs::Line::number_line))]
fn number_line(word: &[u8], number: Option<u32>) -> Line
    ensures { result ≡ number_line word.now number }
{
    let Some(n) = number else {
        return Line::Malformed;
    };
    if text::is_word(word, b"size") {
        return Line::Size(n);
    }
    if text::is_word(word, b"add") {
        return Line::Add(n);
    }
    if text::is_word(word, b"remove") {
        return Line::Remove(n);
    }
    Line::Malformed
}

#[tactic(auto, unfolding(crate::specs::Line::report_read))]
fn report_of(epoch: Option<u32>, mst: Option<u32>, ack: Option<u32>) -> Line
    ensures { result ≡ report_read epoch mst ack }
{
    let (Some(epoch), Some(mst), Some(ack)) = (epoch, mst, ack) else {
        return Line::Malformed;
    };
    if epoch < 256 && mst < 256 && ack < 2 {
        return Line::Report(epoch as u8, mst as u8, ack as u8);
    }
    Line::Malformed
}

// A line of a word and three fields.
#[tactic(auto, unfolding(crate::specs::Line::report_line))]
fn report_line(word: &[u8], epoch: &[u8], mst: &[u8], ack: &[u8]) -> Line
    ensures { result ≡ report_line word.now (number_of epoch.now) (hex_of mst.now) (number_of ack.now) }
{
    if !text::is_word(word, b"report") {
        return Line::Malformed;
    }
    report_of(
        text::read_number(epoch, 3),
        text::read_hex(mst, 2),
        text::read_number(ack, 3),
    )
}

// What a line of at most 80 bytes means.
fn short_line(line: &[u8]) -> Line
    ensures { result ≡ meaning_of (fields_of line.now) }
{
    let Some((word, rest)) = text::parted(line) else {
        return word_line(line);
    };
    let Some((first, rest)) = text::parted(rest) else {
        return number_line(word, text::read_number(rest, 3));
    };
    let Some((second, third)) = text::parted(rest) else {
        return Line::Malformed;
    };
    if let Some(_) = text::parted(third) {
        return Line::Malformed;
    }
    report_line(word, first, second, third)
}

// What the line from `at` up to a limit means.
#[tactic(auto, unfolding(crate::specs::Line::line_of))]
pub fn read_line(text: &[u8], at: usize, limit: usize) -> Line
    ensures { result ≡ line_of (slice at limit text.now) }
{
    let line = text::field(text, at, limit);
    if 80 < line.len() {
        return Line::Malformed;
    }
    short_line(line)
}
