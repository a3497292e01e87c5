// The first line of a recording (2026-05): 'the group's settings in the first line', ports, P and W in decimal, and the pairs.
ghost use Rattle.std.specs.Prelude.{◌≡◌, ℕ, drop};
ghost use Rattle.recording.specs.Laws.Pairs.{opening_with};
ghost use Rattle.recording.specs.Opening.{line_opening, opening_by, opening_in};
ghost use Rattle.text.specs.Text.{fields_of};

use crate::line::{Found, MOST};
use crate::pairs::Settings;
use crate::{line, pairs};

// What a first line says.
#[derive(Clone, Copy)]
pub enum Opening {
    // the group's settings, and the place of the next line
    Settings(Settings, usize),
    Malformed,
    // a line that has no end yet
    Unfinished,
    End,
}

// The settings that a line has.
#[tactic(auto, unfolding(crate::specs::Opening::opened, crate::specs::Opening::settings_by))]
fn settings_in(line: &[u8]) -> Option<Settings>
    ensures { (next : ℕ) → opening_with result next ≡ opening_by next (fields_of line.now) }
{
    let (ports, rest) = text::parted(line)?;
    let (size, rest) = text::parted(rest)?;
    let (window, rest) = match text::parted(rest) {
        Some((window, rest)) => (window, Some(rest)),
        None => (rest, None),
    };
    let first = pairs::no_pairs(
        text::read_number(ports, 9)?,
        text::read_number(size, 9)?,
        text::read_number(window, 9)?,
    );
    pairs::read_pairs(first, rest).settings()
}

// A line of bytes, and where the next one begins. 'Lines hold at most 8,192 bytes.'
#[tactic(auto, unfolding(crate::specs::Opening::line_opening))]
fn line_opening(line: &[u8], next: usize) -> Opening
    ensures { result ≡ line_opening next line.now }
{
    if MOST < line.len() {
        return Opening::Malformed;
    }
    match settings_in(line) {
        Some(settings) => Opening::Settings(settings, next),
        None => Opening::Malformed,
    }
}

// The first line of a text from a place on; the last one of a text may lack its end.
#[tactic(auto, unfolding(crate::specs::Opening::opening_in))]
pub fn opening_at(text: &[u8], at: usize, last: bool) -> Opening
    ensures { result ≡ opening_in at last (drop at text.now) }
{
    match line::find(text, at) {
        Found::Nothing => Opening::End,
        Found::Open if last => line_opening(&text[at..], text.len()),
        Found::Open => Opening::Unfinished,
        Found::TooLong => Opening::Malformed,
        Found::Ends(end) => line_opening(&text[at..end], end + 1),
    }
}
