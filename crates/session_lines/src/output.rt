// The lines of the output (01, 'Session'), put one behind the other into a lent buffer.
ghost use Rattle.std.specs.Prelude.{◌+◌, ◌≤◌, length};
ghost use Rattle.session_lines.specs.Output.{answer_text, slot_text, wait_text};
ghost use Rattle.text.specs.Output.{Put};

use packet::Word;

pub(crate) fn put_answer(number: u8, out: &mut [u8]) -> usize
    requires { 0 + length (answer_text number) ≤ length out.old }
    ensures { Put (answer_text number) 0 out.old result out.new }
{
    let next = text::put(b"answer\t", out, 0);
    text::put_number(number, b'\n', out, next)
}

pub(crate) fn put_slot(slot: u8, word: Word, number: u8, out: &mut [u8], at: usize) -> usize
    requires { at + length (slot_text slot word number) ≤ length out.old }
    ensures { Put (slot_text slot word number) at out.old result out.new }
{
    let second = text::put(b"slot\t", out, at);
    let third = text::put_number(slot, b'\t', out, second);
    let fourth = text::put_word(word, out, third);
    text::put_number(number, b'\n', out, fourth)
}

pub(crate) fn put_wait(wait: bool, out: &mut [u8], at: usize) -> usize
    requires { at + length (wait_text wait) ≤ length out.old }
    ensures { Put (wait_text wait) at out.old result out.new }
{
    let next = text::put(b"wait\t", out, at);
    text::put_number(u8::from(wait), b'\n', out, next)
}
