// The lines that are printed (2026-05), put one behind the other into a lent buffer.
ghost use Rattle.std.specs.Prelude.{◌≡◌, ◌+◌, ◌≤◌, length};
ghost use Rattle.replay_lines.specs.Output.{answer_text, blamed_text, cause_text, epoch_text, mark_text, place_text, port_text, state_text, why_text};
ghost use Rattle.text.specs.Output.{Put, ended, put_bytes, put_next};
ghost use Rattle.text.specs.Text.{TAB};

pub(crate) fn put_answer(number: u8, line: u64, said: &mut [u8]) -> usize
    requires { 0 + length (answer_text number line) ≤ length said.old }
    ensures { Put (answer_text number line) 0 said.old result said.new }
{
    let second = text::put(b"answer\t", said, 0);
    let third = text::put_number(number, b'\t', said, second);
    let fourth = text::put(b"line\t", said, third);
    text::put_decimal(line, b'\n', said, fourth)
}

fn put_mark(mark: u8, said: &mut [u8], at: usize) -> usize
    ensures { (result ≡ put_next (ended (mark_text mark) TAB) at said.old) × (said.new ≡ put_bytes (ended (mark_text mark) TAB) at said.old) }
{
    if mark == 1 {
        return text::put(b"held\t", said, at);
    }
    if mark == 2 {
        return text::put(b"doubtful\t", said, at);
    }
    text::put(b"sure\t", said, at)
}

// The words of levelspruce_cause_text (host/library/texts.c).
fn put_cause(cause: u8, said: &mut [u8], at: usize) -> usize
    ensures { (result ≡ put_next (cause_text cause) at said.old) × (said.new ≡ put_bytes (cause_text cause) at said.old) }
{
    if cause == 1 {
        return text::put(b"a ruling packet was refused", said, at);
    }
    if cause == 2 {
        return text::put(b"an active port lacks a frame", said, at);
    }
    if cause == 3 {
        return text::put(b"numbers of active and DNU ports repeat", said, at);
    }
    if cause == 4 {
        return text::put(b"GID differs among ports that are not IDLE", said, at);
    }
    if cause == 5 {
        return text::put(b"EOS is not on the highest active port alone", said, at);
    }
    if cause == 6 {
        return text::put(b"a port has no whole ruling packet", said, at);
    }
    text::put(b"the numbers are not 0 to n - 1", said, at)
}

// The port to which a cause applies, and the line's end.
fn put_blamed(port: u8, said: &mut [u8], at: usize) -> usize
    requires { at + length (blamed_text port) ≤ length said.old }
    ensures { Put (blamed_text port) at said.old result said.new }
{
    if port == 255 {
        return text::put(b"\n", said, at);
    }
    let next = text::put(b"\tport\t", said, at);
    text::put_number(port, b'\n', said, next)
}

// Why a report is held or doubtful.
fn put_why(cause: u8, port: u8, said: &mut [u8], at: usize) -> usize
    requires { at + length (why_text cause port) ≤ length said.old }
    ensures { Put (why_text cause port) at said.old result said.new }
{
    let second = text::put(b"cause\t", said, at);
    let third = put_cause(cause, said, second);
    put_blamed(port, said, third)
}

// The line's number, and all that is behind it.
fn put_place(mark: u8, line: u64, cause: u8, port: u8, said: &mut [u8], at: usize) -> usize
    requires { at + length (place_text mark line cause port) ≤ length said.old }
    ensures { Put (place_text mark line cause port) at said.old result said.new }
{
    if (mark == 1) | (mark == 2) {
        let next = text::put_decimal(line, b'\t', said, at);
        return put_why(cause, port, said, next);
    }
    text::put_decimal(line, b'\n', said, at)
}

pub(crate) fn put_epoch(
    epoch: u8,
    mark: u8,
    bytes: u64,
    line: u64,
    cause: u8,
    port: u8,
    said: &mut [u8],
) -> usize
    requires { 0 + length (epoch_text epoch mark bytes line cause port) ≤ length said.old }
    ensures { Put (epoch_text epoch mark bytes line cause port) 0 said.old result said.new }
{
    let second = text::put(b"epoch\t", said, 0);
    let third = text::put_number(epoch, b'\t', said, second);
    let fourth = put_mark(mark, said, third);
    let fifth = text::put(b"bytes\t", said, fourth);
    let sixth = text::put_decimal(bytes, b'\t', said, fifth);
    let seventh = text::put(b"line\t", said, sixth);
    put_place(mark, line, cause, port, said, seventh)
}

fn put_state(state: u8, said: &mut [u8], at: usize) -> usize
    ensures { (result ≡ put_next (ended (state_text state) TAB) at said.old) × (said.new ≡ put_bytes (ended (state_text state) TAB) at said.old) }
{
    if state == 0 {
        return text::put(b"IDLE\t", said, at);
    }
    if state == 1 {
        return text::put(b"FAIL\t", said, at);
    }
    text::put(b"OK\t", said, at)
}

pub(crate) fn put_port(port: u8, state: u8, number: u8, said: &mut [u8], at: usize) -> usize
    requires { at + length (port_text port state number) ≤ length said.old }
    ensures { Put (port_text port state number) at said.old result said.new }
{
    let second = text::put(b"port\t", said, at);
    let third = text::put_number(port, b'\t', said, second);
    let fourth = put_state(state, said, third);
    text::put_number(number, b'\n', said, fourth)
}
