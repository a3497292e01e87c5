// Changes of port state (2026-05): the member state of a port, with its number, before a report and after it.
ghost use Rattle.std.specs.Prelude.{◌≡◌, ◌+◌, ◌*◌, ◌<◌, ◌≤◌, length};
ghost use Rattle.receiver.specs.Shown.{shown_number};
ghost use Rattle.replay_lines.specs.Output.{ROOM, change_text, changes_text, count_in, report_text, state_at, state_line, states_in};
ghost use Rattle.text.specs.Output.{Put};

use crate::output;
use packet::kinds;
use rows::Member;

fn number_of(kind: u8, member: Member) -> u8
    ensures { result ≡ shown_number kind member }
{
    if member.state == 0 {
        return kinds::idle_number(kind);
    }
    member.state_number
}

#[tactic(auto, unfolding(crate::specs::Output::state_at))]
fn state_at(kind: u8, rows: &[[u8; 16]], port: u8) -> u16
    ensures { result ≡ state_at kind rows.now port }
{
    let member = rows::member::get(rows, port);
    let number = number_of(kind, member);
    u16::from(member.state) * 256 + u16::from(number)
}

// The states of ports 0 to 63.
pub(crate) fn states_in(kind: u8, rows: &[[u8; 16]]) -> [u16; 64]
    ensures { result ≡ states_in kind rows.now }
{
    let mut states = [0u16; 64];
    for port in 0..64 {
        states[port as usize] = state_at(kind, rows, port);
    }
    states
}

fn put_state(port: u8, state: u16, said: &mut [u8], at: usize) -> usize
    requires { (port < 64) × (at + 17 ≤ length said.old) }
    ensures { Put (state_line port state) at said.old result said.new }
{
    output::put_port(port, (state / 256) as u8, (state % 256) as u8, said, at)
}

// The line of a port whose state is another.
fn put_change(port: u8, old: u16, new: u16, said: &mut [u8], at: usize) -> usize
    requires { (port < 64) × (at + 17 ≤ length said.old) }
    ensures { Put (change_text port old new) at said.old result said.new }
{
    if old == new {
        return at;
    }
    put_state(port, new, said, at)
}

// A line for each of the first ports whose state is another.
pub(crate) fn put_changes(
    before: [u16; 64],
    after: [u16; 64],
    ports: u8,
    said: &mut [u8],
    start: usize,
) -> usize
    requires { (ports ≤ 64) × (start + 17 * 64 ≤ length said.old) }
    ensures { Put (changes_text before after ports) start said.old result said.new }
{
    let mut at = start;
    for port in 0..ports {
        let place = port as usize;
        at = put_change(port, before[place], after[place], said, at);
    }
    at
}

// How many bytes a report says.
#[tactic(auto, unfolding(crate::specs::Output::count_in))]
fn count_in(given: [u8; 8]) -> u64
    ensures { result ≡ count_in given }
{
    u64::from(u32::from_be_bytes([given[4], given[5], given[6], given[7]]))
}

// A report's line, and the states that it changed.
pub(crate) fn put_report(
    given: [u8; 8],
    blamed: u8,
    line: u64,
    before: [u16; 64],
    after: [u16; 64],
    ports: u8,
    said: &mut [u8],
) -> usize
    requires { (ports ≤ 64) × (ROOM ≤ length said.old) }
    ensures { Put (report_text given blamed line before after ports) 0 said.old result said.new }
{
    let count = count_in(given);
    let next = output::put_epoch(given[1], given[0], count, line, given[3], blamed, said);
    put_changes(before, after, ports, said, next)
}
