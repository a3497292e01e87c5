// VC-12's step rule (request 2026-01): two whole packets in a row whose counts differ by one, each start said where it is due.
#![tactic(auto, unfolding(crate::specs::Starts::begun_packet, crate::specs::Starts::count_after, crate::specs::Starts::bits_after, crate::specs::Starts::goes_on, crate::specs::Starts::first_of_two, crate::specs::Starts::fifth_bit, crate::specs::Starts::starts_run))]

ghost use Rattle.std.specs.Prelude.{◌≡◌, ◌%◌};
ghost use Rattle.step.specs.Starts.{begun_packet, bits_after, count_after, fifth_bit, first_of_two, goes_on, starts_run};

use crate::run::{self, Run};
use packet::counts;

fn begun_packet(byte: u8) -> Run
    ensures { result ≡ begun_packet byte }
{
    if counts::says_start(byte) {
        return Run {
            count: 1,
            next: 1,
            bits: byte % 2,
            ..run::NO_RUN
        };
    }
    run::NO_RUN
}

fn count_after(count: u8) -> u8
    ensures { result ≡ count_after count }
{
    if count < 64 { count + 1 } else { count }
}

// What the bits of the count say with this one, at places 0 to 4; from place 5 on they stay.
fn bits_after(bits: u8, place: u16, byte: u8) -> u8
    ensures { result ≡ bits_after bits place (byte % 2) }
{
    match place {
        0 => byte % 2,
        1..=4 => bits % 16 * 2 + byte % 2,
        _ => bits,
    }
}

fn goes_on(run: Run, bits: u8) -> Run
    ensures { result ≡ goes_on run bits }
{
    Run {
        count: count_after(run.count),
        next: (run.next % 1024 + 1) % 1024,
        bits,
        ..run::NO_RUN
    }
}

// The packet with this count as the first of a new two.
fn first_of_two(bits: u8) -> Run
    ensures { result ≡ first_of_two bits }
{
    Run {
        count: 5,
        next: bits as u16 % 32 * 32 + 5,
        bits,
        ..run::NO_RUN
    }
}

// The fifth bit tells the count: the first packet's is taken, a later one is to be one more than the one before.
fn fifth_bit(run: Run, bits: u8) -> Run
    ensures { result ≡ fifth_bit run bits }
{
    if (run.count < 5) | (bits as u16 != run.next % 1024 / 32) {
        return first_of_two(bits);
    }
    goes_on(run, bits)
}

pub(crate) fn starts_run(run: Run, byte: u8) -> Run
    ensures { result ≡ starts_run run byte }
{
    let place = run.next % 32;
    let start = counts::says_start(byte);
    let due = place == 0;
    if (run.count == 0) | (start != due) {
        return begun_packet(byte);
    }
    let bits = bits_after(run.bits, place, byte);
    if place == 4 {
        return fifth_bit(run, bits);
    }
    goes_on(run, bits)
}
