// What is told to the far end: MST and RS-Ack (01, 'Member states and reply').
ghost use Rattle.std.specs.Prelude.{◌≡◌, [], ◌∷◌, ◌+◌, ◌*◌, ◌≤◌, if◌then◌else◌, ◌==◌};
ghost use Rattle.reply.specs.Members.{size_of};
ghost use Rattle.reply.specs.Telling.{ack_of, fail_bit, has_changed, has_left, is_listed, mst_from, mst_of, ok_holds, turns_over};

use crate::members::{Port, Ports};
use packet::{Word, kinds};

impl Ports<'_> {
    // Whether an OK port holds a number.
    fn ok_holds(&self, number: u8) -> bool
        ensures { result ≡ ok_holds self.now.table.now self.now.count number }
    {
        self.all().iter().any(|port| port.state == Port::OK && port.state_number == number)
    }

    fn fail_bit(&self, number: u8) -> u8
        ensures { (result ≡ fail_bit self.now.table.now self.now.count number) × (result ≤ 1) }
    {
        u8::from(!self.ok_holds(number))
    }

    fn mst_from(&self, first: u8) -> u8
        requires { first + 7 ≤ 255 }
        ensures { result ≡ mst_from self.now.table.now self.now.count first }
    {
        eight_bits(
            self.fail_bit(first),
            self.fail_bit(first + 1),
            self.fail_bit(first + 2),
            self.fail_bit(first + 3),
            self.fail_bit(first + 4),
            self.fail_bit(first + 5),
            self.fail_bit(first + 6),
            self.fail_bit(first + 7),
        )
    }

    fn is_turning(&self) -> bool
        ensures { result ≡ turns_over self.now.table.now self.now.count }
    {
        self.all()
            .iter()
            .any(|port| has_changed(*port) || has_left(*port))
    }
}

fn eight_bits(a: u8, b: u8, c: u8, d: u8, e: u8, f: u8, g: u8, h: u8) -> u8
    requires { (a ≤ 1) × (b ≤ 1) × (c ≤ 1) × (d ≤ 1) × (e ≤ 1) × (f ≤ 1) × (g ≤ 1) × (h ≤ 1) }
    ensures { result ≡ a * 128 + b * 64 + c * 32 + d * 16 + e * 8 + f * 4 + g * 2 + h }
{
    a * 128 + b * 64 + c * 32 + d * 16 + e * 8 + f * 4 + g * 2 + h
}

// MST of an epoch, from the states in the ports.
pub fn mst(kind: u8, ports: [Port; 64], count: u8, epoch: u8) -> u8
    ensures { result ≡ mst_of kind ports (size_of count) epoch }
{
    Ports::of(&ports, count).mst_from(kinds::mst_first(kind, epoch))
}

fn is_listed(word: u8) -> bool
    ensures { result ≡ is_listed word }
{
    word == Word::NORM.0 || word == Word::EOS.0 || word == Word::DNU.0
}

fn has_changed(port: Port) -> bool
    ensures { result ≡ has_changed port }
{
    let now = is_listed(port.word);
    let told = is_listed(port.told_word);
    now != told || (now && port.number != port.told_number)
}

fn has_left(port: Port) -> bool
    ensures { result ≡ has_left port }
{
    port.told_word == Word::ADD.0 && port.word == Word::IDLE.0
}

fn turned(turning: bool, bit: u8) -> u8
    ensures { result ≡ (if turning then (if bit == 0 then 1 else 0) else bit) }
{
    if turning {
        return u8::from(bit == 0);
    }
    bit
}

// RS-Ack after this report, from what it was.
pub fn ack(ports: [Port; 64], count: u8, bit: u8) -> u8
    ensures { result ≡ ack_of ports (size_of count) bit }
{
    turned(Ports::of(&ports, count).is_turning(), bit)
}

// Of a port alone.
pub fn ack_alone(port: Port, bit: u8) -> u8
    ensures { result ≡ ack_of (port ∷ []) 1 bit }
{
    turned(has_changed(port) | has_left(port), bit)
}
