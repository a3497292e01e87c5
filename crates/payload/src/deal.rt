// Bytes dealt in turn: the even ones first, then the odd ones. Through numbers of two bytes, since of a loop that takes every second byte the compiler makes
// single moves.
ghost use Rattle.std.specs.Prelude.{◌≡◌, ◌/◌, ◌%◌, ◌≤◌};
ghost use Rattle.payload.specs.Inner.Deal.{Pairs, Split, Dealt};

fn pair(low: u8, high: u8) -> u16
    ensures { (result % 256 ≡ low) × (result / 256 ≡ high) }
{
    (low as u16) + (high as u16) * 256
}

fn low(w: u16) -> u8
    ensures { result ≡ w % 256 }
{
    (w % 256) as u8
}

fn high(w: u16) -> u8
    ensures { result ≡ w / 256 }
{
    (w / 256) as u8
}

fn pairs(q: [u8; 128]) -> [u16; 64]
    ensures { Pairs 64 q result }
{
    let mut w = [0; 64];
    let mut i = 0;
    while i < 64 {
        w[i] = pair(q[2 * i], q[2 * i + 1]);
        i += 1;
    }
    w
}

fn split(n: usize, w: [u16; 64]) -> [u8; 128]
    requires { n ≤ 64 }
    ensures { Split n n w result }
{
    let mut s = [0; 128];
    let mut i = 0;
    while i < n {
        s[i] = low(w[i]);
        s[n + i] = high(w[i]);
        i += 1;
    }
    s
}

// The first 2 n bytes, dealt.
pub(crate) fn dealt(n: usize, q: [u8; 128]) -> [u8; 128]
    requires { n ≤ 64 }
    ensures { Dealt n q result }
{
    let w = pairs(q);
    split(n, w)
}
