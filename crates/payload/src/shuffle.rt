// Blocks turned by perfect shuffles: a block's first half and its second, byte by byte in turn. The compiler makes unpacks of sixteen bytes of these loops, over
// arrays of 128 bytes and more; of shorter ones it makes single moves. A shuffle is a block of two rows turned, and each shuffle more doubles the rows.
ghost use Rattle.std.specs.Prelude.{◌≡◌, ◌*◌, ◌/◌, ◌^◌, ◌%◌, ◌≤◌};
ghost use Rattle.payload.specs.Inner.Block.{turned};

fn shuffled<const N: usize>(q: [u8; N]) -> [u8; N]
    requires { N % 2 ≡ 0 }
    ensures { result ≡ turned 2 (N / 2) q.entry }
{
    let mut s = [0; N];
    for i in 0..N / 2 {
        s[2 * i] = q[i];
        s[2 * i + 1] = q[N / 2 + i];
    }
    s
}

// A block of two rows, four, eight, and so on, by so many shuffles.
pub(crate) fn turned<const N: usize>(shuffles: usize, q: [u8; N]) -> [u8; N]
    requires { (N ≤ 256) × (N % 2 ^ shuffles ≡ 0) }
    ensures { result ≡ turned (2 ^ shuffles) (N / 2 ^ shuffles) q.entry }
{
    let mut t = q;
    for k in 0..shuffles {
        t = shuffled(t);
    }
    t
}
