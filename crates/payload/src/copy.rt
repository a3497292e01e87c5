// Runs of bytes copied.
ghost use Rattle.std.specs.Prelude.{◌≡◌, ◌+◌, ◌≤◌, length, get_or};
ghost use Rattle.ground.specs.Drawn.{fill_at};

// A few bytes of a block. By copy_from_slice the compiler makes no unpacks of the block: a join then has 1.2 to 3.4 times the instructions, a spread 1.2 to 3.3.
pub(crate) fn by_bytes(from: &[u8], at: usize, n: usize, place: usize, to: &mut [u8])
    requires { (at + n ≤ length from.now) × (place + n ≤ length to.old) }
    ensures { to.new ≡ fill_at place n (λ j. get_or from.now (at + j) 0) to.old }
{
    for j in 0..n {
        to[place + j] = from[at + j];
    }
}

// The n bytes that lie from one place on, to another: all the work of a member alone, whose bytes are the group frame's in their order.
pub(crate) fn run(from: &[u8], at: usize, n: usize, place: usize, to: &mut [u8])
    requires { (at + n ≤ length from.now) × (place + n ≤ length to.old) }
    ensures { to.new ≡ fill_at place n (λ j. get_or from.now (at + j) 0) to.old }
{
    to[place..place + n].copy_from_slice(&from[at..at + n]);
}
