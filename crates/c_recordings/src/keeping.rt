// Bytes put into a buffer that has room for them, for callers that have asked for its length.
ghost use Rattle.std.specs.Prelude.{◌≡◌, ◌+◌, ◌≤◌, length, get_or};
ghost use Rattle.ground.specs.Drawn.{fill_at};

use c_face::sharing;

pub(crate) fn put_bytes(from: &[u8], at: usize, out: &mut [u8])
    requires { at + length from.now ≤ length out.old }
    ensures { out.new ≡ fill_at at (length from.now) (λ k. get_or from.now k 0) out.old }
{
    sharing::put_bytes(from, at, out);
}
