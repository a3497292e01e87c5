// A value for each port, by its number: what the host reads out, and tables of ports.
ghost use Rattle.std.specs.Prelude.{◌≡◌, ℕ, ◌≤◌, length};
ghost use Rattle.ground.specs.Counting.Each.{each};

// The first so many elements anew.
pub(crate) fn put_each<T: Copy, F: Fn(u8) -> T>(count: u8, out: &mut [T], of: F)
    requires fits { count ≤ length out.old }
    requires callable { F.IsAlwaysCallable of }
    ensures { (f : ℕ → T) → ((i : ℕ) (v : _) → F.post of i v → v ≡ f i) → out.new ≡ each count f out.old }
{
    for port in 0..count {
        out[port as usize] = of(port);
    }
}
