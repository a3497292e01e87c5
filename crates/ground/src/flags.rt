// Flags as bytes.
ghost use Rattle.std.specs.Prelude.{◌≡◌};
ghost use Rattle.ground.specs.Flags.{flag_of, one_if};

pub fn is_set(flag: u8) -> bool
    ensures { result ≡ flag_of flag }
{
    !(flag == 0)
}

// To count those that pass a test, and to write a flag.
pub fn one_if(test: bool) -> u8
    ensures { result ≡ one_if test }
{
    if test { 1 } else { 0 }
}
