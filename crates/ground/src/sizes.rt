// How many members a group has.
ghost use Rattle.std.specs.Prelude.{◌≡◌};
ghost use Rattle.ground.specs.Sizes.{size_of};

pub fn size_of(count: u8) -> usize
    ensures { result ≡ size_of count }
{
    if count < 64 { count as usize } else { 64 }
}

// The same as a byte.
pub fn size_byte(count: u8) -> u8
    ensures { result ≡ size_of count }
{
    if count < 64 { count } else { 64 }
}
