// The owner row: 0 nobody, 1 group 0, 2 group 1; any other byte counts as nobody.
ghost use Rattle.std.specs.Prelude.{◌≡◌, ◌<◌, ◌&&◌, ◌==◌};
ghost use Rattle.ground.specs.Plain.{◌<?◌};
ghost use Rattle.cards.specs.Owners.{has_owner, is_marked, mark_of, owned_bytes, owner_in, with_owner};

// How the owner row marks a slot of this group.
pub fn mark_of(group: u32) -> u8
    ensures { result ≡ mark_of group }
{
    if group == 0 { 1 } else { 2 }
}

fn owner_in(owners: [u8; 64], slot: u32) -> u8
    ensures { result ≡ owner_in owners slot }
{
    owners.get(slot as usize).copied().unwrap_or(0)
}

pub(crate) fn is_marked(owners: [u8; 64], group: u32, slot: u32) -> bool
    ensures { result ≡ is_marked owners group slot }
{
    owner_in(owners, slot) == mark_of(group)
}

// Owned by anyone.
pub(crate) fn has_owner(owners: [u8; 64], slot: u32) -> bool
    ensures { result ≡ has_owner owners slot }
{
    matches!(owner_in(owners, slot), 1 | 2)
}

pub(crate) fn with_owner(owners: [u8; 64], slot: u32, mark: u8) -> [u8; 64]
    requires { slot < 64 }
    ensures { result ≡ with_owner owners slot mark }
{
    let mut out = owners;
    out[slot as usize] = mark;
    out
}

// Whether a byte of the row says that one of the two groups owns its slot.
fn is_of(owner: u8, group: u32) -> bool
    ensures { result ≡ (group <? 2 && owner == mark_of group) }
{
    group < 2 && owner == mark_of(group)
}

// A byte a slot: 1 where the group owns it.
pub(crate) fn owned_bytes(owners: [u8; 64], group: u32) -> [u8; 64]
    ensures { result ≡ owned_bytes owners group }
{
    let mut owned = owners;
    for owner in &mut owned {
        *owner = u8::from(is_of(*owner, group));
    }
    owned
}
