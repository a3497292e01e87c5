// A packet as our sender writes it, by its kind.
ghost use Rattle.std.specs.Prelude.{◌≡◌};
ghost use Rattle.packet.specs.Sent.{sent_answer, sent_bytes};

use crate::layout::Fields;
use crate::writer::Unwritten;
use crate::{kinds, vc12, writer};

pub fn write_by(kind: u8, fields: Fields, bytes: &mut [u8]) -> Result<(), Unwritten>
    ensures { (result ≡ sent_answer kind fields bytes.old) × (bytes.new ≡ sent_bytes kind fields bytes.old) }
{
    if kind == kinds::VC12 {
        return vc12::write_vc12(fields, bytes);
    }
    writer::write(fields, bytes)
}
