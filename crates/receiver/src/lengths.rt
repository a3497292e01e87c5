// Lengths of what is lent (01, 'Answer numbers': 9).
#![tactic(auto, unfolding(crate::specs::Lengths::fetch_fits, crate::specs::Lengths::frame_fits, crate::specs::Lengths::output_for, crate::specs::Lengths::rows_fit))]

ghost use Rattle.std.specs.Prelude.{◌≡◌, ◌&&◌, ◌==◌};
ghost use Rattle.receiver.specs.Lengths.{fetch_fits, frame_fits, output_for, rows_fit};

use packet::kinds;
use rows::Group;

pub(crate) fn is_rows(ports: u8, rows: usize) -> bool
    ensures { result ≡ rows_fit ports rows }
{
    (ports == 0) | (rows == rows::group::rows_for(ports))
}

// Rows of so many ports, and a list with so many places beside them.
pub(crate) fn is_lent(ports: u8, rows: usize, places: usize, wanted: usize) -> bool
    ensures { result ≡ (rows_fit ports rows && places == wanted) }
{
    is_rows(ports, rows) & (places == wanted)
}

pub(crate) fn is_frame(group: Group, ports: u8, rows: usize, payload: usize, store: usize) -> bool
    ensures { result ≡ frame_fits group ports rows payload store }
{
    is_rows(ports, rows)
        & (payload == group.payload as usize)
        & (store == phases::store_for(group, ports))
}

fn output_for(group: Group, ports: u8) -> usize
    ensures { result ≡ output_for group ports }
{
    ports as usize * kinds::epoch_frames(group.kind) as usize * group.payload as usize
}

pub(crate) fn is_fetch(
    group: Group,
    ports: u8,
    rows: usize,
    store: usize,
    out: usize,
    report: usize,
) -> bool
    ensures { result ≡ fetch_fits group ports rows store out report }
{
    is_rows(ports, rows)
        & (store == phases::store_for(group, ports))
        & (output_for(group, ports) <= out)
        & (report == 8)
}
