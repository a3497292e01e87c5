// The report of an epoch (01, 'Report of an epoch').
#![tactic(auto, unfolding(crate::specs::Report::ruling_epoch, crate::specs::Report::seen_of))]

ghost use Rattle.std.specs.Prelude.{◌≡◌};
ghost use Rattle.packet.specs.Shares.{shares_of};
ghost use Rattle.step.specs.OwnCount.{own_ruling};
ghost use Rattle.receiver.specs.Report.{no_seen, ruling_epoch, seen_all, seen_of};

use crate::{each, flags};
use judge::Seen;
use packet::{Ruling, kinds};
use rows::Group;
use store::marks;

// Kept: mark and cause are bytes, since `record_of` lays them down for C as they are, and `none_due` has mark 0.
#[derive(Clone, Copy)]
pub struct Report {
    // 0 none due, 1 held, 2 doubtful, 3 sure
    pub mark: u8,
    pub epoch: u8,
    // how many members are joined
    pub x: u8,
    // the clause that decided (01, 'Report of an epoch'), 0 none
    pub cause: u8,
    // how many bytes of the output
    pub bytes: u32,
}

pub(crate) fn ruling_epoch(group: Group) -> u8
    ensures { result ≡ ruling_epoch group }
{
    let first = kinds::first_tag(group.kind, group.oldest);
    let before = kinds::previous_tag(group.kind, first);
    kinds::epoch_of(group.kind, before)
}

fn ruling_of(table: &[[u8; 256]; 7], kind: u8, epoch: u8, nibbles: [u8; 16]) -> Ruling
    requires { table.now ≡ shares_of }
    ensures { result ≡ own_ruling kind epoch nibbles }
{
    step::ruling_of(table, kind, epoch, nibbles)
}

pub(crate) fn seen_of(table: &[[u8; 256]; 7], group: Group, state: &[[u8; 16]], port: u8) -> Seen
    requires { table.now ≡ shares_of }
    ensures { result ≡ seen_of group state.now port }
{
    let packets = rows::packets::get(state, port);
    let step = rows::step::get(state, port);
    let ruling = ruling_of(table, group.kind, ruling_epoch(group), packets[1]);
    Seen {
        whole: flags::is_set(step.whole),
        good: ruling.good,
        word: ruling.word,
        number: ruling.number,
        gid: ruling.gid,
        here: marks::first(rows::packets::marks(state, port)),
    }
}

fn no_seen() -> Seen
    ensures { result ≡ no_seen }
{
    Seen {
        whole: false,
        good: false,
        word: 0,
        number: 0,
        gid: 0,
        here: false,
    }
}

pub(crate) fn seen_all(
    table: &[[u8; 256]; 7],
    group: Group,
    state: &[[u8; 16]],
    ports: u8,
) -> [Seen; 64]
    requires { table.now ≡ shares_of }
    ensures { result ≡ seen_all group state.now ports }
{
    let mut seen = [no_seen(); 64];
    each::put_each(ground::size_byte(ports), &mut seen, |port| {
        seen_of(table, group, state, port)
    });
    seen
}
