// Runs the packet, payload and receiver libraries on published vectors: the packets of data/packets.txt, written and read; the columns of
// source document 002; the receiver's states and reply through the histories of data/receiver.txt; packets and a receiver of VC-12. Prints one line for each: words first,
// fields parted by tabs. The file `stdout` has what must be printed. It was worked out from 01 and the rows by other code than this, with the
// CRC as one division of whole numbers; the lines of columns are by 002's rule.
#![tactic(auto)]

mod columns;
mod given;
mod link;
mod packets;
mod received;
mod show;
mod text;
mod vc12;

fn main(rt: HostRuntime) {
    packets::run(&rt);
    columns::run(&rt);
    received::run(&rt);
    vc12::run(&rt);
}
