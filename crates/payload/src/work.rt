// The work under 0: a copy where there is one member, by blocks where one fits, else by plain loops. A block of two members has 64 bytes of each, one of
// four 32, others sixteen; of the first three the compiler is to know the sizes. Three, five, six and seven go by lines of eight bytes.
ghost use Rattle.std.specs.Prelude.{◌≡◌, ℕ, ◌+◌, ◌*◌, ◌≤◌, ◌<◌, length, get_or};
ghost use Rattle.ground.specs.Drawn.{fill_at};
ghost use Rattle.ground.specs.Table.{tabulate};
ghost use Rattle.payload.specs.Answers.{PAYLOAD-MOST};
ghost use Rattle.payload.specs.Inner.Block.{Sizes};
ghost use Rattle.payload.specs.Joining.{ranked_byte, started_byte};
ghost use Rattle.payload.specs.Order.{group_byte, group_frame};
ghost use Rattle.payload.specs.Spreading.{all_members};

use crate::{block, copy, narrow, over, plain};

// How many ranks a block has.
fn rows(x: usize) -> usize
    requires { 8 ≤ x }
    ensures { Sizes result 16 × (result ≤ x) }
{
    if x < 16 { 8 } else { 16 }
}

// Where members start that lie one after the other.
fn all_starts(p: usize) -> [usize; 64]
    requires { p ≤ PAYLOAD-MOST }
    ensures { result ≡ tabulate 64 (λ r. r * p) }
{
    let mut starts = [0; 64];
    let mut r = 0;
    while r < 64 {
        starts[r] = r * p;
        r += 1;
    }
    starts
}

// The last choice is a call that a report's joining has too: so the compiler takes it into neither, and a report's code stays small.
pub(crate) fn join(x: usize, p: usize, members: &[u8], frame: &mut [u8])
    requires { (x ≤ 64) × (p ≤ PAYLOAD-MOST) × (length members.now ≡ x * p) × (length frame.old ≡ x * p) }
    ensures { frame.new ≡ group_frame x p (ranked_byte p members.now) }
{
    if x == 1 {
        copy::run(members, 0, p, 0, frame);
    } else if (x == 2) & (64 <= p) {
        narrow::join(2, 64, p, members, frame);
    } else if (x == 4) & (32 <= p) {
        narrow::join(4, 32, p, members, frame);
    } else if (x == 8) & (16 <= p) {
        narrow::join(8, 16, p, members, frame);
    } else if (3 <= x) & (x <= 7) & (34 <= p) {
        over::join(x, p, members, frame);
    } else if (8 <= x) & (16 <= p) {
        block::join(rows(x), 16, x, p, members, frame);
    } else {
        let starts = all_starts(p);
        join_from(x, p, &starts, members, 0, frame);
    }
}

// By blocks, a frame is spread as its P lines of X bytes are joined.
pub(crate) fn spread(x: usize, p: usize, frame: &[u8], members: &mut [u8])
    requires { (length frame.now ≡ x * p) × (length members.old ≡ x * p) }
    ensures { members.new ≡ all_members x p frame.now }
{
    if x == 1 {
        copy::run(frame, 0, p, 0, members);
    } else if (x == 2) & (64 <= p) {
        narrow::spread(2, 64, p, frame, members);
    } else if (x == 4) & (32 <= p) {
        narrow::spread(4, 32, p, frame, members);
    } else if (x == 8) & (16 <= p) {
        narrow::spread(8, 16, p, frame, members);
    } else if (3 <= x) & (x <= 7) & (34 <= p) {
        over::spread(x, p, frame, members);
    } else if (8 <= x) & (16 <= p) {
        block::join(16, 8, p, x, frame, members);
    } else {
        plain::spread(x, p, frame, members);
    }
}

pub(crate) fn join_from(
    x: usize,
    p: usize,
    starts: &[usize],
    store: &[u8],
    place: usize,
    out: &mut [u8],
)
    requires { (x ≤ length starts.now) × ((r : ℕ) → r < x → get_or starts.now r 0 + p ≤ length store.now) × (place + x * p ≤ length out.old) }
    ensures { out.new ≡ fill_at place (x * p) (group_byte x (started_byte starts.now store.now)) out.old }
{
    if x == 1 {
        let start = starts[0];
        copy::run(store, start, p, place, out);
    } else if (x == 2) & (64 <= p) {
        narrow::join_from(2, 64, p, starts, store, place, out);
    } else if (x == 4) & (32 <= p) {
        narrow::join_from(4, 32, p, starts, store, place, out);
    } else if (x == 8) & (16 <= p) {
        narrow::join_from(8, 16, p, starts, store, place, out);
    } else if (3 <= x) & (x <= 7) & (34 <= p) {
        over::join_from(x, p, starts, store, place, out);
    } else if (8 <= x) & (16 <= p) {
        block::join_from(rows(x), x, p, starts, store, place, out);
    } else {
        plain::join_from(x, p, starts, store, place, out);
    }
}
