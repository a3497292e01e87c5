// Spreading and joining three, five, six and seven members. A line of the frame is read and stored by eight bytes, of which the first X are its own. The
// last two lines, beyond which the frame may end, go by plain loops.
ghost use Rattle.std.specs.Prelude.{◌≡◌, ℕ, ◌+◌, ◌-◌, ◌*◌, ◌/◌, ◌%◌, ◌≤◌, ◌<◌, length, get_or};
ghost use Rattle.ground.specs.Drawn.{drawn, fill_at};
ghost use Rattle.payload.specs.Inner.Area.{area};
ghost use Rattle.payload.specs.Inner.Block.{Rows, row_byte};
ghost use Rattle.payload.specs.Inner.Front.{Front};
ghost use Rattle.payload.specs.Joining.{ranked_byte, started_byte};
ghost use Rattle.payload.specs.Order.{group_byte, group_frame};
ghost use Rattle.payload.specs.Spreading.{all_members};

use crate::{block, copy, deal, plain, shuffle};

// Sixteen lines of a frame, a row of eight bytes of each. A place that runs on costs less than one worked out anew for each line, and two lines a step
// leave the processor less to wait for.
fn read(frame: &[u8], x: usize, r: usize, q: &mut [u8])
    requires { (1 ≤ x) × (x ≤ 8) × (128 ≤ length q.old) × ((r + 15) * x + 8 ≤ length frame.now) }
    ensures { Rows 16 8 (ranked_byte x frame.now) r 0 q.old q.new }
{
    let mut from = r * x;
    let mut l = 0;
    while l < 16 {
        copy::by_bytes(frame, from, 8, l * 8, q);
        copy::by_bytes(frame, from + x, 8, (l + 1) * 8, q);
        from += 2 * x;
        l += 2;
    }
}

// The first X of eight columns, into the members that lie one after the other.
fn lay_rows(q: [u8; 128], x: usize, p: usize, r: usize, members: &mut [u8])
    requires { (x ≤ 8) × (r + 16 ≤ p) × (length members.old ≡ x * p) }
    ensures { members.new ≡ drawn (area p 0 0 x r 16) (row_byte 8 p 0 0 r q) members.old }
{
    let t = shuffle::turned(4, q);
    block::write(&t, 16, x, p, 0, 0, r, members);
}

// The first n bytes of all members.
fn columns(x: usize, p: usize, n: usize, frame: &[u8], members: &mut [u8])
    requires { (3 ≤ x) × (x ≤ 8) × (16 ≤ n) × (n + 2 ≤ p) × (length frame.now ≡ x * p) × (length members.old ≡ x * p) }
    ensures { members.new ≡ drawn (area p 0 0 x 0 n) (λ k. group_byte p (ranked_byte x frame.now) (k - 0)) members.old }
{
    let mut c = 0;
    while c < n {
        let r = block::start(c, n, 16);
        let mut q = [0; 128];
        read(frame, x, r, &mut q);
        lay_rows(q, x, p, r, members);
        c += 16;
    }
}

// A frame, into members one after the other.
pub(crate) fn spread(x: usize, p: usize, frame: &[u8], members: &mut [u8])
    requires { (3 ≤ x) × (x ≤ 8) × (18 ≤ p) × (length frame.now ≡ x * p) × (length members.old ≡ x * p) }
    ensures { members.new ≡ all_members x p frame.now }
{
    let n = p - 2;
    columns(x, p, n, frame, members);
    plain::column(p, x, n, frame, n * x, 0, members);
    plain::column(p, x, n + 1, frame, (n + 1) * x, 0, members);
}

// Sixteen lines, each by eight bytes from where it begins: what goes beyond a line is stored over by the next, and beyond the last it stays.
fn write(q: &[u8], x: usize, at: usize, out: &mut [u8])
    requires { (1 ≤ x) × (x ≤ 8) × (128 ≤ length q.now) × (at + 15 * x + 8 ≤ length out.old) }
    ensures { Front at (16 * x) (at + 15 * x + 8) (λ i. get_or q.now (i / x * 8 + i % x) 0) out.old out.new }
{
    let mut to = at;
    let mut l = 0;
    while l < 16 {
        copy::by_bytes(q, l * 8, 8, to, out);
        to += x;
        l += 1;
    }
}

// The first X of eight rows, as lines of the frame.
#[inline(always)]
fn lay(q: [u8; 128], x: usize, at: usize, out: &mut [u8])
    requires { (1 ≤ x) × (x ≤ 8) × (at + 15 * x + 8 ≤ length out.old) }
    ensures { Front at (16 * x) (at + 15 * x + 8) (λ i. get_or q (i % x * 16 + i / x) 0) out.old out.new }
{
    let t = shuffle::turned(3, q);
    write(&t, x, at, out);
}

// The first n lines, of members that start anywhere in a store.
fn lines(x: usize, p: usize, n: usize, starts: &[usize], store: &[u8], place: usize, out: &mut [u8])
    requires { (3 ≤ x) × (x ≤ 8) × (16 ≤ n) × (n + 2 ≤ p) × (x ≤ length starts.now) × ((r : ℕ) → r < x → get_or starts.now r 0 + p ≤ length store.now) × (place + x * p ≤ length out.old) }
    ensures { Front place (n * x) (place + x * p) (group_byte x (started_byte starts.now store.now)) out.old out.new }
{
    let own = block::few_of(x, starts);
    let mut c = 0;
    while c < n {
        let j = block::start(c, n, 16);
        let mut q = [0; 128];
        block::read_started(8, 16, &own, store, 0, j, &mut q);
        lay(q, x, place + j * x, out);
        c += 16;
    }
}

// The same of three members. Their even bytes and their odd ones are six members of half the length, in lines of six bytes.
fn three(p: usize, n: usize, starts: &[usize], store: &[u8], place: usize, out: &mut [u8])
    requires { (32 ≤ n) × (n + 2 ≤ p) × (3 ≤ length starts.now) × ((r : ℕ) → r < 3 → get_or starts.now r 0 + p ≤ length store.now) × (place + 3 * p ≤ length out.old) }
    ensures { Front place (n * 3) (place + 3 * p) (group_byte 3 (started_byte starts.now store.now)) out.old out.new }
{
    let mut c = 0;
    while c < n {
        let j = block::start(c, n, 32);
        let mut q = [0; 128];
        block::read_started(3, 32, starts, store, 0, j, &mut q);
        let s = deal::dealt(48, q);
        lay(s, 6, place + j * 3, out);
        c += 32;
    }
}

fn most_lines(
    x: usize,
    p: usize,
    n: usize,
    starts: &[usize],
    store: &[u8],
    place: usize,
    out: &mut [u8],
)
    requires { (3 ≤ x) × (x ≤ 8) × (32 ≤ n) × (n + 2 ≤ p) × (x ≤ length starts.now) × ((r : ℕ) → r < x → get_or starts.now r 0 + p ≤ length store.now) × (place + x * p ≤ length out.old) }
    ensures { Front place (n * x) (place + x * p) (group_byte x (started_byte starts.now store.now)) out.old out.new }
{
    if x == 3 {
        three(p, n, starts, store, place, out);
    } else {
        lines(x, p, n, starts, store, place, out);
    }
}

// Members that start anywhere in a store, into a frame that lies from a place on.
pub(crate) fn join_from(
    x: usize,
    p: usize,
    starts: &[usize],
    store: &[u8],
    place: usize,
    out: &mut [u8],
)
    requires { (3 ≤ x) × (x ≤ 8) × (34 ≤ p) × (x ≤ length starts.now) × ((r : ℕ) → r < x → get_or starts.now r 0 + p ≤ length store.now) × (place + x * p ≤ length out.old) }
    ensures { out.new ≡ fill_at place (x * p) (group_byte x (started_byte starts.now store.now)) out.old }
{
    let n = p - 2;
    most_lines(x, p, n, starts, store, place, out);
    plain::join_from(x, 2, starts, &store[n..], place + n * x, out);
}

// Members one after the other, into a frame.
pub(crate) fn join(x: usize, p: usize, members: &[u8], frame: &mut [u8])
    requires { (3 ≤ x) × (x ≤ 7) × (34 ≤ p) × (length members.now ≡ x * p) × (length frame.old ≡ x * p) }
    ensures { frame.new ≡ group_frame x p (ranked_byte p members.now) }
{
    let starts = [0, p, 2 * p, 3 * p, 4 * p, 5 * p, 6 * p];
    join_from(x, p, &starts, members, 0, frame);
}
