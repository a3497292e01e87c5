// Spreading and joining in blocks of eight by sixteen bytes and of sixteen by sixteen, for eight ranks and sixteen bytes or more. A block that would go beyond
// the end starts so much earlier, and stores some bytes a second time.
ghost use Rattle.std.specs.Prelude.{◌≡◌, ℕ, ◌+◌, ◌-◌, ◌*◌, ◌≤◌, ◌<◌, min, length, get_or};
ghost use Rattle.ground.specs.Drawn.{drawn, fill_at};
ghost use Rattle.ground.specs.Table.{tabulate};
ghost use Rattle.payload.specs.Inner.Area.{area};
ghost use Rattle.payload.specs.Inner.Block.{Rows, Sizes, line_byte, row_byte};
ghost use Rattle.payload.specs.Joining.{ranked_byte, started_byte};
ghost use Rattle.payload.specs.Order.{group_byte, group_frame};

use crate::{copy, shuffle};

pub(crate) fn start(c: usize, n: usize, w: usize) -> usize
    requires { w ≤ n }
    ensures { result ≡ min c (n - w) }
{
    if c <= n - w { c } else { n - w }
}

// The bytes of some members that lie one after the other, a row of each.
pub(crate) fn read_ranked(
    h: usize,
    w: usize,
    p: usize,
    members: &[u8],
    r: usize,
    j: usize,
    q: &mut [u8],
)
    requires { (1 ≤ p) × (h * w ≤ length q.old) × ((l : ℕ) → l < h → (r + l) * p + (j + w) ≤ length members.now) }
    ensures { Rows h w (ranked_byte p members.now) r j q.old q.new }
{
    let mut l = 0;
    while l < h {
        copy::by_bytes(members, (r + l) * p + j, w, l * w, q);
        l += 1;
    }
}

// The starts of up to eight members in an array of their own: nothing that is stored in the output can change them, so the compiler reads them once. Behind the
// last one it is repeated: so there are always eight rows to be read, and none is asked for.
pub(crate) fn few_of(x: usize, starts: &[usize]) -> [usize; 8]
    requires { (1 ≤ x) × (x ≤ length starts.now) }
    ensures { result ≡ tabulate 8 (λ r. get_or starts.now (min r (x - 1)) 0) }
{
    let mut own = [0; 8];
    let mut r = 0;
    while r < 8 {
        own[r] = starts[start(r, x, 1)];
        r += 1;
    }
    own
}

// The bytes of some members that start anywhere, a row of each.
pub(crate) fn read_started(
    h: usize,
    w: usize,
    starts: &[usize],
    store: &[u8],
    r: usize,
    j: usize,
    q: &mut [u8],
)
    requires { (h * w ≤ length q.old) × (r + h ≤ length starts.now) × ((l : ℕ) → l < h → get_or starts.now (r + l) 0 + (j + w) ≤ length store.now) }
    ensures { Rows h w (started_byte starts.now store.now) r j q.old q.new }
{
    let mut l = 0;
    while l < h {
        let from = starts[r + l];
        copy::by_bytes(store, from + j, w, l * w, q);
        l += 1;
    }
}

// The w lines of h bytes of a block into the frame, from a line and a column on.
pub(crate) fn write(
    q: &[u8],
    h: usize,
    w: usize,
    x: usize,
    place: usize,
    j: usize,
    r: usize,
    out: &mut [u8],
)
    requires { (1 ≤ h) × (r + h ≤ x) × (w * h ≤ length q.now) × (place + (j + w) * x ≤ length out.old) }
    ensures { out.new ≡ drawn (area x place j w r h) (line_byte h x place j r q.now) out.old }
{
    let mut i = 0;
    while i < w {
        copy::by_bytes(q, i * h, h, place + ((j + i) * x + r), out);
        i += 1;
    }
}

// Blocks in rows, into the frame.
fn lay_eight(q: [u8; 128], x: usize, place: usize, j: usize, r: usize, out: &mut [u8])
    requires { (r + 8 ≤ x) × (place + (j + 16) * x ≤ length out.old) }
    ensures { out.new ≡ drawn (area x place j 16 r 8) (row_byte 16 x place j r q) out.old }
{
    let t = shuffle::turned(3, q);
    write(&t, 8, 16, x, place, j, r, out);
}

fn lay_sixteen(q: [u8; 128], x: usize, place: usize, j: usize, r: usize, out: &mut [u8])
    requires { (r + 16 ≤ x) × (place + (j + 8) * x ≤ length out.old) }
    ensures { out.new ≡ drawn (area x place j 8 r 16) (row_byte 8 x place j r q) out.old }
{
    let t = shuffle::turned(4, q);
    write(&t, 16, 8, x, place, j, r, out);
}

fn lay_wide(q: [u8; 256], x: usize, place: usize, j: usize, r: usize, out: &mut [u8])
    requires { (r + 16 ≤ x) × (place + (j + 16) * x ≤ length out.old) }
    ensures { out.new ≡ drawn (area x place j 16 r 16) (row_byte 16 x place j r q) out.old }
{
    let t = shuffle::turned(4, q);
    write(&t, 16, 16, x, place, j, r, out);
}

// A block of members that lie one after the other.
fn block(
    h: usize,
    w: usize,
    x: usize,
    p: usize,
    members: &[u8],
    r: usize,
    j: usize,
    frame: &mut [u8],
)
    requires { Sizes h w × (r + h ≤ x) × (j + w ≤ p) × (length members.now ≡ x * p) × (length frame.old ≡ x * p) }
    ensures { frame.new ≡ drawn (area x 0 j w r h) (λ k. group_byte x (ranked_byte p members.now) (k - 0)) frame.old }
{
    if h == 8 {
        let mut q = [0; 128];
        read_ranked(8, 16, p, members, r, j, &mut q);
        lay_eight(q, x, 0, j, r, frame);
    } else if w == 8 {
        let mut q = [0; 128];
        read_ranked(16, 8, p, members, r, j, &mut q);
        lay_sixteen(q, x, 0, j, r, frame);
    } else {
        let mut q = [0; 256];
        read_ranked(16, 16, p, members, r, j, &mut q);
        lay_wide(q, x, 0, j, r, frame);
    }
}

// A block of sixteen bytes of members that start anywhere.
fn block_from(
    h: usize,
    x: usize,
    starts: &[usize],
    store: &[u8],
    r: usize,
    j: usize,
    place: usize,
    out: &mut [u8],
)
    requires { Sizes h 16 × (r + h ≤ x) × (x ≤ length starts.now) × ((l : ℕ) → l < h → get_or starts.now (r + l) 0 + (j + 16) ≤ length store.now) × (place + (j + 16) * x ≤ length out.old) }
    ensures { out.new ≡ drawn (area x place j 16 r h) (λ k. group_byte x (started_byte starts.now store.now) (k - place)) out.old }
{
    if h == 8 {
        let mut q = [0; 128];
        read_started(8, 16, starts, store, r, j, &mut q);
        lay_eight(q, x, place, j, r, out);
    } else {
        let mut q = [0; 256];
        read_started(16, 16, starts, store, r, j, &mut q);
        lay_wide(q, x, place, j, r, out);
    }
}

// The lines of h columns from one up to another, from members that lie one after the other.
fn columns(
    h: usize,
    w: usize,
    x: usize,
    p: usize,
    members: &[u8],
    r: usize,
    from: usize,
    to: usize,
    frame: &mut [u8],
)
    requires { Sizes h w × (r + h ≤ x) × (from + w ≤ to) × (to ≤ p) × (length members.now ≡ x * p) × (length frame.old ≡ x * p) }
    ensures { frame.new ≡ drawn (area x 0 from (to - from) r h) (λ k. group_byte x (ranked_byte p members.now) (k - 0)) frame.old }
{
    let mut c = from;
    while c < to {
        let j = start(c, to, w);
        block(h, w, x, p, members, r, j, frame);
        c += w;
    }
}

// All columns of these lines.
fn tile(
    h: usize,
    w: usize,
    x: usize,
    p: usize,
    members: &[u8],
    from: usize,
    to: usize,
    frame: &mut [u8],
)
    requires { Sizes h w × (h ≤ x) × (from + w ≤ to) × (to ≤ p) × (length members.now ≡ x * p) × (length frame.old ≡ x * p) }
    ensures { frame.new ≡ drawn (area x 0 from (to - from) 0 x) (λ k. group_byte x (ranked_byte p members.now) (k - 0)) frame.old }
{
    let mut c = 0;
    while c < x {
        let r = start(c, x, h);
        columns(h, w, x, p, members, r, from, to, frame);
        c += h;
    }
}

// How many lines a tile has, but the last.
const TILE: usize = 256;

// Where the tile ends that starts with a line.
fn tile_end(from: usize, p: usize) -> usize
    requires { from ≤ p }
    ensures { result ≡ min (from + 256) p }
{
    if TILE <= p - from { from + TILE } else { p }
}

// Members one after the other, into a frame, by blocks of h ranks and w bytes. A tile of the frame stays in the cache while all its columns are stored; all
// lines of h columns before the next h would bring each line of a long frame there anew for each h ranks.
pub(crate) fn join(h: usize, w: usize, x: usize, p: usize, members: &[u8], frame: &mut [u8])
    requires { Sizes h w × (h ≤ x) × (w ≤ p) × (length members.now ≡ x * p) × (length frame.old ≡ x * p) }
    ensures { frame.new ≡ group_frame x p (ranked_byte p members.now) }
{
    let mut c = 0;
    while c < p {
        let from = start(c, p, w);
        let to = tile_end(from, p);
        tile(h, w, x, p, members, from, to, frame);
        c += TILE;
    }
}

// All lines of h columns, from members that start anywhere.
fn columns_from(
    h: usize,
    x: usize,
    p: usize,
    starts: &[usize],
    store: &[u8],
    r: usize,
    place: usize,
    out: &mut [u8],
)
    requires { Sizes h 16 × (r + h ≤ x) × (16 ≤ p) × (x ≤ length starts.now) × ((i : ℕ) → i < x → get_or starts.now i 0 + p ≤ length store.now) × (place + x * p ≤ length out.old) }
    ensures { out.new ≡ drawn (area x place 0 p r h) (λ k. group_byte x (started_byte starts.now store.now) (k - place)) out.old }
{
    let mut c = 0;
    while c < p {
        let j = start(c, p, 16);
        block_from(h, x, starts, store, r, j, place, out);
        c += 16;
    }
}

// Members that start anywhere in a store, into a frame that lies from a place on. All lines of h members go before the next h: so few members
// are read in their order, where a store that no near cache holds would be fetched anew for each line of all.
pub(crate) fn join_from(
    h: usize,
    x: usize,
    p: usize,
    starts: &[usize],
    store: &[u8],
    place: usize,
    out: &mut [u8],
)
    requires { Sizes h 16 × (h ≤ x) × (16 ≤ p) × (x ≤ length starts.now) × ((r : ℕ) → r < x → get_or starts.now r 0 + p ≤ length store.now) × (place + x * p ≤ length out.old) }
    ensures { out.new ≡ fill_at place (x * p) (group_byte x (started_byte starts.now store.now)) out.old }
{
    let mut c = 0;
    while c < x {
        let r = start(c, x, h);
        columns_from(h, x, p, starts, store, r, place, out);
        c += h;
    }
}
