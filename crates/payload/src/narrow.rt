// Spreading and joining two, four and eight members: a block is all columns of some lines, 128 bytes that lie together in the frame.
ghost use Rattle.std.specs.Prelude.{◌≡◌, ℕ, ◌+◌, ◌*◌, ◌≤◌, ◌<◌, length, get_or};
ghost use Rattle.ground.specs.Drawn.{drawn, fill_at};
ghost use Rattle.payload.specs.Inner.Area.{area};
ghost use Rattle.payload.specs.Inner.Block.{Even, row_byte, turned};
ghost use Rattle.payload.specs.Joining.{ranked_byte, started_byte};
ghost use Rattle.payload.specs.Order.{group_byte, group_frame};
ghost use Rattle.payload.specs.Spreading.{all_members};

use crate::{block, copy, deal, shuffle};

fn lines_of(x: usize, w: usize, q: [u8; 128]) -> [u8; 128]
    requires { Even x w }
    ensures { result ≡ turned x w q }
{
    if x == 2 {
        shuffle::turned(1, q)
    } else if x == 4 {
        shuffle::turned(2, q)
    } else {
        shuffle::turned(3, q)
    }
}

// A block in rows, into the frame.
fn lay(x: usize, w: usize, q: [u8; 128], place: usize, j: usize, out: &mut [u8])
    requires { Even x w × (place + (j + w) * x ≤ length out.old) }
    ensures { out.new ≡ drawn (area x place j w 0 x) (row_byte w x place j 0 q) out.old }
{
    let t = lines_of(x, w, q);
    copy::by_bytes(&t, 0, 128, place + j * x, out);
}

// Members one after the other, into a frame.
pub(crate) fn join(x: usize, w: usize, p: usize, members: &[u8], frame: &mut [u8])
    requires { Even x w × (w ≤ p) × (length members.now ≡ x * p) × (length frame.old ≡ x * p) }
    ensures { frame.new ≡ group_frame x p (ranked_byte p members.now) }
{
    let mut c = 0;
    while c < p {
        let j = block::start(c, p, w);
        let mut q = [0; 128];
        block::read_ranked(x, w, p, members, 0, j, &mut q);
        lay(x, w, q, 0, j, frame);
        c += w;
    }
}

// Members that start anywhere in a store, into a frame that lies from a place on.
pub(crate) fn join_from(
    x: usize,
    w: usize,
    p: usize,
    starts: &[usize],
    store: &[u8],
    place: usize,
    out: &mut [u8],
)
    requires { Even x w × (w ≤ p) × (x ≤ length starts.now) × ((r : ℕ) → r < x → get_or starts.now r 0 + p ≤ length store.now) × (place + x * p ≤ length out.old) }
    ensures { out.new ≡ fill_at place (x * p) (group_byte x (started_byte starts.now store.now)) out.old }
{
    let own = block::few_of(x, starts);
    let mut c = 0;
    while c < p {
        let j = block::start(c, p, w);
        let mut q = [0; 128];
        block::read_started(x, w, &own, store, 0, j, &mut q);
        lay(x, w, q, place, j, out);
        c += w;
    }
}

// Some lines of a frame, into the members that lie one after the other. The compiler is to know each size.
fn lay_rows(x: usize, h: usize, q: [u8; 128], p: usize, r: usize, members: &mut [u8])
    requires { Even x h × (r + h ≤ p) × (length members.old ≡ x * p) }
    ensures { members.new ≡ drawn (area p 0 0 x r h) (row_byte x p 0 0 r q) members.old }
{
    if x == 2 {
        let t = deal::dealt(64, q);
        block::write(&t, 64, 2, p, 0, 0, r, members);
    } else if x == 4 {
        let t = shuffle::turned(5, q);
        block::write(&t, 32, 4, p, 0, 0, r, members);
    } else {
        let t = shuffle::turned(4, q);
        block::write(&t, 16, 8, p, 0, 0, r, members);
    }
}

// A frame, into members one after the other.
pub(crate) fn spread(x: usize, h: usize, p: usize, frame: &[u8], members: &mut [u8])
    requires { Even x h × (h ≤ p) × (length frame.now ≡ x * p) × (length members.old ≡ x * p) }
    ensures { members.new ≡ all_members x p frame.now }
{
    let mut c = 0;
    while c < p {
        let r = block::start(c, p, h);
        let mut q = [0; 128];
        copy::by_bytes(frame, r * x, 128, 0, &mut q);
        lay_rows(x, h, q, p, r, members);
        c += h;
    }
}
