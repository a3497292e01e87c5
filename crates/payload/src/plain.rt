// Spreading and joining one byte after the other: for every size, and the whole of the work where no block of eight by eight fits.
ghost use Rattle.std.specs.Prelude.{◌≡◌, ℕ, ◌+◌, ◌-◌, ◌*◌, ◌/◌, ◌≤◌, ◌<◌, length, get_or};
ghost use Rattle.ground.specs.Drawn.{drawn, fill_at};
ghost use Rattle.ground.specs.Table.{tabulate};
ghost use Rattle.payload.specs.Inner.Area.{area};
ghost use Rattle.payload.specs.Order.{group_byte, member_frame};
ghost use Rattle.payload.specs.Joining.{started_byte};
ghost use Rattle.payload.specs.Spreading.{all_members};

// A member out of its group frame: byte j is the frame's byte j X + r.
pub(crate) fn member(x: usize, p: usize, frame: &[u8], r: usize, place: usize, to: &mut [u8])
    requires { (r < x) × (x * p ≤ length frame.now) × (place + p ≤ length to.old) }
    ensures { to.new ≡ fill_at place p (λ j. get_or frame.now (j * x + r) 0) to.old }
{
    let mut j = 0;
    while j < p {
        to[place + j] = frame[j * x + r];
        j += 1;
    }
}

// A member into its column of the group frame that lies from a place on.
pub(crate) fn column(
    x: usize,
    p: usize,
    r: usize,
    store: &[u8],
    start: usize,
    place: usize,
    out: &mut [u8],
)
    requires { (r < x) × (start + p ≤ length store.now) × (place + x * p ≤ length out.old) }
    ensures { out.new ≡ drawn (area x place 0 p r 1) (λ k. get_or store.now (start + (k - place) / x) 0) out.old }
{
    let mut j = 0;
    while j < p {
        out[place + (j * x + r)] = store[start + j];
        j += 1;
    }
}

// Members that start anywhere in a store, into a frame that lies from a place on.
pub(crate) fn join_from(
    x: usize,
    p: usize,
    starts: &[usize],
    store: &[u8],
    place: usize,
    out: &mut [u8],
)
    requires { (x ≤ length starts.now) × ((r : ℕ) → r < x → get_or starts.now r 0 + p ≤ length store.now) × (place + x * p ≤ length out.old) }
    ensures { out.new ≡ fill_at place (x * p) (group_byte x (started_byte starts.now store.now)) out.old }
{
    let mut r = 0;
    while r < x {
        let start = starts[r];
        column(x, p, r, store, start, place, out);
        r += 1;
    }
}

// A frame, into members one after the other.
pub(crate) fn spread(x: usize, p: usize, frame: &[u8], members: &mut [u8])
    requires { (length frame.now ≡ x * p) × (length members.old ≡ x * p) }
    ensures { members.new ≡ all_members x p frame.now }
{
    let mut r = 0;
    while r < x {
        member(x, p, frame, r, r * p, members);
        r += 1;
    }
}

// A member with no rank.
fn clear(to: &mut [u8])
    ensures { to.new ≡ tabulate (length to.old) (λ j. 0) }
{
    let mut j = 0;
    while j < to.len() {
        to[j] = 0;
        j += 1;
    }
}

// A member of any rank.
pub(crate) fn spread_one(x: usize, p: usize, r: usize, frame: &[u8], to: &mut [u8])
    requires { (length frame.now ≡ x * p) × (length to.old ≡ p) }
    ensures { to.new ≡ member_frame x p frame.now r }
{
    if r < x {
        member(x, p, frame, r, 0, to);
    } else {
        clear(to);
    }
}
