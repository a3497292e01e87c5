// What spreading and joining answer (01, 'Answer numbers': 4, then 9).
ghost use Rattle.std.specs.Prelude.{◌≡◌, ◌+◌, ◌≤◌, length, if◌then◌else◌};
ghost use Rattle.ground.specs.Plain.{◌≤?◌};
ghost use Rattle.payload.specs.Answers.{number_of, sized};
ghost use Rattle.payload.specs.Joining.{whole_answer, from_answer, starts_fit};
ghost use Rattle.payload.specs.Spreading.{one_answer};

// The longest payload of a member frame.
pub const PAYLOAD_MOST: usize = 2340;

#[derive(Clone, Copy)]
pub enum Answer {
    Done,
    Range,
    Length,
}

impl Answer {
    // 01's number.
    pub fn number(self) -> u8
        ensures { result ≡ number_of self }
    {
        match self {
            Answer::Done => 0,
            Answer::Range => 4,
            Answer::Length => 9,
        }
    }
}

fn is_sized(x: usize, p: usize) -> bool
    ensures { result ≡ sized x p }
{
    (x <= 64) & (1 <= p) & (p <= PAYLOAD_MOST)
}

fn by_lengths(right: bool) -> Answer
    ensures { result ≡ (if right then Answer.Done else Answer.Length) }
{
    if right { Answer::Done } else { Answer::Length }
}

// All members beside their group frame.
pub(crate) fn whole(x: usize, p: usize, from: usize, to: usize) -> Answer
    ensures { result ≡ whole_answer x p from to }
{
    if is_sized(x, p) {
        let n = x * p;
        by_lengths((from == n) & (to == n))
    } else {
        Answer::Range
    }
}

// One member beside its group frame.
pub(crate) fn one(x: usize, p: usize, frame: usize, member: usize) -> Answer
    ensures { result ≡ one_answer x p frame member }
{
    if is_sized(x, p) {
        let n = x * p;
        by_lengths((frame == n) & (member == p))
    } else {
        Answer::Range
    }
}

// Whether n bytes from a place on end within a slice of the given length.
fn ends_within(place: usize, n: usize, len: usize) -> bool
    ensures { result ≡ (place + n ≤? len) }
{
    if n <= len { place <= len - n } else { false }
}

fn starts_fit(x: usize, p: usize, starts: &[usize], store: usize) -> bool
    requires { x ≤ length starts.now }
    ensures { result ≡ starts_fit x p starts.now store }
{
    let mut fit = true;
    let mut r = 0;
    while r < x {
        fit = ends_within(starts[r], p, store) & fit;
        r += 1;
    }
    fit
}

// Members that start anywhere in a store, beside an output.
pub(crate) fn from(
    x: usize,
    p: usize,
    starts: &[usize],
    store: usize,
    place: usize,
    out: usize,
) -> Answer
    requires { 64 ≤ length starts.now }
    ensures { result ≡ from_answer x p starts.now store place out }
{
    if is_sized(x, p) {
        let frame = ends_within(place, x * p, out);
        let members = starts_fit(x, p, starts, store);
        by_lengths(frame & members)
    } else {
        Answer::Range
    }
}
