// Payload order (01, 'Payload order'): a group frame spread over its members, and members joined into a group frame.
// X members are ranked 0 to X-1, and P is the payload of a member frame in bytes.
#![tactic(auto)]

mod answer;
mod block;
mod copy;
mod deal;
mod narrow;
mod over;
mod plain;
mod shuffle;
mod work;

ghost use Rattle.std.specs.Prelude.{◌≡◌, length};
ghost use Rattle.payload.specs.Joining.{whole_answer, joined, from_answer, joined_from};
ghost use Rattle.payload.specs.Laying.{laid};
ghost use Rattle.payload.specs.Spreading.{spread_all, one_answer, spread_one};

pub use answer::{Answer, PAYLOAD_MOST};

// The frame spread over all members, which lie one after the other, rank r at r P.
pub fn spread(x: usize, p: usize, frame: &[u8], members: &mut [u8]) -> Answer
    ensures { (result ≡ whole_answer x p (length frame.now) (length members.old))
        × (members.new ≡ spread_all x p frame.now members.old) }
{
    match answer::whole(x, p, frame.len(), members.len()) {
        Answer::Done => {
            work::spread(x, p, frame, members);
            Answer::Done
        }
        Answer::Range => Answer::Range,
        Answer::Length => Answer::Length,
    }
}

// All members, which lie one after the other, rank r at r P, joined into the frame.
pub fn join(x: usize, p: usize, members: &[u8], frame: &mut [u8]) -> Answer
    ensures { (result ≡ whole_answer x p (length members.now) (length frame.old))
        × (frame.new ≡ joined x p members.now frame.old) }
{
    match answer::whole(x, p, members.len(), frame.len()) {
        Answer::Done => {
            work::join(x, p, members, frame);
            Answer::Done
        }
        Answer::Range => Answer::Range,
        Answer::Length => Answer::Length,
    }
}

// The payload of the one member ranked r; of a member with no rank below X, zeros.
pub fn spread_one(x: usize, p: usize, r: usize, frame: &[u8], member: &mut [u8]) -> Answer
    ensures { (result ≡ one_answer x p (length frame.now) (length member.old))
        × (member.new ≡ spread_one x p r frame.now member.old) }
{
    match answer::one(x, p, frame.len(), member.len()) {
        Answer::Done => {
            plain::spread_one(x, p, r, frame, member);
            Answer::Done
        }
        Answer::Range => Answer::Range,
        Answer::Length => Answer::Length,
    }
}

// Members that start anywhere in a store, joined into the frame that lies from a place of the output on.
pub fn join_from(
    x: usize,
    p: usize,
    starts: &[usize; 64],
    store: &[u8],
    place: usize,
    out: &mut [u8],
) -> Answer
    ensures { (result ≡ from_answer x p starts.now (length store.now) place (length out.old))
        × (out.new ≡ joined_from x p starts.now store.now place out.old) }
{
    match answer::from(x, p, starts, store.len(), place, out.len()) {
        Answer::Done => {
            work::join_from(x, p, starts, store, place, out);
            Answer::Done
        }
        Answer::Range => Answer::Range,
        Answer::Length => Answer::Length,
    }
}

// Bytes into a slice, from a place on; those that would pass its end leave it as it was.
pub fn lay(from: &[u8], place: usize, to: &mut [u8])
    ensures { to.new ≡ laid place from.now to.old }
{
    let n = from.len();
    if n <= to.len() {
        if place <= to.len() - n {
            copy::run(from, 0, n, place, to);
        }
    }
}

// What spread_one answers, from the lengths alone.
pub fn one_answer(x: usize, p: usize, frame: usize, member: usize) -> Answer
    ensures { result ≡ one_answer x p frame member }
{
    answer::one(x, p, frame, member)
}
