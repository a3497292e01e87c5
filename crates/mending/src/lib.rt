// A torn recording mended (2026-11): malformed lines dropped, the H4 count of each port followed and restored, and a note for each line
// that was dropped or altered.
#![tactic(auto)]

mod copying;
mod follow;
mod line;
mod measuring;
mod notes;
mod opening;

ghost use Rattle.std.specs.Prelude.{◌≡◌, length};
ghost use Rattle.mending.specs.Mending.{mend_answer};
ghost use Rattle.mending.specs.Told.{lengths_of, mended_left, notes_left};

pub use follow::Follow;
pub use measuring::Lengths;

// How many bytes the mended recording and its notes have.
pub fn mend_lengths(recording: &[u8]) -> Lengths
    ensures { result ≡ lengths_of recording.now }
{
    let start = opening::opened(recording);
    if start.answer != 0 {
        return measuring::refused(start.answer);
    }
    measuring::lengths_from(
        recording,
        start.next,
        start.ports,
        start.size,
        start.counted,
    )
}

// The recording mended, and its notes: 'A library copies a recording lent whole'.
pub fn mend(recording: &[u8], mended: &mut [u8], notes: &mut [u8]) -> u8
    ensures { (result ≡ mend_answer recording.now (length mended.old) (length notes.old))
        × (mended.new ≡ mended_left recording.now mended.old notes.old)
        × (notes.new ≡ notes_left recording.now mended.old notes.old) }
{
    let start = opening::opened(recording);
    if start.answer != 0 {
        return start.answer;
    }
    let told = measuring::lengths_from(
        recording,
        start.next,
        start.ports,
        start.size,
        start.counted,
    );
    if !((mended.len() == told.mended) & (notes.len() == told.notes)) {
        return 9;
    }
    copying::copy_all(
        recording,
        start.next,
        start.ports,
        start.size,
        start.counted,
        mended,
    );
    notes::put_notes(
        recording,
        start.next,
        start.ports,
        start.size,
        mended,
        notes,
    );
    0
}
