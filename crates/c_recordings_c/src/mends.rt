// c_recordings::mends for C.
ghost use Rattle.std.specs.Prelude.{◌≡◌};
ghost use Rattle.c_recordings.specs.Mends.{lengths_answer_c, mend_answer_c, mended_c, mended_length_c, notes_c, notes_length_c};

#[unsafe(no_mangle)]
pub extern "C" fn levelspruce_mend_lengths(
    recording: &[u8],
    mended_length: &mut usize,
    notes_length: &mut usize,
) -> u8
    ensures { (result ≡ lengths_answer_c recording.now)
        × (mended_length.new ≡ mended_length_c recording.now mended_length.old)
        × (notes_length.new ≡ notes_length_c recording.now notes_length.old) }
{
    c_recordings::mends::levelspruce_mend_lengths(recording, mended_length, notes_length)
}

#[unsafe(no_mangle)]
pub extern "C" fn levelspruce_mend(recording: &[u8], mended: &mut [u8], notes: &mut [u8]) -> u8
    ensures { (result ≡ mend_answer_c recording.now mended.old notes.old)
        × (mended.new ≡ mended_c recording.now mended.old notes.old)
        × (notes.new ≡ notes_c recording.now mended.old notes.old) }
{
    c_recordings::mends::levelspruce_mend(recording, mended, notes)
}
