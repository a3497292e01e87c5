// c_face::seeing for C.
ghost use Rattle.std.specs.Prelude.{◌≡◌};
ghost use Rattle.c_face.specs.Boards.{shown_answer_c};
ghost use Rattle.c_face.specs.Settings.{settings_bytes_c};

#[unsafe(no_mangle)]
pub extern "C" fn levelspruce_sender_settings(state: &[u8], settings: &mut [u8]) -> u8
    ensures { (result ≡ shown_answer_c 5 state.now settings.old)
        × (settings.new ≡ settings_bytes_c state.now settings.old) }
{
    c_face::seeing::levelspruce_sender_settings(state, settings)
}
