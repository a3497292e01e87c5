// c_receiver::seeing for C.
ghost use Rattle.std.specs.Prelude.{◌≡◌, length};
ghost use Rattle.receiver.specs.Anew.{anew_answer, anew_rows};
ghost use Rattle.receiver.specs.Behind.{behind_answer, behind_out};
ghost use Rattle.receiver.specs.Cause.{cause_answer, cause_out};
ghost use Rattle.receiver.specs.Heard.{heard_answer, heard_out};
ghost use Rattle.receiver.specs.Seen.{seen_answer, seen_out};
ghost use Rattle.receiver.specs.Settings.{settings_answer, settings_out};

#[unsafe(no_mangle)]
pub extern "C" fn levelspruce_receiver_seen(state: &[[u8; 16]], seen: &mut [[u8; 10]]) -> u8
    ensures { (result ≡ seen_answer state.now (length seen.old))
        × (seen.new ≡ seen_out state.now seen.old) }
{
    c_receiver::seeing::levelspruce_receiver_seen(state, seen)
}

#[unsafe(no_mangle)]
pub extern "C" fn levelspruce_receiver_cause(state: &[[u8; 16]], cause: &mut [u8]) -> u8
    ensures { (result ≡ cause_answer state.now (length cause.old))
        × (cause.new ≡ cause_out state.now cause.old) }
{
    c_receiver::seeing::levelspruce_receiver_cause(state, cause)
}

#[unsafe(no_mangle)]
pub extern "C" fn levelspruce_receiver_heard(state: &[[u8; 16]], heard: &mut [u8]) -> u8
    ensures { (result ≡ heard_answer state.now (length heard.old))
        × (heard.new ≡ heard_out state.now heard.old) }
{
    c_receiver::seeing::levelspruce_receiver_heard(state, heard)
}

#[unsafe(no_mangle)]
pub extern "C" fn levelspruce_receiver_behind(state: &[[u8; 16]], behind: &mut [u32]) -> u8
    ensures { (result ≡ behind_answer state.now (length behind.old))
        × (behind.new ≡ behind_out state.now behind.old) }
{
    c_receiver::seeing::levelspruce_receiver_behind(state, behind)
}

#[unsafe(no_mangle)]
pub extern "C" fn levelspruce_receiver_anew(state: &mut [[u8; 16]], store: &[u8]) -> u8
    ensures { (result ≡ anew_answer state.old (length store.now))
        × (state.new ≡ anew_rows state.old store.now) }
{
    c_receiver::seeing::levelspruce_receiver_anew(state, store)
}

#[unsafe(no_mangle)]
pub extern "C" fn levelspruce_receiver_settings(state: &[[u8; 16]], settings: &mut [u32]) -> u8
    ensures { (result ≡ settings_answer state.now (length settings.old))
        × (settings.new ≡ settings_out state.now settings.old) }
{
    c_receiver::seeing::levelspruce_receiver_settings(state, settings)
}
