// c_face::payloads for C.
ghost use Rattle.std.specs.Prelude.{◌≡◌};
ghost use Rattle.c_face.specs.Payloads.{join_answer_c, join_frame_c, spread_answer_c, spread_members_c};

#[unsafe(no_mangle)]
pub extern "C" fn levelspruce_spread(x: u32, p: u32, frame: &[u8], members: &mut [u8]) -> u8
    ensures { (result ≡ spread_answer_c x p frame.now members.old)
        × (members.new ≡ spread_members_c x p frame.now members.old) }
{
    c_face::payloads::levelspruce_spread(x, p, frame, members)
}

#[unsafe(no_mangle)]
pub extern "C" fn levelspruce_join(x: u32, p: u32, members: &[u8], frame: &mut [u8]) -> u8
    ensures { (result ≡ join_answer_c x p members.now frame.old)
        × (frame.new ≡ join_frame_c x p members.now frame.old) }
{
    c_face::payloads::levelspruce_join(x, p, members, frame)
}
