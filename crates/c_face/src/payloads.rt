// Payload order for C: a group frame spread over its members, and members joined into a group frame.
ghost use Rattle.std.specs.Prelude.{◌≡◌};
ghost use Rattle.c_face.specs.Payloads.{join_answer_c, join_frame_c, spread_answer_c, spread_members_c};

pub fn levelspruce_spread(x: u32, p: u32, frame: &[u8], members: &mut [u8]) -> u8
    ensures { (result ≡ spread_answer_c x p frame.now members.old)
        × (members.new ≡ spread_members_c x p frame.now members.old) }
{
    let answer = payload::spread(x as usize, p as usize, frame, members);
    answer.number()
}

pub fn levelspruce_join(x: u32, p: u32, members: &[u8], frame: &mut [u8]) -> u8
    ensures { (result ≡ join_answer_c x p members.now frame.old)
        × (frame.new ≡ join_frame_c x p members.now frame.old) }
{
    let answer = payload::join(x as usize, p as usize, members, frame);
    answer.number()
}
