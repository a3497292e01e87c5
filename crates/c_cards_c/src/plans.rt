// c_cards::plans for C.
ghost use Rattle.std.specs.Prelude.{◌≡◌};
ghost use Rattle.c_cards.specs.Plans.{check_answer_c, check_byte_c, plan_answer_c, plan_bytes_c};

#[unsafe(no_mangle)]
pub extern "C" fn levelspruce_paths_plan(delays: &[u32], k: u32, window: u32, plan: &mut [u8]) -> u8
    ensures { (result ≡ plan_answer_c delays.now k window plan.old)
        × (plan.new ≡ plan_bytes_c delays.now k window plan.old) }
{
    c_cards::plans::levelspruce_paths_plan(delays, k, window, plan)
}

#[unsafe(no_mangle)]
pub extern "C" fn levelspruce_paths_check(
    delays: &[u32],
    k: u32,
    window: u32,
    set: &[u8],
    accepted: &mut [u8],
) -> u8
    ensures { (result ≡ check_answer_c delays.now k window accepted.old)
        × (accepted.new ≡ check_byte_c delays.now k window set.now accepted.old) }
{
    c_cards::plans::levelspruce_paths_check(delays, k, window, set, accepted)
}
