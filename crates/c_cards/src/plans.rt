// Which paths to join, for C: the planner's proposal and the check of any, each into one lent buffer.
ghost use Rattle.std.specs.Prelude.{◌≡◌, ◌∷◌, length};
ghost use Rattle.c_cards.specs.Plans.{check_answer_c, check_byte_c, plan_answer_c, plan_bytes_c};

use paths::Proposal;

fn put_plan(plan: &Proposal, out: &mut [u8])
    requires { length out.old ≡ 65 }
    ensures { out.new ≡ plan.now.count ∷ plan.now.paths }
{
    out[0] = plan.count;
    out[1..].copy_from_slice(&plan.paths);
}

pub fn levelspruce_paths_plan(delays: &[u32], k: u32, window: u32, plan: &mut [u8]) -> u8
    ensures { (result ≡ plan_answer_c delays.now k window plan.old)
        × (plan.new ≡ plan_bytes_c delays.now k window plan.old) }
{
    let proposal = match paths::plan(delays, k, window) {
        Ok(proposal) => proposal,
        Err(refusal) => return refusal.number(),
    };
    if plan.len() != 65 {
        return 9;
    }
    put_plan(&proposal, plan);
    0
}

pub fn levelspruce_paths_check(
    delays: &[u32],
    k: u32,
    window: u32,
    set: &[u8],
    accepted: &mut [u8],
) -> u8
    ensures { (result ≡ check_answer_c delays.now k window accepted.old)
        × (accepted.new ≡ check_byte_c delays.now k window set.now accepted.old) }
{
    let is_accepted = match paths::check(delays, k, window, set) {
        Ok(is_accepted) => is_accepted,
        Err(refusal) => return refusal.number(),
    };
    if accepted.len() != 1 {
        return 9;
    }
    accepted[0] = u8::from(is_accepted);
    0
}
