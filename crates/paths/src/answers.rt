// What the planner and the check refuse, both alike: 4, 'before any search'.
ghost use Rattle.std.specs.Prelude.{◌≡◌};
ghost use Rattle.paths.specs.Answers.{Answer, answer_of, are_short, number_of, refusal_number, sized, told_by};
ghost use Rattle.paths.specs.Laws.Answers.{refusal_above};

#[derive(Clone, Copy, Debug, PartialEq, Eq)]
pub struct OutOfRange;

impl OutOfRange {
    // 01's number.
    pub fn number(self) -> u8
        ensures { result ≡ number_of Answer.Range }
    {
        4
    }
}

impl ground::Refusal for OutOfRange {
    ghost number_of = { refusal_number };

    ghost is_no_zero = { refusal_above };

    fn number(self) -> u8 {
        OutOfRange::number(self)
    }
}

fn is_sized(n: usize, k: u32, window: u32) -> bool
    ensures { result ≡ sized n k window }
{
    n <= 64 && 1 <= k && k as usize <= n && 16 <= window && window <= 2048
}

fn are_short(delays: &[u32]) -> bool
    ensures { result ≡ are_short delays.now }
{
    delays.iter().all(|delay| *delay <= 4095)
}

// Delays are gone through only where there are at most 64.
#[tactic(auto, unfolding(crate::specs::Answers::answer_of))]
pub(crate) fn asked(delays: &[u32], k: u32, window: u32) -> Result<(), OutOfRange>
    ensures { result ≡ told_by (answer_of delays.now k window) tt }
{
    if is_sized(delays.len(), k, window) && are_short(delays) {
        Ok(())
    } else {
        Err(OutOfRange)
    }
}
