// The number of an answer (01, 'Answer numbers'): 0 where a call is done, and each refusal's own where it is not.
ghost use Rattle.std.specs.Prelude.{◌≡◌, ◌<◌, ℕ};
ghost use Rattle.ground.specs.Refusals.{number_told};

// What a call refuses with.
pub trait Refusal {
    ghost number_of: { Self → ℕ };

    fn number(self) -> u8
        ensures { result ≡ number_of self };

    // 0 says done, so that no refusal has it.
    ghost is_no_zero: { (refusal : Self) → 0 < number_of refusal };
}

pub fn number_told<T: Drop, E: Refusal + Drop>(answer: Result<T, E>) -> u8
    ensures { result ≡ number_told E.number_of answer }
{
    match answer {
        Ok(_) => 0,
        Err(refusal) => refusal.number(),
    }
}
