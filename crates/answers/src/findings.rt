// The answer of the witness question as numbers.
ghost use Rattle.std.specs.Prelude.{◌≡◌};
ghost use Rattle.plan.specs.Outcome.{finding_values};

use crate::refusals::{told_number, told_place};
use plan::{Finding, Refusal};

// The values are 1 for yes, 0 for no or 2 for undecided, and how many fillings were tried.
pub fn finding(r: Result<Finding, Refusal>, answer: &mut [u64; 4])
    ensures { answer.new ≡ finding_values r }
{
    match r {
        Ok(Finding::Yes(tried)) => {
            *answer = [0, 0, 1, tried as u64];
        }
        Ok(Finding::No(tried)) => {
            *answer = [0, 0, 0, tried as u64];
        }
        Ok(Finding::Undecided(tried)) => {
            *answer = [0, 0, 2, tried as u64];
        }
        Err(r) => {
            *answer = [told_number(r), told_place(r) as u64, 0, 0];
        }
    }
}
