// The answer of the search as numbers.
ghost use Rattle.std.specs.Prelude.{◌≡◌};
ghost use Rattle.plan.specs.Search.{happening_values};

use crate::refusals::{told_number, told_place};
use plan::{Happening, Refusal};

// The values are 0 for never, 1 for that it can happen or 2 for undecided, how many states are reached or steps lead there, and the tries.
pub fn happening(r: Result<Happening, Refusal>, answer: &mut [u64; 5])
    ensures { answer.new ≡ happening_values r }
{
    match r {
        Ok(Happening::Never(states, tries)) => {
            *answer = [0, 0, 0, states as u64, tries as u64];
        }
        Ok(Happening::Can(steps, tries)) => {
            *answer = [0, 0, 1, steps as u64, tries as u64];
        }
        Ok(Happening::Undecided(tries)) => {
            *answer = [0, 0, 2, 0, tries as u64];
        }
        Err(r) => {
            *answer = [told_number(r), told_place(r) as u64, 0, 0, 0];
        }
    }
}
