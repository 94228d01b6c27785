// Table 6 judged among the tables: 4 names the least that is too short, and 6 stands between 5 and 7 (the paper,
// the needle report).
ghost use Rattle.std.specs.Prelude.{◌≡◌};
ghost use Rattle.judge.specs.table_six.Judged.{before_sixth, with_sixth};

use answers::refusals::{told_number, told_place};
use plan::Refusal;

// Whether a refusal of given tables comes before 4 at table 6: 2, 3, and 4 at a table below it.
fn before_sixth(refusal: Refusal) -> bool
    ensures { result ≡ before_sixth refusal }
{
    let number = told_number(refusal);
    if number == 4 {
        return told_place(refusal) < 6;
    }
    number < 4
}

// The answer of `given::judge_in_order` or `check_in_order`, with table 6, which is too short or not. The caller
// tests that by a division, since the answer may be that a count is too large, and then a product of counts need
// not fit.
pub fn with_sixth(answer: Result<(), Refusal>, short: bool) -> Result<(), Refusal>
    ensures { result ≡ with_sixth answer short }
{
    if !short {
        return answer;
    }
    match answer {
        Ok(()) => Err(Refusal::ShortTable(6)),
        Err(refusal) => {
            if before_sixth(refusal) {
                return answer;
            }
            Err(Refusal::ShortTable(6))
        }
    }
}
