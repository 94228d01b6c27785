// The line of a refusal, which is all that a program writes then (the paper, programs).
ghost use Rattle.std.specs.Prelude.{◌≡◌};
ghost use Rattle.plan.specs.Whole.{tell_refusal};

use crate::forms::append;
use answers::refusals::{told_number, told_place};
use codec::numbers;
use plan::Refusal;

// The line "refused N at P", or 11 and nothing.
pub fn tell_refusal(r: Refusal, out: &mut [u8]) -> Result<usize, Refusal>
    ensures { record { answer = result; out = out.new } ≡ tell_refusal r out.old }
{
    let number = told_number(r) as usize;
    let place = told_place(r);
    let line = 13 + numbers::digits_in(number) + numbers::digits_in(place);
    if out.len() < line {
        return Err(Refusal::ShortBuffer(line));
    }
    let number_at = append(out, 0, b"refused ");
    let number_end = numbers::put_digits(out, number_at, number);
    let place_at = append(out, number_end, b" at ");
    let end = numbers::put_digits(out, place_at, place);
    out[end] = b'\n';
    Ok(line)
}
