// The answers as numbers, for callers in C: 0 or the refusal's number, its place, and the values, which are 0 after
// a refusal.
ghost use Rattle.std.specs.Prelude.{◌≡◌, ◌∷◌, []};
ghost use Rattle.plan.specs.Header.{counts_from, list_of};
ghost use Rattle.plan.specs.Outcome.{checked_values, written_values, made_values, stepped_values, verdict_values};

use crate::refusals::{told_number, told_place};
use plan::{Counts, Refusal};

// M, I, L, O, A, B, C.
pub fn counts(words: &[u64; 7]) -> Counts
    ensures { result ≡ counts_from words.now }
{
    Counts {
        M: words[0] as usize,
        I: words[1] as usize,
        L: words[2] as usize,
        O: words[3] as usize,
        A: words[4] as usize,
        B: words[5] as usize,
        C: words[6] as usize,
    }
}

pub fn checked(r: Result<(), Refusal>, answer: &mut [u64; 2])
    ensures { answer.new ≡ checked_values r }
{
    match r {
        Ok(()) => {
            *answer = [0, 0];
        }
        Err(r) => {
            *answer = [told_number(r), told_place(r) as u64];
        }
    }
}

// The value is the number of bytes written.
pub fn written(r: Result<usize, Refusal>, answer: &mut [u64; 3])
    ensures { answer.new ≡ written_values r }
{
    match r {
        Ok(n) => {
            *answer = [0, 0, n as u64];
        }
        Err(r) => {
            *answer = [told_number(r), told_place(r) as u64, 0];
        }
    }
}

// Number, place, M, I, L, O, A, B, C.
pub fn tell(answer: &mut [u64; 9], number: u64, place: u64, n: Counts)
    ensures { answer.new ≡ number ∷ place ∷ list_of n }
{
    *answer = [
        number, place, n.M as u64, n.I as u64, n.L as u64, n.O as u64, n.A as u64, n.B as u64,
        n.C as u64,
    ];
}

// The counts after a refusal.
pub fn no_counts() -> Counts
    ensures { list_of result ≡ 0 ∷ 0 ∷ 0 ∷ 0 ∷ 0 ∷ 0 ∷ 0 ∷ [] }
{
    Counts {
        M: 0,
        I: 0,
        L: 0,
        O: 0,
        A: 0,
        B: 0,
        C: 0,
    }
}

// The values are M, I, L, O, A, B, C of the circuit made.
pub fn made(r: Result<Counts, Refusal>, answer: &mut [u64; 9])
    ensures { answer.new ≡ made_values r }
{
    match r {
        Ok(n) => {
            tell(answer, 0, 0, n);
        }
        Err(r) => {
            tell(answer, told_number(r), told_place(r) as u64, no_counts());
        }
    }
}

pub fn stepped(r: Result<(), Refusal>, answer: &mut [u64; 2])
    ensures { answer.new ≡ stepped_values r }
{
    match r {
        Ok(()) => {
            *answer = [0, 0];
        }
        Err(r) => {
            *answer = [told_number(r), told_place(r) as u64];
        }
    }
}

// The value is 1 for yes, 0 for no.
pub fn verdict(r: Result<bool, Refusal>, answer: &mut [u64; 3])
    ensures { answer.new ≡ verdict_values r }
{
    match r {
        Ok(true) => {
            *answer = [0, 0, 1];
        }
        Ok(false) => {
            *answer = [0, 0, 0];
        }
        Err(r) => {
            *answer = [told_number(r), told_place(r) as u64, 0];
        }
    }
}
