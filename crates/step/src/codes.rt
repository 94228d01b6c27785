// Refusal 12: a failing_at of wrong length, or a byte of a state or of inputs but "0", "1", "x" (the paper, refusal
// numbers).
ghost use Rattle.std.specs.Prelude.{◌≡◌, ◌&&◌, ◌*◌, eqb, length};
ghost use Rattle.plan.specs.Given.{or_else, failing_at};
ghost use Rattle.plan.specs.Step.{is_code};
ghost use Rattle.plan.specs.Outcome.{all_codes};

use plan::Counts;

pub fn is_code(b: u8) -> bool
    ensures { result ≡ is_code b }
{
    if b == b'0' {
        return true;
    }
    if b == b'1' {
        return true;
    }
    b == b'x'
}

fn all_codes(bytes: &[u8]) -> bool
    ensures { result ≡ all_codes bytes.now }
{
    bytes.iter().all(|b| is_code(*b))
}

// Whether n codes stand in a failing_at, and no other byte.
pub fn codes_in(bytes: &[u8], n: usize) -> bool
    ensures { result ≡ (eqb (length bytes.now) n && all_codes bytes.now) }
{
    if bytes.len() != n {
        return false;
    }
    all_codes(bytes)
}

// The first failing_at that is refused: 1 the state, 2 the inputs, 3 the outputs, of which only the length is judged.
pub fn bad_vector(n: Counts, state: &[u8], ins: &[u8], outs: usize) -> Option<usize>
    ensures { result ≡ or_else (failing_at 1
        (eqb (length state.now) n.L && all_codes state.now))
        (or_else (failing_at 2 (eqb (length ins.now) n.I && all_codes ins.now))
        (failing_at 3 (eqb outs n.O))) }
{
    if !codes_in(state, n.L) {
        return Some(1);
    }
    if !codes_in(ins, n.I) {
        return Some(2);
    }
    if outs != n.O {
        return Some(3);
    }
    None
}

// Whether the bytes of a list are `number` times `each`, as a true product.
fn product_is(bytes: usize, number: usize, each: usize) -> bool
    ensures { result ≡ eqb bytes (number * each) }
{
    if each == 0 {
        return bytes == 0;
    }
    if bytes / each != number {
        return false;
    }
    bytes % each == 0
}

// Whether a list is `number` vectors of `each` codes.
pub fn whole_list(bytes: &[u8], number: usize, each: usize) -> bool
    ensures { result ≡ (eqb (length bytes.now) (number * each) && all_codes bytes.now) }
{
    if !product_is(bytes.len(), number, each) {
        return false;
    }
    all_codes(bytes)
}
