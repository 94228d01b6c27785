// The way back from a row to its start, and the bytes of both (the paper, the search).
ghost use Rattle.std.specs.Prelude.{◌≡◌, map, ◌+◌, ◌/◌, ◌%◌, ◌^◌, ◌≤◌, ◌<◌, length};
ghost use Rattle.plan.specs.Step.{code_of};
ghost use Rattle.plan.specs.Outcome.{put};
ghost use Rattle.plan.specs.Search.{bit_value, bits};
ghost use Rattle.search.specs.Walking.{Walks, Stores, StepsTo, StoresWay, Tells};

use plan::{Counts, Happening, Refusal};

// "0" or "1" of bit i of a number.
fn bit_code(k: u32, i: usize) -> u8
    requires { i < 32 }
    ensures { result ≡ code_of (bit_value (k / 2 ^ i % 2)) }
{
    let bit = (k >> i) & 1;
    if bit == 1 {
        return b'1';
    }
    b'0'
}

// A number's n lowest bits go into bytes from `first` on.
fn store_number(k: u32, n: usize, first: usize, t: &mut [u8])
    requires { (n ≤ 20) × (first + n ≤ length t.old) }
    ensures { t.new ≡ put t.old first (map code_of (bits n k)) }
{
    for i in 0..n {
        t[first + i] = bit_code(k, i);
    }
}

// A word of a row as a place.
fn ix(x: u32) -> usize
    ensures { result ≡ x }
{
    x as usize
}

// How many steps lead to what is shown at the state of a row: one more than the moves by which that was met.
fn steps_to(met: &[u32], place: usize) -> usize
    requires { Walks met.now place }
    ensures { StepsTo met.now place result }
{
    let mut steps = 1;
    let mut from = ix(met[3 * place + 1]);
    while 0 < from {
        steps += 1;
        from = ix(met[3 * (from - 1) + 1]);
    }
    steps
}

// The start and the list, from the last vector back.
fn store_way(n: Counts, met: &[u32], place: usize, m: u32, steps: usize, out: &mut [u8])
    requires { Stores n met.now place steps out.old }
    ensures { StoresWay n met.now place m steps out.old out.new }
{
    let mut at = n.L + (steps - 1) * n.I;
    store_number(m, n.I, at, out);
    let mut p = place;
    let mut from = ix(met[3 * p + 1]);
    while 0 < from {
        at -= n.I;
        store_number(met[3 * p + 2], n.I, at, out);
        p = from - 1;
        from = ix(met[3 * p + 1]);
    }
    store_number(met[3 * p], n.L, 0, out);
}

// The answer where it is shown: the start and the list are written if they have room.
pub fn tell(
    n: Counts,
    met: &[u32],
    place: usize,
    m: u32,
    tries: usize,
    out: &mut [u8],
) -> Result<Happening, Refusal>
    requires { (n.L ≤ 20) × (n.I ≤ 20) × Walks met.now place }
    ensures { Tells n met.now place m tries out.old result out.new }
{
    let steps = steps_to(met, place);
    let needed = n.L + steps * n.I;
    if out.len() < needed {
        return Err(Refusal::ShortBuffer(needed));
    }
    store_way(n, met, place, m, steps, out);
    Ok(Happening::Can(steps, tries))
}
