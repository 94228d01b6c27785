// The numbers are given.
ghost use Rattle.std.specs.Prelude.{◌≡◌, List, ◌++◌, ℕ, ◌+◌, ◌<◌, length, get_or};
ghost use Rattle.plan.specs.Circuit.{left_vars};
ghost use Rattle.laws.proofs.Tables.{gates_at};
ghost use Rattle.laws.proofs.Running.Scan.{scanned};
ghost use Rattle.judge.specs.order.Numbers.{NumTable};
ghost use Rattle.judge.specs.marks.Levels.{Agree};
ghost use Rattle.judge.specs.order.Waiting.{Space, clean, counted, Waiting, every, Waking, Giving, Given};

use crate::marks;
use crate::order::{chains, words};
use tables::bitmap;

// The gates of the chain that starts at h wait no more for its gate: each is hung again, or marked.
fn wake(gates: &[u32], t: &mut [u32], n: usize, a: usize, h: usize)
    requires { Space gates.now t.old n a × Waking gates.now t.old n a h }
    ensures { Waiting gates.now t.new n a every × Agree n t.old t.new }
{
    let mut at = h;
    while 0 < at {
        let i = at - 1;
        at = words::ix(t[n + a + i]);
        chains::hang(gates, t, n, a, i);
    }
}

// Gate j gets number x.
fn give(gates: &[u32], t: &mut [u32], n: usize, a: usize, j: usize, x: u32)
    requires { Giving gates.now t.old n a j x }
    ensures { Given gates.now t.old t.new n a j x }
{
    let v = words::var_of(gates[3 * j]);
    let h = words::ix(t[n + j]);
    t[v] = x;
    marks::unmark(t, n, a, j);
    wake(gates, t, n, a, h);
}

// The scan starts at the pair of gates that the first mark is in, and yields the next gate that is ready; where none is, no further
// number is given. Gives how many gates have one.
// Two loops, a break and a label: the form that this place needs (docs/DECISIONS.md, Forms).
pub fn assign(gates: &[u32], t: &mut [u32], first: u32, n: usize, a: usize) -> usize
    requires { Space gates.now t.old n a × (0 < first) × (first + a < 2147483648) × Waiting gates.now t.old n a every
        × (counted gates.now t.old a ≡ 0) }
    ensures value { result ≡ counted gates.now t.new a }
    ensures by_index { (lv : List ℕ) → NumTable lv (clean n t.old) → get_or lv 0 1 ≡ 0 → length lv ≡ first
        → NumTable (lv ++ left_vars (scanned (gates_at gates.now a) a lv)) (clean n t.new) }
{
    let mut next = first;
    let mut k: usize = 0;
    'numbers: while k < a {
        let mut j = marks::first_pair(t, n, a);
        loop {
            if a <= j {
                break 'numbers;
            }
            if bitmap::is_on(t, n + 2 * a, j) {
                break;
            }
            j += 1;
        }
        give(gates, t, n, a, j, next);
        next += 1;
        k += 1;
    }
    k
}
