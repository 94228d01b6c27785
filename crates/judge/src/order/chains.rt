// The chains: a gate waits for at most one other, which defines a right side of it that has no number. Word n + g
// has where gate g's chain starts, word n + a + i which gate comes after gate i. A place in a chain is 1 more than
// the gate, and 0 is its end.
ghost use Rattle.std.specs.Prelude.{◌≡◌, false, ℕ, ◌+◌, ◌<◌, length};
ghost use Rattle.judge.specs.marks.Levels.{Agree};
ghost use Rattle.judge.specs.order.Waiting.{Space, numbered_v, lhs_of, watched, hung, Waiting, before, every};

use crate::marks;
use crate::order::words;

// Gate i goes first in the chain of the gate that it waits for; it is marked if it waits for none.
pub fn hang(gates: &[u32], t: &mut [u32], n: usize, a: usize, i: usize)
    requires { Space gates.now t.old n a × (i < a) × (watched gates.now t.old i < 2147483648 + a) }
    ensures { t.new ≡ hung gates.now t.old n a i }
{
    let w = words::watch(gates, t, i);
    if w < 2147483648 {
        marks::mark(t, n, a, i);
        return;
    }
    let g = words::ix(w - 2147483648);
    t[n + a + i] = t[n + g];
    t[n + g] = (i + 1) as u32;
}

pub fn hang_all(gates: &[u32], t: &mut [u32], n: usize, a: usize)
    requires { Space gates.now t.old n a × Waiting gates.now t.old n a (before 0)
        × ((i : ℕ) → i < a → numbered_v t.old (lhs_of gates.now i) ≡ false) }
    ensures { Waiting gates.now t.new n a every
        × Agree n t.old t.new }
{
    for i in 0..a {
        hang(gates, t, n, a, i);
    }
}
