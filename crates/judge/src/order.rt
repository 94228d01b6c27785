// The order of gates. Each next number goes, among the gates still without one, to the first gate in file order
// whose right sides are both numbered; a gate that gets none lies on a cycle or above one.  Never quadratic: a gate
// with a right side that has no number waits for the gate that defines it; when that gets its number, the gates
// that wait for it wait for their other side, or are marked; the next number goes to the first marked gate.
ghost use Rattle.std.specs.Prelude.{◌≡◌, true, List, ◌++◌, map, ℕ, ◌+◌, ◌*◌, ◌<◌, ◌≤◌, length, get_or, take};
ghost use Rattle.plan.specs.declared.Refusal.TheVariants.{Cyclic};
ghost use Rattle.plan.specs.Refusals.{stage};
ghost use Rattle.plan.specs.Circuit.{Circuit, gate_of, rows_of, left_vars, rights, leaves};
ghost use Rattle.plan.specs.Depends.{cyclic_in};
ghost use Rattle.plan.specs.Outcome.{checked_by};
ghost use Rattle.laws.proofs.Reading.Members.{distinct};
ghost use Rattle.laws.proofs.Running.Lists.{all_in};
ghost use Rattle.laws.proofs.Running.Scan.{scanned};
ghost use Rattle.laws.proofs.Running.Ascending.{ascends};
ghost use Rattle.judge.specs.order.Numbers.{NumTable, InRange};
ghost use Rattle.judge.specs.order.Waiting.{Room, Known, Fresh, Blank, counted, FirstAt};

use plan::Refusal;

mod chains;
mod giving;
mod words;

// Numbers from `first` on for the gates, in the first n words of t, which hold the numbers of the leaves; the rest
// of t is left as it comes. Gives how many gates have one.
fn number(gates: &[u32], t: &mut [u32], first: u32, n: usize, a: usize) -> usize
    requires { Room gates.now t.old n a × (0 < first) × (first + a < 2147483648) × Fresh t.old n
        × Blank t.old n × Known gates.now t.old n a }
    ensures value { result ≡ counted gates.now t.new a }
    ensures by_index { (lv : List ℕ) → NumTable lv (take n t.old) → get_or lv 0 1 ≡ 0 → length lv ≡ first
        → NumTable (lv ++ left_vars (scanned (map gate_of (rows_of 3 a gates.now)) a lv))
        (take n t.new) }
{
    words::name_all(gates, t, n, a);
    chains::hang_all(gates, t, n, a);
    let k = giving::assign(gates, t, first, n, a);
    words::settle(t, n);
    k
}

// The first of the a gates without a number, or a.
fn first_out(gates: &[u32], t: &[u32], a: usize) -> usize
    requires { (3 * a ≤ length gates.now) × InRange (length t.now) gates.now a }
    ensures { FirstAt gates.now t.now a result }
{
    for i in 0..a {
        if !words::numbered(t, gates[3 * i]) {
            return i;
        }
    }
    a
}

// Refusal 8, of gates whose leaves t numbers: the left variable of the first gate in file order that gets no
// number. The numbers stay.
pub fn cycle(gates: &[u32], t: &mut [u32], first: u32, n: usize, a: usize) -> Result<(), Refusal>
    requires { Room gates.now t.old n a × (0 < first) × (first + a < 2147483648) × Fresh t.old n
        × Blank t.old n × Known gates.now t.old n a }
    ensures value { (c : Circuit) → c.gates ≡ map gate_of (rows_of 3 a gates.now)
        → distinct (leaves c ++ left_vars c.gates) ≡ true → all_in (rights c.gates) (leaves c ++ left_vars c.gates)
        ≡ true → NumTable (leaves c) (take n t.old) → length (leaves c) ≡ first → result
        ≡ checked_by (stage Cyclic (cyclic_in c)) }
    ensures by_index { (lv : List ℕ) → NumTable lv (take n t.old) → get_or lv 0 1 ≡ 0 → length lv ≡ first
        → NumTable (lv ++ left_vars (scanned (map gate_of (rows_of 3 a gates.now)) a lv))
        (take n t.new) }
{
    if number(gates, t, first, n, a) == a {
        return Ok(());
    }
    let i = first_out(gates, t, a);
    Err(Refusal::Cyclic(words::var_of(gates[3 * i])))
}

// Whether every left variable is above its right ones, so that no gate can depend on itself: most files are written so.
pub fn ascending(gates: &[u32], a: usize) -> bool
    requires { 3 * a ≤ length gates.now }
    ensures { result ≡ ascends (map gate_of (rows_of 3 a gates.now)) }
{
    for i in 0..a {
        let v = words::var_of(gates[3 * i]);
        if v <= words::var_of(gates[3 * i + 1]) {
            return false;
        }
        if v <= words::var_of(gates[3 * i + 2]) {
            return false;
        }
    }
    true
}
