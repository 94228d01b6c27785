// One gate rewired at the desk: the edit is judged, its two right sides are stored, and the values from it upward
// are computed anew, in one pass over the bytes on the screen (the paper, rewiring one gate).
#![tactic(auto)]

ghost use Rattle.std.specs.Prelude.{◌≡◌, [], ◌∷◌, ℕ, ◌+◌, ◌*◌, ◌<◌, ◌≤◌, min, max, length, get_or};
ghost use Rattle.plan.specs.declared.Refusal.TheVariants.{WrongValue};
ghost use Rattle.plan.specs.Literals.{var_of, sign_of, word_of};
ghost use Rattle.plan.specs.Refusals.{stage, first_of};
ghost use Rattle.plan.specs.Step.{Value, code_of, and, signed_value, lit};
ghost use Rattle.plan.specs.Outcome.{put, checked_by};
ghost use Rattle.laws.proofs.Tables.{gate_at, gates_at};
ghost use Rattle.plan.specs.Rewire.{value_on, wrong_from, edit_stages, rewiring};
ghost use Rattle.rewire.specs.Shown.{Shows, Follows, Row, Ordered, Counted};
ghost use Rattle.plan.specs.Lent.{Rewires};

use judge::check_in_order;
use plan::{Counts, Lit, Refusal, Var};
use step::codes::is_code;

// A code, negated if the sign is 1: "0" and "1" differ in the lowest bit, and "x", which stays, alone has the bit
// of 64.
fn signed_code(sign: u8, code: u8) -> u8
    ensures { (a : Value) → sign < 2 → code ≡ code_of a → result ≡ code_of (signed_value sign a) }
{
    code ^ (sign & (1 ^ (code >> 6)))
}

// The And of two codes: it is 1 where both are, and x where both may be 1 and not both are.
fn and_code(x: u8, y: u8) -> u8
    ensures { (a b : Value) → x ≡ code_of a → y ≡ code_of b → result ≡ code_of (and a b) }
{
    let one = x & y & 1;
    let unknown = one ^ ((x | (x >> 6)) & (y | (y >> 6)) & 1);
    b'0' | one | (unknown << 3) | (unknown << 6)
}

// The code of a literal.
fn code_at(values: &[u8], l: Lit) -> u8
    requires { var_of (word_of l) < length values.now }
    ensures { (a : Value) → get_or values.now (var_of (word_of l)) 0 ≡ code_of a → result
        ≡ code_of (signed_value (sign_of (word_of l)) a) }
{
    let v = l.var().index() as usize;
    let sign = l.sign() as u8;
    signed_code(sign, values[v])
}

// The value of gate j by those of its right sides; no test on a value decides the way (the paper, stepping).
fn gate_code(gates: &[u32], j: usize, values: &[u8]) -> u8
    requires { Row gates.now j values.now }
    ensures { let g = gate_at gates.now j in ((w : ℕ → Value)
        → get_or values.now (var_of g.rhs0) 0 ≡ code_of (w (var_of g.rhs0))
        → get_or values.now (var_of g.rhs1) 0 ≡ code_of (w (var_of g.rhs1))
        → result ≡ code_of (and (lit w g.rhs0) (lit w g.rhs1))) }
{
    let x = code_at(values, Lit::at(gates[3 * j + 1]));
    let y = code_at(values, Lit::at(gates[3 * j + 2]));
    and_code(x, y)
}

// 23 among the first n variables, which are no gates': the constant, inputs and latches.
fn wrong_leaf(values: &[u8], n: usize) -> Result<(), Refusal>
    requires le_n { 1 ≤ n }
    requires n_in_bounds { n ≤ length values.now }
    ensures { result ≡ checked_by (stage WrongValue (wrong_from [] values.now 0 n)) }
{
    if values[0] != b'0' {
        return Err(Refusal::WrongValue(0));
    }
    for v in 1..n {
        if !is_code(values[v]) {
            return Err(Refusal::WrongValue(v));
        }
    }
    Ok(())
}

// 23 among the gates, whose variables run on from `base`, where all values below are right: each is judged by those
// of its right sides.
fn wrong_gate(gates: &[u32], a: usize, base: usize, values: &[u8]) -> Result<(), Refusal>
    requires ordered { Ordered gates.now a base values.now }
    requires shows { Shows (value_on values.now) base values.now }
    ensures { result ≡ checked_by (stage WrongValue
        (wrong_from (gates_at gates.now a) values.now base a)) }
{
    for j in 0..a {
        if values[base + j] != gate_code(gates, j, values) {
            return Err(Refusal::WrongValue(base + j));
        }
    }
    Ok(())
}

// 23: the least variable whose value is wrong.
fn wrong_value(gates: &[u32], a: usize, base: usize, values: &[u8]) -> Result<(), Refusal>
    requires ordered { Ordered gates.now a base values.now }
    requires le_base { 1 ≤ base }
    ensures { result ≡ checked_by (stage WrongValue
        (wrong_from (gates_at gates.now a) values.now 0 (base + a))) }
{
    wrong_leaf(values, base)?;
    wrong_gate(gates, a, base, values)
}

// 22, 5, 15, then 12, of a gate's number, its right sides and the length of the values.
fn judge_sides(n: Counts, gate: usize, rhs0: Lit, rhs1: Lit, len: usize) -> Result<(), Refusal>
    requires { Counted n }
    ensures { result ≡ checked_by (first_of (edit_stages n gate (word_of rhs0) (word_of rhs1) len)) }
{
    if gate >= n.A {
        return Err(Refusal::NoGate(gate));
    }
    let m = n.M as u32;
    if !rhs0.within(false, m) {
        return Err(Refusal::OutOfRange(4));
    }
    if !rhs1.within(false, m) {
        return Err(Refusal::OutOfRange(4));
    }
    let left = Var::at((1 + n.I + n.L + gate) as u32).lit();
    if !rhs0.below(left) {
        return Err(Refusal::NotInOrder(0));
    }
    if !rhs1.below(left) {
        return Err(Refusal::NotInOrder(0));
    }
    if len != n.M + 1 {
        return Err(Refusal::BadVector(4));
    }
    Ok(())
}

// The gate gets these right sides, larger first.
fn set_sides(gates: &mut [u32], gate: usize, rhs0: Lit, rhs1: Lit)
    requires { 3 * gate + 3 ≤ length gates.old }
    ensures { gates.new ≡ put gates.old (3 * gate + 1)
        (max (word_of rhs0) (word_of rhs1) ∷ min (word_of rhs0) (word_of rhs1) ∷ []) }
{
    gates[3 * gate + 1] = rhs0.larger(rhs1).word();
    gates[3 * gate + 2] = rhs0.smaller(rhs1).word();
}

// The values of gates k to a - 1, whose variables run on from `base`, in order: what lies below the rewired gate stays.
fn recompute(gates: &[u32], k: usize, a: usize, base: usize, values: &mut [u8])
    requires ordered { Ordered gates.now a base values.old }
    requires k_le_a { k ≤ a }
    ensures { (w : ℕ → Value) → Shows w (base + k) values.old
        → Follows w gates.now base k a → Shows w (base + a) values.new }
{
    for j in k..a {
        values[base + j] = gate_code(gates, j, values);
    }
}

// The gate gets the two right sides, in either order, and the values become those of a fresh step of the edited
// circuit on the same inputs and state. On a refusal neither the gates' table nor a value changes; scratch is zero
// afterwards.
pub fn rewire(
    n: Counts,
    inputs: &[u32],
    latches: &[u32],
    outputs: &[u32],
    gates: &mut [u32],
    resets: &[u32],
    bads: &[u32],
    constraints: &[u32],
    scratch: &mut [u32],
    gate: usize,
    rhs0: u32,
    rhs1: u32,
    values: &mut [u8],
) -> Result<(), Refusal>
    ensures { Rewires rewiring n inputs latches outputs gates resets bads constraints scratch gate rhs0 rhs1
        values result }
{
    check_in_order(
        n,
        inputs,
        latches,
        outputs,
        gates,
        resets,
        bads,
        constraints,
        scratch,
    )?;
    let a = Lit::at(rhs0);
    let b = Lit::at(rhs1);
    judge_sides(n, gate, a, b, values.len())?;
    let base = 1 + n.I + n.L;
    wrong_value(gates, n.A, base, values)?;
    set_sides(gates, gate, a, b);
    recompute(gates, gate, n.A, base, values);
    Ok(())
}
