// A variable's word: below 2 ^ 31 its number, 0 for none; from there on 2 ^ 31 more than the gate that defines it,
// which has no number.
ghost use Rattle.std.specs.Prelude.{◌≡◌, ℕ, ◌+◌, ◌*◌, ◌<◌, ◌≤◌, length, get_or, set};
ghost use Rattle.plan.specs.Literals.{var_of};
ghost use Rattle.laws.proofs.Tables.{gate_at};
ghost use Rattle.judge.specs.order.Numbers.{InTable};
ghost use Rattle.judge.specs.order.Waiting.{shown, numbered_v, watched, with_names, Space};

use plan::Lit;

pub fn ix(x: u32) -> usize
    ensures { result ≡ x }
{
    x as usize
}

// The variable of a literal, as an index of the table.
pub fn var_of(word: u32) -> usize
    ensures { result ≡ var_of word }
{
    ix(Lit::at(word).var().index())
}

pub fn numbered(t: &[u32], l: u32) -> bool
    requires { var_of l < length t.now }
    ensures { result ≡ numbered_v t.now (var_of l) }
{
    let v = var_of(l);
    if v == 0 {
        return true;
    }
    if t[v] < 2147483648 {
        return t[v] != 0;
    }
    false
}

// The left variables of the gates name them.
pub fn name_all(gates: &[u32], t: &mut [u32], n: usize, a: usize)
    requires { Space gates.now t.old n a }
    ensures { t.new ≡ with_names gates.now a t.old }
{
    for i in 0..a {
        t[var_of(gates[3 * i])] = 2147483648 + (i as u32);
    }
}

// The word that gate i waits for, if that names a gate; else both its right sides have numbers.
pub fn watch(gates: &[u32], t: &[u32], i: usize) -> u32
    requires { (3 * i + 2 < length gates.now) × InTable (length t.now) (gate_at gates.now i) }
    ensures { result ≡ watched gates.now t.now i }
{
    let w = t[var_of(gates[3 * i + 1])];
    if w < 2147483648 {
        return t[var_of(gates[3 * i + 2])];
    }
    w
}

// A name that is left becomes no number.
#[tactic(auto, unfolding(crate::specs::order::Waiting::shown))]
fn settled(word: u32) -> u32
    ensures { result ≡ shown word }
{
    if word < 2147483648 { word } else { 0 }
}

pub fn settle(t: &mut [u32], n: usize)
    requires { n ≤ length t.old }
    ensures { (v : ℕ) → v < n → get_or t.new v 0 ≡ shown (get_or t.old v 0) }
{
    for word in &mut t[..n] {
        *word = settled(*word);
    }
}
