// The records of cards in tables, and 5 and 15 over them (the paper, plan cards).
ghost use Rattle.std.specs.Prelude.{◌≡◌, map, ◌+◌, ◌*◌, ◌≤◌, length, drop};
ghost use Rattle.plan.specs.Refusals.{first_of};
ghost use Rattle.plan.specs.Circuit.{flat, gate_line};
ghost use Rattle.plan.specs.Outcome.{put, checked_by};
ghost use Rattle.tables.specs.Held.{circuit_in, Fits};
ghost use Rattle.plan.specs.Cards.{words_in, gates_in, carded};
ghost use Rattle.cards.specs.fill.Filled.{Ready, FirstHold, judged_by};

use crate::{gates_at, outputs_at, word_at};
use judge::binary_order::in_binary_order;
use judge::ranges::out_of_range;
use lines::gates::{run_on, spread};
use plan::{Counts, Refusal, Var};

// The numbers of n records of one, from a position on.
fn fill_words(file: &[u8], at: usize, n: usize, table: &mut [u32])
    requires n_in_bounds { at + 6 * n ≤ length file.now }
    requires n_in_bounds_2 { n ≤ length table.old }
    ensures { table.new ≡ put table.old 0 (words_in n (drop at file.now)) }
{
    for i in 0..n {
        table[i] = word_at(file, at + 6 * i + 2);
    }
}

// The gates of n records of two right sides, from a position on; their left sides run from `first` on.
fn fill_gates(file: &[u8], at: usize, n: usize, first: u32, table: &mut [u32])
    requires n_in_bounds { at + 10 * n ≤ length file.now }
    requires n_in_bounds_2 { 3 * n ≤ length table.old }
    requires n_bound { first + n ≤ 1048576 }
    ensures { table.new ≡ put table.old 0
        (flat (map gate_line (gates_in first n (drop at file.now)))) }
{
    for i in 0..n {
        let k = 3 * i;
        let card = at + 10 * i;
        table[k] = Var::at(first + i as u32).lit().word();
        table[k + 1] = word_at(file, card + 2);
        table[k + 2] = word_at(file, card + 6);
    }
}

// Tables 1 to 4 from the records: the defining literals of inputs, latches and gates from their positions.
pub fn fill(
    file: &[u8],
    n: Counts,
    inputs: &mut [u32],
    latches: &mut [u32],
    outputs: &mut [u32],
    gates: &mut [u32],
)
    requires { Ready file.now n inputs.old latches.old outputs.old gates.old }
    ensures { FirstHold inputs.old latches.old outputs.old
        gates.old (carded file.now n) inputs.new latches.new
        outputs.new gates.new }
{
    run_on(inputs, 1, n.I);
    fill_words(file, 22, n.L, latches);
    spread(latches, (1 + n.I) as u32, n.L);
    fill_words(file, outputs_at(n), n.O, outputs);
    fill_gates(file, gates_at(n), n.A, (1 + n.I + n.L) as u32, gates);
}

// 5 over filled tables, then 15. What is in binary order and in range can't meet 6, 7 or 8 (AIGER report, section 7).
pub fn judge(
    n: Counts,
    inputs: &[u32],
    latches: &[u32],
    outputs: &[u32],
    gates: &[u32],
    resets: &[u32],
    bads: &[u32],
    constraints: &[u32],
) -> Result<(), Refusal>
    requires { Fits n inputs.now latches.now outputs.now gates.now resets.now bads.now
        constraints.now }
    ensures { result ≡ checked_by (first_of (judged_by
        (circuit_in n inputs.now latches.now outputs.now gates.now
        resets.now bads.now constraints.now))) }
{
    let in_order = in_binary_order(n, inputs, latches, gates);
    if let Some(out) = out_of_range(
        n,
        inputs,
        latches,
        outputs,
        gates,
        resets,
        bads,
        constraints,
        in_order,
    ) {
        return Err(Refusal::OutOfRange(out));
    }
    if !in_order {
        return Err(Refusal::NotInOrder(0));
    }
    Ok(())
}
