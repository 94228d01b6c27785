// Writing given tables in binary order as the old plan cards (the paper, plan cards).
ghost use Rattle.std.specs.Prelude.{◌≡◌, ◌≤◌, length, take};
ghost use Rattle.plan.specs.Outcome.{put_bytes};
ghost use Rattle.write.specs.Judged.{given_in};
ghost use Rattle.plan.specs.Cards.{all_zero, write_cards};
ghost use Rattle.cards.specs.put.Parts.{table_cards, Cardable};
ghost use Rattle.cards.specs.writing.Held.{holdable_in};
ghost use Rattle.plan.specs.Lent.{Writes};

use crate::bytes_asked;
use crate::put::fill_cards;
use codec::room;
use plan::{Counts, Refusal};
use write::judge;

// Whether the first n words are 0.
fn all_zero(table: &[u32], n: usize) -> bool
    requires { n ≤ length table.now }
    ensures { result ≡ all_zero (take n table.now) }
{
    table[..n].iter().all(|word| *word == 0)
}

// Refusal 19: whether cards can hold a circuit of these counts with these resets and this tail.
fn on_cards(n: Counts, resets: &[u32], tail: &[u8]) -> bool
    requires { n.L ≤ length resets.now }
    ensures { result ≡ holdable_in n resets.now tail.now }
{
    if tail.len() != 0 {
        return false;
    }
    if !all_zero(resets, n.L) {
        return false;
    }
    if n.B != 0 {
        return false;
    }
    n.C == 0
}

// The cards of given tables, or 11 with the length needed. Nothing is written before the length is known.
fn put_cards(
    n: Counts,
    latches: &[u32],
    outputs: &[u32],
    gates: &[u32],
    out: &mut [u8],
) -> Result<usize, Refusal>
    requires { Cardable n latches.now outputs.now gates.now }
    ensures { record { answer = result; out = out.new } ≡ put_bytes out.old 0
        (table_cards n latches.now outputs.now gates.now) }
{
    let size = bytes_asked(n);
    if !room::holds(out.len(), 0, size) {
        return Err(Refusal::ShortBuffer(size));
    }
    Ok(fill_cards(out, n, latches, outputs, gates))
}

// Writes given tables in binary order as cards: the number of bytes written, or a refusal, which changes no byte of
// `out`. What cards can't hold, a tail among it, is refused by 19 just before 11. Scratch is zero afterwards.
pub fn write_cards(
    n: Counts,
    inputs: &[u32],
    latches: &[u32],
    outputs: &[u32],
    gates: &[u32],
    resets: &[u32],
    bads: &[u32],
    constraints: &[u32],
    scratch: &mut [u32],
    tail: &[u8],
    out: &mut [u8],
) -> Result<usize, Refusal>
    ensures { Writes write_cards n inputs latches outputs gates resets bads constraints scratch tail out result }
{
    judge(
        n,
        inputs,
        latches,
        outputs,
        gates,
        resets,
        bads,
        constraints,
        scratch,
        tail,
        true,
    )?;
    if !on_cards(n, resets, tail) {
        return Err(Refusal::NotOnCards(0));
    }
    put_cards(n, latches, outputs, gates, out)
}
