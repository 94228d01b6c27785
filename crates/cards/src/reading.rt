// Reading the old plan cards into tables (the paper, plan cards).
ghost use Rattle.std.specs.Prelude.{◌≡◌};
ghost use Rattle.plan.specs.Circuit.{seven, cleared};
ghost use Rattle.tables.specs.Lengths.{lengths_in, sizes_of};
ghost use Rattle.read.specs.body.Rest.{LoadedSays};
ghost use Rattle.plan.specs.Cards.{read_cards, load_cards};
ghost use Rattle.plan.specs.Lent.{Loads};

use crate::fill::{fill, judge};
use crate::head::read_head;
use plan::{Counts, Refusal};
use tables::{clear, clear_all, lengths, scratch_to_work, too_short};

// The head by 1, 18, 2 and 3, then 4, then the records, then 5 and 15. The tables are zero on entry, and `words`
// are lent as scratch. After a refusal the tables hold what was read before it.
fn take_cards(
    file: &[u8],
    inputs: &mut [u32],
    latches: &mut [u32],
    outputs: &mut [u32],
    gates: &mut [u32],
    resets: &mut [u32],
    bads: &mut [u32],
    constraints: &mut [u32],
    words: usize,
) -> Result<(Counts, usize), Refusal>
    requires { resets.old ≡ cleared resets.old }
    ensures { let t = seven inputs.old latches.old outputs.old
        gates.old resets.old bads.old constraints.old in LoadedSays t
        (read_cards file.now (lengths_in (sizes_of t) words)) result
        (seven inputs.new latches.new outputs.new gates.new
        resets.new bads.new constraints.new) }
{
    let (n, _) = read_head(file)?;
    let to = lengths(inputs, latches, outputs, gates, resets, bads, constraints);
    let needed = scratch_to_work(n);
    if let Some(short) = too_short(n, to, needed, words) {
        return Err(Refusal::ShortTable(short));
    }
    fill(file, n, inputs, latches, outputs, gates);
    judge(
        n,
        inputs,
        latches,
        outputs,
        gates,
        resets,
        bads,
        constraints,
    )?;
    Ok((n, file.len()))
}

// Reads cards into tables 1 to 4 and 7 to 9, whatever they hold on entry: the counts, and the file's length, since
// nothing follows the records; or a refusal. Resets are 0, and there are no bad states and no constraints. Scratch,
// which is only measured, is zero afterwards.
pub fn read_cards(
    file: &[u8],
    inputs: &mut [u32],
    latches: &mut [u32],
    outputs: &mut [u32],
    gates: &mut [u32],
    resets: &mut [u32],
    bads: &mut [u32],
    constraints: &mut [u32],
    scratch: &mut [u32],
) -> Result<(Counts, usize), Refusal>
    ensures { Loads load_cards file inputs latches outputs gates resets bads constraints scratch result }
{
    clear_all(inputs, latches, outputs, gates, resets, bads, constraints);
    clear(scratch);
    let read = take_cards(
        file,
        inputs,
        latches,
        outputs,
        gates,
        resets,
        bads,
        constraints,
        scratch.len(),
    );
    if let Err(r) = read {
        clear_all(inputs, latches, outputs, gates, resets, bads, constraints);
        return Err(r);
    }
    read
}
