// What follows a file's header: the body, the tail, then 7 and 8 (the paper, refusal numbers).
ghost use Rattle.std.specs.Prelude.{◌≡◌, ◌+◌, ◌≤◌};
ghost use Rattle.plan.specs.Circuit.{seven};
ghost use Rattle.plan.specs.Lent.{before, after};
ghost use Rattle.plan.specs.Header.{text, binary};
ghost use Rattle.laws.proofs.Held.{BodySays};
ghost use Rattle.read.specs.body.Rest.{rest, Room};

use judge::at_end;
use lines::binary::read_binary;
use lines::tail;
use lines::text::read_text;
use plan::{Counts, Refusal, Version};

// What follows the header of a text file: the body, the tail, then 7 and 8. Marks of symbols stand at the start of
// the scratch, marks of variables after them.
pub fn rest_of_text(
    version: Version,
    file: &[u8],
    at: usize,
    n: Counts,
    inputs: &mut [u32],
    latches: &mut [u32],
    outputs: &mut [u32],
    gates: &mut [u32],
    resets: &mut [u32],
    bads: &mut [u32],
    constraints: &mut [u32],
    scratch: &mut [u32],
) -> Result<usize, Refusal>
    requires room { Room text n (seven inputs.old latches.old outputs.old gates.old resets.old bads.old
        constraints.old) scratch.old }
    requires a_bound { n.I + n.L + n.A ≤ n.M }
    ensures { BodySays
        (before inputs latches outputs gates resets bads constraints)
        (rest version file.now text n at) result
        (after inputs latches outputs gates resets bads constraints) }
{
    let base = n.I + n.L + n.O + n.B + n.C;
    let next = read_text(
        version,
        file,
        at,
        n,
        inputs,
        latches,
        outputs,
        gates,
        resets,
        bads,
        constraints,
        &mut scratch[base..],
    )?;
    tail::check(version, file, next, n, &mut scratch[0..base])?;
    at_end::check(
        n,
        inputs,
        latches,
        outputs,
        gates,
        bads,
        constraints,
        scratch,
        base,
        false,
    )?;
    Ok(next)
}

// What follows the header of a binary file: the body and the tail. Marks of symbols are all that stands in the
// scratch, from its start. The order of its variables leaves nothing to 6, 7 and 8.
pub fn rest_of_binary(
    version: Version,
    file: &[u8],
    at: usize,
    n: Counts,
    inputs: &mut [u32],
    latches: &mut [u32],
    outputs: &mut [u32],
    gates: &mut [u32],
    resets: &mut [u32],
    bads: &mut [u32],
    constraints: &mut [u32],
    scratch: &mut [u32],
) -> Result<usize, Refusal>
    requires room { Room binary n (seven inputs.old latches.old outputs.old gates.old resets.old bads.old
        constraints.old) scratch.old }
    requires a_value { n.I + n.L + n.A ≡ n.M }
    ensures { BodySays
        (before inputs latches outputs gates resets bads constraints)
        (rest version file.now binary n at) result
        (after inputs latches outputs gates resets bads constraints) }
{
    let base = n.I + n.L + n.O + n.B + n.C;
    let end = read_binary(
        version,
        file,
        at,
        n,
        inputs,
        latches,
        outputs,
        gates,
        resets,
        bads,
        constraints,
        &mut scratch[base..],
    )?;
    tail::check(version, file, end, n, &mut scratch[0..base])?;
    Ok(end)
}
