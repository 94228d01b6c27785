// From tables that were read to the bytes that are written: converted, then reduced, then without unused gates, as
// far as is wanted. Each pass takes from the tables that the one before it wrote, so two lots of tables are enough.
ghost use Rattle.plan.specs.Drop.{drop_unused};
ghost use Rattle.making.specs.Passes.{StandsReady, InOrder, Puts, PutsBinary, lessened, bytes_of};

use plan::{Counts, Refusal};
use write::{write_binary, write_text};

// Writes a reduced circuit without its unused gates.
fn write_dropped(
    n: Counts,
    inputs: &[u32],
    latches: &[u32],
    outputs: &[u32],
    gates: &[u32],
    resets: &[u32],
    bads: &[u32],
    constraints: &[u32],
    to_inputs: &mut [u32],
    to_latches: &mut [u32],
    to_outputs: &mut [u32],
    to_gates: &mut [u32],
    to_resets: &mut [u32],
    to_bads: &mut [u32],
    to_constraints: &mut [u32],
    scratch: &mut [u32],
    tail: &[u8],
    out: &mut [u8],
) -> Result<usize, Refusal>
    requires stands_ready { StandsReady n inputs.now latches.now outputs.now gates.now resets.now bads.now
        constraints.now to_inputs.old to_latches.old to_outputs.old to_gates.old to_resets.old to_bads.old
        to_constraints.old scratch.old tail.now }
    requires in_order { InOrder n inputs.now latches.now outputs.now gates.now resets.now bads.now
        constraints.now scratch.old }
    ensures { PutsBinary drop_unused n inputs.now latches.now outputs.now gates.now resets.now bads.now
        constraints.now scratch.old tail.now out.old out.new result }
{
    let m = drop::drop_unused(
        n,
        inputs,
        latches,
        outputs,
        gates,
        resets,
        bads,
        constraints,
        to_inputs,
        to_latches,
        to_outputs,
        to_gates,
        to_resets,
        to_bads,
        to_constraints,
        scratch,
    )?;
    write_binary(
        m,
        to_inputs,
        to_latches,
        to_outputs,
        to_gates,
        to_resets,
        to_bads,
        to_constraints,
        scratch,
        tail,
        out,
    )
}

// Writes a converted circuit reduced, and without its unused gates if they are to be dropped.
fn write_reduced(
    dropped: bool,
    n: Counts,
    inputs: &mut [u32],
    latches: &mut [u32],
    outputs: &mut [u32],
    gates: &mut [u32],
    resets: &mut [u32],
    bads: &mut [u32],
    constraints: &mut [u32],
    to_inputs: &mut [u32],
    to_latches: &mut [u32],
    to_outputs: &mut [u32],
    to_gates: &mut [u32],
    to_resets: &mut [u32],
    to_bads: &mut [u32],
    to_constraints: &mut [u32],
    scratch: &mut [u32],
    tail: &[u8],
    out: &mut [u8],
) -> Result<usize, Refusal>
    requires stands_ready { StandsReady n inputs.old latches.old outputs.old gates.old resets.old bads.old
        constraints.old to_inputs.old to_latches.old to_outputs.old to_gates.old to_resets.old to_bads.old
        to_constraints.old scratch.old tail.now }
    requires in_order { InOrder n inputs.old latches.old outputs.old gates.old resets.old bads.old
        constraints.old scratch.old }
    ensures { PutsBinary (lessened dropped) n inputs.old latches.old outputs.old gates.old resets.old bads.old
        constraints.old scratch.old tail.now out.old out.new result }
{
    let m = reduce::reduce(
        n,
        inputs,
        latches,
        outputs,
        gates,
        resets,
        bads,
        constraints,
        to_inputs,
        to_latches,
        to_outputs,
        to_gates,
        to_resets,
        to_bads,
        to_constraints,
        scratch,
    )?;
    if dropped {
        return write_dropped(
            m,
            to_inputs,
            to_latches,
            to_outputs,
            to_gates,
            to_resets,
            to_bads,
            to_constraints,
            inputs,
            latches,
            outputs,
            gates,
            resets,
            bads,
            constraints,
            scratch,
            tail,
            out,
        );
    }
    write_binary(
        m,
        to_inputs,
        to_latches,
        to_outputs,
        to_gates,
        to_resets,
        to_bads,
        to_constraints,
        scratch,
        tail,
        out,
    )
}

// Writes a circuit that was read: as text as it is, or as binary converted and as much smaller as is wanted.
pub fn write_made(
    text: bool,
    reduced: bool,
    dropped: bool,
    n: Counts,
    inputs: &mut [u32],
    latches: &mut [u32],
    outputs: &mut [u32],
    gates: &mut [u32],
    resets: &mut [u32],
    bads: &mut [u32],
    constraints: &mut [u32],
    to_inputs: &mut [u32],
    to_latches: &mut [u32],
    to_outputs: &mut [u32],
    to_gates: &mut [u32],
    to_resets: &mut [u32],
    to_bads: &mut [u32],
    to_constraints: &mut [u32],
    scratch: &mut [u32],
    tail: &[u8],
    out: &mut [u8],
) -> Result<usize, Refusal>
    requires { StandsReady n inputs.old latches.old outputs.old gates.old resets.old bads.old constraints.old
        to_inputs.old to_latches.old to_outputs.old to_gates.old to_resets.old to_bads.old to_constraints.old
        scratch.old tail.now }
    ensures { Puts (bytes_of text reduced dropped) n inputs.old latches.old outputs.old gates.old resets.old
        bads.old constraints.old scratch.old tail.now out.old out.new result }
{
    if text {
        return write_text(
            n,
            inputs,
            latches,
            outputs,
            gates,
            resets,
            bads,
            constraints,
            scratch,
            tail,
            out,
        );
    }
    let m = convert::convert(
        n,
        inputs,
        latches,
        outputs,
        gates,
        resets,
        bads,
        constraints,
        to_inputs,
        to_latches,
        to_outputs,
        to_gates,
        to_resets,
        to_bads,
        to_constraints,
        scratch,
    )?;
    if reduced {
        return write_reduced(
            dropped,
            m,
            to_inputs,
            to_latches,
            to_outputs,
            to_gates,
            to_resets,
            to_bads,
            to_constraints,
            inputs,
            latches,
            outputs,
            gates,
            resets,
            bads,
            constraints,
            scratch,
            tail,
            out,
        );
    }
    write_binary(
        m,
        to_inputs,
        to_latches,
        to_outputs,
        to_gates,
        to_resets,
        to_bads,
        to_constraints,
        scratch,
        tail,
        out,
    )
}
