// Opening a whole file: from the bytes of an input to its circuit in binary order (the paper, programs).
ghost use Rattle.whole.specs.Lent.{OpensMade, OpensWhole};

use crate::open_file;
use plan::{Counts, Refusal};
use tables::{clear, clear_all, lengths};

// The circuit of a file, converted into the tables to make one in; or a refusal, after which those are zero. The
// tables that the file was read into hold what was left in them.
fn open_made(
    readable: bool,
    file: &[u8],
    inputs: &mut [u32],
    latches: &mut [u32],
    outputs: &mut [u32],
    gates: &mut [u32],
    resets: &mut [u32],
    bads: &mut [u32],
    constraints: &mut [u32],
    made_inputs: &mut [u32],
    made_latches: &mut [u32],
    made_outputs: &mut [u32],
    made_gates: &mut [u32],
    made_resets: &mut [u32],
    made_bads: &mut [u32],
    made_constraints: &mut [u32],
    scratch: &mut [u32],
) -> Result<Counts, Refusal>
    ensures { OpensMade readable file inputs latches outputs gates resets bads constraints made_inputs
        made_latches made_outputs made_gates made_resets made_bads made_constraints scratch result }
{
    let made = lengths(
        made_inputs,
        made_latches,
        made_outputs,
        made_gates,
        made_resets,
        made_bads,
        made_constraints,
    );
    match open_file(
        readable,
        file,
        inputs,
        latches,
        outputs,
        gates,
        resets,
        bads,
        constraints,
        scratch,
        made,
    ) {
        Err(r) => {
            clear_all(
                made_inputs,
                made_latches,
                made_outputs,
                made_gates,
                made_resets,
                made_bads,
                made_constraints,
            );
            clear(scratch);
            Err(r)
        }
        Ok((n, _)) => convert::convert(
            n,
            inputs,
            latches,
            outputs,
            gates,
            resets,
            bads,
            constraints,
            made_inputs,
            made_latches,
            made_outputs,
            made_gates,
            made_resets,
            made_bads,
            made_constraints,
            scratch,
        ),
    }
}

// The circuit of a whole file in binary order, in the tables to make one in, and its counts; or a refusal, after
// which those are zero. The tables that it was read into, and scratch, are zero afterwards.
pub fn open_whole(
    readable: bool,
    file: &[u8],
    inputs: &mut [u32],
    latches: &mut [u32],
    outputs: &mut [u32],
    gates: &mut [u32],
    resets: &mut [u32],
    bads: &mut [u32],
    constraints: &mut [u32],
    made_inputs: &mut [u32],
    made_latches: &mut [u32],
    made_outputs: &mut [u32],
    made_gates: &mut [u32],
    made_resets: &mut [u32],
    made_bads: &mut [u32],
    made_constraints: &mut [u32],
    scratch: &mut [u32],
) -> Result<Counts, Refusal>
    ensures { OpensWhole readable file inputs latches outputs gates resets bads constraints made_inputs
        made_latches made_outputs made_gates made_resets made_bads made_constraints scratch result }
{
    let answer = open_made(
        readable,
        file,
        inputs,
        latches,
        outputs,
        gates,
        resets,
        bads,
        constraints,
        made_inputs,
        made_latches,
        made_outputs,
        made_gates,
        made_resets,
        made_bads,
        made_constraints,
        scratch,
    );
    clear_all(inputs, latches, outputs, gates, resets, bads, constraints);
    answer
}
