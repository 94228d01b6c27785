// Whole files made of whole files: the other form, the reduced form, the reduced form without unused gates (the
// paper, programs). All three go one way: the file is opened, its circuit is converted and made as small as is
// wanted, and the bytes are written with the same tail.
#![tactic(auto)]

ghost use Rattle.std.specs.Prelude.{◌≡◌};
ghost use Rattle.plan.specs.declared.Version.TheVariants.{V19};
ghost use Rattle.plan.specs.Header.{header};
ghost use Rattle.plan.specs.Outcome.{headed_by};
ghost use Rattle.plan.specs.Whole.{convert_whole, reduce_whole, drop_whole};
ghost use Rattle.making.specs.Passes.{as_text};
ghost use Rattle.making.specs.Wholes.{MakesWhole, TellsFile, made_file, make_whole};

use lines::header::read_header;
use plan::{Refusal, Version};
use tables::{clear, clear_all, lengths};
use whole::open_file;

mod passes;

// Whether a file is to be written as text: a binary file of which the other form is wanted.
fn as_text(reduced: bool, file: &[u8]) -> bool
    ensures { result ≡ as_text reduced (headed_by (header V19 file.now 0)) }
{
    if reduced {
        return false;
    }
    match read_header(Version::V19, file) {
        Ok((binary, _, _)) => binary,
        Err(_) => false,
    }
}

// What is wanted of a file, with the same tail. The tables hold what was left in them.
fn make_file(
    reduced: bool,
    dropped: bool,
    readable: bool,
    file: &[u8],
    inputs: &mut [u32],
    latches: &mut [u32],
    outputs: &mut [u32],
    gates: &mut [u32],
    resets: &mut [u32],
    bads: &mut [u32],
    constraints: &mut [u32],
    made_inputs: &mut [u32],
    made_latches: &mut [u32],
    made_outputs: &mut [u32],
    made_gates: &mut [u32],
    made_resets: &mut [u32],
    made_bads: &mut [u32],
    made_constraints: &mut [u32],
    scratch: &mut [u32],
    out: &mut [u8],
) -> Result<usize, Refusal>
    ensures { TellsFile (made_file reduced dropped) readable file inputs latches outputs gates resets bads
        constraints made_inputs made_latches made_outputs made_gates made_resets made_bads
        made_constraints scratch out result }
{
    let made = lengths(
        made_inputs,
        made_latches,
        made_outputs,
        made_gates,
        made_resets,
        made_bads,
        made_constraints,
    );
    let (n, tail_at) = open_file(
        readable,
        file,
        inputs,
        latches,
        outputs,
        gates,
        resets,
        bads,
        constraints,
        scratch,
        made,
    )?;
    passes::write_made(
        as_text(reduced, file),
        reduced,
        dropped,
        n,
        inputs,
        latches,
        outputs,
        gates,
        resets,
        bads,
        constraints,
        made_inputs,
        made_latches,
        made_outputs,
        made_gates,
        made_resets,
        made_bads,
        made_constraints,
        scratch,
        &file[tail_at..],
        out,
    )
}

// What is wanted of a file, with the same tail: the number of bytes, or a refusal, which changes no byte of `out`.
// All tables are zero afterwards.
fn make_whole(
    reduced: bool,
    dropped: bool,
    readable: bool,
    file: &[u8],
    inputs: &mut [u32],
    latches: &mut [u32],
    outputs: &mut [u32],
    gates: &mut [u32],
    resets: &mut [u32],
    bads: &mut [u32],
    constraints: &mut [u32],
    made_inputs: &mut [u32],
    made_latches: &mut [u32],
    made_outputs: &mut [u32],
    made_gates: &mut [u32],
    made_resets: &mut [u32],
    made_bads: &mut [u32],
    made_constraints: &mut [u32],
    scratch: &mut [u32],
    out: &mut [u8],
) -> Result<usize, Refusal>
    ensures { MakesWhole (make_whole reduced dropped) readable file inputs latches outputs gates resets bads
        constraints made_inputs made_latches made_outputs made_gates made_resets made_bads
        made_constraints scratch out result }
{
    let answer = make_file(
        reduced,
        dropped,
        readable,
        file,
        inputs,
        latches,
        outputs,
        gates,
        resets,
        bads,
        constraints,
        made_inputs,
        made_latches,
        made_outputs,
        made_gates,
        made_resets,
        made_bads,
        made_constraints,
        scratch,
        out,
    );
    clear_all(inputs, latches, outputs, gates, resets, bads, constraints);
    clear_all(
        made_inputs,
        made_latches,
        made_outputs,
        made_gates,
        made_resets,
        made_bads,
        made_constraints,
    );
    clear(scratch);
    answer
}

// The other form of a whole file.
pub fn convert_whole(
    readable: bool,
    file: &[u8],
    inputs: &mut [u32],
    latches: &mut [u32],
    outputs: &mut [u32],
    gates: &mut [u32],
    resets: &mut [u32],
    bads: &mut [u32],
    constraints: &mut [u32],
    made_inputs: &mut [u32],
    made_latches: &mut [u32],
    made_outputs: &mut [u32],
    made_gates: &mut [u32],
    made_resets: &mut [u32],
    made_bads: &mut [u32],
    made_constraints: &mut [u32],
    scratch: &mut [u32],
    out: &mut [u8],
) -> Result<usize, Refusal>
    ensures { MakesWhole convert_whole readable file inputs latches outputs gates resets bads constraints
        made_inputs made_latches made_outputs made_gates made_resets made_bads made_constraints scratch
        out result }
{
    make_whole(
        false,
        false,
        readable,
        file,
        inputs,
        latches,
        outputs,
        gates,
        resets,
        bads,
        constraints,
        made_inputs,
        made_latches,
        made_outputs,
        made_gates,
        made_resets,
        made_bads,
        made_constraints,
        scratch,
        out,
    )
}

// The reduced binary form of a whole file.
pub fn reduce_whole(
    readable: bool,
    file: &[u8],
    inputs: &mut [u32],
    latches: &mut [u32],
    outputs: &mut [u32],
    gates: &mut [u32],
    resets: &mut [u32],
    bads: &mut [u32],
    constraints: &mut [u32],
    made_inputs: &mut [u32],
    made_latches: &mut [u32],
    made_outputs: &mut [u32],
    made_gates: &mut [u32],
    made_resets: &mut [u32],
    made_bads: &mut [u32],
    made_constraints: &mut [u32],
    scratch: &mut [u32],
    out: &mut [u8],
) -> Result<usize, Refusal>
    ensures { MakesWhole reduce_whole readable file inputs latches outputs gates resets bads constraints
        made_inputs made_latches made_outputs made_gates made_resets made_bads made_constraints scratch
        out result }
{
    make_whole(
        true,
        false,
        readable,
        file,
        inputs,
        latches,
        outputs,
        gates,
        resets,
        bads,
        constraints,
        made_inputs,
        made_latches,
        made_outputs,
        made_gates,
        made_resets,
        made_bads,
        made_constraints,
        scratch,
        out,
    )
}

// The reduced binary form of a whole file without its unused gates.
pub fn drop_whole(
    readable: bool,
    file: &[u8],
    inputs: &mut [u32],
    latches: &mut [u32],
    outputs: &mut [u32],
    gates: &mut [u32],
    resets: &mut [u32],
    bads: &mut [u32],
    constraints: &mut [u32],
    made_inputs: &mut [u32],
    made_latches: &mut [u32],
    made_outputs: &mut [u32],
    made_gates: &mut [u32],
    made_resets: &mut [u32],
    made_bads: &mut [u32],
    made_constraints: &mut [u32],
    scratch: &mut [u32],
    out: &mut [u8],
) -> Result<usize, Refusal>
    ensures { MakesWhole drop_whole readable file inputs latches outputs gates resets bads constraints
        made_inputs made_latches made_outputs made_gates made_resets made_bads made_constraints scratch
        out result }
{
    make_whole(
        true,
        true,
        readable,
        file,
        inputs,
        latches,
        outputs,
        gates,
        resets,
        bads,
        constraints,
        made_inputs,
        made_latches,
        made_outputs,
        made_gates,
        made_resets,
        made_bads,
        made_constraints,
        scratch,
        out,
    )
}
