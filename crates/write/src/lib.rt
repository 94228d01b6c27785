// Writing given tables in text form or binary form, and their tail (the paper, text form, binary form, and refusal
// numbers; AIGER report, sections 7, 11 and 12; AIGER 1.9).
#![tactic(auto)]

ghost use Rattle.std.specs.Prelude.{◌≡◌, ◌++◌};
ghost use Rattle.plan.specs.Refusals.{first_of};
ghost use Rattle.plan.specs.Circuit.{cleared};
ghost use Rattle.plan.specs.Outcome.{put_bytes, checked_by, write_text, write_binary};
ghost use Rattle.tables.specs.Held.{Fits};
ghost use Rattle.write.specs.forms.Forms.{text_bytes, binary_bytes, Printable};
ghost use Rattle.write.specs.Judged.{given_in, table_stages, writer_stages};
ghost use Rattle.plan.specs.Lent.{Writes};

use crate::forms::{append, binary_length, fill_binary, fill_text, text_length};
use codec::room;
use lines::tail;
use plan::{Counts, Refusal, Version};
use tables::clear;

pub mod forms;
pub mod print;
pub mod refusal_line;

// The text form and then the tail, or 11 with the length needed. Nothing is written before the length is known.
fn put_text(
    n: Counts,
    inputs: &[u32],
    latches: &[u32],
    outputs: &[u32],
    gates: &[u32],
    resets: &[u32],
    bads: &[u32],
    constraints: &[u32],
    tail: &[u8],
    out: &mut [u8],
) -> Result<usize, Refusal>
    requires { Fits n inputs.now latches.now outputs.now gates.now resets.now bads.now
        constraints.now }
    ensures { record { answer = result; out = out.new } ≡ put_bytes out.old 0
        (text_bytes n inputs.now latches.now outputs.now gates.now
        resets.now
        bads.now constraints.now ++ tail.now) }
{
    let text = text_length(
        n,
        inputs,
        latches,
        outputs,
        gates,
        resets,
        bads,
        constraints,
    );
    if !room::holds(out.len(), text, tail.len()) {
        return Err(Refusal::ShortBuffer(room::needed(text, tail.len())));
    }
    let end = fill_text(
        out,
        n,
        inputs,
        latches,
        outputs,
        gates,
        resets,
        bads,
        constraints,
    );
    Ok(append(out, end, tail))
}

// The same for the binary form.
fn put_binary(
    n: Counts,
    latches: &[u32],
    outputs: &[u32],
    gates: &[u32],
    resets: &[u32],
    bads: &[u32],
    constraints: &[u32],
    tail: &[u8],
    out: &mut [u8],
) -> Result<usize, Refusal>
    requires { Printable n latches.now outputs.now gates.now resets.now bads.now constraints.now }
    ensures { record { answer = result; out = out.new } ≡ put_bytes out.old 0
        (binary_bytes n latches.now outputs.now gates.now resets.now
        bads.now
        constraints.now ++ tail.now) }
{
    let binary = binary_length(n, latches, outputs, gates, resets, bads, constraints);
    if !room::holds(out.len(), binary, tail.len()) {
        return Err(Refusal::ShortBuffer(room::needed(binary, tail.len())));
    }
    let end = fill_binary(out, n, latches, outputs, gates, resets, bads, constraints);
    Ok(append(out, end, tail))
}

// Given tables by 2 to 8, and by 15 where it is asked. Scratch is zero afterwards.
fn check_tables(
    n: Counts,
    inputs: &[u32],
    latches: &[u32],
    outputs: &[u32],
    gates: &[u32],
    resets: &[u32],
    bads: &[u32],
    constraints: &[u32],
    scratch: &mut [u32],
    ordered: bool,
) -> Result<(), Refusal>
    ensures value { result ≡ checked_by (first_of (table_stages ordered
        (given_in n inputs.now latches.now outputs.now gates.now
        resets.now bads.now constraints.now scratch.old))) }
    ensures scratch_after { scratch.new ≡ cleared scratch.old }
{
    if ordered {
        return judge::check_in_order(
            n,
            inputs,
            latches,
            outputs,
            gates,
            resets,
            bads,
            constraints,
            scratch,
        );
    }
    judge::check(
        n,
        inputs,
        latches,
        outputs,
        gates,
        resets,
        bads,
        constraints,
        scratch,
    )
}

// The same, then the tail by 1 and 10, whose offsets count from the tail's start. Scratch holds its marks and is
// zero afterwards.
pub fn judge(
    n: Counts,
    inputs: &[u32],
    latches: &[u32],
    outputs: &[u32],
    gates: &[u32],
    resets: &[u32],
    bads: &[u32],
    constraints: &[u32],
    scratch: &mut [u32],
    tail: &[u8],
    ordered: bool,
) -> Result<(), Refusal>
    ensures value { result ≡ checked_by (first_of (writer_stages ordered
        (given_in n inputs.now latches.now outputs.now gates.now
        resets.now bads.now constraints.now scratch.old)
        tail.now)) }
    ensures scratch_after { scratch.new ≡ cleared scratch.old }
{
    check_tables(
        n,
        inputs,
        latches,
        outputs,
        gates,
        resets,
        bads,
        constraints,
        scratch,
        ordered,
    )?;
    let answer = tail::check(Version::V19, tail, 0, n, scratch);
    clear(scratch);
    answer
}

// Writes the text form of given tables and the tail: the number of bytes written, or a refusal, which changes no
// byte of `out`. Scratch is zero afterwards.
pub fn write_text(
    n: Counts,
    inputs: &[u32],
    latches: &[u32],
    outputs: &[u32],
    gates: &[u32],
    resets: &[u32],
    bads: &[u32],
    constraints: &[u32],
    scratch: &mut [u32],
    tail: &[u8],
    out: &mut [u8],
) -> Result<usize, Refusal>
    ensures { Writes write_text n inputs latches outputs gates resets bads constraints scratch tail out result }
{
    judge(
        n,
        inputs,
        latches,
        outputs,
        gates,
        resets,
        bads,
        constraints,
        scratch,
        tail,
        false,
    )?;
    put_text(
        n,
        inputs,
        latches,
        outputs,
        gates,
        resets,
        bads,
        constraints,
        tail,
        out,
    )
}

// Writes the binary form of given tables in binary order and the tail: the number of bytes written, or a refusal,
// which changes no byte of `out`. Scratch is zero afterwards.
pub fn write_binary(
    n: Counts,
    inputs: &[u32],
    latches: &[u32],
    outputs: &[u32],
    gates: &[u32],
    resets: &[u32],
    bads: &[u32],
    constraints: &[u32],
    scratch: &mut [u32],
    tail: &[u8],
    out: &mut [u8],
) -> Result<usize, Refusal>
    ensures { Writes write_binary n inputs latches outputs gates resets bads constraints scratch tail out result }
{
    judge(
        n,
        inputs,
        latches,
        outputs,
        gates,
        resets,
        bads,
        constraints,
        scratch,
        tail,
        true,
    )?;
    put_binary(
        n,
        latches,
        outputs,
        gates,
        resets,
        bads,
        constraints,
        tail,
        out,
    )
}
