// Reading a file of either form.
#![tactic(auto)]

ghost use Rattle.std.specs.Prelude.{◌≡◌, true, ℕ, get_or};
ghost use Rattle.plan.specs.Circuit.{seven, lengths_of};
ghost use Rattle.plan.specs.Header.{adds};
ghost use Rattle.plan.specs.Reading.{read_file};
ghost use Rattle.plan.specs.Outcome.{Says, load_as, read_as, form_of};
ghost use Rattle.laws.proofs.Held.{BodySays};
ghost use Rattle.read.specs.body.Rest.{rest, Room, LoadedSays};
ghost use Rattle.plan.specs.Lent.{before, after, to_read, Loads};

use crate::body::{rest_of_binary, rest_of_text};
use answers::numbers::{no_counts, tell};
use answers::refusals::{told_number, told_place};
use lines::header::read_header;
use plan::{Counts, Refusal, Version};
use tables::{clear, clear_all, lengths, scratch_to_read, too_short};

pub mod body;

fn rest_of(
    version: Version,
    binary: bool,
    file: &[u8],
    at: usize,
    n: Counts,
    inputs: &mut [u32],
    latches: &mut [u32],
    outputs: &mut [u32],
    gates: &mut [u32],
    resets: &mut [u32],
    bads: &mut [u32],
    constraints: &mut [u32],
    scratch: &mut [u32],
) -> Result<usize, Refusal>
    requires room { Room (form_of binary) n (seven inputs.old latches.old outputs.old gates.old resets.old
        bads.old constraints.old) scratch.old }
    requires n_value { adds (form_of binary) n ≡ true }
    ensures { BodySays
        (before inputs latches outputs gates resets bads constraints)
        (rest version file.now (form_of binary) n at) result
        (after inputs latches outputs gates resets bads constraints) }
{
    if binary {
        return rest_of_binary(
            version,
            file,
            at,
            n,
            inputs,
            latches,
            outputs,
            gates,
            resets,
            bads,
            constraints,
            scratch,
        );
    }
    rest_of_text(
        version,
        file,
        at,
        n,
        inputs,
        latches,
        outputs,
        gates,
        resets,
        bads,
        constraints,
        scratch,
    )
}

// The header by 1, 2, 21, 3, then 4, then the file in order, then 7, then 8. After a refusal the tables hold what
// was read before it.
fn fill(
    version: Version,
    file: &[u8],
    inputs: &mut [u32],
    latches: &mut [u32],
    outputs: &mut [u32],
    gates: &mut [u32],
    resets: &mut [u32],
    bads: &mut [u32],
    constraints: &mut [u32],
    scratch: &mut [u32],
) -> Result<(Counts, usize), Refusal>
    requires { (i : ℕ) → get_or scratch.old i 0 ≡ 0 }
    ensures { LoadedSays (before inputs latches outputs gates resets bads constraints)
        (read_file version file.now (lengths_of
        (before inputs latches outputs gates resets bads constraints) scratch.old)) result
        (after inputs latches outputs gates resets bads constraints) }
{
    let (binary, n, at) = read_header(version, file)?;
    let to = lengths(inputs, latches, outputs, gates, resets, bads, constraints);
    let needed = scratch_to_read(binary, n);
    if let Some(short) = too_short(n, to, needed, scratch.len()) {
        return Err(Refusal::ShortTable(short));
    }
    let next = rest_of(
        version,
        binary,
        file,
        at,
        n,
        inputs,
        latches,
        outputs,
        gates,
        resets,
        bads,
        constraints,
        scratch,
    )?;
    Ok((n, next))
}

// Reads a file by a version of the report into tables 1 to 4 and 7 to 9, whatever they hold on entry: the counts
// and where the tail starts, or a refusal. In 2007 resets are 0, and there are no bad states and no constraints.
pub fn load(
    version: Version,
    file: &[u8],
    inputs: &mut [u32],
    latches: &mut [u32],
    outputs: &mut [u32],
    gates: &mut [u32],
    resets: &mut [u32],
    bads: &mut [u32],
    constraints: &mut [u32],
    scratch: &mut [u32],
) -> Result<(Counts, usize), Refusal>
    ensures { Loads (load_as version) file inputs latches outputs gates resets bads constraints scratch result }
{
    clear_all(inputs, latches, outputs, gates, resets, bads, constraints);
    clear(scratch);
    let read = fill(
        version,
        file,
        inputs,
        latches,
        outputs,
        gates,
        resets,
        bads,
        constraints,
        scratch,
    );
    tables::clear(scratch);
    if let Err(r) = read {
        clear_all(inputs, latches, outputs, gates, resets, bads, constraints);
        return Err(r);
    }
    read
}

// Reads a file by a version of the report into tables 1 to 4 and 7 to 9 and hands back its tail, which is empty
// after a refusal. The answer is the number, 0 if the file is accepted, the place and the counts.
pub fn read<'a>(
    version: Version,
    file: &'a [u8],
    inputs: &mut [u32],
    latches: &mut [u32],
    outputs: &mut [u32],
    gates: &mut [u32],
    resets: &mut [u32],
    bads: &mut [u32],
    constraints: &mut [u32],
    scratch: &mut [u32],
    answer: &mut [u64; 9],
) -> &'a [u8]
    ensures { Says (read_as version)
        (to_read file inputs latches outputs gates resets bads constraints scratch)
        (record {
          answer = answer.exit.now;
          tail = result.now;
          tables = after inputs latches outputs gates resets bads constraints;
          scratch = scratch.new;
        }) }
{
    match load(
        version,
        file,
        inputs,
        latches,
        outputs,
        gates,
        resets,
        bads,
        constraints,
        scratch,
    ) {
        Ok((n, start)) => {
            tell(answer, 0, 0, n);
            &file[start..]
        }
        Err(r) => {
            tell(answer, told_number(r), told_place(r) as u64, no_counts());
            let end = file.len();
            &file[end..]
        }
    }
}
