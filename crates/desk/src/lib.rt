// What C calls: numbers and slices only. The header for C is c/golvanzo.h.
#![tactic(auto)]

ghost use Rattle.std.specs.Prelude.{◌≡◌};
ghost use Rattle.plan.specs.Header.{words_for};
ghost use Rattle.plan.specs.Outcome.{loaded_values};
ghost use Rattle.desk.specs.Told.{read, read2007, check, write_text, write_binary, read_cards, write_cards, conversion, reduction, dropping, step, step_plain};
ghost use Rattle.desk.specs.Told.{witness, witness3, explain, rewiring};
ghost use Rattle.desk.specs.Reported.{report};
ghost use Rattle.desk.specs.RowsTold.{step_rows, report_rows};
ghost use Rattle.desk.specs.Lent.{Reads, Loads, Checks, Writes, Makes, Steps, Blames, Tries, Asks, Reports, StepsRows, ReportsRows, Rewires};

use answers::{numbers, refusals};
use cards::{reading, writing};
use lines::header;
use plan::{Counts, Refusal, Version};
use witness::three;

// How many words table 1 to 5 or 7 to 9 needs for the file's header, or 2^64 - 1.
#[unsafe(no_mangle)]
pub extern "C" fn golvanzo_words(file: &[u8], table: u64) -> u64
    ensures { result ≡ words_for file.now table }
{
    header::words(file, table)
}

// Reads a file of AIGER 1.9 into the tables; where its tail starts, which after a refusal is the file's length.
#[unsafe(no_mangle)]
pub extern "C" fn golvanzo_read(
    file: &[u8],
    inputs: &mut [u32],
    latches: &mut [u32],
    outputs: &mut [u32],
    gates: &mut [u32],
    resets: &mut [u32],
    bads: &mut [u32],
    constraints: &mut [u32],
    scratch: &mut [u32],
    answer: &mut [u64; 9],
) -> u64
    ensures { Reads read file inputs latches outputs gates resets bads constraints scratch answer result }
{
    let tail = read::read(
        Version::V19,
        file,
        inputs,
        latches,
        outputs,
        gates,
        resets,
        bads,
        constraints,
        scratch,
        answer,
    );
    (file.len() - tail.len()) as u64
}

// The same by the report of 2007: resets are 0, and there are no bad states and no constraints.
#[unsafe(no_mangle)]
pub extern "C" fn golvanzo_read2007(
    file: &[u8],
    inputs: &mut [u32],
    latches: &mut [u32],
    outputs: &mut [u32],
    gates: &mut [u32],
    resets: &mut [u32],
    bads: &mut [u32],
    constraints: &mut [u32],
    scratch: &mut [u32],
    answer: &mut [u64; 9],
) -> u64
    ensures { Reads read2007 file inputs latches outputs gates resets bads constraints scratch answer result }
{
    let tail = read::read(
        Version::V2007,
        file,
        inputs,
        latches,
        outputs,
        gates,
        resets,
        bads,
        constraints,
        scratch,
        answer,
    );
    (file.len() - tail.len()) as u64
}

// Whether given tables hold a circuit that a reader could have accepted: number (0: they do) and place.
#[unsafe(no_mangle)]
pub extern "C" fn golvanzo_check(
    counts: &[u64; 7],
    inputs: &[u32],
    latches: &[u32],
    outputs: &[u32],
    gates: &[u32],
    resets: &[u32],
    bads: &[u32],
    constraints: &[u32],
    scratch: &mut [u32],
    answer: &mut [u64; 2],
)
    ensures { Checks check counts inputs latches outputs gates resets bads constraints scratch answer }
{
    let n = numbers::counts(counts);
    let r = judge::check(
        n,
        inputs,
        latches,
        outputs,
        gates,
        resets,
        bads,
        constraints,
        scratch,
    );
    numbers::checked(r, answer);
}

// Writes the text form of given tables and the tail: number (0: written), place and the number of bytes.
#[unsafe(no_mangle)]
pub extern "C" fn golvanzo_write_text(
    counts: &[u64; 7],
    inputs: &[u32],
    latches: &[u32],
    outputs: &[u32],
    gates: &[u32],
    resets: &[u32],
    bads: &[u32],
    constraints: &[u32],
    scratch: &mut [u32],
    tail: &[u8],
    out: &mut [u8],
    answer: &mut [u64; 3],
)
    ensures { Writes write_text counts inputs latches outputs gates resets bads constraints scratch tail out answer }
{
    let n = numbers::counts(counts);
    let r = write::write_text(
        n,
        inputs,
        latches,
        outputs,
        gates,
        resets,
        bads,
        constraints,
        scratch,
        tail,
        out,
    );
    numbers::written(r, answer);
}

// The same in binary form.
#[unsafe(no_mangle)]
pub extern "C" fn golvanzo_write_binary(
    counts: &[u64; 7],
    inputs: &[u32],
    latches: &[u32],
    outputs: &[u32],
    gates: &[u32],
    resets: &[u32],
    bads: &[u32],
    constraints: &[u32],
    scratch: &mut [u32],
    tail: &[u8],
    out: &mut [u8],
    answer: &mut [u64; 3],
)
    ensures { Writes write_binary counts inputs latches outputs gates resets bads constraints scratch tail out answer }
{
    let n = numbers::counts(counts);
    let r = write::write_binary(
        n,
        inputs,
        latches,
        outputs,
        gates,
        resets,
        bads,
        constraints,
        scratch,
        tail,
        out,
    );
    numbers::written(r, answer);
}

// What a reader answers, as numbers: the refusal's number (0: none), its place, and the counts.
fn loaded(r: Result<(Counts, usize), Refusal>, answer: &mut [u64; 9])
    ensures { answer.new ≡ loaded_values r }
{
    match r {
        Ok((n, _)) => {
            numbers::tell(answer, 0, 0, n);
        }
        Err(r) => {
            numbers::tell(
                answer,
                refusals::told_number(r),
                refusals::told_place(r) as u64,
                numbers::no_counts(),
            );
        }
    }
}

// Reads plan cards into the tables: number (0: read), place and the counts M, I, L, O, A, B, C. Nothing follows the records.
#[unsafe(no_mangle)]
pub extern "C" fn golvanzo_read_cards(
    file: &[u8],
    inputs: &mut [u32],
    latches: &mut [u32],
    outputs: &mut [u32],
    gates: &mut [u32],
    resets: &mut [u32],
    bads: &mut [u32],
    constraints: &mut [u32],
    scratch: &mut [u32],
    answer: &mut [u64; 9],
)
    ensures { Loads read_cards file inputs latches outputs gates resets bads constraints scratch answer }
{
    let r = reading::read_cards(
        file,
        inputs,
        latches,
        outputs,
        gates,
        resets,
        bads,
        constraints,
        scratch,
    );
    loaded(r, answer);
}

// Writes given tables in binary order as plan cards: number (0: written), place and the number of bytes.
#[unsafe(no_mangle)]
pub extern "C" fn golvanzo_write_cards(
    counts: &[u64; 7],
    inputs: &[u32],
    latches: &[u32],
    outputs: &[u32],
    gates: &[u32],
    resets: &[u32],
    bads: &[u32],
    constraints: &[u32],
    scratch: &mut [u32],
    tail: &[u8],
    out: &mut [u8],
    answer: &mut [u64; 3],
)
    ensures { Writes write_cards counts inputs latches outputs gates resets bads constraints scratch tail out answer }
{
    let n = numbers::counts(counts);
    let r = writing::write_cards(
        n,
        inputs,
        latches,
        outputs,
        gates,
        resets,
        bads,
        constraints,
        scratch,
        tail,
        out,
    );
    numbers::written(r, answer);
}

// Converts the circuit in given tables into written ones: number (0: converted), place and the counts M, I, L, O, A, B, C.
#[unsafe(no_mangle)]
pub extern "C" fn golvanzo_convert(
    counts: &[u64; 7],
    inputs: &[u32],
    latches: &[u32],
    outputs: &[u32],
    gates: &[u32],
    resets: &[u32],
    bads: &[u32],
    constraints: &[u32],
    to_inputs: &mut [u32],
    to_latches: &mut [u32],
    to_outputs: &mut [u32],
    to_gates: &mut [u32],
    to_resets: &mut [u32],
    to_bads: &mut [u32],
    to_constraints: &mut [u32],
    scratch: &mut [u32],
    answer: &mut [u64; 9],
)
    ensures { Makes conversion counts inputs latches outputs gates resets bads constraints to_inputs to_latches to_outputs
        to_gates to_resets to_bads to_constraints scratch answer }
{
    let n = numbers::counts(counts);
    let r = convert::convert(
        n,
        inputs,
        latches,
        outputs,
        gates,
        resets,
        bads,
        constraints,
        to_inputs,
        to_latches,
        to_outputs,
        to_gates,
        to_resets,
        to_bads,
        to_constraints,
        scratch,
    );
    numbers::made(r, answer);
}

// Reduces the circuit in given tables, which are in binary order, into written ones: the same answer.
#[unsafe(no_mangle)]
pub extern "C" fn golvanzo_reduce(
    counts: &[u64; 7],
    inputs: &[u32],
    latches: &[u32],
    outputs: &[u32],
    gates: &[u32],
    resets: &[u32],
    bads: &[u32],
    constraints: &[u32],
    to_inputs: &mut [u32],
    to_latches: &mut [u32],
    to_outputs: &mut [u32],
    to_gates: &mut [u32],
    to_resets: &mut [u32],
    to_bads: &mut [u32],
    to_constraints: &mut [u32],
    scratch: &mut [u32],
    answer: &mut [u64; 9],
)
    ensures { Makes reduction counts inputs latches outputs gates resets bads constraints to_inputs to_latches to_outputs
        to_gates to_resets to_bads to_constraints scratch answer }
{
    let n = numbers::counts(counts);
    let r = reduce::reduce(
        n,
        inputs,
        latches,
        outputs,
        gates,
        resets,
        bads,
        constraints,
        to_inputs,
        to_latches,
        to_outputs,
        to_gates,
        to_resets,
        to_bads,
        to_constraints,
        scratch,
    );
    numbers::made(r, answer);
}

// Drops the unused gates of the circuit in given tables, which are in binary order, into written ones: the same answer.
#[unsafe(no_mangle)]
pub extern "C" fn golvanzo_drop(
    counts: &[u64; 7],
    inputs: &[u32],
    latches: &[u32],
    outputs: &[u32],
    gates: &[u32],
    resets: &[u32],
    bads: &[u32],
    constraints: &[u32],
    to_inputs: &mut [u32],
    to_latches: &mut [u32],
    to_outputs: &mut [u32],
    to_gates: &mut [u32],
    to_resets: &mut [u32],
    to_bads: &mut [u32],
    to_constraints: &mut [u32],
    scratch: &mut [u32],
    answer: &mut [u64; 9],
)
    ensures { Makes dropping counts inputs latches outputs gates resets bads constraints to_inputs to_latches to_outputs
        to_gates to_resets to_bads to_constraints scratch answer }
{
    let n = numbers::counts(counts);
    let r = drop::drop_unused(
        n,
        inputs,
        latches,
        outputs,
        gates,
        resets,
        bads,
        constraints,
        to_inputs,
        to_latches,
        to_outputs,
        to_gates,
        to_resets,
        to_bads,
        to_constraints,
        scratch,
    );
    numbers::made(r, answer);
}

// One step of the circuit in given tables, which are in binary order: number (0: stepped) and place.
#[unsafe(no_mangle)]
pub extern "C" fn golvanzo_step(
    counts: &[u64; 7],
    inputs: &[u32],
    latches: &[u32],
    outputs: &[u32],
    gates: &[u32],
    resets: &[u32],
    bads: &[u32],
    constraints: &[u32],
    scratch: &mut [u32],
    state: &mut [u8],
    ins: &[u8],
    outs: &mut [u8],
    answer: &mut [u64; 2],
)
    ensures { Steps step counts inputs latches outputs gates resets bads constraints scratch state ins outs answer }
{
    let n = numbers::counts(counts);
    let r = step::step(
        n,
        inputs,
        latches,
        outputs,
        gates,
        resets,
        bads,
        constraints,
        scratch,
        state,
        ins,
        outs,
    );
    numbers::stepped(r, answer);
}

// The same by the plain engine, for at most 24 gates.
#[unsafe(no_mangle)]
pub extern "C" fn golvanzo_step_plain(
    counts: &[u64; 7],
    inputs: &[u32],
    latches: &[u32],
    outputs: &[u32],
    gates: &[u32],
    resets: &[u32],
    bads: &[u32],
    constraints: &[u32],
    scratch: &mut [u32],
    state: &mut [u8],
    ins: &[u8],
    outs: &mut [u8],
    answer: &mut [u64; 2],
)
    ensures { Steps step_plain counts inputs latches outputs gates resets bads constraints scratch state ins outs answer }
{
    let n = numbers::counts(counts);
    let r = plain::step_plain(
        n,
        inputs,
        latches,
        outputs,
        gates,
        resets,
        bads,
        constraints,
        scratch,
        state,
        ins,
        outs,
    );
    numbers::stepped(r, answer);
}

// What made an output 0 or 1 in a step of given tables, which are in binary order: number (0: explained) and place.
#[unsafe(no_mangle)]
pub extern "C" fn golvanzo_explain(
    counts: &[u64; 7],
    inputs: &[u32],
    latches: &[u32],
    outputs: &[u32],
    gates: &[u32],
    resets: &[u32],
    bads: &[u32],
    constraints: &[u32],
    scratch: &mut [u32],
    state: &[u8],
    ins: &[u8],
    output: u64,
    marks: &mut [u8],
    answer: &mut [u64; 2],
)
    ensures { Blames explain counts inputs latches outputs gates resets bads constraints scratch state ins output marks answer }
{
    let n = numbers::counts(counts);
    let r = explain::explain(
        n,
        inputs,
        latches,
        outputs,
        gates,
        resets,
        bads,
        constraints,
        scratch,
        state,
        ins,
        output as usize,
        marks,
    );
    numbers::stepped(r, answer);
}

// The witness question by fillings, of which at most `allowance` are tried: number (0: answered), place, 1 for yes, 0 for no or 2 for undecided,
// and how many were tried.
#[unsafe(no_mangle)]
pub extern "C" fn golvanzo_witness(
    counts: &[u64; 7],
    inputs: &[u32],
    latches: &[u32],
    outputs: &[u32],
    gates: &[u32],
    resets: &[u32],
    bads: &[u32],
    constraints: &[u32],
    scratch: &mut [u32],
    number: u64,
    bytes: &[u8],
    allowance: u64,
    answer: &mut [u64; 4],
)
    ensures { Tries witness counts inputs latches outputs gates resets bads constraints scratch number bytes allowance answer }
{
    let n = numbers::counts(counts);
    let r = witness::witness(
        n,
        inputs,
        latches,
        outputs,
        gates,
        resets,
        bads,
        constraints,
        scratch,
        number as usize,
        bytes,
        allowance as usize,
    );
    answers::findings::finding(r, answer);
}

// The witness question in three values, in which nothing is filled: number (0: answered), place, and 1 for yes or 0 for no.
#[unsafe(no_mangle)]
pub extern "C" fn golvanzo_witness3(
    counts: &[u64; 7],
    inputs: &[u32],
    latches: &[u32],
    outputs: &[u32],
    gates: &[u32],
    resets: &[u32],
    bads: &[u32],
    constraints: &[u32],
    scratch: &mut [u32],
    number: u64,
    bytes: &[u8],
    answer: &mut [u64; 3],
)
    ensures { Asks witness3 counts inputs latches outputs gates resets bads constraints scratch number bytes answer }
{
    let n = numbers::counts(counts);
    let r = three::witness3(
        n,
        inputs,
        latches,
        outputs,
        gates,
        resets,
        bads,
        constraints,
        scratch,
        number as usize,
        bytes,
    );
    numbers::verdict(r, answer);
}

// The needle report of a list of vectors: number (0: reported) and place; the numbers go to table 6.
#[unsafe(no_mangle)]
pub extern "C" fn golvanzo_report(
    counts: &[u64; 7],
    inputs: &[u32],
    latches: &[u32],
    outputs: &[u32],
    gates: &[u32],
    resets: &[u32],
    bads: &[u32],
    constraints: &[u32],
    scratch: &mut [u32],
    number: u64,
    bytes: &[u8],
    six: &mut [u32],
    answer: &mut [u64; 2],
)
    ensures { Reports report counts inputs latches outputs gates resets bads constraints scratch number bytes six answer }
{
    let n = numbers::counts(counts);
    let r = report::report(
        n,
        inputs,
        latches,
        outputs,
        gates,
        resets,
        bads,
        constraints,
        scratch,
        number as usize,
        bytes,
        six,
    );
    numbers::stepped(r, answer);
}

// Up to 64 rows, each stepped once from the resets: number (0: stepped) and place.
#[unsafe(no_mangle)]
pub extern "C" fn golvanzo_rows(
    counts: &[u64; 7],
    inputs: &[u32],
    latches: &[u32],
    outputs: &[u32],
    gates: &[u32],
    resets: &[u32],
    bads: &[u32],
    constraints: &[u32],
    scratch: &mut [u32],
    rows: u64,
    nexts: &mut [u8],
    ins: &[u8],
    outs: &mut [u8],
    answer: &mut [u64; 2],
)
    ensures { StepsRows step_rows counts inputs latches outputs gates resets bads constraints scratch rows nexts ins outs answer }
{
    let n = numbers::counts(counts);
    let r = rows::step_rows(
        n,
        inputs,
        latches,
        outputs,
        gates,
        resets,
        bads,
        constraints,
        scratch,
        rows as usize,
        nexts,
        ins,
        outs,
    );
    numbers::stepped(r, answer);
}

// The row report of up to 64 rows, into table 6: number (0: reported) and place.
#[unsafe(no_mangle)]
pub extern "C" fn golvanzo_report_rows(
    counts: &[u64; 7],
    inputs: &[u32],
    latches: &[u32],
    outputs: &[u32],
    gates: &[u32],
    resets: &[u32],
    bads: &[u32],
    constraints: &[u32],
    scratch: &mut [u32],
    rows: u64,
    ins: &[u8],
    report: &mut [u32],
    answer: &mut [u64; 2],
)
    ensures { ReportsRows report_rows counts inputs latches outputs gates resets bads constraints scratch rows ins report answer }
{
    let n = numbers::counts(counts);
    let r = rows::report_rows(
        n,
        inputs,
        latches,
        outputs,
        gates,
        resets,
        bads,
        constraints,
        scratch,
        rows as usize,
        ins,
        report,
    );
    numbers::stepped(r, answer);
}

// The right sides of one gate of given tables, which are in binary order, with the values of a step: number (0: rewired) and place.
#[unsafe(no_mangle)]
pub extern "C" fn golvanzo_rewire(
    counts: &[u64; 7],
    inputs: &[u32],
    latches: &[u32],
    outputs: &[u32],
    gates: &mut [u32],
    resets: &[u32],
    bads: &[u32],
    constraints: &[u32],
    scratch: &mut [u32],
    gate: u64,
    rhs0: u32,
    rhs1: u32,
    values: &mut [u8],
    answer: &mut [u64; 2],
)
    ensures { Rewires rewiring counts inputs latches outputs gates resets bads constraints scratch gate rhs0 rhs1 values answer }
{
    let n = numbers::counts(counts);
    let r = rewire::rewire(
        n,
        inputs,
        latches,
        outputs,
        gates,
        resets,
        bads,
        constraints,
        scratch,
        gate as usize,
        rhs0,
        rhs1,
        values,
    );
    numbers::stepped(r, answer);
}
