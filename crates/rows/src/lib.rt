// Many rows at once, from vectors of bytes into vectors of bytes or into a report: up to 64 rows, each stepped once
// from the resets (the paper, many rows).
#![tactic(auto)]

ghost use Rattle.std.specs.Prelude.{◌≡◌, cond, ◌&&◌, ◌*◌, ◌≤◌, eqb, length, Err};
ghost use Rattle.plan.specs.Literals.{most};
ghost use Rattle.plan.specs.Circuit.{Tables, circuit_of, filled, cleared};
ghost use Rattle.plan.specs.Step.{is_code};
ghost use Rattle.plan.specs.Outcome.{all_codes};
ghost use Rattle.step.specs.sweep.Running.{Runs};
ghost use Rattle.plan.specs.Rows.{step_rows, row_steps, row_report, report_rows};
ghost use Rattle.rows.specs.lanes.Working.{these};
ghost use Rattle.rows.specs.Asked.{bad_rows, Room, Lists, Leaves, Reports};
ghost use Rattle.plan.specs.Lent.{StepsRows, ReportsRows};

use crate::lanes::{count_rows, step_lanes, store_rows};
use judge::judge_in_order;
use judge::table_six::with_sixth;
use plan::{Counts, Refusal};
use step::codes::is_code;
use tables::clear;

mod lanes;

// 1 for a byte but "0", "1", "x".
fn not_code(b: u8) -> u8
    ensures { result ≡ cond (is_code b) 0 1 }
{
    if is_code(b) {
        return 0;
    }
    1
}

// Whether no byte is wrong. All are looked at, without a way out, so that many are looked at together.
fn only_codes(bytes: &[u8]) -> bool
    ensures { result ≡ all_codes bytes.now }
{
    let mut wrong = 0;
    for b in bytes {
        wrong |= not_code(*b);
    }
    wrong == 0
}

// Whether the inputs are `rows` vectors of `each` codes.
fn whole_rows(ins: &[u8], rows: usize, each: usize) -> bool
    requires rows_bound { rows ≤ 64 }
    requires each_le_most { each ≤ most }
    ensures { result ≡ (eqb (length ins.now) (rows * each) && all_codes ins.now) }
{
    if ins.len() != rows * each {
        return false;
    }
    only_codes(ins)
}

// The first list that is refused: 1 the next states and 3 the outputs, of which the length is judged, 2 the inputs.
fn bad_rows(n: Counts, rows: usize, nexts: usize, ins: &[u8], outs: usize) -> Option<usize>
    requires rows_bound { rows ≤ 64 }
    requires i_le_most { (n.I ≤ most) × (n.L ≤ most) × (n.O ≤ most) }
    ensures { result ≡ bad_rows n rows nexts ins.now outs }
{
    if nexts != rows * n.L {
        return Some(1);
    }
    if !whole_rows(ins, rows, n.I) {
        return Some(2);
    }
    if outs != rows * n.O {
        return Some(3);
    }
    None
}

// A step of rows whose tables and lists are good. Of scratch it asks the length alone: every word is written before
// it is read.
fn step_lists(
    n: Counts,
    latches: &[u32],
    outputs: &[u32],
    gates: &[u32],
    resets: &[u32],
    scratch: &mut [u32],
    rows: usize,
    nexts: &mut [u8],
    ins: &[u8],
    outs: &mut [u8],
)
    requires room { Room n latches.now outputs.now gates.now resets.now scratch.old }
    requires lists { Lists n rows nexts.old ins.now outs.old }
    ensures { (x : Tables) → Runs n (these x latches.now outputs.now
        gates.now resets.now)
        → Leaves (circuit_of n (these x latches.now outputs.now gates.now
        resets.now)) rows ins.now nexts.new outs.new }
{
    step_lanes(n, gates, resets, ins, rows, scratch);
    store_rows(latches, 1, 2, n.L, rows, scratch, nexts);
    store_rows(outputs, 0, 1, n.O, rows, scratch, outs);
}

// One step of each row from the resets: next states and outputs go into their buffers, L and O bytes a row. On a
// refusal no buffer changes; scratch is zero afterwards.
pub fn step_rows(
    n: Counts,
    inputs: &[u32],
    latches: &[u32],
    outputs: &[u32],
    gates: &[u32],
    resets: &[u32],
    bads: &[u32],
    constraints: &[u32],
    scratch: &mut [u32],
    rows: usize,
    nexts: &mut [u8],
    ins: &[u8],
    outs: &mut [u8],
) -> Result<(), Refusal>
    ensures { StepsRows step_rows n inputs latches outputs gates resets bads constraints scratch rows nexts ins
        outs result }
{
    judge_in_order(
        n,
        inputs,
        latches,
        outputs,
        gates,
        resets,
        bads,
        constraints,
        scratch,
    )?;
    if 64 < rows {
        clear(scratch);
        return Err(Refusal::LongInput(64));
    }
    if let Some(bad) = bad_rows(n, rows, nexts.len(), ins, outs.len()) {
        clear(scratch);
        return Err(Refusal::BadVector(bad));
    }
    step_lists(
        n, latches, outputs, gates, resets, scratch, rows, nexts, ins, outs,
    );
    clear(scratch);
    Ok(())
}

// The row report of rows whose tables and inputs are good: per output the rows at 0, at 1 and at x, and zero past them.
fn report_lists(
    n: Counts,
    outputs: &[u32],
    gates: &[u32],
    resets: &[u32],
    scratch: &mut [u32],
    rows: usize,
    ins: &[u8],
    report: &mut [u32],
)
    requires { Reports n outputs.now gates.now resets.now rows ins.now scratch.old report.old }
    ensures { (x : Tables) → Runs n (these x x.latches outputs.now gates.now
        resets.now) → report.new
        ≡ filled report.old (row_report
        (circuit_of n (these x x.latches outputs.now gates.now resets.now))
        (row_steps (circuit_of n (these x x.latches outputs.now gates.now
        resets.now)) rows ins.now)) }
{
    step_lanes(n, gates, resets, ins, rows, scratch);
    clear(report);
    count_rows(outputs, n.O, rows, scratch, report);
}

// A refusal leaves table 6 zero, and scratch.
fn refuse(refusal: Refusal, scratch: &mut [u32], report: &mut [u32]) -> Result<(), Refusal>
    ensures { (result ≡ Err refusal) × (scratch.new ≡ cleared scratch.old)
        × (report.new ≡ cleared report.old) }
{
    clear(scratch);
    clear(report);
    Err(refusal)
}

// The row report, into table 6: three numbers for each output, which add up to the rows. On a refusal table 6 is
// zero; scratch is zero afterwards.
pub fn report_rows(
    n: Counts,
    inputs: &[u32],
    latches: &[u32],
    outputs: &[u32],
    gates: &[u32],
    resets: &[u32],
    bads: &[u32],
    constraints: &[u32],
    scratch: &mut [u32],
    rows: usize,
    ins: &[u8],
    report: &mut [u32],
) -> Result<(), Refusal>
    ensures { ReportsRows report_rows n inputs latches outputs gates resets bads constraints scratch rows ins
        report result }
{
    let short = report.len() / 3 < n.O;
    let answer = judge_in_order(
        n,
        inputs,
        latches,
        outputs,
        gates,
        resets,
        bads,
        constraints,
        scratch,
    );
    if let Err(refusal) = with_sixth(answer, short) {
        return refuse(refusal, scratch, report);
    }
    if 64 < rows {
        return refuse(Refusal::LongInput(64), scratch, report);
    }
    if !whole_rows(ins, rows, n.I) {
        return refuse(Refusal::BadVector(2), scratch, report);
    }
    report_lists(n, outputs, gates, resets, scratch, rows, ins, report);
    clear(scratch);
    Ok(())
}
