// The needle report: a list of input vectors is stepped from the state of the resets, and each output's and each
// latch's values are counted (the paper, the needle report).
#![tactic(auto)]

ghost use Rattle.std.specs.Prelude.{◌≡◌, List, [], ◌++◌, map, ℕ, ◌+◌, ◌*◌, ltb, length};
ghost use Rattle.plan.specs.Refusals.{first_of};
ghost use Rattle.plan.specs.Circuit.{Tables, circuit_of, seven, cleared};
ghost use Rattle.plan.specs.Step.{Value, value_of, Step, run, vectors_of};
ghost use Rattle.plan.specs.Outcome.{checked_by};
ghost use Rattle.step.specs.sweep.Running.{these, Runs, Rests};
ghost use Rattle.plan.specs.Report.{report_of, report_stages, report};
ghost use Rattle.report.specs.Tallying.{tally, Turns, Turned, Tallies, Fills};
ghost use Rattle.plan.specs.Lent.{Reports};

use crate::needles::{count_all, finish};
use judge::check_in_order;
use judge::table_six::with_sixth;
use plan::{Counts, Refusal};
use step::codes::whole_list;
use step::sweep::{start_values, step_values};
use step::values::load;
use tables::clear;

pub mod needles;

// The most steps of a report.
const MOST: usize = 65536;

// Whether a table 6 of these words is too short for four for each output and each latch. A division, as the counts
// may be any numbers.
pub fn too_few(words: usize, n: Counts) -> bool
    ensures { result ≡ ltb words (4 * (n.O + n.L)) }
{
    let rows = words / 4;
    if rows < n.O {
        return true;
    }
    rows - n.O < n.L
}

// One vector: the latches are counted by the state that scratch holds before the step, the outputs after it.
fn turn(
    n: Counts,
    latches: &[u32],
    outputs: &[u32],
    gates: &[u32],
    scratch: &mut [u32],
    ins: &[u8],
    six: &mut [u32],
)
    requires { Turns n latches.now outputs.now gates.now scratch.old ins.now six.old }
    ensures { (x : Tables) (s : List Value) (done : List Step) (rest : List ℕ)
        → Runs n (these x latches.now outputs.now gates.now) → length s ≡ n.L
        → Rests n s scratch.old → six.old ≡ tally n done ++ rest
        → Turned n (circuit_of n (these x latches.now outputs.now gates.now)) s
        (map value_of ins.now) done rest scratch.new six.new }
{
    let rows = 4 * n.O;
    count_all(scratch, 1 + n.I, n.L, rows, six);
    load(ins, 1, scratch);
    step_values(n, latches, outputs, gates, scratch);
    count_all(scratch, n.M + 1, n.O, 0, six);
}

// All vectors of a list, whose bytes are good, from the state that scratch holds.
fn tally(
    n: Counts,
    latches: &[u32],
    outputs: &[u32],
    gates: &[u32],
    scratch: &mut [u32],
    number: usize,
    bytes: &[u8],
    six: &mut [u32],
)
    requires { Tallies n latches.now outputs.now gates.now scratch.old number bytes.now six.old }
    ensures { (x : Tables) (s : List Value) (rest : List ℕ)
        → Runs n (these x latches.now outputs.now gates.now) → length s ≡ n.L
        → Rests n s scratch.old → six.old ≡ tally n [] ++ rest → six.new
        ≡ tally n (let c = circuit_of n (these x latches.now outputs.now gates.now)
        in run c s (vectors_of c number bytes.now)) ++ rest }
{
    for k in 0..number {
        let at = n.I * k;
        let ins = &bytes[at..at + n.I];
        turn(n, latches, outputs, gates, scratch, ins, six);
    }
}

// The numbers of all needles, from the resets. Of scratch it asks the length alone; table 6 is blank.
fn fill(
    n: Counts,
    latches: &[u32],
    outputs: &[u32],
    gates: &[u32],
    resets: &[u32],
    scratch: &mut [u32],
    number: usize,
    bytes: &[u8],
    six: &mut [u32],
)
    requires { Fills n latches.now outputs.now gates.now resets.now scratch.old number bytes.now
        six.old }
    ensures { (inputs bads constraints rest : List ℕ)
        → Runs n (seven inputs latches.now outputs.now gates.now
        resets.now bads constraints) → six.old ≡ tally n [] ++ rest → six.new
        ≡ report_of (circuit_of n (seven inputs latches.now outputs.now gates.now
        resets.now bads constraints)) number bytes.now ++ rest }
{
    start_values(n, resets, scratch);
    tally(n, latches, outputs, gates, scratch, number, bytes, six);
    finish(n.O + n.L, six);
}

// 2, 3, 4 with a table 6 of these words, 5, 6, 7, 8, 15, then 13, then 12: whole vectors alone. Scratch is zero
// afterwards.
fn judge(
    n: Counts,
    inputs: &[u32],
    latches: &[u32],
    outputs: &[u32],
    gates: &[u32],
    resets: &[u32],
    bads: &[u32],
    constraints: &[u32],
    scratch: &mut [u32],
    number: usize,
    bytes: &[u8],
    words: usize,
) -> Result<(), Refusal>
    ensures by_index { (six : List ℕ) → words ≡ length six → result ≡ checked_by (first_of (report_stages
        (record {
          circuit = (record {
            counts = n;
            tables = seven inputs.now latches.now outputs.now gates.now
                resets.now
                bads.now constraints.now;
            scratch = scratch.old;
          });
          number = number;
          bytes = bytes.now;
          six = six;
        }))) }
    ensures scratch_after { scratch.new ≡ cleared scratch.old }
{
    let checked = check_in_order(
        n,
        inputs,
        latches,
        outputs,
        gates,
        resets,
        bads,
        constraints,
        scratch,
    );
    let short = too_few(words, n);
    with_sixth(checked, short)?;
    let broken = !whole_list(bytes, number, n.I);
    let long = MOST < number;
    if long {
        return Err(Refusal::LongInput(MOST));
    }
    if broken {
        return Err(Refusal::BadVector(2));
    }
    Ok(())
}

// Table 6 is zero from the start, so that it is after a refusal, and past the numbers.
fn blank(six: &mut [u32])
    ensures { six.new ≡ cleared six.old }
{
    clear(six);
}

// The needle report: for each output, then for each latch, how many of `number` steps from the resets have it at 0,
// at 1, at x, and how many differ from the step before. The circuit is checked once, and the whole list judged
// before the first step. Past these numbers, and after a refusal throughout, table 6 is zero; scratch is zero
// afterwards.
pub fn report(
    n: Counts,
    inputs: &[u32],
    latches: &[u32],
    outputs: &[u32],
    gates: &[u32],
    resets: &[u32],
    bads: &[u32],
    constraints: &[u32],
    scratch: &mut [u32],
    number: usize,
    bytes: &[u8],
    six: &mut [u32],
) -> Result<(), Refusal>
    ensures { Reports report n inputs latches outputs gates resets bads constraints scratch number bytes six result }
{
    blank(six);
    judge(
        n,
        inputs,
        latches,
        outputs,
        gates,
        resets,
        bads,
        constraints,
        scratch,
        number,
        bytes,
        six.len(),
    )?;
    fill(
        n, latches, outputs, gates, resets, scratch, number, bytes, six,
    );
    clear(scratch);
    Ok(())
}
