// A part of a run as lines: state, inputs, outputs, next state (the paper, programs and their output).
ghost use Rattle.std.specs.Prelude.{◌≡◌, ◌&&◌, List, map, ◌+◌, ◌/◌, ◌≤◌, ◌<◌, min, eqb, length};
ghost use Rattle.plan.specs.Literals.{most};
ghost use Rattle.plan.specs.Circuit.{Tables, circuit_of, seven};
ghost use Rattle.plan.specs.Step.{Value, value_of};
ghost use Rattle.plan.specs.Outcome.{Says, put, all_codes};
ghost use Rattle.plan.specs.Programs.{lines_in, all_vectors};
ghost use Rattle.plan.specs.Whole.{line_width, trace};
ghost use Rattle.step.specs.sweep.Running.{these, Runs, Rests};
ghost use Rattle.step.specs.Asked.{Room};
ghost use Rattle.runs.specs.stimulus.Scan.{ended};
ghost use Rattle.runs.specs.trace.Tracing.{part, Resting, Wrote, Listed, first_ones, Ran, Left, judged, past_lines};

use crate::stimulus::whole_lines;
use judge::judge_in_order;
use plan::{Counts, Refusal};
use step::codes::codes_in;
use step::sweep::step_values;
use step::values::{MAY0, load, store};
use tables::clear;

// The codes of `count` words from `first` on, and the byte after them; the position past it.
fn put_part(t: &[u32], first: usize, count: usize, last: u8, out: &mut [u8], at: usize) -> usize
    requires count_in_bounds { first + count ≤ length t.now }
    requires count_in_bounds_2 { at + count < length out.old }
    ensures value { result ≡ at + count + 1 }
    ensures out_after { out.new ≡ put out.old at (part t.now first count last) }
{
    let end = at + count;
    store(t, first, &mut out[at..end]);
    out[end] = last;
    end + 1
}

// One line and its step: the state that scratch holds, the inputs, the outputs and the next state, which scratch
// holds then. The position after the line.
fn write_line(
    n: Counts,
    latches: &[u32],
    outputs: &[u32],
    gates: &[u32],
    scratch: &mut [u32],
    ins: &[u8],
    out: &mut [u8],
    at: usize,
) -> usize
    requires resting { Resting n latches.now outputs.now gates.now scratch.old }
    requires ins_len { length ins.now ≡ n.I }
    requires n_in_bounds { at + line_width n ≤ length out.old }
    ensures value { result ≡ at + line_width n }
    ensures wrote { (x : Tables) (s : List Value)
        → Runs n (these x latches.now outputs.now gates.now) → length s ≡ n.L
        → Rests n s scratch.old → Wrote n
        (circuit_of n (these x latches.now outputs.now gates.now)) s
        (map value_of ins.now) scratch.new out.old at out.new }
{
    let inputs_at = put_part(scratch, 1 + n.I, n.L, b' ', out, at);
    load(ins, 1, scratch);
    let outputs_at = put_part(scratch, 1, n.I, b' ', out, inputs_at);
    step_values(n, latches, outputs, gates, scratch);
    let next_at = put_part(scratch, n.M + 1, n.O, b' ', out, outputs_at);
    put_part(scratch, 1 + n.I, n.L, b'\n', out, next_at)
}

// The lines of the first `number` vectors, from the start of a buffer that has room for them. Scratch holds the
// state between two steps, and after the last.
fn trace_lines(
    n: Counts,
    latches: &[u32],
    outputs: &[u32],
    gates: &[u32],
    scratch: &mut [u32],
    number: usize,
    vectors: &[u8],
    out: &mut [u8],
)
    requires resting { Resting n latches.now outputs.now gates.now scratch.old }
    requires listed { Listed n number vectors.now out.old }
    ensures { (x : Tables) (s : List Value)
        → Runs n (these x latches.now outputs.now gates.now)
        → length s ≡ n.L → Rests n s scratch.old
        → Ran n (circuit_of n (these x latches.now outputs.now gates.now)) s
        (first_ones number vectors.now) scratch.new out.old out.new }
{
    let mut to = 0;
    for line in vectors.chunks_exact(n.I + 1).take(number) {
        to = write_line(n, latches, outputs, gates, scratch, &line[..n.I], out, to);
    }
}

// The same from the state that is given, over which the state after the last line goes. Of scratch it asks the
// length alone: every word is written before it is read.
fn trace_from(
    n: Counts,
    latches: &[u32],
    outputs: &[u32],
    gates: &[u32],
    scratch: &mut [u32],
    state: &mut [u8],
    number: usize,
    vectors: &[u8],
    out: &mut [u8],
)
    requires room { Room n latches.now outputs.now gates.now scratch.old }
    requires state_len { length state.old ≡ n.L }
    requires listed { Listed n number vectors.now out.old }
    ensures { (x : Tables) → Runs n (these x latches.now outputs.now
        gates.now) → Left (circuit_of n
        (these x latches.now outputs.now gates.now)) state.old
        (first_ones number vectors.now) state.new out.old out.new }
{
    // the constant
    scratch[0] = MAY0;
    load(state, 1 + n.I, scratch);
    trace_lines(n, latches, outputs, gates, scratch, number, vectors, out);
    store(scratch, 1 + n.I, state);
}

// As many of `lines` as fit whole into `room` bytes.
pub fn fitting(n: Counts, lines: usize, room: usize) -> usize
    requires { (n.I + n.L ≤ most) × (n.O ≤ most) }
    ensures { result ≡ min lines (room / line_width n) }
{
    let fit = room / (2 * n.L + n.I + n.O + 4);
    if lines < fit {
        return lines;
    }
    fit
}

// The lines of vectors, by 12: place 1 the state, 2 the vectors.
pub fn judge(n: Counts, state: &[u8], vectors: &[u8]) -> Result<usize, Refusal>
    ensures { result ≡ judged (eqb (length state.now) n.L && all_codes state.now)
        (ended vectors.now && all_vectors n.I (lines_in vectors.now))
        (length (lines_in vectors.now)) }
{
    if !codes_in(state, n.L) {
        return Err(Refusal::BadVector(1));
    }
    whole_lines(vectors, n.I).map_err(|_| Refusal::BadVector(2))
}

// The position past the next `count` lines, or the end of the bytes; it starts at their end where `from` is past it.
pub fn past(bytes: &[u8], from: usize, count: usize) -> usize
    ensures value { result ≡ past_lines bytes.now from count }
    ensures upper_bound { result ≤ length bytes.now }
{
    let mut left = count;
    for at in from..bytes.len() {
        if left == 0 {
            return at;
        }
        if bytes[at] == b'\n' {
            left -= 1;
        }
    }
    bytes.len()
}

// A part of a run: as many whole lines as fit into `out`, from the state that is given; the state after them goes
// over it. The answer is the number of lines. On a refusal neither changes; scratch is zero afterwards (the paper,
// programs and their output).
pub fn trace(
    n: Counts,
    inputs: &[u32],
    latches: &[u32],
    outputs: &[u32],
    gates: &[u32],
    resets: &[u32],
    bads: &[u32],
    constraints: &[u32],
    scratch: &mut [u32],
    state: &mut [u8],
    vectors: &[u8],
    out: &mut [u8],
) -> Result<usize, Refusal>
    ensures { Says trace
        (record {
          circuit = (record {
            counts = n;
            tables = seven inputs.now latches.now outputs.now gates.now
                resets.now
                bads.now constraints.now;
            scratch = scratch.old;
          });
          state = state.old;
          vectors = vectors.now;
          out = out.old;
        })
        (record { answer = result; scratch = scratch.new; state = state.new; out = out.new }) }
{
    judge_in_order(
        n,
        inputs,
        latches,
        outputs,
        gates,
        resets,
        bads,
        constraints,
        scratch,
    )?;
    let judged = judge(n, state, vectors);
    let Ok(lines) = judged else {
        clear(scratch);
        return judged;
    };
    let number = fitting(n, lines, out.len());
    trace_from(
        n, latches, outputs, gates, scratch, state, number, vectors, out,
    );
    clear(scratch);
    Ok(number)
}
