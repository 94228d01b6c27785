// A part of a run as lines, by the plain engine: what the comparer holds against the tracer's lines (the paper, the
// plain engine).
ghost use Rattle.std.specs.Prelude.{◌≡◌, [], ◌∷◌, ◌++◌, ◌+◌, ◌≤◌, ◌<◌, ◌&&◌, eqb, length};
ghost use Rattle.plan.specs.Refusals.{number_of, place_of};
ghost use Rattle.plan.specs.Circuit.{Tables, circuit_of, seven};
ghost use Rattle.plan.specs.Outcome.{Says, put};
ghost use Rattle.plan.specs.Whole.{line_width};
ghost use Rattle.step.specs.sweep.Running.{these, Runs};
ghost use Rattle.step.specs.Asked.{Room};
ghost use Rattle.runs.specs.trace.Tracing.{Listed, first_ones, Left};
ghost use Rattle.plan.specs.Plain.{plain_trace};
ghost use Rattle.runs.specs.comparing.Lined.{Vector, Lined, plain_judged};
ghost use Rattle.runs.specs.comparing.Both.{same_bytes, same_answer, compare};

use crate::trace;
use crate::trace::{fitting, judge};
use answers::refusals::{told_number, told_place};
use check::same;
use judge::judge_in_order;
use plain::{TEACHING, plain_vectors};
use plan::{Counts, Refusal};
use tables::clear;
use write::forms::append;

// Bytes, and the byte after them; the position past it.
fn put_bytes(bytes: &[u8], last: u8, out: &mut [u8], at: usize) -> usize
    requires { at + length bytes.now < length out.old }
    ensures value { result ≡ at + length bytes.now + 1 }
    ensures out_after { out.new ≡ put out.old at (bytes.now ++ (last ∷ [])) }
{
    let end = append(out, at, bytes);
    out[end] = last;
    end + 1
}

// One line and its step: the state, the inputs, the outputs and the next state, which stands in the state's place
// then. The position after the line.
fn plain_line(
    n: Counts,
    latches: &[u32],
    outputs: &[u32],
    gates: &[u32],
    scratch: &mut [u32],
    state: &mut [u8],
    ins: &[u8],
    out: &mut [u8],
    at: usize,
) -> usize
    requires room { Room n latches.now outputs.now gates.now scratch.old }
    requires vector { Vector n.L state.old }
    requires vector_2 { Vector n.I ins.now }
    requires n_in_bounds { at + line_width n ≤ length out.old }
    ensures value { result ≡ at + line_width n }
    ensures lined { (x : Tables) → Runs n (these x latches.now outputs.now
        gates.now) → Lined (circuit_of n
        (these x latches.now outputs.now gates.now)) state.old
        ins.now state.new out.old at out.new }
{
    let inputs_at = put_bytes(state, b' ', out, at);
    let outputs_at = put_bytes(ins, b' ', out, inputs_at);
    let end = outputs_at + n.O;
    plain_vectors(
        n,
        latches,
        outputs,
        gates,
        scratch,
        state,
        ins,
        &mut out[outputs_at..end],
    );
    out[end] = b' ';
    put_bytes(state, b'\n', out, end + 1)
}

// The lines of the first `number` vectors, from the start of a buffer that has room for them.
fn plain_lines(
    n: Counts,
    latches: &[u32],
    outputs: &[u32],
    gates: &[u32],
    scratch: &mut [u32],
    state: &mut [u8],
    number: usize,
    vectors: &[u8],
    out: &mut [u8],
)
    requires room { Room n latches.now outputs.now gates.now scratch.old }
    requires vector { Vector n.L state.old }
    requires listed { Listed n number vectors.now out.old }
    ensures { (x : Tables) → Runs n (these x latches.now outputs.now
        gates.now) → Left (circuit_of n
        (these x latches.now outputs.now gates.now)) state.old
        (first_ones number vectors.now) state.new out.old out.new }
{
    let mut to = 0;
    for line in vectors.chunks_exact(n.I + 1).take(number) {
        to = plain_line(
            n,
            latches,
            outputs,
            gates,
            scratch,
            state,
            &line[..n.I],
            out,
            to,
        );
    }
}

// The lines of vectors, by 24 and then 12 (the paper, the plain engine).
fn judge_plain(n: Counts, state: &[u8], vectors: &[u8]) -> Result<usize, Refusal>
    ensures { result ≡ plain_judged n state.now vectors.now }
{
    if TEACHING < n.A {
        return Err(Refusal::ManyGates(n.A));
    }
    judge(n, state, vectors)
}

// A part of a run by the plain engine: as many whole lines as fit into `out`, from the state that is given; the
// state after them goes over it. The answer is the number of lines. On a refusal neither changes; scratch is zero
// afterwards.
pub fn trace_plain(
    n: Counts,
    inputs: &[u32],
    latches: &[u32],
    outputs: &[u32],
    gates: &[u32],
    resets: &[u32],
    bads: &[u32],
    constraints: &[u32],
    scratch: &mut [u32],
    state: &mut [u8],
    vectors: &[u8],
    out: &mut [u8],
) -> Result<usize, Refusal>
    ensures { Says plain_trace
        (record {
          circuit = (record {
            counts = n;
            tables = seven inputs.now latches.now outputs.now gates.now
                resets.now
                bads.now constraints.now;
            scratch = scratch.old;
          });
          state = state.old;
          vectors = vectors.now;
          out = out.old;
        })
        (record { answer = result; scratch = scratch.new; state = state.new; out = out.new }) }
{
    judge_in_order(
        n,
        inputs,
        latches,
        outputs,
        gates,
        resets,
        bads,
        constraints,
        scratch,
    )?;
    let judged = judge_plain(n, state, vectors);
    let Ok(lines) = judged else {
        clear(scratch);
        return judged;
    };
    let number = fitting(n, lines, out.len());
    plain_lines(
        n, latches, outputs, gates, scratch, state, number, vectors, out,
    );
    clear(scratch);
    Ok(number)
}

fn same_refusal(r: Refusal, s: Refusal) -> bool
    ensures { result ≡ (eqb (number_of r) (number_of s) && eqb (place_of r) (place_of s)) }
{
    if told_number(r) != told_number(s) {
        return false;
    }
    told_place(r) == told_place(s)
}

// As many lines, or the same refusal.
fn same_answer(a: Result<usize, Refusal>, b: Result<usize, Refusal>) -> bool
    ensures { result ≡ same_answer a b }
{
    match (a, b) {
        (Ok(k), Ok(m)) => k == m,
        (Err(r), Err(s)) => same_refusal(r, s),
        _ => false,
    }
}

// Whether both engines answer the same, and leave the same state and the same lines.
fn agree(
    part: Result<usize, Refusal>,
    plain: Result<usize, Refusal>,
    state: &[u8],
    twin: &[u8],
    out: &[u8],
    again: &[u8],
) -> bool
    ensures { result ≡ (same_answer part plain &&
        (same_bytes state.now twin.now && same_bytes out.now again.now)) }
{
    if !same_answer(part, plain) {
        return false;
    }
    if !same(state, twin) {
        return false;
    }
    same(out, again)
}

// A part of a run by both engines, the stepper into `state` and `out`, the plain engine into `twin` and `again`: the
// number of lines where they leave the same, and none where they part. From the same state and buffer, and with at
// most 24 gates, they never part.
pub fn compare(
    n: Counts,
    inputs: &[u32],
    latches: &[u32],
    outputs: &[u32],
    gates: &[u32],
    resets: &[u32],
    bads: &[u32],
    constraints: &[u32],
    scratch: &mut [u32],
    state: &mut [u8],
    vectors: &[u8],
    out: &mut [u8],
    twin: &mut [u8],
    again: &mut [u8],
) -> Result<Option<usize>, Refusal>
    ensures { Says compare
        (record {
          part = (record {
            circuit = (record {
              counts = n;
              tables = seven inputs.now latches.now outputs.now gates.now
                  resets.now
                  bads.now constraints.now;
              scratch = scratch.old;
            });
            state = state.old;
            vectors = vectors.now;
            out = out.old;
          });
          twin = twin.old;
          again = again.old;
        })
        (record {
          answer = result;
          scratch = scratch.new;
          state = state.new;
          out = out.new;
          twin = twin.new;
          again = again.new;
        }) }
{
    let part = trace::trace(
        n,
        inputs,
        latches,
        outputs,
        gates,
        resets,
        bads,
        constraints,
        scratch,
        state,
        vectors,
        out,
    );
    let plain = trace_plain(
        n,
        inputs,
        latches,
        outputs,
        gates,
        resets,
        bads,
        constraints,
        scratch,
        twin,
        vectors,
        again,
    );
    if !agree(part, plain, state, twin, out, again) {
        return Ok(None);
    }
    let k = part?;
    Ok(Some(k))
}
