// Traces the circuit of plan.in, converted, from its first state on the vectors of standard input, or writes the
// line of the refusal (the paper, programs). 14, 13, the reader's refusals and 4 are decided by whole::ordered,
// those of standard input by runs::trace.
#![tactic(auto)]

use plan::{Counts, Refusal};
use runs::{stimulus, trace};
use std::io::{self, Read, Write};
use step::values;
use whole::ordered;

// The steps of all lines, printed in parts of as many lines as fit into `out`. A part has a line at least, so there
// are no more parts than lines.
fn trace_all<W: Write>(
    to: &mut W,
    n: Counts,
    inputs: &[u32],
    latches: &[u32],
    outputs: &[u32],
    gates: &[u32],
    resets: &[u32],
    bads: &[u32],
    constraints: &[u32],
    scratch: &mut [u32],
    state: &mut [u8],
    vectors: &[u8],
    lines: usize,
    out: &mut [u8],
) -> io::Result<()> {
    let mut at = 0;
    for _ in 0..lines {
        let part = trace::trace(
            n,
            inputs,
            latches,
            outputs,
            gates,
            resets,
            bads,
            constraints,
            scratch,
            state,
            &vectors[at..],
            out,
        );
        let Ok(k) = part else {
            return Ok(());
        };
        office::print(to, out, trace::past(out, 0, k))?;
        at = trace::past(vectors, at, k);
        if at == vectors.len() {
            return Ok(());
        }
    }
    Ok(())
}

// The same from the resets.
fn trace_first<W: Write>(
    to: &mut W,
    n: Counts,
    inputs: &[u32],
    latches: &[u32],
    outputs: &[u32],
    gates: &[u32],
    resets: &[u32],
    bads: &[u32],
    constraints: &[u32],
    scratch: &mut [u32],
    state: &mut [u8],
    vectors: &[u8],
    lines: usize,
    out: &mut [u8],
) -> io::Result<()> {
    values::first_state(resets, state);
    trace_all(
        to,
        n,
        inputs,
        latches,
        outputs,
        gates,
        resets,
        bads,
        constraints,
        scratch,
        state,
        vectors,
        lines,
        out,
    )
}

// Standard input, and all of its lines checked before the first is printed. The first state is that of the resets.
fn trace_input<R: Read, W: Write>(
    from: &mut R,
    to: &mut W,
    n: Counts,
    inputs: &[u32],
    latches: &[u32],
    outputs: &[u32],
    gates: &[u32],
    resets: &[u32],
    bads: &[u32],
    constraints: &[u32],
    scratch: &mut [u32],
    out: &mut [u8],
) -> io::Result<()> {
    let mut bytes = [0u8; 65537];
    let input = office::read_input(from, &mut bytes);
    let size = office::size(input);
    let mut state = [b'0'; 4096];
    let wide = tables::lesser(n.L, 4096);
    match stimulus::count_lines(office::readable(input), &bytes[0..size], n.I) {
        Err(r) => office::refuse(to, r),
        Ok(lines) => trace_first(
            to,
            n,
            inputs,
            latches,
            outputs,
            gates,
            resets,
            bads,
            constraints,
            scratch,
            &mut state[0..wide],
            &bytes[0..size],
            lines,
            out,
        ),
    }
}

fn main(rt: HostRuntime) -> io::Result<()> {
    let mut file = [0u8; 65537];
    let plan = office::read_plan(&rt, &mut file);
    let size = office::size(plan);
    let mut inputs = [0u32; 4096];
    let mut latches = [0u32; 4096];
    let mut outputs = [0u32; 4096];
    let mut gates = [0u32; 4096];
    let mut resets = [0u32; 4096];
    let mut bads = [0u32; 4096];
    let mut constraints = [0u32; 4096];
    let mut made_inputs = [0u32; 4096];
    let mut made_latches = [0u32; 4096];
    let mut made_outputs = [0u32; 4096];
    let mut made_gates = [0u32; 4096];
    let mut made_resets = [0u32; 4096];
    let mut made_bads = [0u32; 4096];
    let mut made_constraints = [0u32; 4096];
    let mut scratch = [0u32; 16384];
    let mut out = [0u8; 65536];
    match ordered::open_whole(
        office::readable(plan),
        &file[0..size],
        &mut inputs,
        &mut latches,
        &mut outputs,
        &mut gates,
        &mut resets,
        &mut bads,
        &mut constraints,
        &mut made_inputs,
        &mut made_latches,
        &mut made_outputs,
        &mut made_gates,
        &mut made_resets,
        &mut made_bads,
        &mut made_constraints,
        &mut scratch,
    ) {
        Err(r) => office::refuse(&mut rt.stdout(), r),
        Ok(n) => trace_input(
            &mut rt.stdin(),
            &mut rt.stdout(),
            n,
            &made_inputs,
            &made_latches,
            &made_outputs,
            &made_gates,
            &made_resets,
            &made_bads,
            &made_constraints,
            &mut scratch,
            &mut out,
        ),
    }
}
