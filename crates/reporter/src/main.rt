// Reports on the circuit of plan.in, converted, over the vectors of standard input, or writes the line of the
// refusal (the paper, the needle report). 14, 13, the reader's refusals and 4 are decided by whole::ordered, 4 at
// table 6 here, those of standard input by runs::stimulus.
#![tactic(auto)]

use plan::{Counts, Refusal};
use runs::{reporting, stimulus};
use std::io::{self, Read, Write};
use whole::ordered;

// The words of table 6.
const SIX: usize = 16384;

// The lines of a report.
fn print_report<W: Write>(
    to: &mut W,
    outputs: usize,
    latches: usize,
    six: &[u32],
    out: &mut [u8],
) -> io::Result<()> {
    let size = reporting::put_report(outputs, latches, six, out);
    office::print(to, out, size)
}

// The vectors of whole lines without their ends, and the report on them.
fn report_lines<W: Write>(
    to: &mut W,
    n: Counts,
    inputs: &[u32],
    latches: &[u32],
    outputs: &[u32],
    gates: &[u32],
    resets: &[u32],
    bads: &[u32],
    constraints: &[u32],
    scratch: &mut [u32],
    bytes: &[u8],
    lines: usize,
    packed: &mut [u8],
    six: &mut [u32],
    out: &mut [u8],
) -> io::Result<()> {
    let size = reporting::pack(bytes, packed);
    let answer = report::report(
        n,
        inputs,
        latches,
        outputs,
        gates,
        resets,
        bads,
        constraints,
        scratch,
        lines,
        &packed[0..size],
        six,
    );
    match answer {
        Err(r) => office::refuse(to, r),
        Ok(()) => print_report(to, n.O, n.L, six, out),
    }
}

// Standard input, and all of its lines checked before the first step.
fn report_input<R: Read, W: Write>(
    from: &mut R,
    to: &mut W,
    n: Counts,
    inputs: &[u32],
    latches: &[u32],
    outputs: &[u32],
    gates: &[u32],
    resets: &[u32],
    bads: &[u32],
    constraints: &[u32],
    scratch: &mut [u32],
    six: &mut [u32],
    out: &mut [u8],
) -> io::Result<()> {
    let mut bytes = [0u8; 65537];
    let mut packed = [0u8; 65537];
    let input = office::read_input(from, &mut bytes);
    let size = office::size(input);
    match stimulus::count_lines(office::readable(input), &bytes[0..size], n.I) {
        Err(r) => office::refuse(to, r),
        Ok(lines) => report_lines(
            to,
            n,
            inputs,
            latches,
            outputs,
            gates,
            resets,
            bads,
            constraints,
            scratch,
            &bytes[0..size],
            lines,
            &mut packed,
            six,
            out,
        ),
    }
}

// 4 at table 6 is judged before standard input is read.
fn report_opened<R: Read, W: Write>(
    from: &mut R,
    to: &mut W,
    n: Counts,
    inputs: &[u32],
    latches: &[u32],
    outputs: &[u32],
    gates: &[u32],
    resets: &[u32],
    bads: &[u32],
    constraints: &[u32],
    scratch: &mut [u32],
    six: &mut [u32],
    out: &mut [u8],
) -> io::Result<()> {
    if report::too_few(SIX, n) {
        return office::refuse(to, Refusal::ShortTable(6));
    }
    report_input(
        from,
        to,
        n,
        inputs,
        latches,
        outputs,
        gates,
        resets,
        bads,
        constraints,
        scratch,
        six,
        out,
    )
}

fn main(rt: HostRuntime) -> io::Result<()> {
    let mut file = [0u8; 65537];
    let plan = office::read_plan(&rt, &mut file);
    let size = office::size(plan);
    let mut inputs = [0u32; 4096];
    let mut latches = [0u32; 4096];
    let mut outputs = [0u32; 4096];
    let mut gates = [0u32; 4096];
    let mut resets = [0u32; 4096];
    let mut bads = [0u32; 4096];
    let mut constraints = [0u32; 4096];
    let mut made_inputs = [0u32; 4096];
    let mut made_latches = [0u32; 4096];
    let mut made_outputs = [0u32; 4096];
    let mut made_gates = [0u32; 4096];
    let mut made_resets = [0u32; 4096];
    let mut made_bads = [0u32; 4096];
    let mut made_constraints = [0u32; 4096];
    let mut scratch = [0u32; 16384];
    let mut six = [0u32; 16384];
    let mut out = [0u8; 270336];
    match ordered::open_whole(
        office::readable(plan),
        &file[0..size],
        &mut inputs,
        &mut latches,
        &mut outputs,
        &mut gates,
        &mut resets,
        &mut bads,
        &mut constraints,
        &mut made_inputs,
        &mut made_latches,
        &mut made_outputs,
        &mut made_gates,
        &mut made_resets,
        &mut made_bads,
        &mut made_constraints,
        &mut scratch,
    ) {
        Err(r) => office::refuse(&mut rt.stdout(), r),
        Ok(n) => report_opened(
            &mut rt.stdin(),
            &mut rt.stdout(),
            n,
            &made_inputs,
            &made_latches,
            &made_outputs,
            &made_gates,
            &made_resets,
            &made_bads,
            &made_constraints,
            &mut scratch,
            &mut six,
            &mut out,
        ),
    }
}
