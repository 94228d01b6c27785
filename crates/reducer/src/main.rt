// Writes plan.in reduced and in binary form to standard output, or the line of the refusal
// (the paper, programs). 14, 13, the reader's refusals, 4 and 11 are decided by making::reduce_whole.
#![tactic(auto)]

use making::reduce_whole;
use std::io;

fn main(rt: HostRuntime) -> io::Result<()> {
    let mut file = [0u8; 65537];
    let plan = office::read_plan(&rt, &mut file);
    let n = office::size(plan);
    let mut inputs = [0u32; 4096];
    let mut latches = [0u32; 4096];
    let mut outputs = [0u32; 4096];
    let mut gates = [0u32; 4096];
    let mut resets = [0u32; 4096];
    let mut bads = [0u32; 4096];
    let mut constraints = [0u32; 4096];
    let mut made_inputs = [0u32; 4096];
    let mut made_latches = [0u32; 4096];
    let mut made_outputs = [0u32; 4096];
    let mut made_gates = [0u32; 4096];
    let mut made_resets = [0u32; 4096];
    let mut made_bads = [0u32; 4096];
    let mut made_constraints = [0u32; 4096];
    let mut scratch = [0u32; 16384];
    let mut out = [0u8; 65536];
    let answer = reduce_whole(
        office::readable(plan),
        &file[0..n],
        &mut inputs,
        &mut latches,
        &mut outputs,
        &mut gates,
        &mut resets,
        &mut bads,
        &mut constraints,
        &mut made_inputs,
        &mut made_latches,
        &mut made_outputs,
        &mut made_gates,
        &mut made_resets,
        &mut made_bads,
        &mut made_constraints,
        &mut scratch,
        &mut out,
    );
    office::print_written(&mut rt.stdout(), answer, &out)
}
