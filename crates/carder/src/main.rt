// Writes plan.in, an AIGER file of either form in binary order, as plan cards to standard output, or the line of
// the refusal (the paper, plan cards and programs). 14, 13, the reader's refusals, 4, 15, 19 and 11 are decided by
// whole::filing.
#![tactic(auto)]

use std::io;
use whole::filing;

fn main(rt: HostRuntime) -> io::Result<()> {
    let mut file = [0u8; 65537];
    let plan = office::read_plan(&rt, &mut file);
    let n = office::size(plan);
    let mut inputs = [0u32; 4096];
    let mut latches = [0u32; 4096];
    let mut outputs = [0u32; 4096];
    let mut gates = [0u32; 4096];
    let mut resets = [0u32; 4096];
    let mut bads = [0u32; 4096];
    let mut constraints = [0u32; 4096];
    let mut scratch = [0u32; 16384];
    let mut out = [0u8; 65536];
    let answer = filing::card_whole(
        office::readable(plan),
        &file[0..n],
        &mut inputs,
        &mut latches,
        &mut outputs,
        &mut gates,
        &mut resets,
        &mut bads,
        &mut constraints,
        &mut scratch,
        &mut out,
    );
    office::print_written(&mut rt.stdout(), answer, &out)
}
