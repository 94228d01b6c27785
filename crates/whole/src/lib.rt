// A whole file comes in: from the bytes of an input to tables that hold its circuit (the paper, programs).
#![tactic(auto)]

ghost use Rattle.whole.specs.Lent.{OpensFile};

use plan::{Counts, Refusal, Version};
use read::load;
use tables::{Sizes, scratch_to_work, too_short};

pub mod filing;
pub mod ordered;

// The longest input.
const LONGEST: usize = 65536;

// Reads a file by 14, 13, what a reader checks and 4 for the calls that follow: for the tables to make a circuit
// in, and for scratch, of which a binary file may need less to be read.
pub fn open_file(
    readable: bool,
    file: &[u8],
    inputs: &mut [u32],
    latches: &mut [u32],
    outputs: &mut [u32],
    gates: &mut [u32],
    resets: &mut [u32],
    bads: &mut [u32],
    constraints: &mut [u32],
    scratch: &mut [u32],
    made: Sizes,
) -> Result<(Counts, usize), Refusal>
    ensures { OpensFile readable file inputs latches outputs gates resets bads constraints scratch made result }
{
    if !readable {
        return Err(Refusal::Unreadable(0));
    }
    if LONGEST < file.len() {
        return Err(Refusal::LongInput(LONGEST));
    }
    let (n, start) = load(
        Version::V19,
        file,
        inputs,
        latches,
        outputs,
        gates,
        resets,
        bads,
        constraints,
        scratch,
    )?;
    let needed = scratch_to_work(n);
    if let Some(short) = too_short(n, made, needed, scratch.len()) {
        return Err(Refusal::ShortTable(short));
    }
    Ok((n, start))
}
