// Whole files: from the bytes of plan cards to those of binary AIGER, and from AIGER to cards (the paper, plan
// cards and programs).
ghost use Rattle.whole.specs.Lent.{Moves, TellsMove};
ghost use Rattle.plan.specs.Cards.{file_whole, card_whole, filed_cards, carded_file};

use crate::open_file;
use cards::reading::read_cards;
use cards::writing::write_cards;
use plan::Refusal;
use tables::{clear, clear_all, lengths};
use write::write_binary;

// The longest input.
const LONGEST: usize = 65536;

// The binary file of cards, by 14, 13, what a reader of cards checks, and 11. The tables hold what was left in them.
fn file_cards(
    readable: bool,
    file: &[u8],
    inputs: &mut [u32],
    latches: &mut [u32],
    outputs: &mut [u32],
    gates: &mut [u32],
    resets: &mut [u32],
    bads: &mut [u32],
    constraints: &mut [u32],
    scratch: &mut [u32],
    out: &mut [u8],
) -> Result<usize, Refusal>
    ensures { TellsMove filed_cards readable file inputs latches outputs gates resets bads constraints scratch
        out result }
{
    if !readable {
        return Err(Refusal::Unreadable(0));
    }
    if LONGEST < file.len() {
        return Err(Refusal::LongInput(LONGEST));
    }
    let (n, end) = read_cards(
        file,
        inputs,
        latches,
        outputs,
        gates,
        resets,
        bads,
        constraints,
        scratch,
    )?;
    write_binary(
        n,
        inputs,
        latches,
        outputs,
        gates,
        resets,
        bads,
        constraints,
        scratch,
        &file[end..],
        out,
    )
}

// The cards of an AIGER file in either form, by 14, 13, what a reader checks, 4, 15, 19 and 11. The tables hold
// what was left in them.
fn card_file(
    readable: bool,
    file: &[u8],
    inputs: &mut [u32],
    latches: &mut [u32],
    outputs: &mut [u32],
    gates: &mut [u32],
    resets: &mut [u32],
    bads: &mut [u32],
    constraints: &mut [u32],
    scratch: &mut [u32],
    out: &mut [u8],
) -> Result<usize, Refusal>
    ensures { TellsMove carded_file readable file inputs latches outputs gates resets bads constraints scratch
        out result }
{
    let own = lengths(inputs, latches, outputs, gates, resets, bads, constraints);
    let (n, start) = open_file(
        readable,
        file,
        inputs,
        latches,
        outputs,
        gates,
        resets,
        bads,
        constraints,
        scratch,
        own,
    )?;
    write_cards(
        n,
        inputs,
        latches,
        outputs,
        gates,
        resets,
        bads,
        constraints,
        scratch,
        &file[start..],
        out,
    )
}

// The binary file of a whole file of cards: the number of bytes, or a refusal, which changes no byte of `out`. All
// tables are zero afterwards.
pub fn file_whole(
    readable: bool,
    file: &[u8],
    inputs: &mut [u32],
    latches: &mut [u32],
    outputs: &mut [u32],
    gates: &mut [u32],
    resets: &mut [u32],
    bads: &mut [u32],
    constraints: &mut [u32],
    scratch: &mut [u32],
    out: &mut [u8],
) -> Result<usize, Refusal>
    ensures { Moves file_whole readable file inputs latches outputs gates resets bads constraints scratch out result }
{
    let answer = file_cards(
        readable,
        file,
        inputs,
        latches,
        outputs,
        gates,
        resets,
        bads,
        constraints,
        scratch,
        out,
    );
    clear_all(inputs, latches, outputs, gates, resets, bads, constraints);
    clear(scratch);
    answer
}

// The cards of a whole AIGER file: the number of bytes, or a refusal, which changes no byte of `out`. All tables
// are zero afterwards.
pub fn card_whole(
    readable: bool,
    file: &[u8],
    inputs: &mut [u32],
    latches: &mut [u32],
    outputs: &mut [u32],
    gates: &mut [u32],
    resets: &mut [u32],
    bads: &mut [u32],
    constraints: &mut [u32],
    scratch: &mut [u32],
    out: &mut [u8],
) -> Result<usize, Refusal>
    ensures { Moves card_whole readable file inputs latches outputs gates resets bads constraints scratch out result }
{
    let answer = card_file(
        readable,
        file,
        inputs,
        latches,
        outputs,
        gates,
        resets,
        bads,
        constraints,
        scratch,
        out,
    );
    clear_all(inputs, latches, outputs, gates, resets, bads, constraints);
    clear(scratch);
    answer
}
