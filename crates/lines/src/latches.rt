// Lines of latches: the one reader of them in both forms. In text a line has the latch's own literal and its next
// state, in binary its next state alone; in 1.9 it may end with a reset.
ghost use Rattle.std.specs.Prelude.{◌≡◌, List, [], ◌∷◌, map, ℕ, ◌+◌, ◌*◌, ◌≤◌, ◌<◌, length};
ghost use Rattle.plan.specs.Literals.{most, lit_of};
ghost use Rattle.plan.specs.Refusals.{got};
ghost use Rattle.plan.specs.Circuit.{latch_line};
ghost use Rattle.plan.specs.Header.{more_resets};
ghost use Rattle.plan.specs.Bytes.{Placed, numbers, values, latch_lines, reset_after, latch_form};
ghost use Rattle.plan.specs.Outcome.{passed_by, put};
ghost use Rattle.laws.proofs.Marks.{Agrees};
ghost use Rattle.laws.proofs.Reading.Cut.{cut};
ghost use Rattle.lines.specs.Rows.{places_of, MarksFor};
ghost use Rattle.lines.specs.latches.Latches.{literals, frame_of, judged, latch_row, latch_in, Own, OwnAll};
ghost use Rattle.lines.specs.latches.Latches.{LatchesSay};

use crate::{defined_before, read_numbers};
use plan::{Lit, Refusal, Var, Version, is_reset};

// How many resets may stand in a latch's line.
pub fn more_resets(version: Version) -> usize
    ensures { result ≡ more_resets version }
{
    match version {
        Version::V2007 => 0,
        Version::V19 => 1,
    }
}

// The numbers of a latch's line as its own literal, its next state and its reset, which is 0 if it is left off: by
// 1. In binary the own literal stands in no file.
fn read_frame(
    file: &[u8],
    at: usize,
    defines: bool,
    more: usize,
    v: u32,
    words: &mut [u32],
    places: &mut [usize],
) -> Result<usize, Refusal>
    requires more_bound { more ≤ 1 }
    requires v_bound { v < 1048576 }
    requires words_value { words.old ≡ 0 ∷ 0 ∷ 0 ∷ [] }
    requires places_value { places.old ≡ 0 ∷ 0 ∷ 0 ∷ [] }
    ensures value { result ≡ passed_by (numbers file.now (literals defines) (literals defines + more) at) }
    ensures words_after { (xs : List Placed) (next : ℕ)
        → numbers file.now (literals defines) (literals defines + more) at ≡ got xs next
        → (words.new ≡ frame_of defines (lit_of v) (map cut (values xs)))
        × (places.new ≡ frame_of defines 0 (places_of xs)) }
{
    if defines {
        return read_numbers(file, at, 2, 2 + more, words, places, 0);
    }
    words[0] = Var::at(v).lit().word();
    read_numbers(file, at, 1, 1 + more, words, places, 1)
}

// The place of the first of a latch's three numbers that is out of its range.
fn judge(
    m: u32,
    own: u32,
    next: u32,
    reset: u32,
    first: usize,
    second: usize,
    third: usize,
) -> Option<usize>
    ensures { result ≡ judged m own next reset first second third }
{
    if !Lit::at(own).within(true, m) {
        return Some(first);
    }
    if !Lit::at(next).within(false, m) {
        return Some(second);
    }
    if !is_reset(own, reset) {
        return Some(third);
    }
    None
}

// One line of a latch, by 1 over the whole line, then 5 from left to right: two words of the table and one of the
// resets.
fn read_latch(
    file: &[u8],
    at: usize,
    defines: bool,
    m: u32,
    more: usize,
    v: u32,
    table: &mut [u32],
    resets: &mut [u32],
    i: usize,
) -> Result<usize, Refusal>
    requires m_le_most { m ≤ most }
    requires more_bound { more ≤ 1 }
    requires own { Own defines m v }
    requires v_bound { v < 1048576 }
    requires i_in_bounds { 2 * i + 2 ≤ length table.old }
    requires i_in_bounds_2 { i < length resets.old }
    ensures value { result ≡ passed_by (latch_row file.now defines m more v at) }
    ensures by_index { (row : List ℕ) (next : ℕ) → latch_row file.now defines m more v at ≡ got row next
        → (table.new ≡ put table.old (2 * i) (latch_line (latch_in defines v row)))
        × (resets.new ≡ put resets.old i (reset_after (literals defines) row ∷ [])) }
{
    let mut words: [u32; 3] = [0; 3];
    let mut places: [usize; 3] = [0; 3];
    let next = read_frame(file, at, defines, more, v, &mut words, &mut places)?;
    if let Some(place) = judge(
        m, words[0], words[1], words[2], places[0], places[1], places[2],
    ) {
        return Err(Refusal::OutOfRange(place));
    }
    table[2 * i] = words[0];
    table[2 * i + 1] = words[1];
    resets[i] = words[2];
    Ok(next)
}

// n lines of latches into both tables from their starts, each by 1, then 5, then 6. Where lines define none the
// latches are of the variables from `first` on, and marks of any length and content will do.
pub fn read_latches(
    file: &[u8],
    at: usize,
    defines: bool,
    m: u32,
    more: usize,
    first: u32,
    n: usize,
    table: &mut [u32],
    resets: &mut [u32],
    marks: &mut [u32],
) -> Result<usize, Refusal>
    requires m_le_most { m ≤ most }
    requires more_bound { more ≤ 1 }
    requires own_all { OwnAll defines m first n }
    requires n_bound { first + n ≤ 1048576 }
    requires n_in_bounds { 2 * n ≤ length table.old }
    requires n_in_bounds_2 { n ≤ length resets.old }
    requires marks_for { MarksFor defines m marks.old }
    ensures { (seen : List ℕ) → Agrees m seen marks.old
        → LatchesSay defines m first seen table.old resets.old
        (latch_lines file.now (latch_form (literals defines) defines more) m n first seen at)
        result table.new resets.new marks.new }
{
    let mut pos = at;
    for i in 0..n {
        let v = first + i as u32;
        let next = read_latch(file, pos, defines, m, more, v, table, resets, i)?;
        if defined_before(defines, Lit::at(table[2 * i]), marks) {
            return Err(Refusal::DefinedTwice(pos));
        }
        pos = next;
    }
    Ok(pos)
}
