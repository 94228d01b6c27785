// Lines of literals: the one reader of inputs and gates of the text form, and of outputs, bad states and constraints of both forms. Lines of
// numbers of which some may be left off: the one reader of the header's counts and of a latch with its reset.
#![tactic(auto)]

ghost use Rattle.std.specs.Prelude.{◌≡◌, cond, List, ℕ, ◌+◌, ◌*◌, ◌≤◌, ◌<◌, eqb, length, get_or, Some, None};
ghost use Rattle.plan.specs.Literals.{most, var_of, word_of};
ghost use Rattle.plan.specs.Refusals.{got};
ghost use Rattle.plan.specs.Bytes.{Placed, numbers, lines};
ghost use Rattle.plan.specs.Given.{or_else};
ghost use Rattle.plan.specs.Outcome.{passed_by, put};
ghost use Rattle.laws.proofs.Marks.{Agrees};
ghost use Rattle.lines.specs.Rows.{end_for, going, row, MarksFor, marked, marking, LinesSay, Numbered};

use codec::classes::class_of;
use codec::numbers::read_number;
use plan::{Class, Lit, Refusal};
use tables::bitmap;

pub mod binary;
pub mod gates;
pub mod header;
mod latches;
mod outputs;
pub mod tail;
pub mod text;

// What stands after a number of a line: its end, the space before the next number, or neither where it can stand.
#[derive(Clone, Copy)]
enum Going {
    Stop,
    On,
    Wrong,
}

// Whether a part of a line ends here: with a new line after the last, with a space before the next.
fn ends(file: &[u8], at: usize, last: bool) -> bool
    ensures { result ≡ eqb (get_or file.now at 0) (end_for last) }
{
    if file.len() <= at {
        return false;
    }
    match class_of(file[at]) {
        Class::Line => last,
        Class::Space => !last,
        Class::Zero => false,
        Class::Digit => false,
        Class::Print => false,
        Class::Rest => false,
    }
}

// What was found first.
fn noted(bad: Option<usize>, fine: bool, at: usize) -> Option<usize>
    ensures { result ≡ or_else bad (cond fine None (Some at)) }
{
    match bad {
        Some(place) => Some(place),
        None => {
            if fine {
                return None;
            }
            Some(at)
        }
    }
}

// One line of k literals, of which the first defines or not, into the table from `base` on: by 1 over the whole line, then 5.
pub fn read_row(
    file: &[u8],
    at: usize,
    k: usize,
    defines: bool,
    m: u32,
    table: &mut [u32],
    base: usize,
) -> Result<usize, Refusal>
    requires m_le_most { m ≤ most }
    requires k_in_bounds { base + k ≤ length table.old }
    ensures value { result ≡ passed_by (row file.now k defines m at) }
    ensures by_index { (ls : List ℕ) (next : ℕ) → row file.now k defines m at ≡ got ls next
        → table.new ≡ put table.old base ls }
{
    let mut pos = at;
    let mut d = defines;
    let mut bad = None;
    for j in 0..k {
        let (v, next) = read_number(file, pos)?;
        if !ends(file, next, j + 1 == k) {
            return Err(Refusal::WrongByte(next));
        }
        table[base + j] = v;
        bad = noted(bad, Lit::at(v).within(d, m), pos);
        pos = next + 1;
        d = false;
    }
    match bad {
        None => Ok(pos),
        Some(place) => Err(Refusal::OutOfRange(place)),
    }
}

// Marks the variable of a literal that defines; whether it was marked already. One that does not needs no mark.
pub fn defined_before(defines: bool, l: Lit, marks: &mut [u32]) -> bool
    requires { MarksFor defines (var_of (word_of l)) marks.old }
    ensures value { result ≡ marked defines (var_of (word_of l)) marks.old }
    ensures marks_after { marks.new ≡ marking defines result (var_of (word_of l)) marks.old }
{
    if !defines {
        return false;
    }
    let v = l.var().index() as usize;
    if bitmap::is_on(marks, 0, v) {
        return true;
    }
    bitmap::raise(marks, 0, v);
    false
}

// n lines of k literals, of which the first defines or not, into the table from its start: each line by 1, then 5, then 6.
#[tactic(auto, using(crate::proofs::LinesLoop::row_fits))]
pub fn read_lines(
    file: &[u8],
    at: usize,
    k: usize,
    defines: bool,
    m: u32,
    n: usize,
    table: &mut [u32],
    marks: &mut [u32],
) -> Result<usize, Refusal>
    requires m_le_most { m ≤ most }
    requires k_nonzero { 0 < k }
    requires k_in_bounds { n * k ≤ length table.old }
    requires marks_for { MarksFor defines m marks.old }
    ensures { (seen : List ℕ) → Agrees m seen marks.old
        → LinesSay defines m seen table.old (lines file.now k defines m n seen at)
        result table.new marks.new }
{
    let mut pos = at;
    for i in 0..n {
        let base = i * k;
        let next = read_row(file, pos, k, defines, m, table, base)?;
        if defined_before(defines, Lit::at(table[base]), marks) {
            return Err(Refusal::DefinedTwice(pos));
        }
        pos = next;
    }
    Ok(pos)
}

// What stands after a number, where more of them must follow or may.
fn goes_on(file: &[u8], at: usize, must: bool, may: bool) -> Going
    ensures { result ≡ going must may (get_or file.now at 0) }
{
    if file.len() <= at {
        return Going::Wrong;
    }
    match class_of(file[at]) {
        Class::Line => {
            if must {
                return Going::Wrong;
            }
            Going::Stop
        }
        Class::Space => {
            if may {
                return Going::On;
            }
            Going::Wrong
        }
        Class::Zero => Going::Wrong,
        Class::Digit => Going::Wrong,
        Class::Print => Going::Wrong,
        Class::Rest => Going::Wrong,
    }
}

// A line of numbers, of which some must stand there and no more than some may: their words and their places from `base` on, by 1.
pub fn read_numbers(
    file: &[u8],
    at: usize,
    must: usize,
    may: usize,
    words: &mut [u32],
    places: &mut [usize],
    base: usize,
) -> Result<usize, Refusal>
    requires must_le_may { must ≤ may }
    requires may_in_bounds { base + may ≤ length words.old }
    requires may_in_bounds_2 { base + may ≤ length places.old }
    ensures value { result ≡ passed_by (numbers file.now must may at) }
    ensures numbered { (xs : List Placed) (next : ℕ) → numbers file.now must may at ≡ got xs next
        → Numbered xs base words.old places.old words.new places.new }
{
    let mut pos = at;
    for j in 0..may {
        let (v, next) = read_number(file, pos)?;
        words[base + j] = v;
        places[base + j] = pos;
        match goes_on(file, next, j + 1 < must, j + 1 < may) {
            Going::Wrong => {
                return Err(Refusal::WrongByte(next));
            }
            Going::Stop => {
                return Ok(next + 1);
            }
            Going::On => {
                pos = next + 1;
            }
        }
    }
    Ok(pos)
}
