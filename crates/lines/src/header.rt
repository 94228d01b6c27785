// The header of both forms (AIGER report, section 5), and the desk's question how many words a table needs.
ghost use Rattle.std.specs.Prelude.{◌≡◌, ◌≤◌, MatchOption};
ghost use Rattle.plan.specs.Header.{more_counts, header, words_for, list_of};
ghost use Rattle.plan.specs.Outcome.{headed_by, form_of};
ghost use Rattle.laws.proofs.Reading.Headers.{AllMost};
ghost use Rattle.lines.specs.header.Parts.{magic_end, magic, Above, NoneAbove, counted, sums, words_of};

use crate::{ends, read_numbers};
use codec::classes::stands;
use plan::{Counts, Refusal, Version};
use tables::scratch_to_read;

// No table has this number, or the file no header. A number and no Option: it is what the call for C answers.
const NONE: u64 = 18446744073709551615;

// "g " after the letter of a form.
fn end_of_magic(file: &[u8], binary: bool) -> Result<bool, Refusal>
    ensures { result ≡ magic_end file.now binary }
{
    if !stands(file, 2, b'g') {
        return Err(Refusal::WrongByte(2));
    }
    if !ends(file, 3, false) {
        return Err(Refusal::WrongByte(3));
    }
    Ok(binary)
}

// The first four bytes, "aag " or "aig ": whether the form is binary.
fn read_magic(file: &[u8]) -> Result<bool, Refusal>
    ensures { result ≡ magic file.now }
{
    if !stands(file, 0, b'a') {
        return Err(Refusal::WrongByte(0));
    }
    if stands(file, 1, b'a') {
        return end_of_magic(file, false);
    }
    if stands(file, 1, b'i') {
        return end_of_magic(file, true);
    }
    Err(Refusal::WrongByte(1))
}

// In text variables may be left over, in binary not (AIGER report, section 11).
fn adds_up(binary: bool, sum: usize, m: usize) -> bool
    ensures { result ≡ sums binary sum m }
{
    if binary {
        return sum == m;
    }
    sum <= m
}

// How many counts may follow the five of 2007.
fn more_counts(version: Version) -> usize
    ensures { result ≡ more_counts version }
{
    match version {
        Version::V2007 => 0,
        Version::V19 => 4,
    }
}

// The first of nine counts, from one on, that is above a limit.
fn first_above(words: &[u32; 9], from: usize, limit: u32) -> Option<usize>
    requires { from ≤ 9 }
    ensures { MatchOption result (NoneAbove words.now from limit) (λ i. Above words.now from limit i) }
{
    for i in from..9 {
        if words[i] > limit {
            return Some(i);
        }
    }
    None
}

// The counts by the reader of a line of numbers, those left off being 0: by 1, then 2, then 21 for J and F, then 3.
fn read_counts(
    version: Version,
    file: &[u8],
    binary: bool,
) -> Result<(bool, Counts, usize), Refusal>
    ensures { result ≡ headed_by (counted version file.now (form_of binary)) }
{
    let mut words: [u32; 9] = [0; 9];
    let mut places: [usize; 9] = [0; 9];
    let more = more_counts(version);
    let next = read_numbers(file, 4, 5, 5 + more, &mut words, &mut places, 0)?;
    if let Some(large) = first_above(&words, 0, 1048575) {
        return Err(Refusal::LargeCount(places[large]));
    }
    if let Some(justice) = first_above(&words, 7, 0) {
        return Err(Refusal::Justice(places[justice]));
    }
    let m = words[0] as usize;
    let i = words[1] as usize;
    let l = words[2] as usize;
    let a = words[4] as usize;
    if !adds_up(binary, i + l + a, m) {
        return Err(Refusal::WrongSum(0));
    }
    let n = Counts {
        M: m,
        I: i,
        L: l,
        O: words[3] as usize,
        A: a,
        B: words[5] as usize,
        C: words[6] as usize,
    };
    Ok((binary, n, next))
}

// The whole line by 1, then 2, then 21, then 3.
pub fn read_header(version: Version, file: &[u8]) -> Result<(bool, Counts, usize), Refusal>
    ensures { result ≡ headed_by (header version file.now 0) }
{
    let binary = read_magic(file)?;
    read_counts(version, file, binary)
}

// How many words a table needs to read a file of a form, each count being at most the limit: 2 words to a latch, 3 to a gate.
fn words_of(binary: bool, n: Counts, table: u64) -> u64
    requires { AllMost (list_of n) }
    ensures { result ≡ words_of (form_of binary) n table }
{
    match table {
        1 => n.I as u64,
        2 => 2 * (n.L as u64),
        3 => n.O as u64,
        4 => 3 * (n.A as u64),
        5 => scratch_to_read(binary, n) as u64,
        7 => n.L as u64,
        8 => n.B as u64,
        9 => n.C as u64,
        _ => NONE,
    }
}

// How many words a table needs to read a file with this header, 2 ^ 64 - 1 if there is no such table or the header is refused.
pub fn words(file: &[u8], table: u64) -> u64
    ensures { result ≡ words_for file.now table }
{
    match read_header(Version::V19, file) {
        Err(_) => NONE,
        Ok((binary, n, _)) => words_of(binary, n, table),
    }
}
