// The one check of a symbol and comment part, of a whole file and of a tail alone (the paper, symbols and comments; AIGER report,
// sections 8 and 9).
ghost use Rattle.std.specs.Prelude.{◌≡◌, ◌+◌, ◌≤◌, ◌<◌, length, drop};
ghost use Rattle.plan.specs.Bytes.{name_class, span};
ghost use Rattle.plan.specs.Literals.{most};
ghost use Rattle.plan.specs.Tail.{is_kind, count_of, comment as commentAt, starts_symbol, tail_at};
ghost use Rattle.plan.specs.Given.{refusal_of};
ghost use Rattle.plan.specs.Outcome.{cut_number, passed_by, checked_by};
ghost use Rattle.lines.specs.tail.Marks.{later, symbol_line, entry_of, first_word, marked_symbol, marks_after, Holds, Blank};

use crate::ends;
use codec::classes::{class_of, stands};
use codec::numbers::read_number;
use plan::{Class, Counts, Refusal, Version};

// Whether bytes of a class stand in a name.
fn in_name(c: Class) -> bool
    ensures { result ≡ name_class c }
{
    match c {
        Class::Space => true,
        Class::Zero => true,
        Class::Digit => true,
        Class::Print => true,
        Class::Line => false,
        Class::Rest => false,
    }
}

// The position after the name that starts here.
fn name_end(file: &[u8], at: usize) -> usize
    ensures { result ≡ at + length (span name_class (drop at file.now)) }
{
    for i in at..file.len() {
        if !in_name(class_of(file[i])) {
            return i;
        }
    }
    at.max(file.len())
}

// A symbol line by 1 to its end: its number, and the position after the line.
fn read_line(file: &[u8], at: usize) -> Result<(u32, usize), Refusal>
    requires { at < length file.now }
    ensures { result ≡ cut_number (entry_of (symbol_line file.now at)) }
{
    let (entry, space) = read_number(file, at + 1)?;
    if !ends(file, space, false) {
        return Err(Refusal::WrongByte(space));
    }
    let end = name_end(file, space + 1);
    if !ends(file, end, true) {
        return Err(Refusal::WrongByte(end));
    }
    Ok((entry, end + 1))
}

// Whether a version has what came after 2007.
fn is_later(version: Version) -> bool
    ensures { result ≡ later version }
{
    match version {
        Version::V2007 => false,
        Version::V19 => true,
    }
}

// Whether a letter is one of a version's lists.
fn is_kind(version: Version, b: u8) -> bool
    ensures { result ≡ is_kind version b }
{
    match b {
        105 => true,
        108 => true,
        111 => true,
        98 => is_later(version),
        99 => is_later(version),
        _ => false,
    }
}

// Whether a symbol line starts here: "c" with a new line opens the comment.
fn starts_symbol(version: Version, file: &[u8], at: usize) -> bool
    requires { at < length file.now }
    ensures { result ≡ starts_symbol version file.now at }
{
    let b = file[at];
    if !is_kind(version, b) {
        return false;
    }
    if b != 99 {
        return true;
    }
    !ends(file, at + 1, true)
}

// The count of a letter's list.
fn count_of(n: Counts, b: u8) -> usize
    ensures { result ≡ count_of n b }
{
    match b {
        105 => n.I,
        108 => n.L,
        111 => n.O,
        98 => n.B,
        _ => n.C,
    }
}

// The first word of a letter's list: inputs, then latches, outputs, bad states and constraints.
fn first_word(n: Counts, b: u8) -> usize
    requires { (n.I ≤ most) × (n.L ≤ most) × (n.O ≤ most) × (n.B ≤ most) }
    ensures { result ≡ first_word n b }
{
    match b {
        105 => 0,
        108 => n.I,
        111 => n.I + n.L,
        98 => n.I + n.L + n.O,
        _ => n.I + n.L + n.O + n.B,
    }
}

// One symbol line by 1, then 10. An entry's word is 0 until its symbol comes, so that no list of symbols is searched.
fn read_symbol(file: &[u8], at: usize, n: Counts, marks: &mut [u32]) -> Result<usize, Refusal>
    requires at_in_bounds { at < length file.now }
    requires holds { Holds n marks.old }
    ensures value { result ≡ passed_by (marked_symbol file.now n marks.old at) }
    ensures marks_after { marks.new ≡ marks_after n marks.old (marked_symbol file.now n marks.old at) }
{
    let kind = file[at];
    let (entry, next) = read_line(file, at)?;
    let e = entry as usize;
    if count_of(n, kind) <= e {
        return Err(Refusal::BadSymbol(at));
    }
    let w = first_word(n, kind) + e;
    if marks[w] != 0 {
        return Err(Refusal::BadSymbol(at));
    }
    marks[w] = 1;
    Ok(next)
}

// "c" and a new line, then any bytes, of which the last is a new line.
fn comment(file: &[u8], at: usize) -> Result<(), Refusal>
    requires { at < length file.now }
    ensures { result ≡ checked_by (refusal_of (commentAt file.now at)) }
{
    if !stands(file, at, 99) {
        return Err(Refusal::WrongByte(at));
    }
    if !ends(file, at + 1, true) {
        return Err(Refusal::WrongByte(at + 1));
    }
    if !ends(file, file.len() - 1, true) {
        return Err(Refusal::WrongByte(file.len()));
    }
    Ok(())
}

// The tail that starts at a position: symbol lines in order, then the end of the file or a comment. `marks` has a word for each entry of the
// five lists, all 0; what it holds after is left open.
pub fn check(
    version: Version,
    file: &[u8],
    at: usize,
    n: Counts,
    marks: &mut [u32],
) -> Result<(), Refusal>
    requires holds { Holds n marks.old }
    requires blank { Blank n marks.old }
    ensures { result ≡ checked_by (refusal_of (tail_at version file.now n at)) }
{
    let mut pos = at;
    while pos < file.len() {
        if !starts_symbol(version, file, pos) {
            return comment(file, pos);
        }
        pos = read_symbol(file, pos, n, marks)?;
    }
    Ok(())
}
