// Numbers of the text form: "0", or a digit 1 to 9 and then any digits (the paper, text form; AIGER report, section 5).
ghost use Rattle.std.specs.Prelude.{◌≡◌, ◌+◌, ◌*◌, ◌<◌, ◌≤◌, min, length, get_or};
ghost use Rattle.plan.specs.declared.Class.TheVariants.{Digit};
ghost use Rattle.plan.specs.Literals.{beyond};
ghost use Rattle.plan.specs.Bytes.{class_of, digits};
ghost use Rattle.plan.specs.Outcome.{number_at, Says, put, write_number};

use crate::{classes, room};
use plan::{Class, Refusal};

// Above every literal and every count: a value is cut here, so that no run of digits wraps.
const BEYOND: u32 = 2097152;

// The value with one more digit.
fn with_digit(v: u32, d: u8) -> u32
    ensures { result ≡ min (v * 10 + d) beyond }
{
    let w = v as u64 * 10 + d as u64;
    if w < BEYOND as u64 { w as u32 } else { BEYOND }
}

// The number that starts with a digit 1 to 9 at a position.
fn read_digits(file: &[u8], at: usize) -> Result<(u32, usize), Refusal>
    requires at_in_bounds { at < length file.now }
    requires at_value { class_of (get_or file.now at 0) ≡ Digit }
    ensures { result ≡ number_at file.now at }
{
    let mut v = with_digit(0, file[at] - 48);
    for i in at + 1..file.len() {
        let b = file[i];
        if !classes::is_digit(b) {
            return Ok((v, i));
        }
        v = with_digit(v, b - 48);
    }
    Ok((v, file.len()))
}

// The number at a position, which may lie past the end.
pub fn read_number(file: &[u8], at: usize) -> Result<(u32, usize), Refusal>
    ensures { result ≡ number_at file.now at }
{
    if file.len() <= at {
        return Err(Refusal::WrongByte(at));
    }
    match classes::class_of(file[at]) {
        Class::Zero => Ok((0, at + 1)),
        Class::Digit => read_digits(file, at),
        Class::Line => Err(Refusal::WrongByte(at)),
        Class::Space => Err(Refusal::WrongByte(at)),
        Class::Print => Err(Refusal::WrongByte(at)),
        Class::Rest => Err(Refusal::WrongByte(at)),
    }
}

// How many digits a number has, counted one by one.
fn count_digits(n: usize) -> usize
    ensures { result ≡ length (digits n) }
{
    let mut count = 1;
    let mut rest = n;
    while 10 <= rest {
        rest /= 10;
        count += 1;
    }
    count
}

// How many digits a number has. A literal has at most seven, and tests tell them sooner than divisions do.
pub fn digits_in(n: usize) -> usize
    ensures { result ≡ length (digits n) }
{
    if n < 10 {
        return 1;
    }
    if n < 100 {
        return 2;
    }
    if n < 1000 {
        return 3;
    }
    if n < 10000 {
        return 4;
    }
    if n < 100000 {
        return 5;
    }
    if n < 1000000 {
        return 6;
    }
    if n < 10000000 {
        return 7;
    }
    count_digits(n)
}

// Puts a number's digits from a position on; the position after them. The last digit comes first: it is what a division leaves.
pub fn put_digits(out: &mut [u8], at: usize, n: usize) -> usize
    requires { at + length (digits n) ≤ length out.old }
    ensures value { result ≡ at + length (digits n) }
    ensures out_after { out.new ≡ put out.old at (digits n) }
{
    let end = at + digits_in(n);
    let mut i = end;
    let mut rest = n;
    while 10 <= rest {
        i -= 1;
        out[i] = 48 + (rest % 10) as u8;
        rest /= 10;
    }
    out[at] = 48 + rest as u8;
    end
}

// Writes a number's digits from a position on, or nothing where the buffer is too short.
pub fn write_number(out: &mut [u8], at: usize, n: usize) -> Result<usize, Refusal>
    ensures { Says write_number (record { out = out.entry.now; at = at; value = n }) (record { answer = result; out = out.exit.now }) }
{
    let count = digits_in(n);
    if !room::holds(out.len(), at, count) {
        return Err(Refusal::ShortBuffer(room::needed(at, count)));
    }
    put_digits(out, at, n);
    Ok(count)
}
