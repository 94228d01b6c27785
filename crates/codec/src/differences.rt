// Differences of the binary form: groups of seven bits, low group first, the high bit set on all but the last byte,
// in the fewest bytes (AIGER report, section 12).
ghost use Rattle.std.specs.Prelude.{◌≡◌, ◌+◌, ◌≤◌, length};
ghost use Rattle.plan.specs.Difference.{difference_at, groups_of};
ghost use Rattle.plan.specs.Outcome.{Says, put, write_difference};

use crate::room;
use plan::Refusal;

// The difference at a position, which may lie past the end: at most three bytes, enough for every literal of the build.
pub fn read_difference(file: &[u8], at: usize) -> Result<(u32, usize), Refusal>
    ensures { result ≡ difference_at file.now at }
{
    if file.len() <= at {
        return Err(Refusal::WrongByte(file.len()));
    }
    let a = file[at] as u32;
    let i = at + 1;
    if a < 128 {
        return Ok((a, i));
    }
    if file.len() <= i {
        return Err(Refusal::WrongByte(file.len()));
    }
    let b = file[i] as u32;
    let j = i + 1;
    if b < 128 {
        if b == 0 {
            return Err(Refusal::LongDifference(at));
        }
        return Ok((a & 0x7f | b << 7, j));
    }
    if file.len() <= j {
        return Err(Refusal::WrongByte(file.len()));
    }
    let d = file[j] as u32;
    let k = j + 1;
    if d < 128 {
        if d == 0 {
            return Err(Refusal::LongDifference(at));
        }
        return Ok((a & 0x7f | (b & 0x7f) << 7 | d << 14, k));
    }
    Err(Refusal::LongDifference(at))
}

// How many groups a number has: a seventh of its bits, rounded up, which for 1 to 32 bits is 9 / 64 of them,
// rounded down, and one more. No branch: how many it will be can't be foreseen, and a wrong guess is dear.
pub fn groups_in(d: u32) -> usize
    ensures { result ≡ length (groups_of d) }
{
    let bits = 32 - u32::leading_zeros(d | 1);
    (bits * 9 / 64 + 1) as usize
}

// The paper's encoder: each group but the last with the high bit. The position after them.
pub fn put_groups(out: &mut [u8], at: usize, d: u32) -> usize
    requires { at + length (groups_of d) ≤ length out.old }
    ensures value { result ≡ at + length (groups_of d) }
    ensures out_after { out.new ≡ put out.old at (groups_of d) }
{
    let mut i = at;
    let mut x = d;
    while x >= 128 {
        out[i] = (x & 0x7f | 0x80) as u8;
        x >>= 7;
        i += 1;
    }
    out[i] = x as u8;
    i + 1
}

// Writes a number's groups from a position on, or nothing where the buffer is too short.
pub fn write_difference(out: &mut [u8], at: usize, d: u32) -> Result<usize, Refusal>
    ensures { Says write_difference (record { out = out.entry.now; at = at; value = d })
        (record { answer = result; out = out.exit.now }) }
{
    let count = groups_in(d);
    if !room::holds(out.len(), at, count) {
        return Err(Refusal::ShortBuffer(room::needed(at, count)));
    }
    put_groups(out, at, d);
    Ok(count)
}
