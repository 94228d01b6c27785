// The two bytes of a mark and the four of a number on the old plan cards, low byte first: each read and written
// here alone; and where the records start and end (the paper, plan cards).
#![tactic(auto)]

ghost use Rattle.std.specs.Prelude.{◌≡◌, ◌+◌, ◌≤◌, length, drop};
ghost use Rattle.plan.specs.Outcome.{put};
ghost use Rattle.plan.specs.Cards.{word_at, word_bytes, marked, mark_bytes, outputs_at, gates_at, card_bytes};
ghost use Rattle.cards.specs.Within.{Within};

use plan::Counts;

mod fill;
mod head;
mod put;
pub mod reading;
pub mod writing;

// The number at a position.
pub fn word_at(file: &[u8], at: usize) -> u32
    requires { at + 4 ≤ length file.now }
    ensures { result ≡ word_at file.now at }
{
    let a = file[at] as u32;
    let b = file[at + 1] as u32;
    let c = file[at + 2] as u32;
    let d = file[at + 3] as u32;
    a | b << 8 | c << 16 | d << 24
}

// The four bytes of a number from a position on; the position after them.
pub fn put_word(out: &mut [u8], at: usize, word: u32) -> usize
    requires { at + 4 ≤ length out.old }
    ensures value { result ≡ at + 4 }
    ensures out_after { out.new ≡ put out.old at (word_bytes word) }
{
    out[at] = (word & 0xff) as u8;
    out[at + 1] = (word >> 8 & 0xff) as u8;
    out[at + 2] = (word >> 16 & 0xff) as u8;
    out[at + 3] = (word >> 24 & 0xff) as u8;
    at + 4
}

// Whether the mark of a record's letter stands at a position.
pub fn mark_at(file: &[u8], at: usize, letter: u8) -> bool
    requires { at + 2 ≤ length file.now }
    ensures { result ≡ marked letter (drop at file.now) }
{
    if file[at] != b'P' {
        return false;
    }
    file[at + 1] == letter
}

// The mark of a record's letter from a position on; the position after it.
pub fn put_mark(out: &mut [u8], at: usize, letter: u8) -> usize
    requires { at + 2 ≤ length out.old }
    ensures value { result ≡ at + 2 }
    ensures out_after { out.new ≡ put out.old at (mark_bytes letter) }
{
    out[at] = b'P';
    out[at + 1] = letter;
    at + 2
}

// Where the outputs start, by counts of 32 bits.
pub fn outputs_at(n: Counts) -> usize
    requires { Within n }
    ensures { result ≡ outputs_at n }
{
    22 + 6 * n.L
}

// Where the gates start.
pub fn gates_at(n: Counts) -> usize
    requires { Within n }
    ensures { result ≡ gates_at n }
{
    outputs_at(n) + 6 * n.O
}

// The bytes that counts ask, as a true sum.
pub fn bytes_asked(n: Counts) -> usize
    requires { Within n }
    ensures { result ≡ card_bytes n }
{
    gates_at(n) + 10 * n.A
}
