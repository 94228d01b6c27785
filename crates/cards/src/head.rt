// The head of the old plan cards: the length that its counts ask, every mark, and the counts (the paper, plan cards).
ghost use Rattle.std.specs.Prelude.{◌≡◌, ◌+◌, ◌*◌, ◌≤◌, length, drop};
ghost use Rattle.plan.specs.declared.Refusal.TheVariants.{WrongByte, WrongMark};
ghost use Rattle.plan.specs.Refusals.{stage};
ghost use Rattle.plan.specs.Outcome.{checked_by};
ghost use Rattle.plan.specs.Cards.{counts_at, card_bytes, bad_length, wrong_in, wrong_marks, card_head};
ghost use Rattle.cards.specs.Within.{Within};
ghost use Rattle.cards.specs.head.Head.{headed_cards};

use crate::{bytes_asked, gates_at, mark_at, outputs_at, word_at};
use judge::large_count;
use plan::{Counts, Refusal};

// The counts as read, each of four bytes.
fn counts_at(file: &[u8]) -> Counts
    requires { 22 ≤ length file.now }
    ensures value { result ≡ counts_at file.now }
    ensures within { Within result }
{
    Counts {
        M: word_at(file, 2) as usize,
        I: word_at(file, 6) as usize,
        L: word_at(file, 10) as usize,
        O: word_at(file, 14) as usize,
        A: word_at(file, 18) as usize,
        B: 0,
        C: 0,
    }
}

// Refusal 1, by the counts as read: a file that ends early, or goes on.
fn check_length(file: &[u8]) -> Result<(), Refusal>
    ensures { result ≡ checked_by (stage WrongByte (bad_length file.now)) }
{
    let size = file.len();
    if size < 22 {
        return Err(Refusal::WrongByte(size));
    }
    let asked = bytes_asked(counts_at(file));
    if size < asked {
        return Err(Refusal::WrongByte(size));
    }
    if asked < size {
        return Err(Refusal::WrongByte(asked));
    }
    Ok(())
}

// Refusal 18 over n records of `size` bytes with one letter, from a position on: the first wrong mark.
fn check_marks(file: &[u8], letter: u8, size: usize, n: usize, at: usize) -> Result<(), Refusal>
    requires le_size { 2 ≤ size }
    requires n_in_bounds { at + size * n ≤ length file.now }
    ensures { result ≡ checked_by (stage WrongMark (wrong_in letter size n at (drop at file.now))) }
{
    for i in 0..n {
        let next = at + size * i;
        if !mark_at(file, next, letter) {
            return Err(Refusal::WrongMark(next));
        }
    }
    Ok(())
}

// Refusal 18 over a file of the length that its counts ask, in file order.
fn all_marks(file: &[u8], n: Counts) -> Result<(), Refusal>
    requires within { Within n }
    requires file_len { length file.now ≡ card_bytes n }
    ensures { result ≡ checked_by (stage WrongMark (wrong_marks file.now n)) }
{
    check_marks(file, b'H', 22, 1, 0)?;
    check_marks(file, b'L', 6, n.L, 22)?;
    check_marks(file, b'O', 6, n.O, outputs_at(n))?;
    check_marks(file, b'A', 10, n.A, gates_at(n))
}

// The head of a file by 1, 18, 2 and 3. A count over the limit is named by its first byte: 2, 6, 10, 14 or 18.
pub fn read_head(file: &[u8]) -> Result<(Counts, usize), Refusal>
    ensures { result ≡ headed_cards (card_head file.now) }
{
    check_length(file)?;
    let n = counts_at(file);
    all_marks(file, n)?;
    if let Some(large) = large_count(n) {
        return Err(Refusal::LargeCount(4 * large - 2));
    }
    if n.I + n.L + n.A != n.M {
        return Err(Refusal::WrongSum(0));
    }
    Ok((n, 22))
}
