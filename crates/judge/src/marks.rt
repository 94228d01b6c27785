// The marks: a bit for each gate that is ready, a bit for each word of those that is not 0, a bit for each word of these, and so once
// more: that is one word, as there are fewer than 2 ^ 20 gates.
ghost use Rattle.std.specs.Prelude.{◌≡◌, true, ◌+◌, ◌*◌, ◌/◌, ◌<◌, length};
ghost use Rattle.tables.specs.bitmap.Bitmap.{is_on};
ghost use Rattle.judge.specs.marks.Levels.{p0, p3, Levels, marked, Lowered, TakenOff, FirstPair};

use tables::bitmap;

// Gate i is marked.
pub fn mark(t: &mut [u32], n: usize, a: usize, i: usize)
    requires { (p3 n a < length t.old) × (a < 1048576) × (i < a) }
    ensures { t.new ≡ marked t.old n a i }
{
    let p = n + 2 * a;
    let q = p + (a / 32 + 1);
    let r = q + (a / 1024 + 1);
    let s = r + (a / 32768 + 1);
    bitmap::raise(t, p, i);
    bitmap::raise(t, q, i / 32);
    bitmap::raise(t, r, i / 1024);
    bitmap::raise(t, s, i / 32768);
}

// Place i is turned over if e is 1, and not if e is 0. Gives e if that leaves its word 0, else 0. No branch: none could be foretold.
fn lower(t: &mut [u32], p: usize, i: usize, e: u32) -> u32
    requires { (p + i / 32 < length t.old) × (e < 2) }
    ensures { Lowered t.old t.new p i e result × (result < 2) }
{
    let k = p + i / 32;
    t[k] = t[k] ^ (e << (i % 32));
    if t[k] == 0 {
        return e;
    }
    0
}

// Gate j's mark is taken away, and those above it that stand for words that are 0 then.
pub fn unmark(t: &mut [u32], n: usize, a: usize, j: usize)
    requires { (p3 n a < length t.old) × (a < 1048576) × (j < a) × Levels t.old n a × (is_on t.old (p0 n a) j ≡ true) }
    ensures { TakenOff t.old t.new n a j }
{
    let p = n + 2 * a;
    let q = p + (a / 32 + 1);
    let r = q + (a / 1024 + 1);
    let s = r + (a / 32768 + 1);
    let one = lower(t, p, j, 1);
    let two = lower(t, q, j / 32, one);
    let three = lower(t, r, j / 1024, two);
    lower(t, s, j / 32768, three);
}

// The pair of gates that the first marked one is in, by its first gate; a where none is marked.
pub fn first_pair(t: &[u32], n: usize, a: usize) -> usize
    requires { (p3 n a < length t.now) × (a < 1048576) × (0 < a) × Levels t.now n a }
    ensures { FirstPair t.now n a result }
{
    let p = n + 2 * a;
    let q = p + (a / 32 + 1);
    let r = q + (a / 1024 + 1);
    let s = r + (a / 32768 + 1);
    if t[s] == 0 {
        return a;
    }
    let x = bitmap::next_on(t, s, 0);
    let y = bitmap::next_on(t, r, 32 * x);
    let z = bitmap::next_on(t, q, 32 * y);
    let j = bitmap::next_on(t, p, 32 * z);
    if a <= j {
        return a;
    }
    j / 2 * 2
}
