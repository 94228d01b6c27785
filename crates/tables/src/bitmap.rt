// Bitmaps that stand in a table of words: place i of the one that starts at p is bit i % 32 of word p + i / 32.
ghost use Rattle.std.specs.Prelude.{◌≡◌, ◌+◌, ◌/◌, ◌<◌, length};
ghost use Rattle.tables.specs.bitmap.Bitmap.{is_on, raised, NextOn};

// Whether place i is on.
pub fn is_on(t: &[u32], p: usize, i: usize) -> bool
    requires { p + i / 32 < length t.now }
    ensures { result ≡ is_on t.now p i }
{
    (t[p + i / 32] >> (i % 32)) % 2 == 1
}

// Place i is on from here.
pub fn raise(t: &mut [u32], p: usize, i: usize)
    requires { p + i / 32 < length t.old }
    ensures { t.new ≡ raised t.old p i }
{
    let k = p + i / 32;
    t[k] = t[k] | (1u32 << (i % 32));
}

// The first place from i on in i's word that is on, or where the next word starts.
pub fn next_on(t: &[u32], p: usize, i: usize) -> usize
    requires { (p + i / 32 < length t.now) × (i < 4294967296) }
    ensures { NextOn t.now p i result }
{
    let w = t[p + i / 32] >> (i % 32);
    if w == 0 {
        return (i / 32 + 1) * 32;
    }
    i + (u32::trailing_zeros(w) as usize)
}
