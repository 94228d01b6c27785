// Room in a lent buffer, for every writer.
ghost use Rattle.std.specs.Prelude.{◌≡◌, ◌+◌, ◌-◌, ◌^◌, min, leb};

// Whether a buffer of a length holds `count` bytes from a position on.
pub fn holds(len: usize, at: usize, count: usize) -> bool
    ensures { result ≡ leb (at + count) len }
{
    if len < at {
        return false;
    }
    if len - at < count {
        return false;
    }
    true
}

// The length that such a buffer needs, cut at the largest number of 64 bits.
pub fn needed(at: usize, count: usize) -> usize
    ensures { result ≡ min (at + count) (2 ^ 64 - 1) }
{
    let most: usize = 18446744073709551615;
    if most - at < count {
        return most;
    }
    at + count
}
