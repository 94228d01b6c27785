// The numbers of needles: how often each value was there, and how often it changed (the needle report). While a run
// goes on, the fourth word of a needle holds in its last two bits the value of the step before, so that nothing but
// table 6 is asked for.
ghost use Rattle.std.specs.Prelude.{◌≡◌, ◌+◌, ◌*◌, ◌/◌, ◌%◌, ◌≤◌, ◌<◌, length, take, drop};
ghost use Rattle.plan.specs.Outcome.{put};
ghost use Rattle.report.specs.needles.Tally.{differs, counted, Counts1, CountsAll, counted_all, finished_all};

// 1 if a value's word differs from the last one's, else 0; 0 too where no value came before.
fn differs(last: u32, value: u32) -> u32
    ensures { result ≡ differs last value }
{
    if last == 0 {
        return 0;
    }
    if last == value {
        return 0;
    }
    1
}

// A needle's fourth word one step later.
fn change(last: u32, value: u32) -> u32
    requires { (last < 1048576) × (value ≤ 3) }
    ensures { result ≡ (last / 4 + differs (last % 4) value) * 4 + value }
{
    (last / 4 + differs(last % 4, value)) * 4 + value
}

// One step more of one needle, whose four words start at `at`. The value's word, 1, 2 or 3, picks the count: no
// test on it decides the way.
fn count(value: u32, at: usize, six: &mut [u32])
    requires { Counts1 value at six.old }
    ensures { six.new ≡ put six.old at
        (counted (take 4 (drop at six.old)) value) }
{
    let slot = at + (value - 1) as usize;
    six[slot] = six[slot] + 1;
    let last = six[at + 3];
    six[at + 3] = change(last, value);
}

// One step more of n needles, whose words start at `at`, by the values in words from `from` on.
pub fn count_all(t: &[u32], from: usize, n: usize, at: usize, six: &mut [u32])
    requires { CountsAll t.now from n at six.old }
    ensures { six.new ≡ put six.old at
        (counted_all t.now from n at six.old) }
{
    for i in 0..n {
        count(t[from + i], at + 4 * i, six);
    }
}

// After the last step the values of the step before go: of n needles the changes alone stay.
pub fn finish(n: usize, six: &mut [u32])
    requires { 4 * n ≤ length six.old }
    ensures { six.new ≡ put six.old 0 (finished_all n six.old) }
{
    for i in 0..n {
        six[4 * i + 3] /= 4;
    }
}
