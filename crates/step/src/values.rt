// Values 0, 1 and x as words of scratch, of the bits "may be 0" and "may be 1", and as codes "0", "1" and "x" of
// vectors (the paper, stepping).
ghost use Rattle.std.specs.Prelude.{◌≡◌, map, ◌+◌, ◌≤◌, length, get_or, take};
ghost use Rattle.plan.specs.Step.{code_of, value_of, reset_value, any1};
ghost use Rattle.plan.specs.Outcome.{put};
ghost use Rattle.step.specs.values.Words.{word, told, words, values_at, start_codes};

// The bits "may be 0" and "may be 1": a value that may be both is x.
pub const MAY0: u32 = 1;

pub const MAY1: u32 = 2;

// The word of a code's value.
fn word_of(code: u8) -> u32
    ensures { result ≡ word (value_of code) }
{
    if code == b'0' {
        return MAY0;
    }
    if code == b'1' {
        return MAY1;
    }
    MAY0 | MAY1
}

fn code_of(word: u32) -> u8
    ensures { result ≡ code_of (told word) }
{
    if word == MAY0 {
        return b'0';
    }
    if word == MAY1 {
        return b'1';
    }
    b'x'
}

// The word of a latch's value at the start, by its reset: its own literal is x.
fn word_of_reset(reset: u32) -> u32
    ensures { result ≡ word (reset_value reset) }
{
    if reset == 0 {
        return MAY0;
    }
    if reset == 1 {
        return MAY1;
    }
    MAY1 | MAY0
}

// The values of n resets go into words from `first` on.
pub fn load_resets(resets: &[u32], n: usize, first: usize, t: &mut [u32])
    requires n_in_bounds { n ≤ length resets.now }
    requires n_in_bounds_2 { first + n ≤ length t.old }
    ensures { t.new ≡ put t.old first
        (words (map reset_value (take n resets.now))) }
{
    for i in 0..n {
        t[first + i] = word_of_reset(resets[i]);
    }
}

// The reset of latch i, 0 past the end.
fn reset_at(resets: &[u32], i: usize) -> u32
    ensures { result ≡ get_or resets.now i 0 }
{
    if i < resets.len() {
        return resets[i];
    }
    0
}

// The values of as many resets fill a state: the first one of a run.
pub fn first_state(resets: &[u32], state: &mut [u8])
    ensures { state.new ≡ start_codes resets.now (length state.old) }
{
    for i in 0..state.len() {
        state[i] = code_of(word_of_reset(reset_at(resets, i)));
    }
}

// A vector's values go into words from `first` on.
pub fn load(codes: &[u8], first: usize, t: &mut [u32])
    requires { first + length codes.now ≤ length t.old }
    ensures { t.new ≡ put t.old first (words (map value_of codes.now)) }
{
    for (i, code) in codes.iter().enumerate() {
        t[first + i] = word_of(*code);
    }
}

// The values of words from `first` on fill a vector.
pub fn store(t: &[u32], first: usize, codes: &mut [u8])
    requires { first + length codes.old ≤ length t.now }
    ensures { codes.new ≡ map code_of (values_at t.now first (length codes.old)) }
{
    for i in 0..codes.len() {
        codes[i] = code_of(t[first + i]);
    }
}

// Whether the value of one of n words from `first` on is 1.
pub fn any_one(t: &[u32], first: usize, n: usize) -> bool
    requires { first + n ≤ length t.now }
    ensures { result ≡ any1 (values_at t.now first n) }
{
    t[first..first + n].contains(&MAY1)
}
