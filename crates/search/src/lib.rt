// Can it ever happen: a search of the states of a small circuit, breadth first (the paper, the search).
#![tactic(auto)]

ghost use Rattle.std.specs.Prelude.{◌≡◌, cond, List, map, ℕ, ◌+◌, ◌*◌, ◌/◌, ◌%◌, ◌^◌, ◌≤◌, ◌<◌, length};
ghost use Rattle.plan.specs.Step.{is1, value_of};
ghost use Rattle.plan.specs.Outcome.{put};
ghost use Rattle.plan.specs.Search.{fill_both, x_both, bit_value, bits, as_number};
ghost use Rattle.step.specs.values.Words.{word, words, told, values_at};
ghost use Rattle.tables.specs.bitmap.Bitmap.{is_on};
ghost use Rattle.witness.specs.Asked.{codes_of};
ghost use Rattle.search.specs.Starting.{Numbers, Starts, Started, Seeks, start_of};
ghost use Rattle.search.specs.Trying.{Tries};
ghost use Rattle.plan.specs.Lent.{to_search, Searches};
ghost use Rattle.plan.specs.Refusals.{first_of};
ghost use Rattle.plan.specs.Outcome.{checked_by};
ghost use Rattle.plan.specs.Search.{search};
ghost use Rattle.search.specs.Exploring.{Meets, MeetBy, Turns, Explores, Tried, TakesTurn, ExploresAll, SearchesAll};
ghost use Rattle.search.specs.Asking.{fit_stages, Watches, WatchesAll, Finds, FindsAll, Asks};

use crate::back::tell;
use judge::check_in_order;
use plan::{Counts, Happening, Refusal};
use step::sweep::{all_lits, step_values};
use step::values::{MAY0, MAY1};
use tables::bitmap::{is_on, raise};
use tables::{clear, lesser};
use witness::three::shown;
use witness::{count_resets, load_resets_filled};

mod back;

// What a move does: it is barred, it shows what is looked for, or it leads to a state.
#[derive(Clone, Copy)]
pub enum Attempt {
    Barred,
    Seen,
    To(u32),
}

// The word of bit i of a number.
fn bit_word(k: u32, i: usize) -> u32
    requires { i < 32 }
    ensures { result ≡ word (bit_value (k / 2 ^ i % 2)) }
{
    MAY0 + ((k >> i) & 1)
}

// A number's n lowest bits go into words from `first` on.
fn load_number(k: u32, n: usize, first: usize, t: &mut [u32])
    requires { (n ≤ 20) × (first + n ≤ length t.old) }
    ensures { t.new ≡ put t.old first (words (bits n k)) }
{
    for i in 0..n {
        t[first + i] = bit_word(k, i);
    }
}

// 1 for the word of 1, else 0.
fn one_of(w: u32) -> u32
    ensures { result ≡ cond (is1 (told w)) 1 0 }
{
    if w == MAY1 {
        return 1;
    }
    0
}

// The number of n words from `first` on.
fn number_in(t: &[u32], first: usize, n: usize) -> u32
    requires { (n ≤ 20) × (first + n ≤ length t.now) }
    ensures { result ≡ as_number (values_at t.now first n) }
{
    let mut s = 0;
    for w in t[first..first + n].iter().rev() {
        s = 2 * s + one_of(*w);
    }
    s
}

// One move at a state.
fn try_move(
    n: Counts,
    latches: &[u32],
    outputs: &[u32],
    gates: &[u32],
    bads: &[u32],
    constraints: &[u32],
    scratch: &mut [u32],
    s: u32,
    m: u32,
) -> Attempt
    requires { Tries n latches.now outputs.now gates.now bads.now constraints.now scratch.old }
    ensures { Tried n latches.now outputs.now gates.now bads.now
        constraints.now s m result }
{
    scratch[0] = MAY0;
    load_number(s, n.L, 1 + n.I, scratch);
    load_number(m, n.I, 1, scratch);
    step_values(n, latches, outputs, gates, scratch);
    if !all_lits(constraints, n.C, n.M + 1 + n.O, scratch) {
        return Attempt::Barred;
    }
    if shown(n, bads, scratch) {
        return Attempt::Seen;
    }
    Attempt::To(number_in(scratch, 1 + n.I, n.L))
}

// A state that has no mark gets the next row and a mark. The answer is how many rows there are.
fn meet(met: &mut [u32], marks: &mut [u32], reached: usize, s: u32, place: usize, m: u32) -> usize
    requires { Meets met.old marks.old reached s place m }
    ensures { MeetBy (is_on marks.old 0 s) met.old marks.old reached s place m result met.new
        marks.new }
{
    let at = s as usize;
    if is_on(marks, 0, at) {
        return reached;
    }
    raise(marks, 0, at);
    let row = 3 * reached;
    met[row] = s;
    met[row + 1] = (place + 1) as u32;
    met[row + 2] = m;
    reached + 1
}

// One turn: a move at the state of a row. The answer is how many states are met then, and none where the move shows
// what is looked for.
fn take_turn(
    n: Counts,
    latches: &[u32],
    outputs: &[u32],
    gates: &[u32],
    bads: &[u32],
    constraints: &[u32],
    scratch: &mut [u32],
    met: &mut [u32],
    marks: &mut [u32],
    reached: usize,
    place: usize,
    m: u32,
) -> Option<usize>
    requires { Turns n latches.now outputs.now gates.now bads.now constraints.now scratch.old met.old marks.old
        reached place m }
    ensures { TakesTurn n latches.now outputs.now gates.now bads.now
        constraints.now reached place m met.old marks.old result met.new marks.new }
{
    let s = met[3 * place];
    let found = try_move(n, latches, outputs, gates, bads, constraints, scratch, s, m);
    match found {
        Attempt::Barred => Some(reached),
        Attempt::Seen => None,
        Attempt::To(t) => Some(meet(met, marks, reached, t, place, m)),
    }
}

// What a search of the states comes to: how many are reached; the place of a state and the move that shows it; or undecided. Each with the tries.
#[derive(Clone, Copy)]
pub enum Reach {
    Never(usize, usize),
    Shown(usize, u32, usize),
    Undecided(usize),
}

// How many numbers of n bits there are.
fn power(n: usize) -> usize
    requires { n ≤ 20 }
    ensures { result ≡ 2 ^ n }
{
    1 << n
}

// The search, from the starts in the first rows on. Try number `tries` is move tries % 2^I at the row tries / 2^I, as the definition says.
fn explore(
    n: Counts,
    latches: &[u32],
    outputs: &[u32],
    gates: &[u32],
    bads: &[u32],
    constraints: &[u32],
    scratch: &mut [u32],
    met: &mut [u32],
    marks: &mut [u32],
    starts: usize,
    allowance: usize,
) -> Reach
    requires { Explores n latches.now outputs.now gates.now bads.now constraints.now scratch.old met.old marks.old
        starts }
    ensures { ExploresAll n latches.now outputs.now gates.now bads.now
        constraints.now starts allowance met.old marks.old result met.new }
{
    let moves = power(n.I);
    let mut reached = starts;
    for tries in 0..allowance {
        let place = tries / moves;
        if reached <= place {
            return Reach::Never(reached, tries);
        }
        let m = (tries % moves) as u32;
        let Some(k) = take_turn(
            n,
            latches,
            outputs,
            gates,
            bads,
            constraints,
            scratch,
            met,
            marks,
            reached,
            place,
            m,
        ) else {
            return Reach::Shown(place, m, tries + 1);
        };
        reached = k;
    }
    if reached <= allowance / moves {
        return Reach::Never(reached, allowance);
    }
    Reach::Undecided(allowance)
}

// The start of filling number k goes into words from 1 + I on: the x of each plan's resets are numbered from 0.
fn load_start(n: Counts, resets: &[u32], split: usize, k: u32, scratch: &mut [u32])
    requires { Numbers n resets.now scratch.old }
    ensures { scratch.new
        ≡ put scratch.old (1 + n.I) (words (map value_of (fill_both split k (codes_of resets.now n.L)))) }
{
    let first = lesser(split, n.L);
    load_resets_filled(resets, first, k, 1 + n.I, scratch);
    load_resets_filled(&resets[first..], n.L - first, k, 1 + n.I + first, scratch);
}

// How many x the plan has that has more of them.
fn count_both(n: Counts, resets: &[u32], split: usize) -> usize
    requires { n.L ≤ length resets.now }
    ensures { result ≡ x_both split (codes_of resets.now n.L) }
{
    let first = lesser(split, n.L);
    let before = count_resets(resets, first);
    let after = count_resets(&resets[first..], n.L - first);
    before.max(after)
}

// The number of the state that filling k of the resets is, by way of scratch.
fn start_number(n: Counts, resets: &[u32], split: usize, k: u32, scratch: &mut [u32]) -> u32
    requires { Numbers n resets.now scratch.old }
    ensures { result ≡ start_of split n resets.now k }
{
    load_start(n, resets, split, k, scratch);
    number_in(scratch, 1 + n.I, n.L)
}

// The starts, each in its row, with its mark; `marks` has none at first.
fn begin_rows(
    n: Counts,
    resets: &[u32],
    split: usize,
    total: usize,
    scratch: &mut [u32],
    met: &mut [u32],
    marks: &mut [u32],
)
    requires { Starts n resets.now total scratch.old met.old marks.old }
    ensures { Started split n resets.now total met.new marks.new }
{
    for k in 0..total {
        let s = start_number(n, resets, split, k as u32, scratch);
        raise(marks, 0, s as usize);
        let row = 3 * k;
        met[row] = s;
        met[row + 1] = 0;
        met[row + 2] = 0;
    }
}

// The whole search: the starts, and then turn after turn. `marks` is blank at first; the rows that lead to what was found stay in `met`.
fn search_states(
    n: Counts,
    latches: &[u32],
    outputs: &[u32],
    gates: &[u32],
    resets: &[u32],
    bads: &[u32],
    constraints: &[u32],
    scratch: &mut [u32],
    split: usize,
    met: &mut [u32],
    marks: &mut [u32],
    allowance: usize,
) -> Reach
    requires { Seeks n latches.now outputs.now gates.now resets.now bads.now constraints.now scratch.old met.old
        marks.old }
    ensures { SearchesAll split n latches.now outputs.now gates.now resets.now
        bads.now constraints.now allowance result met.new }
{
    let xs = count_both(n, resets, split);
    let total = power(xs);
    begin_rows(n, resets, split, total, scratch, met, marks);
    explore(
        n,
        latches,
        outputs,
        gates,
        bads,
        constraints,
        scratch,
        met,
        marks,
        total,
        allowance,
    )
}

// The same of what is watched: the bad states, or one output, which are looked at as outputs.
fn watch_states(
    n: Counts,
    latches: &[u32],
    outputs: &[u32],
    gates: &[u32],
    resets: &[u32],
    bads: &[u32],
    constraints: &[u32],
    scratch: &mut [u32],
    split: usize,
    watch: usize,
    met: &mut [u32],
    marks: &mut [u32],
    allowance: usize,
) -> Reach
    requires { Watches n latches.now outputs.now gates.now resets.now bads.now constraints.now scratch.old watch met.old
        marks.old }
    ensures { WatchesAll split watch n latches.now outputs.now gates.now resets.now
        bads.now constraints.now allowance result met.new }
{
    if watch == 0 {
        let all = Counts {
            M: n.M,
            I: n.I,
            L: n.L,
            O: n.B,
            A: n.A,
            B: 0,
            C: n.C,
        };
        return search_states(
            all,
            latches,
            bads,
            gates,
            resets,
            bads,
            constraints,
            scratch,
            split,
            met,
            marks,
            allowance,
        );
    }
    let k = watch - 1;
    let one = Counts {
        M: n.M,
        I: n.I,
        L: n.L,
        O: 1,
        A: n.A,
        B: 0,
        C: n.C,
    };
    search_states(
        one,
        latches,
        &outputs[k..],
        gates,
        resets,
        bads,
        constraints,
        scratch,
        split,
        met,
        marks,
        allowance,
    )
}

// 25, 26, 4 for tables 10 and 11, which are lent so many words, and 17.
fn fit(n: Counts, watch: usize, met: usize, marks: usize) -> Result<(), Refusal>
    ensures { result ≡ checked_by (first_of (fit_stages n watch met marks)) }
{
    if 20 < n.L {
        return Err(Refusal::ManyLatches(n.L));
    }
    if 20 < n.I {
        return Err(Refusal::ManyInputs(n.I));
    }
    let states = power(n.L);
    if met < 3 * states {
        return Err(Refusal::ShortTable(10));
    }
    if marks < (states + 31) / 32 {
        return Err(Refusal::ShortTable(11));
    }
    if n.O < watch {
        return Err(Refusal::NotExplained(1));
    }
    Ok(())
}

// The answer for a circuit that nothing is wrong with: `marks` are cleared first.
fn find(
    n: Counts,
    latches: &[u32],
    outputs: &[u32],
    gates: &[u32],
    resets: &[u32],
    bads: &[u32],
    constraints: &[u32],
    scratch: &mut [u32],
    split: usize,
    watch: usize,
    allowance: usize,
    met: &mut [u32],
    marks: &mut [u32],
    out: &mut [u8],
) -> Result<Happening, Refusal>
    requires { Finds n latches.now outputs.now gates.now resets.now bads.now constraints.now scratch.old watch met.old
        marks.old }
    ensures { FindsAll split watch n latches.now outputs.now gates.now resets.now
        bads.now constraints.now allowance out.old result out.new }
{
    clear(marks);
    let reach = watch_states(
        n,
        latches,
        outputs,
        gates,
        resets,
        bads,
        constraints,
        scratch,
        split,
        watch,
        met,
        marks,
        allowance,
    );
    match reach {
        Reach::Never(states, tries) => Ok(Happening::Never(states, tries)),
        Reach::Shown(place, m, tries) => tell(n, met, place, m, tries, out),
        Reach::Undecided(tries) => Ok(Happening::Undecided(tries)),
    }
}

// The answer, and the bytes of the start and the list: the refusals in their order, then the search.
fn ask(
    n: Counts,
    inputs: &[u32],
    latches: &[u32],
    outputs: &[u32],
    gates: &[u32],
    resets: &[u32],
    bads: &[u32],
    constraints: &[u32],
    scratch: &mut [u32],
    split: usize,
    watch: usize,
    allowance: usize,
    met: &mut [u32],
    marks: &mut [u32],
    out: &mut [u8],
) -> Result<Happening, Refusal>
    ensures { Asks (to_search n inputs latches outputs gates resets bads constraints scratch split watch allowance met marks out) result
        out.new }
{
    check_in_order(
        n,
        inputs,
        latches,
        outputs,
        gates,
        resets,
        bads,
        constraints,
        scratch,
    )?;
    fit(n, watch, met.len(), marks.len())?;
    find(
        n,
        latches,
        outputs,
        gates,
        resets,
        bads,
        constraints,
        scratch,
        split,
        watch,
        allowance,
        met,
        marks,
        out,
    )
}

// Whether what is watched can ever happen: 0 the bad states, k + 1 output k. The latches before `split` are one plan's and those from there on
// another's, whose starts are filled by one number. At most `allowance` moves are tried. The start and a shortest list go into `out`; scratch and
// tables 10 and 11 are zero afterwards.
pub fn search(
    n: Counts,
    inputs: &[u32],
    latches: &[u32],
    outputs: &[u32],
    gates: &[u32],
    resets: &[u32],
    bads: &[u32],
    constraints: &[u32],
    scratch: &mut [u32],
    split: usize,
    watch: usize,
    allowance: usize,
    met: &mut [u32],
    marks: &mut [u32],
    out: &mut [u8],
) -> Result<Happening, Refusal>
    ensures { Searches search n inputs latches outputs gates resets bads constraints scratch split watch allowance met marks out result }
{
    let answer = ask(
        n,
        inputs,
        latches,
        outputs,
        gates,
        resets,
        bads,
        constraints,
        scratch,
        split,
        watch,
        allowance,
        met,
        marks,
        out,
    );
    clear(scratch);
    clear(met);
    clear(marks);
    answer
}
