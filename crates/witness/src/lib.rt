// The witness question by fillings: each x of the start and of the list is filled by 0 or 1 (the paper, the witness question).
#![tactic(auto)]

ghost use Rattle.std.specs.Prelude.{◌≡◌, cond, List, map, ℕ, ◌+◌, ◌*◌, ◌≤◌, ◌<◌, length};
ghost use Rattle.plan.specs.Circuit.{circuit_of, seven};
ghost use Rattle.plan.specs.Step.{Value, code_of, value_of, reset_value};
ghost use Rattle.plan.specs.Outcome.{put};
ghost use Rattle.step.specs.values.Words.{word, words};
ghost use Rattle.step.specs.sweep.Running.{Runs, Rests};
ghost use Rattle.witness.specs.three.Listing.{Starts, shows_from};
ghost use Rattle.plan.specs.Fillings.{is_x, x_of, x_count, bit_of, fill_from, filling, first_failing, filled_shows, question, witness};
ghost use Rattle.witness.specs.Asked.{codes_of, Loads, Begins, Holds};
ghost use Rattle.plan.specs.Lent.{Tries};

use crate::three::shown;
use judge::check_in_order;
use plan::{Counts, Finding, Refusal};
use step::codes::whole_list;
use step::sweep::{all_lits, step_values};
use step::values::{MAY0, MAY1};
use tables::{clear, lesser};

pub mod three;

// The x that start and list have at most.
const MOST_X: usize = 20;

// The word of a place of filling number k, where an x has the number x: bit x of k, 0 or 1 more than the word of 0.
fn filled_word(code: u8, k: u32, x: usize) -> u32
    requires { x < 32 }
    ensures { result ≡ word (value_of (cond (is_x code) (bit_of k x) code)) }
{
    if code == b'0' {
        return MAY0;
    }
    if code == b'1' {
        return MAY1;
    }
    if code == b'x' {
        return MAY0 + ((k >> x) & 1);
    }
    MAY0 | MAY1
}

// 1 at an x, else 0.
fn x_of(code: u8) -> usize
    ensures { result ≡ x_of code }
{
    if code == b'x' {
        return 1;
    }
    0
}

// How many x a list has.
fn count_x(bytes: &[u8]) -> usize
    ensures { result ≡ x_count bytes.now }
{
    bytes.iter().filter(|b| **b == b'x').count()
}

// A reset as a code: the latch's own literal is "x".
fn code_of_reset(reset: u32) -> u8
    ensures { result ≡ code_of (reset_value reset) }
{
    if reset == 0 {
        return b'0';
    }
    if reset == 1 {
        return b'1';
    }
    b'x'
}

// How many of n resets are x.
pub fn count_resets(resets: &[u32], n: usize) -> usize
    requires { n ≤ length resets.now }
    ensures { result ≡ x_count (codes_of resets.now n) }
{
    resets[..n]
        .iter()
        .filter(|r| code_of_reset(**r) == b'x')
        .count()
}

// A vector of filling number k goes into words from `first` on; x is the number of its first x. The answer is the number of the first x
// after it.
fn load_filled(codes: &[u8], k: u32, x: usize, first: usize, t: &mut [u32]) -> usize
    requires { Loads codes.now x first t.old }
    ensures t_after { t.new ≡ put t.old first (words (map value_of (fill_from k x codes.now))) }
    ensures value { result ≡ x + x_count codes.now }
{
    let mut next = x;
    for (i, code) in codes.iter().enumerate() {
        t[first + i] = filled_word(*code, k, next);
        next += x_of(*code);
    }
    next
}

// The same of n resets, whose x are numbered from 0.
pub fn load_resets_filled(resets: &[u32], n: usize, k: u32, first: usize, t: &mut [u32]) -> usize
    requires n_in_bounds { n ≤ length resets.now }
    requires loads { Loads (codes_of resets.now n) 0 first t.old }
    ensures t_after { t.new ≡ put t.old first (words (map value_of (filling k (codes_of resets.now n)))) }
    ensures value { result ≡ x_count (codes_of resets.now n) }
{
    let mut next = 0;
    for i in 0..n {
        let code = code_of_reset(resets[i]);
        t[first + i] = filled_word(code, k, next);
        next += x_of(code);
    }
    next
}

// The constant and the start of filling number k. Of the words it asks the length alone, so that they are not cleared between two fillings.
// The answer is the number of the list's first x.
fn start_filled(n: Counts, resets: &[u32], k: u32, t: &mut [u32]) -> usize
    requires { Begins n resets.now t.old }
    ensures rests { Rests n (map value_of (filling k (codes_of resets.now n.L))) t.new }
    ensures value { result ≡ x_count (codes_of resets.now n.L) }
{
    t[0] = MAY0;
    load_resets_filled(resets, n.L, k, 1 + n.I, t)
}

// Whether filling number `which` of a list, whose bytes are good and whose first x has the number `first`, shows 1 on some output or bad
// state from the state that scratch holds, every constraint being 1 there and at all steps before. No copy of the list is made, as each
// vector is filled where it is loaded; the first 1 ends it, and the first constraint that is not.
fn shows_filled(
    n: Counts,
    latches: &[u32],
    outputs: &[u32],
    gates: &[u32],
    bads: &[u32],
    constraints: &[u32],
    scratch: &mut [u32],
    number: usize,
    bytes: &[u8],
    which: u32,
    first: usize,
) -> bool
    requires starts { Starts n latches.now outputs.now gates.now bads.now constraints.now scratch.old }
    requires bytes_len { length bytes.now ≡ number * n.I }
    requires bytes_bound { first + x_count bytes.now ≤ 20 }
    ensures { (inputs resets : List ℕ) (s : List Value)
        → Runs n (seven inputs latches.now outputs.now gates.now resets bads.now constraints.now)
        → length s ≡ n.L → Rests n s scratch.old
        → result ≡ shows_from (circuit_of n (seven inputs latches.now outputs.now gates.now resets bads.now
        constraints.now)) s number (fill_from which first bytes.now) }
{
    let lits = n.M + 1 + n.O;
    let mut x = first;
    for k in 0..number {
        let at = n.I * k;
        x = load_filled(&bytes[at..at + n.I], which, x, 1, scratch);
        step_values(n, latches, outputs, gates, scratch);
        if !all_lits(constraints, n.C, lits, scratch) {
            return false;
        }
        if shown(n, bads, scratch) {
            return true;
        }
    }
    false
}

// Whether filling number `which` of start and list shows a 1.
fn filling_shows(
    n: Counts,
    latches: &[u32],
    outputs: &[u32],
    gates: &[u32],
    resets: &[u32],
    bads: &[u32],
    constraints: &[u32],
    scratch: &mut [u32],
    number: usize,
    bytes: &[u8],
    which: u32,
) -> bool
    requires { Holds n latches.now outputs.now gates.now resets.now bads.now constraints.now scratch.old number bytes.now }
    ensures { (inputs : List ℕ)
        → Runs n (seven inputs latches.now outputs.now gates.now resets.now bads.now
        constraints.now)
        → result ≡ filled_shows (circuit_of n (seven inputs latches.now outputs.now gates.now resets.now
        bads.now constraints.now)) number bytes.now which }
{
    let first = start_filled(n, resets, which, scratch);
    shows_filled(
        n,
        latches,
        outputs,
        gates,
        bads,
        constraints,
        scratch,
        number,
        bytes,
        which,
        first,
    )
}

// Fillings are tried from 0 up, `most` of them: the number of the first that shows no 1.
fn first_failing(
    n: Counts,
    latches: &[u32],
    outputs: &[u32],
    gates: &[u32],
    resets: &[u32],
    bads: &[u32],
    constraints: &[u32],
    scratch: &mut [u32],
    number: usize,
    bytes: &[u8],
    most: usize,
) -> Option<usize>
    requires holds { Holds n latches.now outputs.now gates.now resets.now bads.now constraints.now scratch.old number bytes.now }
    requires most_bound { most ≤ 1048576 }
    ensures { (inputs : List ℕ)
        → Runs n (seven inputs latches.now outputs.now gates.now resets.now bads.now
        constraints.now)
        → result ≡ first_failing (filled_shows (circuit_of n (seven inputs latches.now outputs.now gates.now resets.now
        bads.now constraints.now)) number bytes.now) 0 most }
{
    for tried in 0..most {
        if !filling_shows(
            n,
            latches,
            outputs,
            gates,
            resets,
            bads,
            constraints,
            scratch,
            number,
            bytes,
            tried as u32,
        ) {
            return Some(tried);
        }
    }
    None
}

// The answer for a list whose bytes are good, where start and list have `xs` x, which are few.
fn try_fillings(
    n: Counts,
    latches: &[u32],
    outputs: &[u32],
    gates: &[u32],
    resets: &[u32],
    bads: &[u32],
    constraints: &[u32],
    scratch: &mut [u32],
    number: usize,
    bytes: &[u8],
    xs: usize,
    allowance: usize,
) -> Finding
    requires holds { Holds n latches.now outputs.now gates.now resets.now bads.now constraints.now scratch.old number bytes.now }
    requires xs_value { xs ≡ x_count (codes_of resets.now n.L) + x_count bytes.now }
    ensures { (inputs : List ℕ)
        → Runs n (seven inputs latches.now outputs.now gates.now resets.now bads.now
        constraints.now)
        → result ≡ question (circuit_of n (seven inputs latches.now outputs.now gates.now resets.now
        bads.now constraints.now)) number bytes.now allowance }
{
    let total: usize = 1 << xs;
    let most = lesser(total, allowance);
    let failing = first_failing(
        n,
        latches,
        outputs,
        gates,
        resets,
        bads,
        constraints,
        scratch,
        number,
        bytes,
        most,
    );
    if let Some(k) = failing {
        return Finding::No(k + 1);
    }
    if total <= allowance {
        return Finding::Yes(total);
    }
    Finding::Undecided(allowance)
}

// The witness question: whether every filling of the x of the resets and of a list of `number` vectors shows 1 on some output or bad state,
// every constraint being 1 there and at all steps before; at most `allowance` fillings are tried. The circuit is checked once for all
// fillings, and the whole list judged before the first step. Scratch is zero afterwards.
pub fn witness(
    n: Counts,
    inputs: &[u32],
    latches: &[u32],
    outputs: &[u32],
    gates: &[u32],
    resets: &[u32],
    bads: &[u32],
    constraints: &[u32],
    scratch: &mut [u32],
    number: usize,
    bytes: &[u8],
    allowance: usize,
) -> Result<Finding, Refusal>
    ensures { Tries witness n inputs latches outputs gates resets bads constraints scratch number bytes allowance result }
{
    check_in_order(
        n,
        inputs,
        latches,
        outputs,
        gates,
        resets,
        bads,
        constraints,
        scratch,
    )?;
    if !whole_list(bytes, number, n.I) {
        return Err(Refusal::BadVector(2));
    }
    let xs = count_resets(resets, n.L) + count_x(bytes);
    if MOST_X < xs {
        return Err(Refusal::ManyX(xs));
    }
    let found = try_fillings(
        n,
        latches,
        outputs,
        gates,
        resets,
        bads,
        constraints,
        scratch,
        number,
        bytes,
        xs,
        allowance,
    );
    clear(scratch);
    Ok(found)
}
