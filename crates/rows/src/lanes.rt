// Many rows at once: up to 64 input vectors are stepped once from the resets, one bit lane for each row (the paper,
// many rows). A plane is 64 lanes in two words of scratch. Each literal has one, lit in the rows where the literal
// may be 1; where it may be 0 its negation may be 1.  Between bytes and planes stand blocks of up to 64 columns. A
// byte of a block has the bits of one column in 8 rows, that of column j in rows 8 g to 8 g + 7 at 64 g + j, so
// that what a row's bytes need stands side by side and is worked on many at once.
ghost use Rattle.std.specs.Prelude.{◌≡◌, [], ◌∷◌, ℕ, ◌+◌, ◌-◌, ◌*◌, ◌/◌, ◌%◌, ◌^◌, ◌<◌, ◌≤◌, length, get_or};
ghost use Rattle.std.specs.Int.Bits.{bit_and};
ghost use Rattle.std.specs.Int.Count.{ones};
ghost use Rattle.plan.specs.Literals.{word_of};
ghost use Rattle.plan.specs.Circuit.{Tables, circuit_of};
ghost use Rattle.plan.specs.Outcome.{put};
ghost use Rattle.step.specs.sweep.Running.{Runs};
ghost use Rattle.rows.specs.Planes.Planes.{bit, other, column};
ghost use Rattle.rows.specs.lanes.Words.{plane_at, both_at, plane_words, every_row, byte_of, half_in, word_in};
ghost use Rattle.rows.specs.lanes.Words.{block_plane, code_by, code_at};
ghost use Rattle.rows.specs.lanes.Working.{Grows, Sweeps, Swept, There, gate_planes, both, Ready, Holds, Shows};
ghost use Rattle.rows.specs.lanes.Working.{literal_at, codes_of, counts_at, counts_of};
ghost use Rattle.rows.specs.lanes.Blocks.{Striped, Written, Packed, Block, Blocked};

use plan::{Counts, Lit};

const FULL: u64 = 18446744073709551615;

// 1 where a byte differs from a code, by a sum instead of a test: half of what is not 0, rounded up, and 127 make
// 128 or more.
fn other_than(code: u8, b: u8) -> u8
    ensures { result ≡ other code b }
{
    let x = b ^ code;
    (x / 2 + x % 2 + 127) / 128
}

fn low(plane: u64) -> u32
    ensures { result ≡ plane % 4294967296 }
{
    (plane % 4294967296) as u32
}

fn high(plane: u64) -> u32
    ensures { result ≡ plane / 4294967296 }
{
    (plane >> 32) as u32
}

fn joined(low: u32, high: u32) -> u64
    ensures { result ≡ low + high * 4294967296 }
{
    (low as u64) + (high as u64) * 4294967296
}

// The rows in which a literal may be 1.
fn plane_of(t: &[u32], l: Lit) -> u64
    requires { There (word_of l) t.now }
    ensures { result ≡ plane_at t.now (word_of l) }
{
    let at = 2 * (l.word() as usize);
    joined(t[at], t[at + 1])
}

// A variable's planes: the rows in which it may be 1, and those in which it may be 0.
fn put_planes(one: u64, zero: u64, to: usize, t: &mut [u32])
    requires { to + 4 ≤ length t.old }
    ensures { t.new ≡ put t.old to (plane_words (one ∷ zero ∷ [])) }
{
    t[to] = low(one);
    t[to + 1] = high(one);
    t[to + 2] = low(zero);
    t[to + 3] = high(zero);
}

// A row is added to a block: where its byte differs from a code, the bit `lit` of the column's byte is lit.
fn add_row(code: u8, bytes: &[u8], from: usize, w: usize, lit: u8, to: usize, block: &mut [u8])
    requires w_in_bounds { (from + w ≤ length bytes.now) × (to + w ≤ length block.old) }
    requires by_index { (j : ℕ) → j < w → get_or block.old (to + j) 0 + lit < 256 }
    ensures { Written (λ j. get_or block.old (to + j) 0 + other code
        (get_or bytes.now (from + j) 0) * lit) to w block.old block.new }
{
    for j in 0..w {
        let differs = other_than(code, bytes[from + j]);
        block[to + j] += differs * lit;
    }
}

// Where w columns of rows of n bytes, from column `from` on, differ from a code: a block, which is zero at first.
fn load_block(
    code: u8,
    bytes: &[u8],
    from: usize,
    w: usize,
    n: usize,
    rows: usize,
    block: &mut [u8],
)
    requires block { Block from w n rows bytes.now }
    requires in_bounds { (512 ≤ length block.old) × ((i : ℕ) → get_or block.old i 0 ≡ 0) }
    ensures { Packed (λ j. column code bytes.now (from + j) n rows) w block.new }
{
    for k in 0..rows {
        let row = n * k + from;
        add_row(code, bytes, row, w, 1u8 << (k % 8), 64 * (k / 8), block);
    }
}

fn wide(b: u8) -> u32
    ensures { (result ≡ b) × (result < 256) }
{
    b as u32
}

// Two bytes of a column, and four: a lane word.
fn half_of(block: &[u8], at: usize) -> u32
    requires { at + 64 < length block.now }
    ensures { (result ≡ half_in block.now at) × (result < 65536) }
{
    let low = wide(block[at]);
    let high = wide(block[at + 64]);
    low + 256 * high
}

fn word_of(block: &[u8], at: usize) -> u32
    requires { at + 192 < length block.now }
    ensures { result ≡ word_in block.now at }
{
    let low = half_of(block, at);
    let high = half_of(block, at + 128);
    low + 65536 * high
}

// The planes of a block's columns, behind those of `before` variables.
fn put_columns(ones: &[u8], zeros: &[u8], w: usize, before: usize, t: &mut [u32])
    requires w_bound { (w ≤ 64) × (512 ≤ length ones.now) × (512 ≤ length zeros.now) }
    requires w_in_bounds { 4 * (before + w) ≤ length t.old }
    ensures { Grows before (block_plane ones.now) (block_plane zeros.now) w
        t.old t.new }
{
    for j in 0..w {
        let one = joined(word_of(ones, j), word_of(ones, j + 256));
        let zero = joined(word_of(zeros, j), word_of(zeros, j + 256));
        put_planes(one, zero, 4 * (before + j), t);
    }
}

// The planes of w inputs, from their bytes: a byte but "0" may be 1, and a byte but "1" may be 0.
fn load_columns(bytes: &[u8], from: usize, w: usize, n: usize, rows: usize, t: &mut [u32])
    requires block { Block from w n rows bytes.now }
    requires w_in_bounds { 4 * (1 + from + w) ≤ length t.old }
    ensures { Grows (1 + from) (λ j. column 48 bytes.now (from + j) n rows)
        (λ j. column 49 bytes.now (from + j) n rows) w t.old t.new }
{
    let mut ones: [u8; 512] = [0; 512];
    let mut zeros: [u8; 512] = [0; 512];
    load_block(b'0', bytes, from, w, n, rows, &mut ones);
    load_block(b'1', bytes, from, w, n, rows, &mut zeros);
    put_columns(&ones, &zeros, w, 1 + from, t);
}

// The inputs' planes, from the rows' bytes, behind the constant's.
fn load_rows(bytes: &[u8], n: usize, rows: usize, t: &mut [u32])
    requires { (rows ≤ 64) × (n * rows ≤ length bytes.now) × (4 * (1 + n) ≤ length t.old) }
    ensures { Grows 1 (λ j. column 48 bytes.now j n rows)
        (λ j. column 49 bytes.now j n rows) n t.old t.new }
{
    for j in (0..n).step_by(64) {
        load_columns(bytes, j, (n - j).min(64), n, rows, t);
    }
}

// Every row where a reset differs from a code, else none.
fn rows_but(reset: u32, code: u32) -> u64
    ensures { result ≡ every_row (other code reset) }
{
    if reset == code {
        return 0;
    }
    FULL
}

// The latches' planes, by their resets, behind those of `before` variables: in every row the same. A latch whose
// reset is its own literal may be both.
fn load_resets(resets: &[u32], before: usize, n: usize, t: &mut [u32])
    requires { (n ≤ length resets.now) × (4 * (before + n) ≤ length t.old) }
    ensures { Grows before (λ j. every_row (other 0 (get_or resets.now j 0)))
        (λ j. every_row (other 1 (get_or resets.now j 0))) n t.old t.new }
{
    for j in 0..n {
        let reset = resets[j];
        let one = rows_but(reset, 0);
        let zero = rows_but(reset, 1);
        put_planes(one, zero, 4 * (before + j), t);
    }
}

// A gate may be 1 where both sides may, and 0 where either may: the And of 64 rows, without a test on a value.
fn put_gate(a: Lit, b: Lit, to: usize, t: &mut [u32])
    requires there { There (word_of a) t.old }
    requires there_2 { There (word_of b) t.old }
    requires to_in_bounds { to + 4 ≤ length t.old }
    ensures { t.new ≡ put t.old to
        (plane_words (gate_planes t.old (word_of a) (word_of b))) }
{
    let one = plane_of(t, a) & plane_of(t, b);
    let zero = plane_of(t, a.negated()) | plane_of(t, b.negated());
    put_planes(one, zero, to, t);
}

// The planes of n gates, whose variables run on from `before`.
fn sweep_lanes(gates: &[u32], n: usize, before: usize, t: &mut [u32])
    requires { Sweeps gates.now n before t.old }
    ensures { Swept gates.now n before t.old t.new }
{
    for i in 0..n {
        let a = Lit::at(gates[3 * i + 1]);
        let b = Lit::at(gates[3 * i + 2]);
        put_gate(a, b, 4 * (before + i), t);
    }
}

// One step of all rows from the resets. Of the words it asks the length alone.
pub fn step_lanes(
    n: Counts,
    gates: &[u32],
    resets: &[u32],
    bytes: &[u8],
    rows: usize,
    t: &mut [u32],
)
    requires { Ready n gates.now resets.now bytes.now rows t.old }
    ensures { (x : Tables) → Runs n (both x gates.now resets.now)
        → Holds n (circuit_of n (both x gates.now resets.now)) bytes.now rows
        t.new }
{
    // the constant
    put_planes(0, FULL, 0, t);
    load_rows(bytes, n.I, rows, t);
    load_resets(resets, 1 + n.I, n.L, t);
    sweep_lanes(gates, n.A, 1 + n.I + n.L, t);
}

// The bytes of a plane, as column j of a block.
fn put_bytes(plane: u64, j: usize, block: &mut [u8])
    requires { (j < 64) × (512 ≤ length block.old) }
    ensures { Striped (byte_of plane) j 64 8 block.old block.new }
{
    for g in 0..8 {
        block[64 * g + j] = ((plane >> (8 * g)) % 256) as u8;
    }
}

// The planes of w literals of a table, from the one of column `from` on, as blocks: where each may be 1, and where
// it may be both.
fn pack(
    table: &[u32],
    start: usize,
    stride: usize,
    from: usize,
    w: usize,
    t: &[u32],
    ones: &mut [u8],
    boths: &mut [u8],
)
    requires shows { Shows table.now start stride (from + w) t.now }
    requires w_nonzero { (0 < w) × (w ≤ 64) × (512 ≤ length ones.old) × (512 ≤ length boths.old) }
    ensures packed { Packed (λ j. plane_at t.now (literal_at table.now start stride (from + j))) w
        ones.new }
    ensures packed_2 { Packed (λ j. both_at t.now (literal_at table.now start stride (from + j))) w
        boths.new }
{
    for j in 0..w {
        let l = Lit::at(table[stride * (from + j) + start]);
        let one = plane_of(t, l);
        let both = one & plane_of(t, l.negated());
        put_bytes(one, j, ones);
        put_bytes(both, j, boths);
    }
}

// A byte's bit in a lane, by a sum instead of a test: 127 and the bit, where it is lit, make 128 or more.
fn lane_of(byte: u8, lane: usize) -> u8
    requires { lane < 8 }
    ensures { result ≡ bit lane byte }
{
    ((byte & (1u8 << lane)) + 127) / 128
}

// The codes of w columns in one row, whose bits are those in a lane of the bytes from `from` on.
fn put_codes(
    ones: &[u8],
    boths: &[u8],
    from: usize,
    lane: usize,
    w: usize,
    to: usize,
    out: &mut [u8],
)
    requires lane_bound { lane < 8 }
    requires w_in_bounds { (from + w ≤ length ones.now) × (from + w ≤ length boths.now) × (to + w ≤ length out.old) }
    ensures { Written (λ j. code_by (get_or ones.now (from + j) 0)
        (get_or boths.now (from + j) 0) lane) to w out.old out.new }
{
    for j in 0..w {
        let one = lane_of(ones[from + j], lane);
        let both = lane_of(boths[from + j], lane);
        out[to + j] = 48 + one + 71 * both;
    }
}

// The codes of a block in each row, which go to the columns from `from` on.
fn put_block(
    ones: &[u8],
    boths: &[u8],
    from: usize,
    w: usize,
    n: usize,
    rows: usize,
    out: &mut [u8],
)
    requires block { Block from w n rows out.old }
    requires in_bounds { (512 ≤ length ones.now) × (512 ≤ length boths.now) }
    ensures { Blocked (λ k j. code_by (get_or ones.now (64 * (k / 8) + j) 0)
        (get_or boths.now (64 * (k / 8) + j) 0) (k % 8)) from w n rows out.old
        out.new }
{
    for k in 0..rows {
        put_codes(ones, boths, 64 * (k / 8), k % 8, w, n * k + from, out);
    }
}

// The codes of w literals of a table in each row.
fn store_block(
    table: &[u32],
    start: usize,
    stride: usize,
    from: usize,
    w: usize,
    n: usize,
    rows: usize,
    t: &[u32],
    out: &mut [u8],
)
    requires shows { Shows table.now start stride (from + w) t.now }
    requires block { Block from w n rows out.old }
    ensures { Blocked (λ k j. code_at t.now k (literal_at table.now start stride (from + j)))
        from w n rows out.old out.new }
{
    let mut ones: [u8; 512] = [0; 512];
    let mut boths: [u8; 512] = [0; 512];
    pack(table, start, stride, from, w, t, &mut ones, &mut boths);
    put_block(&ones, &boths, from, w, n, rows, out);
}

// The codes of n literals of a table in each row, n bytes a row.
pub fn store_rows(
    table: &[u32],
    start: usize,
    stride: usize,
    n: usize,
    rows: usize,
    t: &[u32],
    out: &mut [u8],
)
    requires shows { Shows table.now start stride n t.now }
    requires rows_bound { (rows ≤ 64) × (length out.old ≡ n * rows) }
    ensures { out.new ≡ codes_of table.now start stride n rows t.now }
{
    for j in (0..n).step_by(64) {
        store_block(table, start, stride, j, (n - j).min(64), n, rows, t, out);
    }
}

// The lanes that have a row.
fn mask_of(rows: usize) -> u64
    requires { rows ≤ 64 }
    ensures { result ≡ 2 ^ rows - 1 }
{
    if rows == 64 {
        return FULL;
    }
    (1u64 << rows) - 1
}

// The rows of a plane: each lane word's count of ones, added up, with spare lanes masked off.
fn rows_in(plane: u64, mask: u64) -> u32
    ensures { result ≡ ones (bit_and plane mask) }
{
    let kept = plane & mask;
    u32::count_ones(low(kept)) + u32::count_ones(high(kept))
}

// The rows in which a literal is 0, 1 and x.
fn count_literal(t: &[u32], l: Lit, mask: u64, at: usize, report: &mut [u32])
    requires there { There (word_of l) t.now }
    requires at_in_bounds { at + 3 ≤ length report.old }
    ensures { report.new ≡ put report.old at (counts_at t.now mask (word_of l)) }
{
    let one = plane_of(t, l);
    let zero = plane_of(t, l.negated());
    let both = one & zero;
    report[at] = rows_in(zero ^ both, mask);
    report[at + 1] = rows_in(one ^ both, mask);
    report[at + 2] = rows_in(both, mask);
}

// Per output the rows at 0, at 1 and at x.
pub fn count_rows(outputs: &[u32], n: usize, rows: usize, t: &[u32], report: &mut [u32])
    requires shows { Shows outputs.now 0 1 n t.now }
    requires rows_bound { rows ≤ 64 }
    requires n_in_bounds { 3 * n ≤ length report.old }
    ensures { report.new ≡ put report.old 0
        (counts_of outputs.now n (2 ^ rows - 1) t.now) }
{
    let mask = mask_of(rows);
    for j in 0..n {
        count_literal(t, Lit::at(outputs[j]), mask, 3 * j, report);
    }
}
