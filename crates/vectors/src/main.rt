// Runs the worked examples of the paper and of the AIGER report, and writes what came of each. The arguments are
// three words for each: what is asked, the example's file, and the file of its vectors where it is to be stepped.
#![tactic(auto)]

ghost use Rattle.std.specs.Prelude.{◌≤◌, length};

use codec::differences;
use making::{convert_whole, reduce_whole};
use plan::{Counts, Refusal, Version};
use runs::trace;
use std::env::FillError;
use std::io::{self, Write};
use std::rt::{Env, Files};
use std::str;
use step::values;
use tables::lesser;
use whole::ordered;

// No table and no list of examples here is longer.
const MOST: usize = 1000;

fn say<W: Write>(to: &mut W, text: &[u8]) -> io::Result<()> {
    to.write_all(text)
}

fn say_number<W: Write>(to: &mut W, n: u64) -> io::Result<()> {
    write!(to, " {n}")
}

fn say_word<W: Write>(to: &mut W, x: u32) -> io::Result<()> {
    say_number(to, x as u64)
}

fn say_byte<W: Write>(to: &mut W, x: u8) -> io::Result<()> {
    write!(to, " {x:02x}")
}

// The first n words of a table.
fn say_table<W: Write>(to: &mut W, t: &[u32], n: usize) -> io::Result<()> {
    for word in t.iter().take(n) {
        say_word(to, *word)?;
    }
    Ok(())
}

// The first n bytes of a buffer, in hexadecimal.
fn say_bytes<W: Write>(to: &mut W, bytes: &[u8], n: usize) -> io::Result<()> {
    for byte in bytes.iter().take(n) {
        say_byte(to, *byte)?;
    }
    Ok(())
}

fn say_written<W: Write>(to: &mut W, answer: Result<usize, Refusal>, out: &[u8]) -> io::Result<()> {
    match answer {
        Err(r) => office::refuse(to, r),
        Ok(n) => {
            say(to, b"bytes")?;
            say_bytes(to, out, n)?;
            say(to, b"\n")
        }
    }
}

fn say_counts<W: Write>(to: &mut W, n: Counts) -> io::Result<()> {
    say_number(to, n.M as u64)?;
    say_number(to, n.I as u64)?;
    say_number(to, n.L as u64)?;
    say_number(to, n.O as u64)?;
    say_number(to, n.A as u64)
}

// Tables 1 to 4 of a circuit.
fn say_circuit<W: Write>(
    to: &mut W,
    n: Counts,
    inputs: &[u32],
    latches: &[u32],
    outputs: &[u32],
    gates: &[u32],
) -> io::Result<()> {
    let l = lesser(n.L, MOST);
    let a = lesser(n.A, MOST);
    say(to, b" inputs")?;
    say_table(to, inputs, n.I)?;
    say(to, b" latches")?;
    say_table(to, latches, l + l)?;
    say(to, b" outputs")?;
    say_table(to, outputs, n.O)?;
    say(to, b" gates")?;
    say_table(to, gates, a + a + a)
}

// What the reader leaves: M I L O A, tables 1 to 4, and where the tail starts; the examples are those of 2007.
fn show_tables<W: Write>(to: &mut W, file: &[u8]) -> io::Result<()> {
    let mut inputs = [0u32; 64];
    let mut latches = [0u32; 64];
    let mut outputs = [0u32; 64];
    let mut gates = [0u32; 64];
    let mut resets = [0u32; 64];
    let mut bads = [0u32; 64];
    let mut constraints = [0u32; 64];
    let mut scratch = [0u32; 256];
    match read::load(
        Version::V19,
        file,
        &mut inputs,
        &mut latches,
        &mut outputs,
        &mut gates,
        &mut resets,
        &mut bads,
        &mut constraints,
        &mut scratch,
    ) {
        Err(r) => office::refuse(to, r),
        Ok((n, tail)) => {
            say(to, b"accepted")?;
            say_counts(to, n)?;
            say_circuit(to, n, &inputs, &latches, &outputs, &gates)?;
            say(to, b" tail")?;
            say_number(to, tail as u64)?;
            say(to, b"\n")
        }
    }
}

// The bytes of the file's other form.
fn show_converted<W: Write>(to: &mut W, file: &[u8]) -> io::Result<()> {
    let mut inputs = [0u32; 64];
    let mut latches = [0u32; 64];
    let mut outputs = [0u32; 64];
    let mut gates = [0u32; 64];
    let mut resets = [0u32; 64];
    let mut bads = [0u32; 64];
    let mut constraints = [0u32; 64];
    let mut made_inputs = [0u32; 64];
    let mut made_latches = [0u32; 64];
    let mut made_outputs = [0u32; 64];
    let mut made_gates = [0u32; 64];
    let mut made_resets = [0u32; 64];
    let mut made_bads = [0u32; 64];
    let mut made_constraints = [0u32; 64];
    let mut scratch = [0u32; 256];
    let mut out = [0u8; 512];
    let answer = convert_whole(
        true,
        file,
        &mut inputs,
        &mut latches,
        &mut outputs,
        &mut gates,
        &mut resets,
        &mut bads,
        &mut constraints,
        &mut made_inputs,
        &mut made_latches,
        &mut made_outputs,
        &mut made_gates,
        &mut made_resets,
        &mut made_bads,
        &mut made_constraints,
        &mut scratch,
        &mut out,
    );
    say_written(to, answer, &out)
}

// The bytes of the file reduced.
fn show_reduced<W: Write>(to: &mut W, file: &[u8]) -> io::Result<()> {
    let mut inputs = [0u32; 64];
    let mut latches = [0u32; 64];
    let mut outputs = [0u32; 64];
    let mut gates = [0u32; 64];
    let mut resets = [0u32; 64];
    let mut bads = [0u32; 64];
    let mut constraints = [0u32; 64];
    let mut made_inputs = [0u32; 64];
    let mut made_latches = [0u32; 64];
    let mut made_outputs = [0u32; 64];
    let mut made_gates = [0u32; 64];
    let mut made_resets = [0u32; 64];
    let mut made_bads = [0u32; 64];
    let mut made_constraints = [0u32; 64];
    let mut scratch = [0u32; 256];
    let mut out = [0u8; 512];
    let answer = reduce_whole(
        true,
        file,
        &mut inputs,
        &mut latches,
        &mut outputs,
        &mut gates,
        &mut resets,
        &mut bads,
        &mut constraints,
        &mut made_inputs,
        &mut made_latches,
        &mut made_outputs,
        &mut made_gates,
        &mut made_resets,
        &mut made_bads,
        &mut made_constraints,
        &mut scratch,
        &mut out,
    );
    say_written(to, answer, &out)
}

// The bytes before the first zero, which is in no line of a trace.
fn before_zero(bytes: &[u8]) -> usize {
    for (i, byte) in bytes.iter().enumerate() {
        if *byte == 0 {
            return i;
        }
    }
    bytes.len()
}

// A part of a run from the resets.
fn trace_first(
    n: Counts,
    inputs: &[u32],
    latches: &[u32],
    outputs: &[u32],
    gates: &[u32],
    resets: &[u32],
    bads: &[u32],
    constraints: &[u32],
    scratch: &mut [u32],
    state: &mut [u8],
    vectors: &[u8],
    out: &mut [u8],
) -> Result<usize, Refusal> {
    values::first_state(resets, state);
    trace::trace(
        n,
        inputs,
        latches,
        outputs,
        gates,
        resets,
        bads,
        constraints,
        scratch,
        state,
        vectors,
        out,
    )
}

// The lines of a converted circuit's steps, from the resets.
fn say_lines<W: Write>(
    to: &mut W,
    n: Counts,
    inputs: &[u32],
    latches: &[u32],
    outputs: &[u32],
    gates: &[u32],
    resets: &[u32],
    bads: &[u32],
    constraints: &[u32],
    scratch: &mut [u32],
    vectors: &[u8],
) -> io::Result<()> {
    let mut state = [b'0'; 64];
    let mut out = [0u8; 512];
    let l = lesser(n.L, 64);
    match trace_first(
        n,
        inputs,
        latches,
        outputs,
        gates,
        resets,
        bads,
        constraints,
        scratch,
        &mut state[0..l],
        vectors,
        &mut out,
    ) {
        Err(r) => office::refuse(to, r),
        Ok(_) => {
            say(to, b"steps\n")?;
            office::print(to, &out, before_zero(&out))
        }
    }
}

fn show_lines<W: Write>(to: &mut W, file: &[u8], vectors: &[u8]) -> io::Result<()> {
    let mut inputs = [0u32; 64];
    let mut latches = [0u32; 64];
    let mut outputs = [0u32; 64];
    let mut gates = [0u32; 64];
    let mut resets = [0u32; 64];
    let mut bads = [0u32; 64];
    let mut constraints = [0u32; 64];
    let mut made_inputs = [0u32; 64];
    let mut made_latches = [0u32; 64];
    let mut made_outputs = [0u32; 64];
    let mut made_gates = [0u32; 64];
    let mut made_resets = [0u32; 64];
    let mut made_bads = [0u32; 64];
    let mut made_constraints = [0u32; 64];
    let mut scratch = [0u32; 256];
    match ordered::open_whole(
        true,
        file,
        &mut inputs,
        &mut latches,
        &mut outputs,
        &mut gates,
        &mut resets,
        &mut bads,
        &mut constraints,
        &mut made_inputs,
        &mut made_latches,
        &mut made_outputs,
        &mut made_gates,
        &mut made_resets,
        &mut made_bads,
        &mut made_constraints,
        &mut scratch,
    ) {
        Err(r) => office::refuse(to, r),
        Ok(n) => say_lines(
            to,
            n,
            &made_inputs,
            &made_latches,
            &made_outputs,
            &made_gates,
            &made_resets,
            &made_bads,
            &made_constraints,
            &mut scratch,
            vectors,
        ),
    }
}

// A difference's value, and its bytes as they are written.
fn show_difference<W: Write>(to: &mut W, bytes: &[u8]) -> io::Result<()> {
    match differences::read_difference(bytes, 0) {
        Err(r) => office::refuse(to, r),
        Ok((d, _)) => {
            let mut out = [0u8; 8];
            say(to, b"value")?;
            say_word(to, d)?;
            say(to, b" ")?;
            let answer = differences::write_difference(&mut out, 0, d);
            say_written(to, answer, &out)
        }
    }
}

// What is asked is told by the first letter of its word.
fn show<W: Write>(to: &mut W, asked: u8, file: &[u8], vectors: &[u8]) -> io::Result<()> {
    match asked {
        b't' => show_tables(to, file),
        b'c' => show_converted(to, file),
        b'r' => show_reduced(to, file),
        b'l' => show_lines(to, file, vectors),
        _ => show_difference(to, file),
    }
}

// The bytes of the file that an argument names, as far as the buffer goes.
fn read_named<R: Env + Files>(rt: &R, at: usize, bytes: &mut [u8]) -> usize
    ensures { result ≤ length bytes.new }
{
    let mut name = [0u8; 64];
    let n = argument(rt, at, &mut name);
    match str::from_utf8(&name[..n]) {
        Ok(path) => office::size(office::read_file(rt, path, bytes)),
        Err(_) => 0,
    }
}

// How many bytes an argument puts at the start of a buffer: none if it is missing or has no room.
fn argument<R: Env>(rt: &R, at: usize, word: &mut [u8]) -> usize
    ensures { result ≤ length word.new }
{
    rt.arg(at, word).unwrap_or(0)
}

// How many arguments there are with the program's name, as far as the examples go.
fn count_arguments<R: Env>(rt: &R) -> usize {
    let mut word = [0u8; 64];
    for at in 0..MOST * 3 {
        if let Err(FillError::NotPresent) = rt.arg(at, &mut word) {
            return at;
        }
    }
    MOST * 3
}

// An argument, and what stands after it; its first letter.
fn say_argument<R: Env, W: Write>(rt: &R, to: &mut W, at: usize, after: &[u8]) -> io::Result<u8> {
    let mut word = [0u8; 64];
    let n = argument(rt, at, &mut word);
    say(to, &word[..n])?;
    say(to, after)?;
    Ok(word[0])
}

fn example<R: Env + Files, W: Write>(rt: &R, to: &mut W, k: usize) -> io::Result<()>
    requires { k ≤ 1000 }
{
    let at = k + k + k + 1;
    let mut file = [0u8; 512];
    let mut vectors = [0u8; 512];
    let asked = say_argument(rt, to, at, b" ")?;
    say_argument(rt, to, at + 1, b": ")?;
    let n = read_named(rt, at + 1, &mut file);
    let m = read_named(rt, at + 2, &mut vectors);
    show(to, asked, &file[0..n], &vectors[0..m])
}

fn main(rt: HostRuntime) -> io::Result<()> {
    let count = lesser(count_arguments(&rt) / 3, MOST);
    for k in 0..count {
        example(&rt, &mut rt.stdout(), k)?;
    }
    Ok(())
}
