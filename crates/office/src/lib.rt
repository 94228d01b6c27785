// What the programs do with files: an input is read whole, as far as a buffer goes, and what was written, or the
// refusal, is printed. A buffer of one byte more than an input may have shows that it has too many.
#![tactic(auto)]

ghost use Rattle.std.specs.Prelude.{◌≡◌, ◌<◌, ◌≤◌, length, take, OnOk};
ghost use Rattle.std.specs.Io.KnownBytes.{Appends, Consumes, IsAtEnd};
ghost use Rattle.office.specs.Came.{could_be_read, came, IfRead, line_shown, shown};

use plan::Refusal;
use std::io::{Read, Write};
use std::rt::Files;
use std::{fs, io};
use tables::lesser;
use write::refusal_line::tell_refusal;

// The bytes of an input from the start of a buffer on: how many came, or none where it can't be read. A read that
// fails, also after others that did not, makes it unreadable: a folder can be opened, and then no byte of it can be
// read. Where it is known which bytes a reader has, those are the ones that came, and all of them unless the buffer
// is full.
pub fn read_input<R: Read>(reader: &mut R, buf: &mut [u8]) -> Option<usize>
    ensures in_bounds { came result ≤ length buf.new }
    ensures bytes { IfRead result (λ n.
        Consumes (R.remaining reader.old) (R.remaining reader.new) (take n buf.new)) }
    ensures end { IfRead result (λ n. n < length buf.new → IsAtEnd (R.remaining reader.new)) }
{
    let mut n = 0;
    while n < buf.len() {
        match reader.read(&mut buf[n..]) {
            Err(_) => return None,
            Ok(0) => return Some(n),
            Ok(more) => n += more,
        }
    }
    Some(n)
}

// The same of the file that a path names. One that can't be opened is unreadable.
pub fn read_file<R: Files>(rt: &R, path: &str, buf: &mut [u8]) -> Option<usize>
    ensures { came result ≤ length buf.new }
{
    let mut file = fs::open(rt, path).ok()?;
    read_input(&mut file, buf)
}

// The input whose name is plan.in, in the folder that a program is run in.
pub fn read_plan<R: Files>(rt: &R, buf: &mut [u8]) -> Option<usize>
    ensures { came result ≤ length buf.new }
{
    read_file(rt, "plan.in", buf)
}

// Whether an input could be read.
pub fn readable(input: Option<usize>) -> bool
    ensures { result ≡ could_be_read input }
{
    input.is_some()
}

// How many bytes of it came.
pub fn size(input: Option<usize>) -> usize
    ensures { result ≡ came input }
{
    input.unwrap_or(0)
}

// Writes the first n bytes of a buffer.
pub fn print<W: Write>(to: &mut W, out: &[u8], n: usize) -> io::Result<()>
    ensures { OnOk result (Appends (W.contents to.old) (W.contents to.new) (take n out.now)) }
{
    let k = lesser(n, out.len());
    to.write_all(&out[0..k])
}

// Writes the line of a refusal.
pub fn refuse<W: Write>(to: &mut W, r: Refusal) -> io::Result<()>
    ensures { OnOk result (Appends (W.contents to.old) (W.contents to.new) (line_shown r)) }
{
    let mut line = [0u8; 64];
    match tell_refusal(r, &mut line) {
        Ok(n) => print(to, &line, n),
        Err(_) => Ok(()),
    }
}

// What was written, or the line of the refusal.
pub fn print_written<W: Write>(
    to: &mut W,
    answer: Result<usize, Refusal>,
    out: &[u8],
) -> io::Result<()>
    ensures { OnOk result (Appends (W.contents to.old) (W.contents to.new) (shown answer out.now)) }
{
    match answer {
        Ok(n) => print(to, out, n),
        Err(r) => refuse(to, r),
    }
}
