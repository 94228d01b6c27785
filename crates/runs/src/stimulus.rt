// The lines of standard input: by 13, 1 and 12, and how many (the paper, programs).
ghost use Rattle.std.specs.Prelude.{◌≡◌, ◌<◌, length};
ghost use Rattle.plan.specs.Programs.{stimulus};
ghost use Rattle.plan.specs.Whole.{input_of, counted_by, count_lines};
ghost use Rattle.runs.specs.stimulus.Scan.{ended, scan};

use plan::Refusal;
use step::codes::is_code;

// Whether the last line has its end. No bytes are no line.
fn ends(bytes: &[u8]) -> bool
    ensures { result ≡ ended bytes.now }
{
    let n = bytes.len();
    if n == 0 {
        return true;
    }
    bytes[n - 1] == b'\n'
}

// The lines of `width` codes each, in one pass: past the width of a line only a new line can stand, and before it
// only a code.
fn scan_lines(bytes: &[u8], width: usize) -> Result<usize, Refusal>
    ensures { result ≡ scan width 0 0 bytes.now }
{
    let mut column = 0;
    let mut number = 0;
    for b in bytes {
        if column == width {
            if *b != b'\n' {
                return Err(Refusal::BadVector(2));
            }
            column = 0;
            number += 1;
        } else {
            if !is_code(*b) {
                return Err(Refusal::BadVector(2));
            }
            column += 1;
        }
    }
    Ok(number)
}

// The number of lines: 1 at the length where the last has no end, then 12 (the paper, programs and their output).
pub fn whole_lines(bytes: &[u8], width: usize) -> Result<usize, Refusal>
    ensures { result ≡ counted_by (stimulus width bytes.now) }
{
    if !ends(bytes) {
        return Err(Refusal::WrongByte(bytes.len()));
    }
    scan_lines(bytes, width)
}

// The lines of standard input, each a vector of `width` codes: how many, by 14, 13, 1 and 12.
pub fn count_lines(readable: bool, bytes: &[u8], width: usize) -> Result<usize, Refusal>
    ensures { result ≡ count_lines (input_of readable bytes.now) width }
{
    if !readable {
        return Err(Refusal::Unreadable(0));
    }
    if bytes.len() > 65536 {
        return Err(Refusal::LongInput(65536));
    }
    whole_lines(bytes, width)
}
