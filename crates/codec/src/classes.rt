// The six classes of bytes (the paper, text form).
ghost use Rattle.std.specs.Prelude.{◌≡◌, eqb, get_or};
ghost use Rattle.plan.specs.Bytes.{class_of, digit_class};

use plan::Class;

// This match alone decides what a byte is: it is the leaf of every reader of a file's lines.
pub fn class_of(b: u8) -> Class
    ensures { result ≡ class_of b }
{
    match b {
        10 => Class::Line,
        32 => Class::Space,
        48 => Class::Zero,
        49..=57 => Class::Digit,
        33..=126 => Class::Print,
        _ => Class::Rest,
    }
}

// Whether a byte stands after a number's first digit, where 0 is a digit like the others. The lowest bit is set before the class is asked,
// as it turns 0 into 1 and makes no digit of another byte: to guess whether the next digit is a 0 is dear, and every tenth time wrong.
pub fn is_digit(b: u8) -> bool
    ensures { result ≡ digit_class (class_of b) }
{
    match class_of(b | 1) {
        Class::Digit => true,
        Class::Zero => false,
        Class::Line => false,
        Class::Space => false,
        Class::Print => false,
        Class::Rest => false,
    }
}

// Whether a byte stands at a position. Past the end 0 is read, which stands nowhere.
pub fn stands(file: &[u8], at: usize, b: u8) -> bool
    ensures { result ≡ eqb (get_or file.now at 0) b }
{
    if file.len() <= at {
        return 0 == b;
    }
    file[at] == b
}
