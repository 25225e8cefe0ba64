// A script as hex text: pairs of hex digits; `#` begins a comment, up to the line's end; spaces may
// stand anywhere. As `./run` reads it: anything else, and an odd number of digits in a line, is wrong.
//
// Offers: `Wrong`, `digit`, `decode`.
ghost use Rattle.std.specs.Prelude.{◌≤◌, ◌<◌, length, IfOk, IfSome};

use std::fmt;

// What is wrong with a text, and in which line.
#[derive(Clone, Copy, Debug, PartialEq, Eq)]
pub enum Wrong {
    OddDigits { line: u64 },
    NoDigit { line: u64 },
    TooLong { line: u64 },
}

impl fmt::Display for Wrong {
    fn fmt<W: fmt::Write>(&self, f: &mut fmt::Formatter<W>) -> fmt::Result {
        match self {
            Wrong::OddDigits { line } => { write!(f, "an odd number of hex digits in line {line}") }
            Wrong::NoDigit { line } => write!(f, "no hex digit in line {line}"),
            Wrong::TooLong { line } => write!(f, "too long at line {line}"),
        }
    }
}

// What a hex digit stands for.
pub fn digit(b: u8) -> Option<u8>
    ensures { IfSome result (λ d. d < 16) }
{
    let d = char::from(b).to_digit(16)?;
    Some(d as u8)
}

// The bytes of a text at the front of `out`: how many. Behind a text that is wrong no byte counts.
pub fn decode(text: &[u8], out: &mut [u8]) -> Result<usize, Wrong>
    ensures within { IfOk result (λ n. n ≤ length out.old) }
{
    let mut n = 0;
    for (digits, line) in text.split(|b| *b == b'\n').zip(1u64..) {
        n = decode_line(digits, line, out, n)?;
    }
    Ok(n)
}

// The bytes of one line, stored from `from` on: the place after them.
fn decode_line(text: &[u8], line: u64, out: &mut [u8], from: usize) -> Result<usize, Wrong>
    requires { from ≤ length out.old }
    ensures { IfOk result (λ n. n ≤ length out.old) }
{
    let mut n = from;
    let mut high: Option<u8> = None;
    for b in text.iter().take_while(|b| **b != b'#') {
        if matches!(b, b' ' | b'\t' | b'\r') {
            continue;
        }
        let d = digit(*b).ok_or(Wrong::NoDigit { line })?;
        let Some(h) = high.take() else {
            high = Some(d);
            continue;
        };
        let Some(place) = out.get_mut(n) else {
            return Err(Wrong::TooLong { line });
        };
        *place = h * 16 + d;
        n += 1;
    }
    if high.is_some() {
        return Err(Wrong::OddDigits { line });
    }
    Ok(n)
}
