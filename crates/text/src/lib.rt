// The text that programs print, written into a lent output. No call has a `requires`: where an output
// is too short, `hex` and `decimal` are refused 6 and leave it as it was, and what lines are put
// together of, in page.rt, and whole lines, in lines.rt, are written as far as there is room. parts.rt
// has parts of bytes.
//
// Offers: `hex`, `decimal`; `page`, `lines`, `parts`.
#![tactic(auto)]

pub mod lines;
pub mod page;
pub mod parts;

ghost use Rattle.std.specs.Prelude.{◌≡◌, ◌<◌, ◌≤◌, drop};
ghost use Rattle.base.specs.Output.{fits, laid};
ghost use Rattle.text.specs.Text.{digit_of, hex_of, decimal_of};

use base::{Refusal, lay};
use itoa::Buffer;
use page::Page;

// The hex digit of a number below 16. (The library's `char::from_digit` gives small letters.)
fn digit(d: u8) -> u8
    requires { d < 16 }
    ensures { result ≡ digit_of d }
{
    if d < 10 { b'0' + d } else { b'A' - 10 + d }
}

// Two upper-case hex digits for each byte. The test divides, since twice a length may be past the
// largest number.
pub fn hex(bytes: &[u8], out: &mut [u8]) -> Result<usize, Refusal>
    ensures answer { result ≡ fits (hex_of bytes.now) out.old }
    ensures output { out.new ≡ laid result (hex_of bytes.now) out.old }
{
    if out.len() / 2 < bytes.len() {
        return Err(Refusal::OutputShort);
    }
    let mut page = Page { out, at: 0 };
    page.hex(bytes);
    Ok(page.at)
}

// The decimal digits of `n`, with no leading zeros.
#[tactic(auto, using(crate::proofs::Digits::written))]
pub fn decimal(n: u64, out: &mut [u8]) -> Result<usize, Refusal>
    ensures answer { result ≡ fits (decimal_of n) out.old }
    ensures output { out.new ≡ laid result (decimal_of n) out.old }
{
    lay(Buffer::new().format(n).as_bytes(), out)
}
