// Bits and bytes, CRC7 and CRC16 (document 01, "Frames and blocks"; source 000, 7.1). CRC7 is worked
// from its rule, 40 bits at once (document 02, request 3), CRC16 from a table of the remainders of the
// 256 bytes. Callers see the remainder of the division and nothing of how it is worked.
//
// Offers: `word`; `crc7_frame`, `crc7`, `crc16`.
#![tactic(auto)]

mod remainders16;

ghost use Rattle.std.specs.Prelude.{◌≡◌, [], ◌∷◌, ◌++◌, ◌*◌, ◌/◌, ◌%◌};
ghost use Rattle.std.specs.Int.Bits.{bit_xor};
ghost use Rattle.crc.specs.Bits.{bits_of, bits, spelt};
ghost use Rattle.crc.specs.Crc.{remainder, generator7, crc7, crc16};
ghost use Rattle.crc.specs.Table.{Remainders};

use remainders16::TABLE16;

// The 32 bits of four bytes, highest first: a name that the edit crc7_byte_left_out quotes.
#[tactic(auto, using(crate::proofs::Bits::word_spelt))]
pub fn word(a: u8, b: u8, c: u8, d: u8) -> u32
    ensures answer { result ≡ spelt (bits (a ∷ b ∷ c ∷ d ∷ [])) }
{
    u32::from_be_bytes([a, b, c, d])
}

// The CRC7 of a frame's 40 bits: its first byte, then its argument or status. x^7 + x^3 + 1 is
// x^7 (1 + u), where u is x^-4 + x^-7, so the quotient of the bits times x^7 is the bits over 1 + u:
// the bits times (1 + u^8)(1 + u^4)(1 + u^2)(1 + u), since u^16 moves them all down to nothing. u^2
// is x^-8 + x^-14, and so on: each factor adds the bits, moved down. Of the quotient q seven bits are
// wanted, which leave q + q x^3 below x^7, so 32 bits of each sum are enough: the first byte comes
// into them from above, by the first factor as it is and by the second moved up by 16 and by 4.
pub fn crc7_frame(first: u8, word: u32) -> u8
    ensures answer { result ≡ remainder 7 generator7 (bits_of 8 first ++ bits_of 32 word) }
{
    let high = first as u32;
    let a = word ^ high;
    let b = a ^ (a / 65536) ^ (a / 268435456) ^ (high * 65536 + high * 16);
    let c = b ^ (b / 256) ^ (b / 16384);
    let q = c ^ (c / 16) ^ (c / 128);
    ((q ^ (q % 16 * 8)) % 128) as u8
}

// The CRC7 of any bytes: five at once, as of a frame, and what is over one by one, each as 40 bits that
// begin with zeros. The seven bits so far meet the next byte.
pub fn crc7(bytes: &[u8]) -> u8
    ensures answer { result ≡ crc7 bytes.now }
{
    let mut sum: u8 = 0;
    let mut rest = bytes;
    while let [byte, tail @ ..] = rest {
        let met = (sum * 2) ^ byte;
        let (first, four, behind) = match tail {
            [b, c, d, e, behind @ ..] => (met, word(*b, *c, *d, *e), behind),
            _ => (0, met as u32, tail),
        };
        sum = crc7_frame(first, four);
        rest = behind;
    }
    sum
}

// The table by its rule: what a loop takes before it starts, since a constant is built anew wherever
// it is named. (A `static` costs 8.5 instructions a byte, this 8.)
fn table16() -> [u16; 256]
    ensures { Remainders crc16 result }
{
    TABLE16
}

// One byte more: the high byte so far meets the byte, the low byte moves up.
fn step16(table: &[u16; 256], sum: u16, b: u8) -> u16
    requires { Remainders crc16 table.now }
    ensures { result ≡ bit_xor (crc16 (bit_xor (sum / 256) b ∷ [])) (sum % 256 * 256) }
{
    table[((sum / 256) as u8 ^ b) as usize] ^ (sum % 256 * 256)
}

// The CRC16 of any bytes.
pub fn crc16(bytes: &[u8]) -> u16
    ensures answer { result ≡ crc16 bytes.now }
{
    let table = table16();
    let mut sum: u16 = 0;
    for &b in bytes {
        sum = step16(&table, sum, b);
    }
    sum
}
