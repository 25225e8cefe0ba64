// What goes over the wire (document 01, "Frames and blocks"): command frames read and written,
// the responses R1, R2 and R3 written from what they mean, the last byte of a register, and data
// blocks written and checked. No call has a `requires`: what is wrong is refused by its number.
//
// Offers: `Fields`, `unframe`; `Command`, `read_frame`, `write_command`; `R1`, `R2`, `R3`,
// `write_r1`, `write_r2`, `ocr_bytes`, `write_r3`; `last_byte`, `register_right`; `LONGEST_BLOCK`, `write_block`, `check_block`.
#![tactic(auto)]

ghost use Rattle.std.specs.Prelude.{◌≡◌, ◌++◌, ◌<◌};
ghost use Rattle.base.specs.Output.{fits, laid};
ghost use Rattle.crc.specs.Bits.{bits_of, octets};
ghost use Rattle.wire.specs.Blocks.{block_of, block_written, checked_of};
ghost use Rattle.wire.specs.Frames.{sealed, indexed_frame, command_frame, indexed, framing_of, frame_of};
ghost use Rattle.wire.specs.Responses.{r1_frame, r2_frame, ocr_bytes, r3_frame, last_byte, register_right};

use base::{Refusal, lay};

// The fields of a frame whose length and framing bits are right, and the outcome of its CRC7.
#[derive(Clone, Copy)]
pub struct Fields {
    pub index: u8,
    pub argument: u32,
    pub crc_right: bool,
}

// What a frame with a right CRC7 commands. The index stays a number: any may come, and the definitions speak of it (`acted_of`).
#[derive(Clone, Copy)]
pub struct Command {
    pub index: u8,
    pub argument: u32,
}

// What each response means.
#[derive(Clone, Copy)]
pub struct R1 {
    pub index: u8,
    pub status: u32,
}

#[derive(Clone, Copy)]
pub struct R2 {
    pub register: [u8; 16],
}

#[derive(Clone, Copy)]
pub struct R3 {
    pub ocr: u32,
}

// The most bytes that a data block carries.
pub const LONGEST_BLOCK: usize = 2048;

// With its CRC16 behind it.
const LONGEST_CHECKED: usize = LONGEST_BLOCK + 2;

// A frame's length and framing bits tested (1, 2), each bit for itself, with its CRC7 looked at and
// not yet judged: whoever takes commands with the CRC off starts here.
#[tactic(auto, unfolding(crate::specs::Frames::framing_of))]
pub fn unframe(frame: &[u8]) -> Result<Fields, Refusal>
    ensures answer { result ≡ framing_of frame.now }
{
    let &[first, a, b, c, d, last] = frame else {
        return Err(Refusal::FrameLength);
    };
    if first / 128 != 0 || first / 64 % 2 != 1 || last % 2 != 1 {
        return Err(Refusal::FrameBits);
    }
    let argument = u32::from_be_bytes([a, b, c, d]);
    let sum = crc::crc7_frame(first, argument);
    Ok(Fields {
        index: first % 64,
        argument,
        crc_right: last / 2 == sum,
    })
}

// A command frame read: 1, 2, 3.
#[tactic(auto, unfolding(crate::specs::Frames::frame_of))]
pub fn read_frame(frame: &[u8]) -> Result<Command, Refusal>
    ensures answer { result ≡ frame_of frame.now }
{
    let fields = unframe(frame)?;
    if !fields.crc_right {
        return Err(Refusal::FrameCrc);
    }
    Ok(Command {
        index: fields.index,
        argument: fields.argument,
    })
}

// The byte that closes a CID or a CSD, and any bytes so: the CRC7 of those before it, and a 1.
pub fn last_byte(body: &[u8]) -> u8
    ensures answer { result ≡ last_byte body.now }
{
    crc::crc7(body) * 2 + 1
}

// Whether the last byte of a CID or a CSD is right.
#[tactic(auto, unfolding(crate::specs::Responses::register_right))]
pub fn register_right(register: [u8; 16]) -> bool
    ensures answer { result ≡ register_right register }
{
    register[15] == last_byte(&register[..15])
}

// The six bytes of a frame: the first, four of a 32-bit number, and the byte that closes them.
fn frame48(first: u8, word: u32) -> [u8; 6]
    ensures { result ≡ octets 6 (sealed (bits_of 8 first ++ bits_of 32 word)) }
{
    let [a, b, c, d] = word.to_be_bytes();
    [first, a, b, c, d, crc::crc7_frame(first, word) * 2 + 1]
}

// A frame that has an index written, behind its transmission bit: 4, 6.
fn write_indexed(transmission: u8, index: u8, word: u32, out: &mut [u8]) -> Result<usize, Refusal>
    requires { transmission < 2 }
    ensures answer { result ≡ indexed index (indexed_frame transmission index word) out.old }
    ensures output { out.new ≡ laid result (indexed_frame transmission index word) out.old }
{
    if 63 < index {
        return Err(Refusal::Index);
    }
    lay(&frame48(transmission * 64 + index, word), out)
}

// A command frame written: 4, 6.
#[tactic(auto, unfolding(crate::specs::Frames::command_frame))]
pub fn write_command(index: u8, argument: u32, out: &mut [u8]) -> Result<usize, Refusal>
    ensures answer { result ≡ indexed index (command_frame index argument) out.old }
    ensures output { out.new ≡ laid result (command_frame index argument) out.old }
{
    write_indexed(1, index, argument, out)
}

// R1 written: 4, 6.
#[tactic(auto, unfolding(crate::specs::Responses::r1_frame))]
pub fn write_r1(r1: R1, out: &mut [u8]) -> Result<usize, Refusal>
    ensures answer { result ≡ indexed r1.index (r1_frame r1) out.old }
    ensures output { out.new ≡ laid result (r1_frame r1) out.old }
{
    write_indexed(0, r1.index, r1.status, out)
}

// R2 written: 6.
pub fn write_r2(r2: R2, out: &mut [u8]) -> Result<usize, Refusal>
    ensures answer { result ≡ fits (r2_frame r2) out.old }
    ensures output { out.new ≡ laid result (r2_frame r2) out.old }
{
    if out.len() < 17 {
        return Err(Refusal::OutputShort);
    }
    let register = r2.register;
    out[0] = 0x3F;
    out[1..17].copy_from_slice(&register);
    Ok(17)
}

// The four bytes of the OCR in an answer: bit 31 is set.
pub fn ocr_bytes(ocr: u32) -> [u8; 4]
    ensures answer { result ≡ ocr_bytes ocr }
{
    let [a, b, c, d] = ocr.to_be_bytes();
    [128 + a % 128, b, c, d]
}

// R3 written: 6.
#[tactic(auto, unfolding(crate::specs::Responses::r3_frame))]
pub fn write_r3(r3: R3, out: &mut [u8]) -> Result<usize, Refusal>
    ensures answer { result ≡ fits (r3_frame r3) out.old }
    ensures output { out.new ≡ laid result (r3_frame r3) out.old }
{
    let [a, b, c, d] = ocr_bytes(r3.ocr);
    lay(&[0x3F, a, b, c, d, 0xFF], out)
}

// A block written: 5, 6.
#[tactic(auto, unfolding(crate::specs::Blocks::block_written))]
pub fn write_block(payload: &[u8], out: &mut [u8]) -> Result<usize, Refusal>
    ensures answer { result ≡ block_written payload.now out.old }
    ensures output { out.new ≡ laid result (block_of payload.now) out.old }
{
    let n = payload.len();
    if n < 1 || LONGEST_BLOCK < n {
        return Err(Refusal::PayloadLength);
    }
    if out.len() < n + 2 {
        return Err(Refusal::OutputShort);
    }
    out[..n].copy_from_slice(payload);
    let sum = crc::crc16(payload);
    out[n..n + 2].copy_from_slice(&sum.to_be_bytes());
    Ok(n + 2)
}

// A block checked: 5, 17. A good one is answered by how many bytes of payload it carries.
#[tactic(auto, unfolding(crate::specs::Blocks::checked_of))]
pub fn check_block(block: &[u8]) -> Result<usize, Refusal>
    ensures answer { result ≡ checked_of block.now }
{
    let n = block.len();
    if n < 3 || LONGEST_CHECKED < n {
        return Err(Refusal::PayloadLength);
    }
    let m = n - 2;
    let told = u16::from_be_bytes([block[m], block[n - 1]]);
    let sum = crc::crc16(&block[..m]);
    if told == sum {
        Ok(m)
    } else {
        Err(Refusal::BlockCrc)
    }
}
