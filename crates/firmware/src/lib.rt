// What a unit's C firmware links: the check sums, command frames and data blocks, and one card with
// its calls, each with the C interface (a slice is a pointer and a length). A call answers 0, or the
// number that document 01 gives its refusal; no call asks anything of its caller but lent memory
// that is there. mmc.h has the declarations, and the card's record as one struct.
//
// Offers: `mmc_crc7`, `mmc_crc16`, `mmc_read_frame`, `mmc_write_command`, `mmc_write_block`,
// `mmc_check_block`; `mmc_parts_make`, `mmc_parts_power_on`, `mmc_parts_work_done`,
// `mmc_parts_frame`, `mmc_parts_block_in`, `mmc_parts_block_out`.
#![tactic(auto)]

mod answers;
mod blocks;
mod calls;
mod frames;

ghost use Rattle.std.specs.Prelude.{◌≡◌};
ghost use Rattle.base.specs.Output.{laid};
ghost use Rattle.crc.specs.Crc.{crc7, crc16};
ghost use Rattle.wire.specs.Blocks.{block_of, block_written, checked_of};
ghost use Rattle.wire.specs.Frames.{command_frame, indexed, frame_of};
ghost use Rattle.firmware.specs.Numbers.{number_told, index_read, argument_read};

use answers::number_told;
pub use blocks::{mmc_parts_block_in, mmc_parts_block_out};
pub use calls::{mmc_parts_make, mmc_parts_power_on, mmc_parts_work_done};
pub use frames::mmc_parts_frame;

// The CRC7 of any bytes.
#[unsafe(no_mangle)]
pub extern "C" fn mmc_crc7(bytes: &[u8]) -> u8
    ensures answer { result ≡ crc7 bytes.now }
{
    crc::crc7(bytes)
}

// The CRC16 of any bytes.
#[unsafe(no_mangle)]
pub extern "C" fn mmc_crc16(bytes: &[u8]) -> u16
    ensures answer { result ≡ crc16 bytes.now }
{
    crc::crc16(bytes)
}

// A command frame read: 1, 2, 3. A refused frame leaves both lent numbers as they were.
#[unsafe(no_mangle)]
pub extern "C" fn mmc_read_frame(frame: &[u8], index: &mut u8, argument: &mut u32) -> u8
    ensures answer { let read = frame_of frame.now in
        result ≡ number_told read }
    ensures index { let read = frame_of frame.now in
        index.new ≡ index_read read index.old }
    ensures argument { let read = frame_of frame.now in
        argument.new ≡ argument_read read argument.old }
{
    match wire::read_frame(frame) {
        Ok(command) => {
            *index = command.index;
            *argument = command.argument;
            0
        }
        Err(refusal) => base::number(refusal),
    }
}

// A command frame written to the front of `out`: 4, 6.
#[unsafe(no_mangle)]
pub extern "C" fn mmc_write_command(index: u8, argument: u32, out: &mut [u8]) -> u8
    ensures answer { let frame = command_frame index argument in
        let written = indexed index frame out.old in
        result ≡ number_told written }
    ensures output { let frame = command_frame index argument in
        let written = indexed index frame out.old in
        out.new ≡ laid written frame out.old }
{
    number_told(wire::write_command(index, argument, out))
}

// A block written to the front of `out`: 5, 6.
#[unsafe(no_mangle)]
pub extern "C" fn mmc_write_block(payload: &[u8], out: &mut [u8]) -> u8
    ensures answer { let written = block_written payload.now out.old in
        result ≡ number_told written }
    ensures output { let written = block_written payload.now out.old in
        out.new ≡ laid written (block_of payload.now) out.old }
{
    number_told(wire::write_block(payload, out))
}

// A block checked: 5, 17.
#[unsafe(no_mangle)]
pub extern "C" fn mmc_check_block(block: &[u8]) -> u8
    ensures answer { result ≡ number_told (checked_of block.now) }
{
    number_told(wire::check_block(block))
}
