// The bytes of what a card sends.
//
// Offers: `write_sent`.
ghost use Rattle.std.specs.Prelude.{◌≡◌};
ghost use Rattle.base.specs.Output.{fits, laid};
ghost use Rattle.card_record.specs.Sending.{spi_r3_bytes, sent_bytes, sent_written};

use crate::{Registers, Sent};
use base::{Refusal, lay};
use wire::{R1, R2, R3};

// R3 of SPI: R1's byte, and the OCR as R3 of MMC mode has it.
#[tactic(auto, unfolding(wire::specs::Responses::r3_frame))]
fn write_spi_r3(first: u8, ocr: u32, out: &mut [u8]) -> Result<usize, Refusal>
    ensures answer { result ≡ fits (spi_r3_bytes first ocr) out.old }
    ensures output { out.new ≡ laid result (spi_r3_bytes first ocr) out.old }
{
    let [a, b, c, d] = wire::ocr_bytes(ocr);
    lay(&[first, a, b, c, d], out)
}

// What a card sends, written as the writers of `wire` write it.
#[tactic(auto, unfolding(crate::specs::Sending::sent_bytes, crate::specs::Sending::sent_written))]
pub fn write_sent(registers: Registers, sent: Sent, out: &mut [u8]) -> Result<usize, Refusal>
    ensures answer { result ≡ sent_written registers sent out.old }
    ensures output { out.new ≡ laid result (sent_bytes registers sent) out.old }
{
    match sent {
        Sent::Nothing => Ok(0),
        Sent::Status { index, status } => wire::write_r1(R1 { index, status }, out),
        // A register is named first: the borrow checker takes an array into a literal by a variable alone.
        Sent::Cid => {
            let register = registers.cid;
            wire::write_r2(R2 { register }, out)
        }
        Sent::Csd => {
            let register = registers.csd;
            wire::write_r2(R2 { register }, out)
        }
        Sent::Ocr => wire::write_r3(R3 { ocr: registers.ocr }, out),
        Sent::SpiR1(first) => lay(&[first], out),
        Sent::SpiR2 { first, second } => lay(&[first, second], out),
        Sent::SpiR3(first) => write_spi_r3(first, registers.ocr, out),
        Sent::DataResponse(response) => lay(&[response], out),
    }
}
