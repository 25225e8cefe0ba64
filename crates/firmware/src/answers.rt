// What a call at a card tells C beside the record.
ghost use Rattle.firmware.specs.Numbers.{number_told};
ghost use Rattle.std.specs.Prelude.{◌≡◌, ◌≤◌, length};
ghost use Rattle.firmware.specs.Answers.{leaves_record, byte_sent, fronted, wrote_of};

use base::Refusal;
use card_record::Sent;

// The number of what became of a call, whatever a call that was carried out gives.
pub fn number_told<T: Copy>(answer: Result<T, Refusal>) -> u8
    ensures answer { result ≡ number_told answer }
{
    match answer {
        Ok(_) => 0,
        Err(refusal) => base::number(refusal),
    }
}

// Whether a call that answers this number has left the record as it was: its numbers are then left,
// too, also where they are wider than their fields or stand for nothing.
// It is asked by number, as `leaves_record` of specs/ and mmc.h have it.
pub fn leaves_record(number: u8) -> bool
    ensures answer { result ≡ leaves_record number }
{
    matches!(number, 1 | 2 | 6 | 12 | 15)
}

// How many bytes a block out wrote.
pub fn wrote(outcome: Result<Option<usize>, Refusal>) -> usize
    ensures answer { result ≡ wrote_of outcome }
{
    match outcome {
        Ok(None) => 0,
        Ok(Some(n)) => n,
        Err(_) => 0,
    }
}

// An answer of one byte, as a damaged frame and a block in have in SPI, to the front of an output. The
// answer is how many bytes that is: 0 where nothing is sent, or more than a byte.
pub fn send_byte(sent: Sent, out: &mut [u8]) -> usize
    requires { 1 ≤ length out.old }
    ensures answer { result ≡ length (byte_sent sent) }
    ensures output { out.new ≡ fronted (byte_sent sent) out.old }
{
    match sent {
        Sent::SpiR1(byte) | Sent::DataResponse(byte) => {
            out[0] = byte;
            1
        }
        _ => 0,
    }
}
