// How a block is framed, by mode: in SPI a start byte comes before it, its CRC16 counts once CRC
// checking is on, and a data response follows a block in.
ghost use Rattle.std.specs.Prelude.{◌≡◌, ◌≤◌, length};
ghost use Rattle.card_blocks.specs.BlockIn.{block_replied};
ghost use Rattle.card_blocks.specs.Framing.{beside, started, unstarted, crc_right, response_to};

use crate::{Reply, Stepped};
use base::Refusal;
use card_record::{Card, Mode, Sent};

pub const START: u8 = 0xFE;

const ACCEPTED: u8 = 0x05;

const CRC_WRONG: u8 = 0x0B;

// The bytes of a block beside its payload.
pub fn beside(spi: bool) -> usize
    ensures { result ≡ beside spi }
{
    if spi { 3 } else { 2 }
}

// Whether a block begins as it must.
pub fn started(spi: bool, block: &[u8]) -> bool
    ensures { result ≡ started spi block.now }
{
    !spi || block.first() == Some(&START)
}

// A block without its start byte.
pub fn unstarted(spi: bool, block: &[u8]) -> &[u8]
    ensures { result.now ≡ unstarted spi block.now }
{
    match block {
        [_, rest @ ..] if spi => rest,
        _ => block,
    }
}

// Whether the CRC16 of a payload of 1 to 2,048 bytes lets it pass.
pub fn crc_right(mode: Mode, block: &[u8]) -> bool
    requires { (3 ≤ length block.now) × (length block.now ≤ 2050) }
    ensures { result ≡ crc_right mode block.now }
{
    mode.spi && !mode.checks || wire::check_block(block).is_ok()
}

fn response_to(spi: bool, outcome: Result<Option<usize>, Refusal>) -> Sent
    ensures { result ≡ response_to spi outcome }
{
    if !spi {
        return Sent::Nothing;
    }
    match outcome {
        Ok(None) => Sent::DataResponse(ACCEPTED),
        Err(Refusal::BlockCrc) => Sent::DataResponse(CRC_WRONG),
        _ => Sent::Nothing,
    }
}

// What became of a block that was awaited, with its data response.
pub fn reply(card: Card, outcome: Result<Option<usize>, Refusal>) -> Stepped
    ensures { result ≡ block_replied card outcome }
{
    let sent = response_to(card.mode.spi, outcome);
    Stepped {
        card,
        reply: Reply { outcome, sent },
    }
}
