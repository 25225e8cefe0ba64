// A unit at its own calls: made, written and read. No group of its memory is protected.
//
// Offers: `made`, `exchanged`, `command`.
use crate::say;
use card::Call;
use card_blocks::Lending;
use card_record::Card;

// A unit whose memory of 8,192 bytes is erased and that has no password.
pub fn made(cid: [u8; 16]) -> Card {
    let csd = [0, 0, 0, 0, 0, 0, 0, 0, 0, 0, 0, 0, 0, 0, 0, 1];
    let memory = [0xFFu8; 8192];
    let map = [0u8; 1];
    let made = card_record::make(cid, csd, 0x00FF_8000, b"", &memory, &map);
    made.card
}

// A block is written and read again: CMD16 and its length, CMD24, the block, work done; CMD17, the block.
pub fn exchanged(rt: &impl Print, before: Card) -> Card {
    let mut memory = [0xFFu8; 8192];
    let mut out = [0u8; 514];
    let frame = Call::Frame {
        wins: true,
        selected: false,
    };
    let card = called(before, frame, &command(16, 512), &mut memory, &mut out);
    let card = called(card, frame, &command(24, 0), &mut memory, &mut out);
    let card = called(card, Call::BlockIn, &block(), &mut memory, &mut out);
    let card = called(card, Call::WorkDone, b"", &mut memory, &mut out);
    let card = called(card, frame, &command(17, 0), &mut memory, &mut out);
    let card = called(card, Call::BlockOut, b"", &mut memory, &mut out);
    say::read(rt, out);
    card
}

fn called(card: Card, call: Call, input: &[u8], memory: &mut [u8], out: &mut [u8]) -> Card {
    let map = &mut [0u8; 1];
    card::step(card, call, input, &mut Lending { memory, map }, out).card
}

pub fn command(index: u8, argument: u32) -> [u8; 6] {
    let mut frame = [0u8; 6];
    let _ = wire::write_command(index, argument, &mut frame);
    frame
}

fn block() -> [u8; 514] {
    let mut block = [0u8; 514];
    let _ = wire::write_block(&[0x5Au8; 512], &mut block);
    block
}
