// The calls of one card for C that are never given a frame or a block. A record crosses in four parts,
// which mmc.h puts together as one: thirteen numbers, and the bytes of the CID, the CSD and the password
// (crates/crossing). The promise of each call of a card says all that it leaves: its number, each lent
// number and byte, and that the parts then stand for the card's next record, so that a row of calls
// from C is the same row at the card.
ghost use Rattle.firmware.specs.Numbers.{number_told};
ghost use Rattle.std.specs.Prelude.{◌++◌, ◌≡◌, length, get_or, set};
ghost use Rattle.crossing.specs.Record.{card_of, link_numbers, mode_numbers, lock_numbers, numbers_of};
ghost use Rattle.card_record.specs.Making.{made_of};
ghost use Rattle.card_record.specs.Power.{powered_on, worked};
ghost use Rattle.firmware.specs.Answers.{worked_number, fronted};

use crate::answers::number_told;
use crossing::{card_of, tell_card, tell_link_and_lock};

// A card made: 7, 8, 9, 10, 11. A refused make leaves the one record that document 01 lets it
// leave, Inactive and all zeros.
#[unsafe(no_mangle)]
pub extern "C" fn mmc_parts_make(
    numbers: &mut [u32; 13],
    cid: &mut [u8; 16],
    csd: &mut [u8; 16],
    password: &mut [u8; 16],
    identifier: &[u8; 16],
    specifics: &[u8; 16],
    ocr: u32,
    secret: &[u8],
    memory: &[u8],
    map: &[u8],
) -> u8
    ensures answer { let made = made_of identifier.now specifics.now ocr secret.now (length memory.now) map.now in
        result ≡ number_told made.making }
    ensures numbers { let made = made_of identifier.now specifics.now ocr secret.now (length memory.now) map.now in
        (numbers.new ≡ numbers_of made.card)
        × (card_of numbers.new cid.new csd.new password.new ≡ made.card) }
    ensures cid { let made = made_of identifier.now specifics.now ocr secret.now (length memory.now) map.now in
        cid.new ≡ made.card.registers.cid }
    ensures csd { let made = made_of identifier.now specifics.now ocr secret.now (length memory.now) map.now in
        csd.new ≡ made.card.registers.csd }
    ensures password { let made = made_of identifier.now specifics.now ocr secret.now (length memory.now) map.now in
        password.new ≡ made.card.lock.password }
{
    let made = card_record::make(*identifier, *specifics, ocr, secret, memory, map);
    // Each part has a name, since fields read through `made` where they are told cost 91 bytes of code.
    let card = made.card;
    let making = made.making;
    let registers = card.registers;
    let lock = card.lock;
    let made_cid = registers.cid;
    let made_csd = registers.csd;
    let made_password = lock.password;
    tell_card(card, numbers);
    *cid = made_cid;
    *csd = made_csd;
    *password = made_password;
    number_told(making)
}

// Power-on, from any state: never refused.
#[unsafe(no_mangle)]
pub extern "C" fn mmc_parts_power_on(
    numbers: &mut [u32; 13],
    cid: &[u8; 16],
    csd: &[u8; 16],
    password: &[u8; 16],
)
    ensures left { let next = powered_on (card_of numbers.old cid.now csd.now password.now) in
        (numbers.new ≡ fronted (link_numbers next.link ++ mode_numbers next.mode ++ lock_numbers next.lock) numbers.old)
        × (card_of numbers.new cid.now csd.now password.now ≡ next) }
{
    let card = card_of(*numbers, *cid, *csd, *password);
    let next = card_record::power_on(card);
    tell_link_and_lock(next.link, next.mode, next.lock, numbers);
}

// Work done: never refused. The state's number is altered in its place, and no record taken in.
#[unsafe(no_mangle)]
pub extern "C" fn mmc_parts_work_done(
    numbers: &mut [u32; 13],
    cid: &[u8; 16],
    csd: &[u8; 16],
    password: &[u8; 16],
)
    ensures left { let next = worked (card_of numbers.old cid.now csd.now password.now) in
        (numbers.new ≡ set numbers.old 0 (worked_number (get_or numbers.old 0 0)))
        × (card_of numbers.new cid.now csd.now password.now ≡ next) }
{
    // prg to tran, dis to stby.
    match numbers[0] {
        11 => numbers[0] = 4,
        12 => numbers[0] = 3,
        _ => {}
    }
}
