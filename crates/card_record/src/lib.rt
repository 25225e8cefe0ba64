// The record of one card (document 01, "How a card takes a frame"), nested so that a command takes
// only the small part that it changes; how a card is made, powered on, and told that its work is
// done; and what it sends of it. Any value of the record may come in, so no call has a `requires`.
//
// Offers: `Registers`, `Link`, `Mode`, `Card`; `size`, `csd_protects`, `read_length`, `crosses`, `fresh`,
// `mmc_mode`; `power_on`, `work_done`; `Made`, `make`, `refused_make`; `Sent`, `write_sent`.
#![tactic(auto)]

mod sending;

ghost use Rattle.std.specs.Prelude.{◌≡◌, length};
ghost use Rattle.card_record.specs.Making.{refused_make, failed_make, password_made, made_of};
ghost use Rattle.card_record.specs.Power.{fresh_link, mmc_mode, powered_on, worked_state, worked};
ghost use Rattle.card_record.specs.Record.{size_of, csd_protects, length_read, crosses};

use base::{PROTECTION_GROUP, Refusal};
use lock::Lock;
pub use sending::write_sent;
use states::State;
use status::Errors;
use tags::Tags;

// What a card is made with and keeps: CID, CSD, OCR, and the size of its memory, in protection
// groups, so that every size is a multiple of 8,192.
#[derive(Clone, Copy)]
pub struct Registers {
    pub cid: [u8; 16],
    pub csd: [u8; 16],
    pub ocr: u32,
    pub groups: u16,
}

// What commands change: the state with what it waits for, the card's address on the bus, the block
// length, the error bits that wait to be reported, the erase tags.
#[derive(Clone, Copy)]
pub struct Link {
    pub state: State,
    pub address: u16,
    pub length: u16,
    pub errors: Errors,
    pub tags: Tags,
}

// How a card is spoken to: in MMC mode or in SPI, and there whether it checks CRCs. In MMC mode it
// always does, and `checks` is off. Two flags, since C tells any two, and both come back (`mode_of`).
#[derive(Clone, Copy)]
pub struct Mode {
    pub spi: bool,
    pub checks: bool,
}

#[derive(Clone, Copy)]
pub struct Card {
    pub registers: Registers,
    pub lock: Lock,
    pub link: Link,
    pub mode: Mode,
}

// A made card, or the refusal and one fixed record: document 01 has a refused make leave that one.
#[derive(Clone, Copy)]
pub struct Made {
    pub card: Card,
    pub making: Result<(), Refusal>,
}

// What a card sends: nothing; in MMC mode R1, R2 with the CID or the CSD, R3; in SPI R1, R2, R3 with
// R1's byte in front of the OCR, and a data response.
#[derive(Clone, Copy)]
pub enum Sent {
    Nothing,
    Status { index: u8, status: u32 },
    Cid,
    Csd,
    Ocr,
    SpiR1(u8),
    SpiR2 { first: u8, second: u8 },
    SpiR3(u8),
    DataResponse(u8),
}

// The block length after a reset (document 02, request 2).
const DEFAULT_LENGTH: u16 = 2048;

// The sizes of document 01, in the types that they are used in here.
const LONGEST_BLOCK: u16 = wire::LONGEST_BLOCK as u16;

const READ_BLOCK: u64 = base::READ_BLOCK as u64;

// The bytes of a memory of so many protection groups.
pub fn size(groups: u16) -> u32
    ensures answer { result ≡ size_of groups }
{
    u32::from(groups) * PROTECTION_GROUP
}

// Whether the CSD protects the whole card: its bit 13 or 12.
pub fn csd_protects(csd: [u8; 16]) -> bool
    ensures answer { result ≡ csd_protects csd }
{
    let byte = csd[14];
    byte / 32 % 2 == 1 || byte / 16 % 2 == 1
}

// The block length as it is used: one that no CMD16 sets reads as the longest.
pub fn read_length(length: u16) -> u16
    ensures answer { result ≡ length_read length }
{
    if length < 1 || LONGEST_BLOCK < length {
        LONGEST_BLOCK
    } else {
        length
    }
}

// Whether a block of so many bytes, at least one, lies in two physical read blocks.
pub fn crosses(at: u32, length: u16) -> bool
    ensures answer { result ≡ crosses at length }
{
    READ_BLOCK < u64::from(at) % READ_BLOCK + u64::from(length)
}

// The link after power-on and after CMD0.
#[tactic(auto, unfolding(crate::specs::Power::fresh_link))]
pub fn fresh() -> Link
    ensures answer { result ≡ fresh_link }
{
    Link {
        state: State::Idle,
        address: 1,
        length: DEFAULT_LENGTH,
        errors: status::none(),
        tags: tags::no_tags(),
    }
}

// The mode of a card that was not brought into SPI.
pub fn mmc_mode() -> Mode
    ensures answer { result ≡ mmc_mode }
{
    Mode {
        spi: false,
        checks: false,
    }
}

// Power-on, from any state and out of SPI: never refused.
#[tactic(auto, unfolding(crate::specs::Power::powered_on))]
pub fn power_on(card: Card) -> Card
    ensures answer { result ≡ powered_on card }
{
    Card {
        lock: lock::powered(card.lock),
        link: fresh(),
        mode: mmc_mode(),
        ..card
    }
}

fn worked_state(state: State) -> State
    ensures { result ≡ worked_state state }
{
    match state {
        State::Prg => State::Tran,
        State::Dis => State::Stby,
        _ => state,
    }
}

// Work done: never refused.
#[tactic(auto, unfolding(crate::specs::Power::worked))]
pub fn work_done(card: Card) -> Card
    ensures answer { result ≡ worked card }
{
    let link = card.link;
    Card {
        link: Link {
            state: worked_state(link.state),
            ..link
        },
        ..card
    }
}

// The record that a refused make returns, and that a place of a bus holds where no card is.
#[tactic(auto, unfolding(crate::specs::Making::refused_make))]
pub fn refused_make() -> Card
    ensures answer { result ≡ refused_make }
{
    Card {
        registers: Registers {
            cid: [0; 16],
            csd: [0; 16],
            ocr: 0,
            groups: 0,
        },
        lock: lock::no_password(),
        link: Link {
            state: State::Ina,
            address: 0,
            length: 0,
            errors: status::none(),
            tags: tags::no_tags(),
        },
        mode: mmc_mode(),
    }
}

fn fail(refusal: Refusal) -> Made
    ensures { result ≡ failed_make refusal }
{
    Made {
        card: refused_make(),
        making: Err(refusal),
    }
}

// A card made with a CID, a CSD, an OCR and a password, and lent a memory and a map: 7, 8, 9, 10, 11.
#[tactic(auto, unfolding(crate::specs::Making::made_of))]
pub fn make(
    cid: [u8; 16],
    csd: [u8; 16],
    ocr: u32,
    password: &[u8],
    memory: &[u8],
    map: &[u8],
) -> Made
    ensures answer { result ≡ made_of cid csd ocr password.now (length memory.now) map.now }
{
    if !store::size_allowed(memory.len()) {
        return fail(Refusal::MemorySize);
    }
    let groups = memory.len() / store::PROTECTION_GROUP;
    if !store::map_right(map, groups) {
        return fail(Refusal::Map);
    }
    if !wire::register_right(cid) || !wire::register_right(csd) {
        return fail(Refusal::RegisterLastByte);
    }
    if ocr % 0x100_0000 == 0 {
        return fail(Refusal::Ocr);
    }
    with_password(
        Registers {
            cid,
            csd,
            ocr,
            groups: groups as u16,
        },
        password,
    )
}

// The last of the checks of making, 11, and the card.
#[tactic(auto, unfolding(crate::specs::Making::password_made))]
fn with_password(registers: Registers, password: &[u8]) -> Made
    ensures { result ≡ password_made registers password.now }
{
    match lock::make(password) {
        Ok(lock) => Made {
            card: Card {
                registers,
                lock,
                link: fresh(),
                mode: mmc_mode(),
            },
            making: Ok(()),
        },
        Err(refusal) => fail(refusal),
    }
}
