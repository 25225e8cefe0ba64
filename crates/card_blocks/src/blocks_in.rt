// A block in: 12, 15, 16, 17, 18, 19 or 20. A write's block is kept as an array of 512 bytes where it
// is stored, and nowhere else.
ghost use Rattle.std.specs.Prelude.{◌≡◌, ◌≤◌, length, take};
ghost use Rattle.card_blocks.specs.BlockIn.{awaited_length, after_refused, after_stored, with_fault, block_refused, block_good, write_judged, request_judged, carried_out, checked_judged, wrong_length, awaited_judged, unread, state_judged, block_judged, stored_by};
ghost use Rattle.card_blocks.specs.Framing.{unstarted};
ghost use Rattle.store.specs.Lent.{seen};
ghost use Rattle.card_blocks.specs.Lending.{held, Leaves};

use crate::framing::{beside, crc_right, reply, started, unstarted};
use crate::replies::refuse;
use crate::{BlockJudged, Lending, Stepped, Storing};
use base::{Refusal, SECTOR};
use card_record::{Card, Link};
use lock::Answer;
use states::{Incoming, State};
use status::{ErrorBit, Errors};

// The bytes of a sector, as a length.
const SECTOR_LENGTH: usize = SECTOR as usize;

// The bytes that are awaited.
fn awaited_length(card: Card, incoming: Incoming) -> usize
    ensures answer { result ≡ awaited_length card incoming }
{
    match incoming {
        Incoming::One(_) | Incoming::Many(_) => SECTOR_LENGTH,
        Incoming::LockRequest => usize::from(card_record::read_length(card.link.length)),
    }
}

// The block of a write, kept until it is stored: an array of its own, as it must be, where `first_chunk` would lend it.
fn kept(block: &[u8]) -> [u8; 512]
    requires { 512 ≤ length block.now }
    ensures { result ≡ take 512 block.now }
{
    let mut bytes = [0; 512];
    bytes.copy_from_slice(&block[..SECTOR_LENGTH]);
    bytes
}

fn after_refused(incoming: Incoming) -> State
    ensures { result ≡ after_refused incoming }
{
    match incoming {
        Incoming::Many(at) => State::Rcv(Incoming::Many(at)),
        Incoming::One(_) | Incoming::LockRequest => State::Tran,
    }
}

// The state after a block that is stored, with the address behind it.
fn after_stored(incoming: Incoming, next: u32) -> State
    ensures { result ≡ after_stored incoming next }
{
    match incoming {
        Incoming::Many(_) => State::Rcv(Incoming::Many(next)),
        Incoming::One(_) | Incoming::LockRequest => State::Prg,
    }
}

fn with_fault(errors: Errors, fault: Option<ErrorBit>) -> Errors
    ensures { result ≡ with_fault errors fault }
{
    match fault {
        None => errors,
        Some(bit) => status::set(errors, bit),
    }
}

// A refused block: the move and the error bit that document 01 gives it, and nothing stored.
#[tactic(auto, unfolding(crate::specs::BlockIn::block_refused))]
fn block_refused(
    card: Card,
    incoming: Incoming,
    refusal: Refusal,
    fault: Option<ErrorBit>,
) -> BlockJudged
    ensures { result ≡ block_refused card incoming refusal fault }
{
    let link = card.link;
    let state = after_refused(incoming);
    let next = Card {
        link: Link {
            state,
            errors: with_fault(link.errors, fault),
            ..link
        },
        ..card
    };
    BlockJudged {
        stepped: reply(next, Err(refusal)),
        storing: Storing::Nothing,
    }
}

// A good block: the state that it leads to, and what is to be stored.
#[tactic(auto, unfolding(crate::specs::BlockIn::block_good))]
fn block_good(card: Card, state: State, storing: Storing) -> BlockJudged
    ensures { result ≡ block_good card state storing }
{
    let link = card.link;
    let next = Card {
        link: Link { state, ..link },
        ..card
    };
    BlockJudged {
        stepped: reply(next, Ok(None)),
        storing,
    }
}

// A write's block: 18, 19.
#[tactic(auto, unfolding(crate::specs::BlockIn::write_judged))]
fn write_judged(card: Card, incoming: Incoming, sector: u32, map: &[u8]) -> BlockJudged
    ensures { result ≡ write_judged card incoming sector map.now }
{
    let registers = card.registers;
    if card_record::size(registers.groups) / SECTOR <= sector {
        return block_refused(card, incoming, Refusal::PastEnd, Some(ErrorBit::OutOfRange));
    }
    let csd = registers.csd;
    let whole = card_record::csd_protects(csd);
    if store::protected(map, sector, whole) {
        return block_refused(
            card,
            incoming,
            Refusal::Protected,
            Some(ErrorBit::WpViolation),
        );
    }
    let state = after_stored(incoming, sector * SECTOR + SECTOR);
    block_good(card, state, Storing::Sector(sector))
}

// A lock request's block: 20.
fn lock_judged(card: Card, payload: &[u8]) -> BlockJudged
    ensures { result ≡ request_judged card payload.now }
{
    let registers = card.registers;
    let csd = registers.csd;
    let whole = card_record::csd_protects(csd);
    let lock = card.lock;
    let requested = lock::request(lock, payload, whole);
    let changed = requested.lock;
    let next = Card {
        lock: changed,
        ..card
    };
    let answer = requested.answer;
    match answer {
        Answer::Granted => block_good(next, State::Prg, Storing::Nothing),
        Answer::Erased => block_good(next, State::Prg, Storing::All),
        Answer::Failed => block_refused(
            card,
            Incoming::LockRequest,
            Refusal::LockFailed,
            Some(ErrorBit::LockUnlockFailed),
        ),
    }
}

// What a block of the right length with the right CRC16 does. A write is judged by one call, so
// that the compiler copies it in here.
fn carried_out(card: Card, incoming: Incoming, payload: &[u8], map: &[u8]) -> BlockJudged
    ensures { result ≡ carried_out card incoming payload.now map.now }
{
    match incoming {
        Incoming::One(at) | Incoming::Many(at) => write_judged(card, incoming, at / SECTOR, map),
        Incoming::LockRequest => lock_judged(card, payload),
    }
}

// An awaited block of the right length behind its start byte: 17.
#[tactic(auto, unfolding(crate::specs::BlockIn::checked_judged))]
fn checked_judged(card: Card, incoming: Incoming, block: &[u8], map: &[u8]) -> BlockJudged
    requires { (3 ≤ length block.now) × (length block.now ≤ 2050) }
    ensures { result ≡ checked_judged card incoming block.now map.now }
{
    if !crc_right(card.mode, block) {
        return block_refused(card, incoming, Refusal::BlockCrc, None);
    }
    let n = block.len() - 2;
    carried_out(card, incoming, &block[..n], map)
}

// An awaited block: 16.
#[tactic(auto, unfolding(crate::specs::BlockIn::awaited_judged))]
fn awaited_judged(card: Card, incoming: Incoming, block: &[u8], map: &[u8]) -> BlockJudged
    ensures { result ≡ awaited_judged card incoming block.now map.now }
{
    let spi = card.mode.spi;
    if block.len() != awaited_length(card, incoming) + beside(spi) || !started(spi, block) {
        return wrong_length(card, incoming);
    }
    checked_judged(card, incoming, unstarted(spi, block), map)
}

fn wrong_length(card: Card, incoming: Incoming) -> BlockJudged
    ensures { result ≡ wrong_length card incoming }
{
    block_refused(
        card,
        incoming,
        Refusal::BlockLength,
        Some(ErrorBit::BlockLenError),
    )
}

fn unread(card: Card, refusal: Refusal) -> BlockJudged
    ensures { result ≡ unread card refusal }
{
    BlockJudged {
        stepped: refuse(card, refusal),
        storing: Storing::Nothing,
    }
}

// Whether a block is awaited at all: 15.
fn state_judged(card: Card, state: State, block: &[u8], map: &[u8]) -> BlockJudged
    ensures { result ≡ state_judged card state block.now map.now }
{
    match state {
        State::Rcv(incoming) => awaited_judged(card, incoming, block, map),
        _ => unread(card, Refusal::NoBlock),
    }
}

// What was judged carried out on the memory and the map.
fn store(storing: Storing, block: &[u8], lent: &mut Lending)
    ensures { Leaves lent.old lent.new (stored_by block.now storing (held lent.old)) }
{
    match storing {
        Storing::Nothing => {}
        Storing::Sector(sector) => {
            if SECTOR_LENGTH <= block.len() {
                let bytes = kept(block);
                store::write_sector(lent.memory, sector, &bytes);
            }
        }
        Storing::All => {
            store::fill_all(lent.memory);
            store::clear_map(lent.map);
        }
    }
}

// A block in at a card that is lent what is its own: judged, memory's contents unread, then stored.
pub fn taken_in(card: Card, block: &[u8], lent: &mut Lending) -> Stepped
    ensures answer { result ≡ (state_judged card card.link.state block.now (held lent.old).map).stepped }
    ensures lent { Leaves lent.old lent.new (stored_by (unstarted card.mode.spi block.now) (state_judged card card.link.state block.now (held lent.old).map).storing (held lent.old)) }
{
    let link = card.link;
    let state = link.state;
    let judged = state_judged(card, state, block, lent.map());
    let storing = judged.storing;
    let given = unstarted(card.mode.spi, block);
    store(storing, given, lent);
    judged.stepped
}

// A block in: 12 before all else.
pub fn block_in(card: Card, block: &[u8], lent: &mut Lending) -> Stepped
    ensures answer { result ≡ (block_judged card block.now (seen (held lent.old))).stepped }
    ensures lent { Leaves lent.old lent.new (stored_by (unstarted card.mode.spi block.now) (block_judged card block.now (seen (held lent.old))).storing (held lent.old)) }
{
    match lent.check(card.registers.groups as usize) {
        Ok(()) => taken_in(card, block, lent),
        Err(refusal) => refuse(card, refusal),
    }
}
