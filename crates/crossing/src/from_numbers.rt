// The record that numbers and bytes stand for. Any numbers stand for one, so that no call asks
// anything of them: a number that is wider than its field counts by its low bits, a state or tags of
// no name read as Inactive and as none, and a flag is set by every number but 0, so that damage opens
// no card.
ghost use Rattle.std.specs.Prelude.{◌≡◌, ℕ, ◌<◌, ◌≤◌};
ghost use Rattle.crossing.specs.Record.{state_of, tags_by, groups_of, locked_of, link_of, mode_of, registers_of, card_of};

use card_record::{Card, Link, Mode, Registers};
use lock::Lock;
use states::{Incoming, Outgoing, State};
use status::Errors;
use tags::{Kind, Range, Tags};

// Numbers for kinds, here and below, since C holds a record so (mmc.h; `state_of`, `tags_by`).
// The states that carry no work, up to Transfer: whatever place stands beside the number.
#[tactic(auto, unfolding(crate::specs::Record::state_of))]
fn at_rest(number: u32) -> State
    requires { number < 5 }
    ensures { (at : ℕ) → result ≡ state_of number at }
{
    match number {
        0 => State::Idle,
        1 => State::Ready,
        2 => State::Ident,
        3 => State::Stby,
        _ => State::Tran,
    }
}

// The states behind Transfer.
#[tactic(auto, unfolding(crate::specs::Record::state_of))]
fn at_work(number: u32, at: u32) -> State
    requires { 5 ≤ number }
    ensures { result ≡ state_of number at }
{
    match number {
        5 => State::Data(Outgoing::One(at)),
        6 => State::Data(Outgoing::Many(at)),
        7 => State::Data(Outgoing::Protection(at)),
        8 => State::Rcv(Incoming::One(at)),
        9 => State::Rcv(Incoming::Many(at)),
        10 => State::Rcv(Incoming::LockRequest),
        11 => State::Prg,
        12 => State::Dis,
        14 => State::Data(Outgoing::Csd),
        15 => State::Data(Outgoing::Cid),
        _ => State::Ina,
    }
}

// By two functions, so that the states that are met most need no jump table.
fn state_of(number: u32, at: u32) -> State
    ensures { result ≡ state_of number at }
{
    if number < 5 {
        return at_rest(number);
    }
    at_work(number, at)
}

#[tactic(auto, unfolding(crate::specs::Record::tags_by))]
fn tags_by(number: u32, first: u32, last: u32) -> Tags
    ensures { result ≡ tags_by number first last }
{
    let range = match number {
        1 => Range::Start(Kind::Sectors, first),
        2 => Range::Start(Kind::Groups, first),
        3 => Range::Full(Kind::Sectors, first, last),
        4 => Range::Full(Kind::Groups, first, last),
        _ => Range::Nothing,
    };
    Tags { range }
}

// The size of the memory, in protection groups.
pub fn groups_of(numbers: [u32; 13]) -> u16
    ensures answer { result ≡ groups_of numbers }
{
    (numbers[11] % 65536) as u16
}

pub fn locked_of(numbers: [u32; 13]) -> bool
    ensures answer { result ≡ locked_of numbers }
{
    numbers[9] != 0
}

// The link of the first eight numbers.
#[tactic(auto, unfolding(crate::specs::Record::link_of))]
pub fn link_of(numbers: [u32; 13]) -> Link
    ensures answer { result ≡ link_of numbers }
{
    Link {
        state: state_of(numbers[0], numbers[1]),
        address: (numbers[2] % 65536) as u16,
        length: (numbers[3] % 65536) as u16,
        errors: Errors { bits: numbers[4] },
        tags: tags_by(numbers[5], numbers[6], numbers[7]),
    }
}

// The mode of the number behind the link's: bit 0 says SPI, bit 8 that CRCs are checked there. The
// bits stand where the record's two flags stand in memory, so that the number is taken in and told
// by one instruction.
#[tactic(auto, unfolding(crate::specs::Record::mode_of))]
pub fn mode_of(numbers: [u32; 13]) -> Mode
    ensures answer { result ≡ mode_of numbers }
{
    Mode {
        spi: numbers[8] % 2 == 1,
        checks: numbers[8] / 256 % 2 == 1,
    }
}

// The registers of the last two, with the bytes of the CID and the CSD.
#[tactic(auto, unfolding(crate::specs::Record::registers_of))]
pub fn registers_of(numbers: [u32; 13], cid: [u8; 16], csd: [u8; 16]) -> Registers
    ensures answer { result ≡ registers_of numbers cid csd }
{
    Registers {
        cid,
        csd,
        ocr: numbers[12],
        groups: groups_of(numbers),
    }
}

#[tactic(auto, unfolding(crate::specs::Record::card_of, crate::specs::Record::lock_of))]
pub fn card_of(numbers: [u32; 13], cid: [u8; 16], csd: [u8; 16], password: [u8; 16]) -> Card
    ensures answer { result ≡ card_of numbers cid csd password }
{
    Card {
        registers: registers_of(numbers, cid, csd),
        lock: Lock {
            password,
            length: (numbers[10] % 256) as u8,
            locked: locked_of(numbers),
        },
        link: link_of(numbers),
        mode: mode_of(numbers),
    }
}
