// A record told in numbers.
ghost use Rattle.std.specs.Prelude.{◌++◌, ◌≡◌, ◌≤◌, length, take, drop, set};
ghost use Rattle.card_record.specs.Record.{with_errors};
ghost use Rattle.crossing.specs.Record.{outgoing_number, incoming_number, state_number, outgoing_at, incoming_at, place_carried, start_number, full_number, tags_number, last_of, mode_number, link_of, link_numbers, mode_of, mode_numbers, lock_of, lock_numbers, register_numbers, card_of, numbers_of};
ghost use Rattle.tags.specs.Tagging.{first_of};

use card_record::{Card, Link, Mode, Registers};
use lock::Lock;
use states::{Incoming, Outgoing, State};
use status::Errors;
use tags::{Kind, Range};

// Numbers for kinds, here and below, since C holds a record so (mmc.h; `state_number`, `tags_number`).
fn outgoing_number(outgoing: Outgoing) -> u32
    ensures { result ≡ outgoing_number outgoing }
{
    match outgoing {
        Outgoing::One(_) => 5,
        Outgoing::Many(_) => 6,
        Outgoing::Protection(_) => 7,
        Outgoing::Csd => 14,
        Outgoing::Cid => 15,
    }
}

fn incoming_number(incoming: Incoming) -> u32
    ensures { result ≡ incoming_number incoming }
{
    match incoming {
        Incoming::One(_) => 8,
        Incoming::Many(_) => 9,
        Incoming::LockRequest => 10,
    }
}

fn state_number(state: State) -> u32
    ensures { result ≡ state_number state }
{
    match state {
        State::Idle => 0,
        State::Ready => 1,
        State::Ident => 2,
        State::Stby => 3,
        State::Tran => 4,
        State::Data(outgoing) => outgoing_number(outgoing),
        State::Rcv(incoming) => incoming_number(incoming),
        State::Prg => 11,
        State::Dis => 12,
        State::Ina => 13,
    }
}

fn outgoing_at(outgoing: Outgoing) -> u32
    ensures { result ≡ outgoing_at outgoing }
{
    match outgoing {
        Outgoing::One(at) | Outgoing::Many(at) | Outgoing::Protection(at) => at,
        Outgoing::Csd | Outgoing::Cid => 0,
    }
}

fn incoming_at(incoming: Incoming) -> u32
    ensures { result ≡ incoming_at incoming }
{
    match incoming {
        Incoming::One(at) | Incoming::Many(at) => at,
        Incoming::LockRequest => 0,
    }
}

// The place that a state carries, and 0 where it carries none.
fn place_carried(state: State) -> u32
    ensures { result ≡ place_carried state }
{
    match state {
        State::Data(outgoing) => outgoing_at(outgoing),
        State::Rcv(incoming) => incoming_at(incoming),
        _ => 0,
    }
}

fn start_number(kind: Kind) -> u32
    ensures { result ≡ start_number kind }
{
    match kind {
        Kind::Sectors => 1,
        Kind::Groups => 2,
    }
}

fn full_number(kind: Kind) -> u32
    ensures { result ≡ full_number kind }
{
    match kind {
        Kind::Sectors => 3,
        Kind::Groups => 4,
    }
}

fn tags_number(range: Range) -> u32
    ensures { result ≡ tags_number range }
{
    match range {
        Range::Nothing => 0,
        Range::Start(kind, _) => start_number(kind),
        Range::Full(kind, _, _) => full_number(kind),
    }
}

fn first_of(range: Range) -> u32
    ensures { result ≡ first_of range }
{
    match range {
        Range::Nothing => 0,
        Range::Start(_, first) | Range::Full(_, first, _) => first,
    }
}

fn last_of(range: Range) -> u32
    ensures { result ≡ last_of range }
{
    match range {
        Range::Full(_, _, last) => last,
        _ => 0,
    }
}

fn mode_number(mode: Mode) -> u32
    ensures { result ≡ mode_number mode }
{
    u32::from(mode.spi) + 256 * u32::from(mode.checks)
}

// The link's numbers at the front of others, and those behind as they were.
fn put_link(link: Link, numbers: &mut [u32; 13])
    ensures { numbers.new ≡ link_numbers link ++ drop 8 numbers.old }
{
    let range = link.tags.range;
    numbers[0] = state_number(link.state);
    numbers[1] = place_carried(link.state);
    numbers[2] = u32::from(link.address);
    numbers[3] = u32::from(link.length);
    numbers[4] = link.errors.bits;
    numbers[5] = tags_number(range);
    numbers[6] = first_of(range);
    numbers[7] = last_of(range);
}

// The number of the error bits, among the link's.
fn put_errors(errors: Errors, numbers: &mut [u32; 13])
    ensures { numbers.new ≡ set numbers.old 4 errors.bits }
{
    numbers[4] = errors.bits;
}

// The mode's number behind the link's.
fn put_mode(mode: Mode, numbers: &mut [u32; 13])
    ensures { numbers.new ≡ take 8 numbers.old ++ mode_numbers mode ++ drop 9 numbers.old }
{
    numbers[8] = mode_number(mode);
}

// The lock's numbers behind the mode's.
fn put_lock(lock: Lock, numbers: &mut [u32; 13])
    ensures { numbers.new ≡ take 9 numbers.old ++ lock_numbers lock ++ drop 11 numbers.old }
{
    numbers[9] = u32::from(lock.locked);
    numbers[10] = u32::from(lock.length);
}

// The registers' numbers behind the lock's.
#[tactic(auto, unfolding(crate::specs::Record::register_numbers))]
fn put_registers(registers: Registers, numbers: &mut [u32; 13])
    ensures { numbers.new ≡ take 11 numbers.old ++ register_numbers registers ++ drop 13 numbers.old }
{
    numbers[11] = u32::from(registers.groups);
    numbers[12] = registers.ocr;
}

// The first nine numbers told of a link and a mode, and the other four as they were. They then stand
// for the two: its type says of a link that each number is within the width of its field.
pub fn tell_link(link: Link, mode: Mode, numbers: &mut [u32; 13])
    ensures numbers { numbers.new ≡ link_numbers link ++ mode_numbers mode ++ drop 9 numbers.old }
    ensures crossing { (link_of numbers.new ≡ link) × (mode_of numbers.new ≡ mode) }
{
    put_link(link, numbers);
    put_mode(mode, numbers);
}

// One number, told of the error bits, and the other twelve as they were: the link then has these.
pub fn tell_errors(errors: Errors, numbers: &mut [u32; 13])
    ensures numbers { numbers.new ≡ set numbers.old 4 errors.bits }
    ensures crossing { link_of numbers.new ≡ with_errors (link_of numbers.old) errors }
{
    put_errors(errors, numbers);
}

// The first eleven numbers, told of a link, a mode and a lock, and the registers' two as they were.
pub fn tell_link_and_lock(link: Link, mode: Mode, lock: Lock, numbers: &mut [u32; 13])
    ensures numbers { numbers.new ≡ link_numbers link ++ mode_numbers mode ++ lock_numbers lock ++ drop 11 numbers.old }
    ensures crossing { (link_of numbers.new ≡ link) × (mode_of numbers.new ≡ mode) × (lock_of numbers.new lock.password ≡ lock) }
{
    put_link(link, numbers);
    put_mode(mode, numbers);
    put_lock(lock, numbers);
}

// All thirteen numbers, of a record.
pub fn tell_card(card: Card, numbers: &mut [u32; 13])
    ensures numbers { numbers.new ≡ numbers_of card }
    ensures crossing { card_of numbers.new card.registers.cid card.registers.csd card.lock.password ≡ card }
{
    put_link(card.link, numbers);
    put_mode(card.mode, numbers);
    put_lock(card.lock, numbers);
    put_registers(card.registers, numbers);
}
