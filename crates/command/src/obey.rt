// What a command does to a card, whatever mode it came in: the checks of the lock and of the
// argument, the tags that it leaves, the next link, and what it changes in what is lent.
//
// Offers: `act`.
ghost use Rattle.std.specs.Prelude.{◌≡◌};
ghost use Rattle.command.specs.Obey.{drops_tags, passes_lock, erase_tagging, tagging_of, judged_of, reset_told, state_at, awaited_by, address_after, length_after, obeyed, change_of, acted_of};

use crate::arguments::argument_fault;
use crate::{Acted, Change, Met};
use base::PROTECTION_GROUP;
use card_record::Link;
use moves::Class;
use states::{Column, Incoming, Outgoing, State};
use status::{ErrorBit, Errors};
use tags::{Kind, Tagging, Tags};
use wire::Command;

// Whether a command other than the erase commands drops tags.
fn drops_tags(index: u8) -> bool
    ensures { result ≡ drops_tags index }
{
    !matches!(index, 0 | 13 | 32 | 33 | 35 | 36 | 38)
}

// Check 5: whether a card takes a command in spite of its lock. Of the block reads, CMD16 to 18, the
// first alone does: it sets the block length, and reads nothing. It is asked for by `<=`, since with
// `==` the compiler copies what a command does once more for CMD16, 125 bytes.
#[tactic(auto, unfolding(moves::specs::Classes::class_of))]
fn passes_lock(locked: bool, index: u8) -> bool
    ensures { result ≡ passes_lock locked index }
{
    if !locked || index == 42 {
        return true;
    }
    match moves::class_of(index) {
        Class::Basic => true,
        Class::BlockRead => index <= 16,
        _ => false,
    }
}

// CMD38: it needs a start and an end, and leaves no tags.
fn erase_tagging(tags: Tags) -> Tagging
    ensures { result ≡ erase_tagging tags }
{
    if !tags::complete(tags) {
        return tags::failed(ErrorBit::EraseSeqError);
    }
    Tagging {
        tags: tags::no_tags(),
        error: None,
    }
}

// Check 6 with the tags that a command leaves.
#[tactic(auto, unfolding(crate::specs::Obey::tagging_of))]
fn tagging(link: Link, size: u32, command: Command) -> Tagging
    ensures { result ≡ tagging_of link size command.index command.argument }
{
    let held = link.tags;
    let argument = command.argument;
    match command.index {
        13 => Tagging {
            tags: held,
            error: None,
        },
        32 => tags::tag_start(Kind::Sectors, argument, size),
        33 => tags::tag_end(held, Kind::Sectors, argument, size),
        35 => tags::tag_start(Kind::Groups, argument, size),
        36 => tags::tag_end(held, Kind::Groups, argument, size),
        38 => erase_tagging(held),
        _ => Tagging {
            tags: tags::no_tags(),
            error: argument_fault(command, card_record::read_length(link.length), size),
        },
    }
}

// Checks 5 and 6, with the tags that the command leaves.
#[tactic(auto, unfolding(crate::specs::Obey::judged_of))]
fn judge(link: Link, groups: u16, locked: bool, command: Command) -> Tagging
    ensures { result ≡ judged_of link groups locked command.index command.argument }
{
    if !passes_lock(locked, command.index) {
        return tags::failed(ErrorBit::LockUnlockFailed);
    }
    tagging(link, card_record::size(groups), command)
}

// The error bits with 13 where the command drops tags.
#[tactic(auto, unfolding(crate::specs::Obey::reset_told))]
fn reset_told(link: Link, index: u8) -> Errors
    ensures { result ≡ reset_told link index }
{
    if drops_tags(index) && tags::any(link.tags) {
        status::set(link.errors, ErrorBit::EraseReset)
    } else {
        link.errors
    }
}

// The state of a column: in data and rcv it is the one that carries the work.
fn state_at(column: Column, work: State) -> State
    ensures { result ≡ state_at column work }
{
    match column {
        Column::Idle => State::Idle,
        Column::Ready => State::Ready,
        Column::Ident => State::Ident,
        Column::Stby => State::Stby,
        Column::Tran => State::Tran,
        Column::Data | Column::Rcv => work,
        Column::Prg => State::Prg,
        Column::Dis => State::Dis,
        Column::Ina => State::Ina,
    }
}

// The work that a command begins; any other goes on with what there is.
#[tactic(auto, unfolding(crate::specs::Obey::awaited_by))]
fn awaited_by(command: Command, state: State) -> State
    ensures { result ≡ awaited_by command.index command.argument state }
{
    let argument = command.argument;
    match command.index {
        17 => State::Data(Outgoing::One(argument)),
        18 => State::Data(Outgoing::Many(argument)),
        24 => State::Rcv(Incoming::One(argument)),
        25 => State::Rcv(Incoming::Many(argument)),
        30 => State::Data(Outgoing::Protection(argument / PROTECTION_GROUP)),
        42 => State::Rcv(Incoming::LockRequest),
        9 => State::Data(Outgoing::Csd),
        10 => State::Data(Outgoing::Cid),
        _ => state,
    }
}

fn address_after(command: Command, address: u16) -> u16
    ensures { result ≡ address_after command.index command.argument address }
{
    if command.index == 3 {
        return (command.argument / 65536) as u16;
    }
    address
}

fn length_after(command: Command, length: u16) -> u16
    ensures { result ≡ length_after command.index command.argument length }
{
    if command.index == 16 {
        return (command.argument % 65536) as u16;
    }
    length
}

// A command without a fault obeyed: it leads to a column, and leaves these tags.
#[tactic(auto, unfolding(crate::specs::Obey::obeyed))]
fn obey(link: Link, command: Command, column: Column, tags: Tags) -> Link
    ensures { result ≡ obeyed link command.index command.argument column tags }
{
    Link {
        state: state_at(column, awaited_by(command, link.state)),
        address: address_after(command, link.address),
        length: length_after(command, link.length),
        tags,
        ..link
    }
}

// What a command without a fault changes in what is lent.
#[tactic(auto, unfolding(crate::specs::Obey::change_of))]
fn change_of(command: Command) -> Change
    ensures { result ≡ change_of command.index command.argument }
{
    let argument = command.argument;
    match command.index {
        28 => Change::Protect {
            group: argument / PROTECTION_GROUP,
            on: true,
        },
        29 => Change::Protect {
            group: argument / PROTECTION_GROUP,
            on: false,
        },
        38 => Change::Erase,
        _ => Change::Nothing,
    }
}

// What a taken command does, which the table leads to a column: CMD0 resets; with a fault the
// command only tells its bit, else it is obeyed.
#[tactic(auto, unfolding(crate::specs::Obey::acted_of, crate::specs::Obey::after_checks))]
pub fn act(link: Link, met: Met, command: Command, column: Column) -> Acted
    ensures answer { result ≡ acted_of link met command.index command.argument column }
{
    if command.index == 0 {
        return Acted {
            link: card_record::fresh(),
            errors: status::none(),
            change: Change::Nothing,
        };
    }
    let judged = judge(link, met.groups, met.locked, command);
    let errors = reset_told(link, command.index);
    let tags = judged.tags;
    match judged.error {
        None => Acted {
            link: obey(link, command, column, tags),
            errors,
            change: change_of(command),
        },
        Some(bit) => Acted {
            link: Link { tags, ..link },
            errors: status::set(errors, bit),
            change: Change::Nothing,
        },
    }
}
