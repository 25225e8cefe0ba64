// How a card takes a command (document 01, "How a card takes a frame" and "Reading, writing,
// erasing, locking"): a command is an index and an argument, however it came in. What a command
// does to a card stands in obey.rt, whatever the mode; which commands are taken, what they answer
// and which error bits they clear, as MMC mode has it, stands here. No call has a `requires`.
//
// Offers: `Met`, `met_by`, `Change`, `Acted`, `act`; a command in two steps, `Decided`, `decide`,
// `leaves_alone`, and `Commanded`, `follow`; how MMC mode answers, `Response`, `response_of`, `respond`,
// `left`; `damaged`.
#![tactic(auto)]

mod arguments;
mod obey;

ghost use Rattle.std.specs.Prelude.{◌≡◌};
ghost use Rattle.command.specs.Answers.{response_of, register_sent, sent_of, left_of, answered, silent};
ghost use Rattle.command.specs.Command.{met_by, received_of, damaged_link, taken_of, moved_by, decided_of, leaves_alone};

use card_record::{Card, Link, Sent};
use moves::{Move, Received, Row};
pub use obey::act;
use states::{Column, State};
use status::{ErrorBit, Errors};
use wire::Command;

// What a command meets at a card beside the link: whether the card would win the line in CMD2, the
// lock flag, the size in protection groups, and the OCR.
#[derive(Clone, Copy)]
pub struct Met {
    pub wins: bool,
    pub locked: bool,
    pub groups: u16,
    pub ocr: u32,
}

// What a command changes in what is lent: nothing; a protection group set or cleared; the tagged
// sectors, erased.
#[derive(Clone, Copy)]
pub enum Change {
    Nothing,
    Protect { group: u32, on: bool },
    Erase,
}

// What a taken command does, before any answer: the next link, its error bits as they were; the
// pending error bits with those that the command sets at once; what is to change in what is lent.
#[derive(Clone, Copy)]
pub struct Acted {
    pub link: Link,
    pub errors: Errors,
    pub change: Change,
}

// The row of the table of moves that a command falls in at a card, and where it leads from there.
#[derive(Clone, Copy)]
pub struct Decided {
    pub row: Row,
    pub next: Move,
}

// What a command leaves: the link, what is sent, and what is to change in what is lent.
#[derive(Clone, Copy)]
pub struct Commanded {
    pub link: Link,
    pub sent: Sent,
    pub change: Change,
}

// The column "Answer" of the table of moves.
#[derive(Clone, Copy)]
pub enum Response {
    Nothing,
    R1,
    R2,
    R3,
}

#[tactic(auto, unfolding(crate::specs::Answers::response_of))]
pub fn response_of(row: Row) -> Response
    ensures answer { result ≡ response_of row }
{
    match row {
        Row::OpCondAsked | Row::OpCondShared => Response::R3,
        Row::AllSendCidWon | Row::SendRegister => Response::R2,
        Row::SetRelativeAddr
        | Row::SelectCard
        | Row::StopTransmission
        | Row::SendStatus
        | Row::SetOrTag
        | Row::Read
        | Row::Write
        | Row::Program => Response::R1,
        _ => Response::Nothing,
    }
}

// A register by the index of the command: CMD9 sends the CSD, CMD2 and 10 the CID.
fn register(index: u8) -> Sent
    ensures { result ≡ register_sent index }
{
    if index == 9 { Sent::Csd } else { Sent::Cid }
}

pub fn respond(response: Response, index: u8, status: u32) -> Sent
    ensures answer { result ≡ sent_of response index status }
{
    match response {
        Response::Nothing => Sent::Nothing,
        Response::R1 => Sent::Status { index, status },
        Response::R2 => register(index),
        Response::R3 => Sent::Ocr,
    }
}

// The error bits that a taken command leaves pending: R1 clears all that it reports.
pub fn left(response: Response, errors: Errors) -> Errors
    ensures answer { result ≡ left_of response errors }
{
    match response {
        Response::R1 => status::none(),
        _ => status::clear_command_bits(errors),
    }
}

// A command that is not taken, or is silent and reports nothing.
fn silent(link: Link) -> Commanded
    ensures { result ≡ silent link }
{
    Commanded {
        link,
        sent: Sent::Nothing,
        change: Change::Nothing,
    }
}

// Check 2: what a frame with a wrong CRC7 leaves at a card.
#[tactic(auto, unfolding(crate::specs::Command::damaged_link))]
pub fn damaged(link: Link) -> Link
    ensures answer { result ≡ damaged_link link }
{
    if matches!(link.state, State::Ina) {
        return link;
    }
    Link {
        errors: status::set(link.errors, ErrorBit::ComCrcError),
        ..link
    }
}

// What a taken command answers, from the state in which it came, and what it leaves.
#[tactic(auto, unfolding(crate::specs::Answers::answered))]
fn answer(acted: Acted, response: Response, index: u8, locked: bool, on: Column) -> Commanded
    ensures { result ≡ answered acted response index locked on }
{
    let errors = acted.errors;
    let link = acted.link;
    Commanded {
        link: Link {
            errors: left(response, errors),
            ..link
        },
        sent: respond(response, index, status::word(errors, locked, on)),
        change: acted.change,
    }
}

// A command that has a legal move to a column.
#[tactic(auto, unfolding(crate::specs::Command::taken_of))]
fn take(link: Link, met: Met, command: Command, row: Row, column: Column) -> Commanded
    ensures { result ≡ taken_of link met (received_of link met command.index command.argument) row column }
{
    let on = states::column_of(link.state);
    let response = response_of(row);
    let acted = obey::act(link, met, command, column);
    answer(acted, response, command.index, met.locked, on)
}

// What a command meets at a card, which would win the line in CMD2, or would not.
pub fn met_by(card: Card, wins: bool) -> Met
    ensures answer { result ≡ met_by card wins }
{
    Met {
        ocr: card.registers.ocr,
        groups: card.registers.groups,
        locked: card.lock.locked,
        wins,
    }
}

// A command as it meets a card.
fn received(link: Link, met: Met, command: Command) -> Received
    ensures { result ≡ received_of link met command.index command.argument }
{
    Received {
        index: command.index,
        argument: command.argument,
        address: link.address,
        ocr: met.ocr,
        wins: met.wins,
    }
}

// What checks 1, 3 and 4 find, before anything is done. A card that this leaves alone need not be
// taken out of its place.
pub fn decide(link: Link, met: Met, command: Command) -> Decided
    ensures answer { result ≡ decided_of link met command.index command.argument }
{
    let row = moves::row_of(received(link, met, command));
    let next = moves::next(row, states::column_of(link.state));
    Decided { row, next }
}

// Whether the card is then as if it had heard nothing.
pub fn leaves_alone(decided: Decided) -> bool
    ensures answer { result ≡ leaves_alone decided }
{
    matches!(decided.next, Move::Ignored | Move::Silent)
}

// What was decided, done.
pub fn follow(link: Link, met: Met, command: Command, decided: Decided) -> Commanded
    ensures answer { result ≡ moved_by link met (received_of link met command.index command.argument) decided.row decided.next }
{
    match decided.next {
        Move::Ignored | Move::Silent => silent(link),
        Move::Illegal => silent(Link {
            errors: status::set(link.errors, ErrorBit::IllegalCommand),
            ..link
        }),
        Move::To(column) => take(link, met, command, decided.row, column),
    }
}
