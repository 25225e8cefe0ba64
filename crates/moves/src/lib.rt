// How a command moves a card (document 01, "How a card takes a frame"): the class of a command by
// its index, the row of the table of moves that a command falls in, and the table itself.
//
// Offers: `Class`, `class_of`; `Received`, `Row`, `row_of`; `Move`, `next`; in `entries` what a table
// of moves holds, for SPI's too.
#![tactic(auto)]

pub mod entries;
mod table;

ghost use Rattle.std.specs.Prelude.{◌≡◌};
ghost use Rattle.moves.specs.Classes.{class_of};
ghost use Rattle.moves.specs.Moves.{move_of};
ghost use Rattle.moves.specs.Rows.{own, window, op_cond_row, cid_row, select_row, for_card, transfer_row, row_of};
ghost use Rattle.moves.specs.Table.{entry_of, Ruled};

use entries::entry_in;
use states::Column;
use table::MOVES;

// The standard's classes, as far as the base has commands of them.
#[derive(Clone, Copy, PartialEq, Eq)]
pub enum Class {
    Basic,
    BlockRead,
    BlockWrite,
    WriteProtection,
    Erase,
    Lock,
    Unsupported,
}

// The rows of the table of moves: the lines of document 01's table in its order, with CMD0 and CMD4
// in their places, a line with several outcomes in a row for each, and last what no line has.
#[derive(Clone, Copy, PartialEq, Eq)]
pub enum Row {
    // CMD0.
    GoIdleState,
    // CMD1 by its window: 0, one that shares a bit with the OCR, one that shares none.
    OpCondAsked,
    OpCondShared,
    OpCondApart,
    // CMD2.
    AllSendCidWon,
    AllSendCidLost,
    // CMD3.
    SetRelativeAddr,
    // CMD4.
    SetDsr,
    // CMD7 for this card, and for another.
    SelectCard,
    DeselectCard,
    // CMD9, 10.
    SendRegister,
    // CMD12.
    StopTransmission,
    // CMD13.
    SendStatus,
    // CMD15.
    GoInactiveState,
    // CMD16 sets the block length; 32, 33, 35, 36 tag.
    SetOrTag,
    // CMD17, 18, 30.
    Read,
    // CMD24, 25, 42.
    Write,
    // CMD28, 29, 38.
    Program,
    // CMD9, 10, 13, 15 for another card.
    OtherAddress,
    // Every other index.
    Unsupported,
}

// What a row does in a state: nothing; nothing, and not for this card to judge; nothing but the
// mark of an illegal command; a move.
#[derive(Clone, Copy, PartialEq, Eq)]
pub enum Move {
    Ignored,
    Silent,
    Illegal,
    To(Column),
}

// A command as it meets a card: its index and argument, the card's address and OCR, and whether the
// card would win the line in CMD2.
#[derive(Clone, Copy)]
pub struct Received {
    pub index: u8,
    pub argument: u32,
    pub address: u16,
    pub ocr: u32,
    pub wins: bool,
}

#[tactic(auto, unfolding(crate::specs::Classes::class_of))]
pub fn class_of(index: u8) -> Class
    ensures answer { result ≡ class_of index }
{
    match index {
        0..=4 | 7 | 9..=10 | 12..=13 | 15 | 58..=59 => Class::Basic,
        16..=18 => Class::BlockRead,
        24..=25 => Class::BlockWrite,
        28..=30 => Class::WriteProtection,
        32..=33 | 35..=36 | 38 => Class::Erase,
        42 => Class::Lock,
        _ => Class::Unsupported,
    }
}

// The table by its rule: the only place that names it.
fn legal_moves() -> [[Move; 10]; 20]
    ensures { Ruled result }
{
    MOVES
}

// The entry of a row in a state, by a literal place too (`entry_in`).
fn entry_at(table: [[Move; 10]; 20], row: Row, column: Column) -> Move
    ensures { result ≡ entry_of table row column }
{
    match row {
        Row::GoIdleState => entry_in(table[0], column),
        Row::OpCondAsked => entry_in(table[1], column),
        Row::OpCondShared => entry_in(table[2], column),
        Row::OpCondApart => entry_in(table[3], column),
        Row::AllSendCidWon => entry_in(table[4], column),
        Row::AllSendCidLost => entry_in(table[5], column),
        Row::SetRelativeAddr => entry_in(table[6], column),
        Row::SetDsr => entry_in(table[7], column),
        Row::SelectCard => entry_in(table[8], column),
        Row::DeselectCard => entry_in(table[9], column),
        Row::SendRegister => entry_in(table[10], column),
        Row::StopTransmission => entry_in(table[11], column),
        Row::SendStatus => entry_in(table[12], column),
        Row::GoInactiveState => entry_in(table[13], column),
        Row::SetOrTag => entry_in(table[14], column),
        Row::Read => entry_in(table[15], column),
        Row::Write => entry_in(table[16], column),
        Row::Program => entry_in(table[17], column),
        Row::OtherAddress => entry_in(table[18], column),
        Row::Unsupported => entry_in(table[19], column),
    }
}

// Where a row leads from a state.
#[tactic(auto, unfolding(crate::specs::Table::Ruled))]
pub fn next(row: Row, column: Column) -> Move
    ensures answer { result ≡ move_of row column }
{
    entry_at(legal_moves(), row, column)
}

// CMD1 by its window, bits 23..0.
fn op_cond(argument: u32, ocr: u32) -> Row
    ensures { result ≡ op_cond_row (window argument) (window ocr) }
{
    let asked = argument % 0x100_0000;
    let held = ocr % 0x100_0000;
    if asked == 0 {
        return Row::OpCondAsked;
    }
    if 0 < asked & held {
        return Row::OpCondShared;
    }
    Row::OpCondApart
}

fn all_send_cid(wins: bool) -> Row
    ensures { result ≡ cid_row wins }
{
    if wins {
        return Row::AllSendCidWon;
    }
    Row::AllSendCidLost
}

// Whether a command names the card's address.
fn owned(asked: Received) -> bool
    ensures { result ≡ own asked }
{
    asked.argument / 65536 == asked.address as u32
}

fn select(asked: Received) -> Row
    ensures { result ≡ select_row (own asked) }
{
    if owned(asked) {
        return Row::SelectCard;
    }
    Row::DeselectCard
}

// A row that is only for the card whose address the command names.
fn for_card(asked: Received, row: Row) -> Row
    ensures { result ≡ for_card (own asked) row }
{
    if owned(asked) {
        return row;
    }
    Row::OtherAddress
}

// The rows of the commands of a selected card.
#[tactic(auto, unfolding(crate::specs::Rows::transfer_row))]
fn transfer_row(index: u8) -> Row
    ensures { result ≡ transfer_row index }
{
    match index {
        16 | 32 | 33 | 35 | 36 => Row::SetOrTag,
        17 | 18 | 30 => Row::Read,
        24 | 25 | 42 => Row::Write,
        28 | 29 | 38 => Row::Program,
        _ => Row::Unsupported,
    }
}

// The row that a command falls in at a card.
#[tactic(auto, unfolding(crate::specs::Rows::row_of))]
pub fn row_of(asked: Received) -> Row
    ensures answer { result ≡ row_of asked }
{
    let index = asked.index;
    match index {
        0 => Row::GoIdleState,
        1 => op_cond(asked.argument, asked.ocr),
        2 => all_send_cid(asked.wins),
        3 => Row::SetRelativeAddr,
        4 => Row::SetDsr,
        7 => select(asked),
        9 | 10 => for_card(asked, Row::SendRegister),
        12 => Row::StopTransmission,
        13 => for_card(asked, Row::SendStatus),
        15 => for_card(asked, Row::GoInactiveState),
        _ => transfer_row(index),
    }
}
