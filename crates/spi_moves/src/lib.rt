// How a command moves a card that is in SPI (document 02, request 1): the row of the table of moves
// that a command falls in, which follows from its index alone, since in SPI no address is compared
// and CMD1 comes "with any argument"; and the table itself. A move is one of the base's.
//
// Offers: `Row`, `row_of`; `next`.
#![tactic(auto)]

mod table;

ghost use Rattle.std.specs.Prelude.{◌≡◌};
ghost use Rattle.spi_moves.specs.Moves.{row_of, move_of};
ghost use Rattle.spi_moves.specs.Table.{entry_of, Ruled};

use moves::Move;
use moves::entries::entry_in;
use states::Column;
use table::MOVES;

// The rows of the table of moves in SPI.
#[derive(Clone, Copy, PartialEq, Eq)]
pub enum Row {
    // CMD0.
    GoIdleState,
    // CMD1.
    OpCond,
    // CMD58 reads the OCR; CMD59 sets CRC checking.
    OcrOrCrc,
    // CMD13.
    SendStatus,
    // CMD9, 10.
    SendRegister,
    // CMD16 sets the block length; 32, 33, 35, 36 tag.
    SetOrTag,
    // CMD17, 30.
    Read,
    // CMD24, 42.
    Write,
    // CMD28, 29, 38.
    Program,
    // Every other index.
    Unsupported,
}

// The row that a command falls in.
#[tactic(auto, unfolding(crate::specs::Moves::row_of))]
pub fn row_of(index: u8) -> Row
    ensures answer { result ≡ row_of index }
{
    match index {
        0 => Row::GoIdleState,
        1 => Row::OpCond,
        58 | 59 => Row::OcrOrCrc,
        13 => Row::SendStatus,
        9 | 10 => Row::SendRegister,
        16 | 32 | 33 | 35 | 36 => Row::SetOrTag,
        17 | 30 => Row::Read,
        24 | 42 => Row::Write,
        28 | 29 | 38 => Row::Program,
        _ => Row::Unsupported,
    }
}

// The table by its rule: the only place that names it.
fn legal_moves() -> [[Move; 10]; 10]
    ensures { Ruled result }
{
    MOVES
}

// The entry of a row in a state, by a literal place (`entry_in`).
fn entry_at(table: [[Move; 10]; 10], row: Row, column: Column) -> Move
    ensures { result ≡ entry_of table row column }
{
    match row {
        Row::GoIdleState => entry_in(table[0], column),
        Row::OpCond => entry_in(table[1], column),
        Row::OcrOrCrc => entry_in(table[2], column),
        Row::SendStatus => entry_in(table[3], column),
        Row::SendRegister => entry_in(table[4], column),
        Row::SetOrTag => entry_in(table[5], column),
        Row::Read => entry_in(table[6], column),
        Row::Write => entry_in(table[7], column),
        Row::Program => entry_in(table[8], column),
        Row::Unsupported => entry_in(table[9], column),
    }
}

// Where a row leads from a state.
#[tactic(auto, unfolding(crate::specs::Table::Ruled))]
pub fn next(row: Row, column: Column) -> Move
    ensures answer { result ≡ move_of row column }
{
    entry_at(legal_moves(), row, column)
}
