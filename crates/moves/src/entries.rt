// The entries of a table of moves, MMC mode's and SPI's, and where one stands in its line.
ghost use Rattle.std.specs.Prelude.{◌≡◌};
ghost use Rattle.moves.specs.Table.{entry_in};

use crate::Move;
use states::Column;

pub const IDL: Move = Move::To(Column::Idle);

pub const RDY: Move = Move::To(Column::Ready);

pub const IDT: Move = Move::To(Column::Ident);

pub const STB: Move = Move::To(Column::Stby);

pub const TRN: Move = Move::To(Column::Tran);

pub const DAT: Move = Move::To(Column::Data);

pub const RCV: Move = Move::To(Column::Rcv);

pub const PRG: Move = Move::To(Column::Prg);

pub const DIS: Move = Move::To(Column::Dis);

pub const INA: Move = Move::To(Column::Ina);

// No move. Ignored: in Inactive, and by check 4 elsewhere than in tran, data, rcv and prg, where it
// is illegal; silent: by check 3. Source document 001 marks some of these otherwise
// (docs/DECISIONS.md, "Where the table of moves departs from source 001").
pub const IGN: Move = Move::Ignored;

pub const SIL: Move = Move::Silent;

pub const ILL: Move = Move::Illegal;

// The entry of a line in a state, by a literal place: what is indexed so is read from where the
// constant stands, and the table is never laid out on the stack.
// Tried: a static table, read by the numbers of row and state, takes 26 instructions more of a command.
pub fn entry_in(line: [Move; 10], column: Column) -> Move
    ensures answer { result ≡ entry_in line column }
{
    match column {
        Column::Idle => line[0],
        Column::Ready => line[1],
        Column::Ident => line[2],
        Column::Stby => line[3],
        Column::Tran => line[4],
        Column::Data => line[5],
        Column::Rcv => line[6],
        Column::Prg => line[7],
        Column::Dis => line[8],
        Column::Ina => line[9],
    }
}
