// The ten states of a card (document 01, "How a card takes a frame"), with what a data state
// waits for inside its case.
//
// Offers: `Incoming`, `Outgoing`, `State`; `Column`, `column_of`, `number`.
#![tactic(auto)]

ghost use Rattle.std.specs.Prelude.{◌≡◌};
ghost use Rattle.states.specs.States.{column_of, column_number};

// What a card in rcv awaits: a block at an address, blocks from an address on, a lock request.
#[derive(Clone, Copy, PartialEq, Eq)]
pub enum Incoming {
    One(u32),
    Many(u32),
    LockRequest,
}

// What a card in data is to send: a block from an address, blocks from an address on, the
// protection bits from a group on; in SPI a register too.
#[derive(Clone, Copy, PartialEq, Eq)]
pub enum Outgoing {
    One(u32),
    Many(u32),
    Protection(u32),
    Csd,
    Cid,
}

#[derive(Clone, Copy, PartialEq, Eq)]
pub enum State {
    Idle,
    Ready,
    Ident,
    Stby,
    Tran,
    Data(Outgoing),
    Rcv(Incoming),
    Prg,
    Dis,
    Ina,
}

// A state without what it waits for: a column of the table of moves, and what a status shows. The
// columns stand in the order of their numbers (`number`).
#[derive(Clone, Copy, PartialEq, Eq)]
pub enum Column {
    Idle,
    Ready,
    Ident,
    Stby,
    Tran,
    Data,
    Rcv,
    Prg,
    Dis,
    Ina,
}

// A `From` beside it would be a second name.
pub fn column_of(state: State) -> Column
    ensures answer { result ≡ column_of state }
{
    match state {
        State::Idle => Column::Idle,
        State::Ready => Column::Ready,
        State::Ident => Column::Ident,
        State::Stby => Column::Stby,
        State::Tran => Column::Tran,
        State::Data(_) => Column::Data,
        State::Rcv(_) => Column::Rcv,
        State::Prg => Column::Prg,
        State::Dis => Column::Dis,
        State::Ina => Column::Ina,
    }
}

// The number of a state, which is its place among the columns: a status shows it.
pub fn number(column: Column) -> u8
    ensures answer { result ≡ column_number column }
{
    column as u8
}
