// How a card takes a command whichever way it is spoken to (document 02, request 1): by the MMC mode of
// document 01, or by SPI, which a card enters when CMD0 comes with its select line low and leaves by
// power-on only. What a taken command does is `command::act` in both; which commands are taken in SPI,
// what they answer and which error bits an answer clears stands here. A command is decided, done and
// answered in one line of calls for both modes: code that calls `act` twice makes the compiler keep it
// apart, and every command then pays for handing its record over. No call has a `requires`.
//
// Offers: `Heard`, `hear`; `crc_passes`, `damaged`.
#![tactic(auto)]

mod replies;

ghost use Rattle.std.specs.Prelude.{◌≡◌};
ghost use Rattle.spi.specs.Answering.{mode_by, decision_of, taken_by, untaken};
ghost use Rattle.spi.specs.Hearing.{unheard, mode_after, as_spi, heard_of, crc_passes, damaged_of};

use card_record::{Link, Mode, Sent};
use command::{Change, Met};
use moves::Move;
use replies::{is_idle, left_by, pending, response_of, sent_by, shown};
use states::{Column, State};
use status::{ErrorBit, Errors};
use wire::Command;

// What a command leaves: the mode, the link, what is sent, and what is to change in what is lent.
#[derive(Clone, Copy)]
pub struct Heard {
    pub mode: Mode,
    pub link: Link,
    pub sent: Sent,
    pub change: Change,
}

// The answers of SPI.
#[derive(Clone, Copy)]
pub enum Response {
    R1,
    R2,
    R3,
}

// How a command is answered, in one list for both modes: the answer is chosen with the move, and what
// the command does stands between the two once, whichever mode it came in. It is flat, as `left_by` and
// `sent_by` of specs/Answering.antt go over it.
#[derive(Clone, Copy)]
pub enum Answering {
    Nothing,
    R1,
    R2,
    R3,
    SpiR1,
    SpiR2,
    SpiR3,
}

// How a command is answered if it is taken, and where the table of the card's mode leads it.
#[derive(Clone, Copy)]
pub struct Decision {
    pub answering: Answering,
    pub next: Move,
}

// A frame that the card does not hear.
fn unheard(mode: Mode, link: Link) -> Heard
    ensures { result ≡ unheard mode link }
{
    Heard {
        mode,
        link,
        sent: Sent::Nothing,
        change: Change::Nothing,
    }
}

// A command that was not taken, and leaves these error bits: in SPI it is answered, by R1.
fn untaken(mode: Mode, link: Link, errors: Errors, answered: bool) -> Heard
    ensures { result ≡ untaken mode link errors answered }
{
    let idle = is_idle(link.state);
    Heard {
        mode,
        link: Link {
            errors: pending(errors, answered),
            ..link
        },
        sent: shown(errors, idle, answered),
        change: Change::Nothing,
    }
}

// CMD0 enters SPI, or starts it anew, with CRC checking off; CMD59 switches the checking.
fn mode_after(mode: Mode, command: Command) -> Mode
    ensures { result ≡ mode_after mode command.index command.argument }
{
    match command.index {
        0 => Mode {
            spi: true,
            checks: false,
        },
        59 => Mode {
            checks: command.argument % 2 == 1,
            ..mode
        },
        _ => mode,
    }
}

// A command that is taken as SPI has it may change the mode; CMD13 and CMD58, which R2 and R3 answer,
// do not.
fn mode_by(answering: Answering, mode: Mode, command: Command) -> Mode
    ensures { result ≡ mode_by answering mode command.index command.argument }
{
    match answering {
        Answering::SpiR1 => mode_after(mode, command),
        _ => mode,
    }
}

// Whether a card takes a command as SPI has it: with its select line low, in SPI or to enter it.
fn as_spi(mode: Mode, selected: bool, index: u8) -> bool
    ensures { result ≡ as_spi mode selected index }
{
    selected && (mode.spi || index == 0)
}

// What a command finds at a card whose select line is low (`selected`) or high, before anything is
// done.
fn decide(mode: Mode, selected: bool, link: Link, met: Met, command: Command) -> Decision
    ensures { result ≡ decision_of mode selected link met command.index command.argument }
{
    if as_spi(mode, selected, command.index) {
        let row = spi_moves::row_of(command.index);
        return Decision {
            answering: Answering::from(response_of(command.index)),
            next: spi_moves::next(row, states::column_of(link.state)),
        };
    }
    if mode.spi {
        return Decision {
            answering: Answering::Nothing,
            next: Move::Ignored,
        };
    }
    let decided = command::decide(link, met, command);
    Decision {
        answering: Answering::from(command::response_of(decided.row)),
        next: decided.next,
    }
}

// A command that has a legal move to a column.
fn take(
    mode: Mode,
    link: Link,
    met: Met,
    command: Command,
    answering: Answering,
    column: Column,
) -> Heard
    ensures { result ≡ taken_by mode link met command.index command.argument answering column }
{
    let acted = command::act(link, met, command, column);
    let errors = acted.errors;
    let after = acted.link;
    Heard {
        mode: mode_by(answering, mode, command),
        link: Link {
            errors: left_by(answering, errors),
            ..after
        },
        sent: sent_by(
            answering,
            command.index,
            errors,
            met.locked,
            states::column_of(link.state),
            is_idle(after.state),
        ),
        change: acted.change,
    }
}

// A command at a card, as it was decided.
pub fn hear(mode: Mode, selected: bool, link: Link, met: Met, command: Command) -> Heard
    ensures answer { result ≡ heard_of mode selected link met command.index command.argument }
{
    let decided = decide(mode, selected, link, met, command);
    match decided.next {
        Move::Ignored | Move::Silent => unheard(mode, link),
        Move::Illegal => {
            let spi = as_spi(mode, selected, command.index);
            let errors = status::set(link.errors, ErrorBit::IllegalCommand);
            untaken(mode, link, errors, spi)
        }
        Move::To(column) => take(mode, link, met, command, decided.answering, column),
    }
}

// What a frame that is refused 3 leaves: in SPI an R1 is sent beside the number.
#[tactic(auto, unfolding(crate::specs::Hearing::damaged_of, crate::specs::Answering::untaken, crate::specs::Answers::faulted))]
pub fn damaged(mode: Mode, selected: bool, link: Link) -> Heard
    ensures answer { result ≡ damaged_of mode selected link }
{
    if !mode.spi {
        let told = command::damaged(link);
        return unheard(mode, told);
    }
    if !selected {
        return unheard(mode, link);
    }
    if matches!(link.state, State::Ina) {
        return unheard(mode, link);
    }
    let errors = status::set(link.errors, ErrorBit::ComCrcError);
    untaken(mode, link, errors, true)
}

// Whether a command goes on whose CRC7 is right, or wrong: in SPI CMD0 is always checked, and others
// once CRC checking is on.
pub fn crc_passes(mode: Mode, index: u8, right: bool) -> bool
    ensures answer { result ≡ crc_passes mode index right }
{
    right || (mode.spi && !mode.checks && index != 0)
}
