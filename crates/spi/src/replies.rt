// How a command is answered. What SPI's answers show and clear stands here; MMC mode's stand in
// `command`, and both go by one list.
ghost use Rattle.std.specs.Prelude.{false, ◌≡◌};
ghost use Rattle.base.specs.Choice.{pick};
ghost use Rattle.card_record.specs.declared.Sent.TheVariants.{Nothing};
ghost use Rattle.spi.specs.Answering.{in_mmc, in_spi, left_by, sent_by};
ghost use Rattle.spi.specs.Answers.{response_of, idle_in, sent_in, left_in};
ghost use Rattle.spi.specs.declared.Response.TheVariants.{R1};

use crate::{Answering, Response};
use card_record::Sent;
use states::{Column, State};
use status::Errors;

pub fn response_of(index: u8) -> Response
    ensures { result ≡ response_of index }
{
    match index {
        13 => Response::R2,
        58 => Response::R3,
        _ => Response::R1,
    }
}

pub fn is_idle(state: State) -> bool
    ensures { result ≡ idle_in state }
{
    matches!(state, State::Idle)
}

// An answer of these error bits, by a card that is idle after the command, or is not, and locked or not.
pub fn send(response: Response, errors: Errors, idle: bool, locked: bool) -> Sent
    ensures { result ≡ sent_in response errors idle locked }
{
    let first = spi_answers::r1(errors, idle);
    match response {
        Response::R1 => Sent::SpiR1(first),
        Response::R2 => Sent::SpiR2 {
            first,
            second: spi_answers::r2_second(errors, locked),
        },
        Response::R3 => Sent::SpiR3(first),
    }
}

// The error bits that an answer leaves pending: it clears those that it shows.
pub fn left(response: Response, errors: Errors) -> Errors
    ensures { result ≡ left_in response errors }
{
    match response {
        Response::R1 | Response::R3 => spi_answers::cleared_r1(errors),
        Response::R2 => spi_answers::cleared_r2(errors),
    }
}

// The error bits that are left pending where SPI's R1 shows them, or nothing does.
pub fn pending(errors: Errors, answered: bool) -> Errors
    ensures { result ≡ pick answered (left_in R1 errors) errors }
{
    if answered {
        left(Response::R1, errors)
    } else {
        errors
    }
}

// That R1, where it is sent.
pub fn shown(errors: Errors, idle: bool, answered: bool) -> Sent
    ensures { result ≡ pick answered (sent_in R1 errors idle false) Nothing }
{
    if answered {
        send(Response::R1, errors, idle, false)
    } else {
        Sent::Nothing
    }
}

impl From<command::Response> for Answering {
    ghost from_gives = { λ response answering. answering ≡ in_mmc response };

    fn from(response: command::Response) -> Answering {
        match response {
            command::Response::Nothing => Answering::Nothing,
            command::Response::R1 => Answering::R1,
            command::Response::R2 => Answering::R2,
            command::Response::R3 => Answering::R3,
        }
    }
}

impl From<Response> for Answering {
    ghost from_gives = { λ response answering. answering ≡ in_spi response };

    fn from(response: Response) -> Answering {
        match response {
            Response::R1 => Answering::SpiR1,
            Response::R2 => Answering::SpiR2,
            Response::R3 => Answering::SpiR3,
        }
    }
}

// The error bits that an answer leaves pending.
pub fn left_by(answering: Answering, errors: Errors) -> Errors
    ensures { result ≡ left_by answering errors }
{
    match answering {
        Answering::Nothing => command::left(command::Response::Nothing, errors),
        Answering::R1 => command::left(command::Response::R1, errors),
        Answering::R2 => command::left(command::Response::R2, errors),
        Answering::R3 => command::left(command::Response::R3, errors),
        Answering::SpiR1 => left(Response::R1, errors),
        Answering::SpiR2 => left(Response::R2, errors),
        Answering::SpiR3 => left(Response::R3, errors),
    }
}

// What is sent: in MMC mode the status from the state in which the command came, in SPI whether the
// card is idle after it.
pub fn sent_by(
    answering: Answering,
    index: u8,
    errors: Errors,
    locked: bool,
    on: Column,
    idle: bool,
) -> Sent
    ensures { result ≡ sent_by answering index errors locked on idle }
{
    let status = status::word(errors, locked, on);
    match answering {
        Answering::Nothing => command::respond(command::Response::Nothing, index, status),
        Answering::R1 => command::respond(command::Response::R1, index, status),
        Answering::R2 => command::respond(command::Response::R2, index, status),
        Answering::R3 => command::respond(command::Response::R3, index, status),
        Answering::SpiR1 => send(Response::R1, errors, idle, locked),
        Answering::SpiR2 => send(Response::R2, errors, idle, locked),
        Answering::SpiR3 => send(Response::R3, errors, idle, locked),
    }
}
