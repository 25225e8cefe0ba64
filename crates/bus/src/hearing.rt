// A frame as the bus hears it: what it asks of the cards, a card's turn, and what the line then
// shows. A command reaches a card through `command::decide` and `command::follow` alone.
ghost use Rattle.std.specs.Prelude.{◌≡◌, ◌≤◌};
ghost use Rattle.bus.specs.Bus.{shown_of, padded, bus_indices};
ghost use Rattle.bus.specs.Hearing.{bus_asked, quiet, heard_of, decided_at, turn_of, sent_on};
ghost use Rattle.card_record.specs.Sending.{sent_bytes, Sendable};
ghost use Rattle.crc.specs.Bits.{Below};
ghost use Rattle.moves.specs.Indices.{among};

use crate::{Asked, Heard, Turned};
use base::{Refusal, copy};
use card_record::{Card, Registers, Sent};
use command::{Decided, met_by};
use moves::{Move, Row};
use wire::{Command, Fields};

// Whether a command is one for the bus.
fn on_bus(index: u8) -> bool
    ensures { result ≡ among index bus_indices }
{
    matches!(index, 0..=4 | 7 | 9..=10 | 13 | 15)
}

// What a frame asks of a bus of so many cards: 13, 1, 2, 3, 14, and else a command.
#[tactic(auto, unfolding(crate::specs::Hearing::bus_asked))]
pub fn asked_of(count: usize, frame: &[u8]) -> Asked
    ensures { result ≡ bus_asked count frame.now }
{
    if count < 1 {
        return Asked::Refused(Refusal::BusCards);
    }
    let framing = wire::unframe(frame);
    match framing {
        Ok(
            Fields {
                index,
                argument,
                crc_right,
            },
        ) => {
            if !crc_right {
                return Asked::Damaged;
            }
            if !on_bus(index) {
                return Asked::Refused(Refusal::BusIndex);
            }
            Asked::Command { index, argument }
        }
        Err(refusal) => Asked::Refused(refusal),
    }
}

// The line before anyone sends.
#[tactic(auto, unfolding(crate::specs::Hearing::quiet))]
pub fn quiet() -> Heard
    ensures { result ≡ quiet }
{
    Heard {
        line: [0xFF; 17],
        longest: 0,
    }
}

// The line after one more card has sent.
fn hear(heard: Heard, registers: Registers, sent: Sent) -> Heard
    requires { Sendable sent }
    ensures { result ≡ heard_of heard (sent_bytes registers sent) }
{
    let mut sends = [0u8; 17];
    let written = card_record::write_sent(registers, sent, &mut sends);
    let line = heard.line;
    match written {
        Ok(n) => Heard {
            line: shared_line::and(line, &sends[0..n]),
            longest: heard.longest.max(n),
        },
        Err(_) => heard,
    }
}

// What a command finds at a card, which is only looked at: one in SPI ignores it, since its select
// line is high.
pub fn decide(card: Card, wins: bool, command: Command) -> Decided
    ensures { result ≡ decided_at card wins command.index command.argument }
{
    if card.mode.spi {
        return Decided {
            row: Row::Unsupported,
            next: Move::Ignored,
        };
    }
    let link = card.link;
    command::decide(link, met_by(card, wins), command)
}

// One card's turn, as it was decided.
pub fn turn(heard: Heard, card: Card, wins: bool, command: Command, decided: Decided) -> Turned
    requires { (command.index ≤ 63) × (decided ≡ decided_at card wins command.index command.argument) }
    ensures { result ≡ turn_of heard card wins command.index command.argument }
{
    let link = card.link;
    let given = command::follow(link, met_by(card, wins), command, decided);
    let next = given.link;
    let sent = given.sent;
    let registers = card.registers;
    Turned {
        card: Card { link: next, ..card },
        heard: hear(heard, registers, sent),
    }
}

// What the line shows.
pub fn shown_by(heard: Heard) -> Result<Option<usize>, Refusal>
    ensures { result ≡ shown_of (sent_on heard) }
{
    let length = heard.longest;
    if length < 1 {
        return Ok(None);
    }
    Ok(Some(length))
}

// Its bytes, and zeros behind them.
pub fn line_by(heard: Heard) -> [u8; 17]
    ensures answer { result ≡ padded (sent_on heard) }
    ensures short { heard.length ≤ 17 }
    ensures bytes { Below 256 heard.line }
{
    let length = heard.longest;
    let held = heard.line;
    let mut line = [0; 17];
    copy(&held[0..length], &mut line, 0);
    line
}
