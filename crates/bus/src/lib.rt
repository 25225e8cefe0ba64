// Up to 30 cards on one line (document 01, "The shared line"): cards added, a frame for all of them,
// and a card taken out of its place for its own calls and put back. The bus is lent no memory. Any
// records and any count may come in, so no call has a `requires`.
//
// Offers: `Bus`, `empty`, `Added`, `add`; `Framed`, `frame`; `take`, `put`.
#![tactic(auto)]

mod contest;
mod hearing;

ghost use Rattle.std.specs.Prelude.{map, ◌≡◌, min};
ghost use Rattle.bus.specs.Bus.{most, cards_of, with_cards, empty_bus, added_to, taken_from, put_into, refused_on, damaged_card, bus_frame};

use base::Refusal;
use card_record::Card;
use contest::{contends, holds, lowest};
use hearing::{asked_of, decide, line_by, quiet, shown_by, turn};
use std::marker::Model;
use wire::Command;

// The cards in the places from 0 on; a count over 30 reads as 30.
// An array with a count, since there is no heap, and `count_of` and `cards_of` of specs/Bus.antt name both.
#[derive(Clone, Copy)]
pub struct Bus {
    pub cards: [Card; 30],
    pub count: usize,
}

// The bus after a card was to be added, and the card's place, or the refusal.
#[derive(Clone, Copy)]
pub struct Added {
    pub bus: Bus,
    pub adding: Result<usize, Refusal>,
}

// What a frame leaves: the bus; how many bytes the line shows, if any, or the refusal; and its bytes,
// zeros behind them.
#[derive(Clone, Copy)]
pub struct Framed {
    pub bus: Bus,
    pub shown: Result<Option<usize>, Refusal>,
    pub line: [u8; 17],
}

// What a frame asks of a bus: a command of all its cards; that they are told of a wrong CRC7; or
// nothing, and the refusal.
// No Result: a wrong CRC7 is a refusal that changes cards, so neither a value nor an error alone.
#[derive(Clone, Copy)]
pub enum Asked {
    Command { index: u8, argument: u32 },
    Damaged,
    Refused(Refusal),
}

// What the line holds of the frames so far: their AND, and how many bytes the longest has, which is
// no more than the line.
// An array with a length, since there is no heap.
#[derive(Clone, Copy)]
pub struct Heard {
    line: [u8; 17],
    longest: usize,
}

impl Model for Heard {
    ghost use Rattle.std.specs.Prelude.{◌≤◌};
    ghost use Rattle.bus.specs.OnLine.{OnLine};

    ghost Value = { OnLine };

    ghost view = { λ h. record { line = h.line; length = h.longest } };

    ghost invariant = { λ h. h.longest ≤ 17 };

    ghost inverse = { λ v. record { line = v.line; longest = v.length } };
}

// A card after its turn, and what the line then holds.
#[derive(Clone, Copy)]
pub struct Turned {
    pub card: Card,
    pub heard: Heard,
}

// How many cards a count stands for: one over 30 reads as 30.
fn places(count: usize) -> usize
    ensures { result ≡ min count most }
{
    count.min(30)
}

// A bus with no card.
#[tactic(auto, unfolding(crate::specs::Bus::empty_bus))]
pub fn empty() -> Bus
    ensures answer { result ≡ empty_bus }
{
    let none = card_record::refused_make();
    let cards = [none; 30];
    Bus { cards, count: 0 }
}

// A card in the next place: 13 where there is none.
#[tactic(auto, unfolding(crate::specs::Bus::added_to))]
pub fn add(bus: Bus, card: Card) -> Added
    ensures answer { result ≡ added_to bus card }
{
    let place = places(bus.count);
    if 30 <= place {
        return Added {
            bus,
            adding: Err(Refusal::BusCards),
        };
    }
    let mut next = bus;
    next.cards[place] = card;
    next.count = place + 1;
    Added {
        bus: next,
        adding: Ok(place),
    }
}

// The card in a place, for its own calls, if the place is taken.
pub fn take(bus: Bus, place: usize) -> Option<Card>
    ensures answer { result ≡ taken_from bus place }
{
    let end = places(bus.count);
    if end <= place {
        return None;
    }
    Some(bus.cards[place])
}

// A card back into a place that is taken.
#[tactic(auto, unfolding(crate::specs::Bus::put_into))]
pub fn put(bus: Bus, place: usize, card: Card) -> Bus
    ensures answer { result ≡ put_into bus place card }
{
    let end = places(bus.count);
    if end <= place {
        return bus;
    }
    let mut next = bus;
    next.cards[place] = card;
    next
}

// A frame that is refused.
fn refuse(bus: Bus, refusal: Refusal) -> Framed
    ensures { result ≡ refused_on bus refusal }
{
    let line = [0; 17];
    Framed {
        bus,
        shown: Err(refusal),
        line,
    }
}

fn damaged(card: Card) -> Card
    ensures { result ≡ damaged_card card }
{
    if card.mode.spi {
        return card;
    }
    let link = card.link;
    Card {
        link: command::damaged(link),
        ..card
    }
}

// A frame with a wrong CRC7, told to every card.
fn damage(bus: Bus) -> Bus
    ensures { result ≡ with_cards bus (map damaged_card (cards_of bus)) }
{
    let end = places(bus.count);
    let mut next = bus;
    for i in 0..end {
        let card = next.cards[i];
        let told = damaged(card);
        next.cards[i] = told;
    }
    next
}

// A frame for all cards: 13, 1, 2, 3, 14. Each card takes a command in its turn, in the order of
// their places, and what it sends is ANDed into the line; one that is left alone, as every loser of
// CMD2 is, stays in its place. The loop stands here, since each function that hands the bus on copies
// all of it twice.
pub fn frame(bus: Bus, frame: &[u8]) -> Framed
    ensures answer { result ≡ bus_frame bus frame.now }
{
    let end = places(bus.count);
    let asked = asked_of(end, frame);
    match asked {
        Asked::Refused(refusal) => return refuse(bus, refusal),
        Asked::Damaged => return refuse(damage(bus), Refusal::FrameCrc),
        Asked::Command { index, argument } => {
            let command = Command { index, argument };
            let low = lowest(bus, index);
            let mut next = bus;
            let mut heard = quiet();
            for i in 0..end {
                let seen = next.cards[i];
                let mut won = false;
                if contends(low.is_some(), seen) {
                    if !holds(low, seen) {
                        continue;
                    }
                    won = true;
                }
                let decided = decide(seen, won, command);
                if !command::leaves_alone(decided) {
                    let card = next.cards[i];
                    let turned = turn(heard, card, won, command, decided);
                    let after = turned.card;
                    next.cards[i] = after;
                    heard = turned.heard;
                }
            }
            return Framed {
                bus: next,
                shown: shown_by(heard),
                line: line_by(heard),
            };
        }
    }
}
