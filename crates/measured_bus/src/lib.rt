// Rounds of CMD2 and CMD3 on a bus with the C interface, for the measurements of measure/ alone: nothing
// that a unit links stands on this crate. A library of its own, so that what a card costs in that of
// `measured` does not depend on the bus beside it.
//
// Offers: `measured_rounds`.
#![tactic(auto)]

ghost use Rattle.std.specs.Prelude.{◌≡◌, ◌≤◌};
ghost use Rattle.wire.specs.Frames.{command_frame};
ghost use Rattle.measured_bus.specs.Rounds.{cid_at, ready_card, bus_of, cmd2, cmd3, heard, after_rounds, answered_in, played_on, addresses_of};

use base::Refusal;
use bus::Bus;
use card_record::{Card, Link, Registers};
use states::State;

// A bus after rounds, and how many CMD2 got an answer.
#[derive(Clone, Copy)]
pub struct Played {
    pub bus: Bus,
    pub answered: usize,
}

// The sixteen bytes of a place.
fn cid_at(cids: &[u8; 480], place: usize) -> [u8; 16]
    ensures { result ≡ cid_at cids.now place }
{
    let mut cid = [0u8; 16];
    store::read_part(cids, place % 30 * 16, &mut cid);
    cid
}

#[tactic(auto, unfolding(crate::specs::Rounds::ready_card))]
fn ready_card(cid: [u8; 16]) -> Card
    ensures { result ≡ ready_card cid }
{
    let csd = [0, 0, 0, 0, 0, 0, 0, 0, 0, 0, 0, 0, 0, 0, 0, 1];
    let link = card_record::fresh();
    Card {
        registers: Registers {
            cid,
            csd,
            ocr: 0x00FF_8000,
            groups: 1,
        },
        lock: lock::no_password(),
        link: Link {
            state: State::Ready,
            ..link
        },
        mode: card_record::mmc_mode(),
    }
}

// A bus with so many cards added, as far as it takes them.
#[tactic(auto, unfolding(crate::specs::Rounds::bus_of))]
fn bus_of(cids: &[u8; 480], count: usize) -> Bus
    ensures { result ≡ bus_of cids.now count }
{
    let mut bus = bus::empty();
    for place in 0..count {
        let cid = cid_at(cids, place);
        let card = ready_card(cid);
        let added = bus::add(bus, card);
        bus = added.bus;
    }
    bus
}

fn command(index: u8, argument: u32) -> [u8; 6]
    requires { index ≤ 63 }
    ensures { result ≡ command_frame index argument }
{
    let mut frame = [0u8; 6];
    let _ = wire::write_command(index, argument, &mut frame);
    frame
}

fn cmd2() -> [u8; 6]
    ensures { result ≡ cmd2 }
{
    command(2, 0)
}

// CMD3 with the number of the round as the address.
fn cmd3(round: usize) -> [u8; 6]
    ensures { result ≡ cmd3 round }
{
    command(3, (round % 65536) as u32 * 65536)
}

// How many answers the line shows: one or none.
fn heard(shown: Result<Option<usize>, Refusal>) -> usize
    ensures answer { result ≡ heard shown }
    ensures few { result ≤ 1 }
{
    match shown {
        Ok(Some(_)) => 1,
        Ok(None) => 0,
        Err(_) => 0,
    }
}

// So many rounds, each CMD2 and then CMD3.
#[tactic(auto, unfolding(crate::specs::Rounds::after_rounds, crate::specs::Rounds::answered_in))]
fn play(bus: Bus, rounds: usize) -> Played
    ensures { result ≡ played_on bus rounds }
{
    let who = cmd2();
    let mut next = bus;
    let mut answered: usize = 0;
    for k in 0..rounds {
        let asked = bus::frame(next, &who);
        let shown = asked.shown;
        let found = asked.bus;
        answered += heard(shown);
        let address = cmd3(k + 1);
        let told = bus::frame(found, &address);
        next = told.bus;
    }
    Played {
        bus: next,
        answered,
    }
}

// The address in each place. Place by place: `map` takes all thirty cards along.
fn addresses_of(bus: Bus) -> [u16; 30]
    ensures { result ≡ addresses_of bus }
{
    let mut addresses = [0; 30];
    for place in 0..30 {
        addresses[place] = bus.cards[place].link.address;
    }
    addresses
}

// Rounds of CMD2 and CMD3 on a bus of cards in Ready: how many CMD2 got an answer, and the address
// that each card then has. A bus can't cross to C, so it is made here from the cards' CIDs.
#[unsafe(no_mangle)]
pub extern "C" fn measured_rounds(
    cids: &[u8; 480],
    count: usize,
    rounds: usize,
    addresses: &mut [u16; 30],
) -> usize
    ensures answer { result ≡ answered_in (bus_of cids.now count) rounds }
    ensures addresses { addresses.new ≡ addresses_of (after_rounds (bus_of cids.now count) rounds) }
{
    let bus = bus_of(cids, count);
    let played = play(bus, rounds);
    let last = played.bus;
    *addresses = addresses_of(last);
    played.answered
}
