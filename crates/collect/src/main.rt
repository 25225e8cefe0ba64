// Collect: a night at the dock in small. Three units are docked on one bus, the third a copy of the
// first. A round of CMD2 and CMD3 finds a unit and gives it an address; then it is selected on the
// bus, taken out of its place, written and read by its own calls, and put back. Three units are
// docked and two rounds are answered: so the copy shows.
#![tactic(auto)]

mod own;
mod say;

use bus::{Bus, Framed};

fn main(rt: HostRuntime) {
    let bus = dock();
    let units = bus.count;
    say::counted(&rt, units, rounds(&rt, bus));
}

// Two units by their identifiers, and a copy of the first.
fn dock() -> Bus {
    let one = [0, 0, 0, 0, 0, 0, 0, 0, 0, 0, 0, 0, 0xC0, 0xFF, 0xEE, 0xAD];
    let other = [0, 0, 0, 0, 0, 0, 0, 0, 0, 0, 0, 0, 0xFA, 0xCA, 0xDE, 0x97];
    docked(docked(docked(bus::empty(), one), other), one)
}

fn docked(bus: Bus, cid: [u8; 16]) -> Bus {
    let added = bus::add(bus, own::made(cid));
    added.bus
}

// A command for all units.
fn send(bus: Bus, index: u8, argument: u32) -> Framed {
    bus::frame(bus, &own::command(index, argument))
}

// The same, where what the line shows is no matter.
fn tell(bus: Bus, index: u8, argument: u32) -> Bus {
    send(bus, index, argument).bus
}

// CMD1 makes all ready. Then CMD2 asks who is there, until nobody answers: how many rounds were
// answered. 30 units can answer no more than 30.
fn rounds(rt: &impl Print, docked: Bus) -> u16 {
    let mut bus = tell(docked, 1, 0x00FF_8000);
    for answered in 0..30 {
        let asked = send(bus, 2, 0);
        let shown = asked.shown;
        let line = asked.line;
        if !say::heard(rt, shown, line) {
            return answered;
        }
        let address = (u32::from(answered) + 1) << 16;
        bus = reached(rt, asked.bus, address, place_of(line));
    }
    30
}

// Where the unit is that was heard, by the dock's own list: it knows of one with each identifier.
fn place_of(line: [u8; 17]) -> usize {
    if line[13] == 0xC0 {
        return 0;
    }
    1
}

// CMD3 gives the unit that was heard an address, in bits 31..16, CMD7 selects it, and CMD7 to address
// 0 deselects it.
fn reached(rt: &impl Print, heard: Bus, address: u32, place: usize) -> Bus {
    let standby = tell(heard, 3, address);
    let selected = tell(standby, 7, address);
    let back = collected(rt, selected, place);
    tell(back, 7, 0)
}

// The unit in a place is taken out, writes and reads by its own calls, and is put back.
fn collected(rt: &impl Print, bus: Bus, place: usize) -> Bus {
    let Some(card) = bus::take(bus, place) else {
        return bus;
    };
    bus::put(bus, place, own::exchanged(rt, card))
}
