// A script of `cardline`: a row of records, each a byte of kind and a body. What the record at the
// front of what is left of a script asks for, and whether all of it is there.
//
// Offers: `Sizes`, `Stop`, `Making`, `Calling`, `Looking`, `Wiring`, `Going`, `Asked`, `Halt`; `read`, `used`;
// and `numbers::four`.
#![tactic(auto)]

mod kinds;
mod lengths;
pub mod numbers;

ghost use Rattle.std.specs.Prelude.{◌≡◌};
ghost use Rattle.cardline_script.specs.Reading.{more_asked, asked_of};

use kinds::{
    block_in_asked, block_out_asked, check_asked, frame_asked, lend_asked, make_asked,
    memory_asked, poke_asked, write_block_asked, write_frame_asked,
};
pub use lengths::used;

// The bytes of a memory and of a map.
#[derive(Clone, Copy)]
pub struct Sizes {
    pub memory: u32,
    pub map: u8,
}

// Why a script goes no further.
#[derive(Clone, Copy)]
pub enum Stop {
    NoCard,
    BadKind,
    TooBig,
}

// A make: the memory's size and what it is filled with, the sizes of the map and the password.
#[derive(Clone, Copy)]
pub struct Making {
    pub memory: u32,
    pub fill: u8,
    pub map: u8,
    pub password: u8,
}

// A call of the card: a frame of so many bytes with its select line low or high, a block in of so many,
// a block out into so many.
#[derive(Clone, Copy)]
pub enum Calling {
    Frame { length: u8, selected: bool },
    BlockIn(u16),
    BlockOut(u16),
    WorkDone,
    PowerOn,
}

// No call: what is shown of the card and of its mode, what is lent from now on, and an entry of the map.
#[derive(Clone, Copy)]
pub enum Looking {
    Card,
    Mode,
    Memory { from: u32, length: u16 },
    Lend(Sizes),
    Poke { entry: u8, value: u8 },
}

// A call of the wire, which concerns no card.
#[derive(Clone, Copy)]
pub enum Wiring {
    Frame { index: u8, argument: u32, room: u8 },
    Block { length: u16, room: u16 },
    Check(u16),
}

// What a record of a made card asks for.
#[derive(Clone, Copy)]
pub enum Going {
    Call(Calling),
    Look(Looking),
    Wire(Wiring),
}

// What a record asks for.
#[derive(Clone, Copy)]
pub enum Asked {
    Make(Making),
    Go(Going),
}

// Why a record is not carried out: more bytes are wanted, where it is not whole yet, or the script goes
// no further.
#[derive(Clone, Copy)]
pub enum Halt {
    More,
    Stop(Stop),
}

// A record of a script whose card is made.
#[tactic(auto, unfolding(crate::specs::Reading::more_asked, crate::specs::Reading::shown_asked, crate::specs::Reading::spi_asked))]
fn more_asked(kind: u8, script: &[u8]) -> Result<Asked, Halt>
    ensures { result ≡ more_asked kind script.now }
{
    match kind {
        0x02 => frame_asked(script, false),
        0x03 => block_in_asked(script),
        0x04 => block_out_asked(script),
        0x05 => Ok(Asked::Go(Going::Call(Calling::WorkDone))),
        0x06 => Ok(Asked::Go(Going::Call(Calling::PowerOn))),
        0x07 => Ok(Asked::Go(Going::Look(Looking::Card))),
        0x08 => memory_asked(script),
        0x09 => lend_asked(script),
        0x0A => poke_asked(script),
        0x0B => write_frame_asked(script),
        0x0C => write_block_asked(script),
        0x0D => check_asked(script),
        0x0E => frame_asked(script, true),
        0x0F => Ok(Asked::Go(Going::Look(Looking::Mode))),
        _ => Err(Halt::Stop(Stop::BadKind)),
    }
}

// A record, with whether a card was made before it.
#[tactic(auto, unfolding(crate::specs::Reading::asked_of))]
pub fn read(made: bool, script: &[u8]) -> Result<Asked, Halt>
    ensures answer { result ≡ asked_of made script.now }
{
    match script.first() {
        None => Err(Halt::More),
        Some(kind) if made => more_asked(*kind, script),
        Some(0x01) => make_asked(script),
        Some(_) => Err(Halt::Stop(Stop::NoCard)),
    }
}
