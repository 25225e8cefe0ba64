// One card at its own calls (document 01, "How a card takes a frame" and "Reading, writing, erasing,
// locking"): a frame, and the one step that is a frame, a block in, a block out, work done or power-on.
// A frame is judged by value, from the record, its bytes, the map and the memory's length, and then
// changes what is lent. No call has a `requires`.
//
// Offers: `frame`; `Answered`, `heard`, what it does once what is lent was found right and the frame read;
// `Call`, `step`. `card_blocks` has the blocks, and the answer of a call.
#![tactic(auto)]

mod frames;

ghost use Rattle.std.specs.Prelude.{◌≡◌, length};
ghost use Rattle.card.specs.Step.{step_of, lent_after, output_of};
ghost use Rattle.card_blocks.specs.Lending.{held, Leaves};
ghost use Rattle.store.specs.Lent.{seen};

use card_blocks::{Lending, Stepped, block_in, block_out, done};
use card_record::{Card, Link, Mode, Sent};
pub use frames::{frame, heard};

// What a command leaves at a card: mode and link, and what is sent.
#[derive(Clone, Copy)]
pub struct Answered {
    pub mode: Mode,
    pub link: Link,
    pub sent: Sent,
}

// Everything that can happen to a made card. A frame comes with whether the card wins the line in CMD2, as one
// that is alone on it does, and whether the card's select line is low.
#[derive(Clone, Copy)]
pub enum Call {
    Frame { wins: bool, selected: bool },
    BlockIn,
    BlockOut,
    WorkDone,
    PowerOn,
}

// One call, whichever it is. A frame and a block in are in `input`; a block out goes to `out`.
pub fn step(card: Card, call: Call, input: &[u8], lent: &mut Lending, out: &mut [u8]) -> Stepped
    ensures answer { result ≡ step_of card call input.now (seen (held lent.old)) (length out.old) }
    ensures lent { Leaves lent.old lent.new (lent_after card call input.now (held lent.old)) }
    ensures output { out.new ≡ output_of card call (held lent.old) out.old }
{
    match call {
        Call::Frame { wins, selected } => frame(card, wins, selected, input, lent),
        Call::BlockIn => block_in(card, input, lent),
        Call::BlockOut => block_out(card, lent.memory(), lent.map(), out),
        Call::WorkDone => done(card_record::work_done(card)),
        Call::PowerOn => done(card_record::power_on(card)),
    }
}
