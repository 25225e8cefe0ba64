// A block in and a block out at one card (document 01, "Reading, writing, erasing, locking"), and the
// answer that every call of a card has. Each judges by value, from the record, the input, the map and
// the lengths of the rest, and then changes what is lent. No call has a `requires`.
//
// Offers: `Lending`; `Reply`, `Stepped`, `refuse`, `done`; `block_in`, `block_out`; `taken_in` and
// `given_out`, what these two do once what is lent was found right. The other types are what judging
// gives: the definitions name them.
#![tactic(auto)]

ghost use Rattle.std.specs.Prelude.{◌≡◌};
ghost use Rattle.card_blocks.specs.Lending.{held};
ghost use Rattle.store.specs.Lent.{lending_of, seen};

mod blocks_in;
mod blocks_out;
mod framing;
mod replies;

use base::Refusal;
pub use blocks_in::{block_in, taken_in};
pub use blocks_out::{block_out, given_out};
use card_record::{Card, Sent};
pub use replies::{done, refuse};

// What a card is lent at a call: its memory and its protection map.
#[derive(Drop)]
pub struct Lending<'a> {
    pub memory: &'a mut [u8],
    pub map: &'a mut [u8],
}

impl Lending<'_> {
    // The memory, to read.
    pub fn memory(&self) -> &[u8]
        ensures { result.now ≡ self.now.memory.now }
    {
        self.memory
    }

    // The map, to read.
    pub fn map(&self) -> &[u8]
        ensures { result.now ≡ self.now.map.now }
    {
        self.map
    }

    // Whether it is that of a card of so many groups: 12.
    pub fn check(&self, groups: usize) -> Result<(), Refusal>
        ensures { result ≡ lending_of (seen (held self.now)) groups }
    {
        store::lent_check(self.memory.len(), self.map(), groups)
    }
}

// A call's answer: that it was carried out, with how many bytes it wrote at the front of the output
// where it is a block out, or the refusal; and what the card sends.
#[derive(Clone, Copy)]
pub struct Reply {
    pub outcome: Result<Option<usize>, Refusal>,
    pub sent: Sent,
}

// The next record and the answer.
#[derive(Clone, Copy)]
pub struct Stepped {
    pub card: Card,
    pub reply: Reply,
}

// What a block is to change in what is lent: nothing; a sector, written; everything, erased.
#[derive(Clone, Copy)]
pub enum Storing {
    Nothing,
    Sector(u32),
    All,
}

// A block judged: the answer, and what is to be stored.
#[derive(Clone, Copy)]
pub struct BlockJudged {
    pub stepped: Stepped,
    pub storing: Storing,
}

// What goes out: nothing; bytes of memory from a place on; the protection bits from a group on; a
// register.
#[derive(Clone, Copy)]
pub enum Sending {
    Nothing,
    Part { at: u32, length: u16 },
    Protection(u32),
    Csd,
    Cid,
}

// A block out judged: the answer, and what goes out.
#[derive(Clone, Copy)]
pub struct OutJudged {
    pub stepped: Stepped,
    pub sending: Sending,
}
