// A bus of cards, driven by a script of `busline` records (document 01, "The shared line"). A script
// is a row of records, each a byte of kind and a body whose length the kind fixes. `carry_out` carries
// out the record at the front of the bytes at hand and writes its line; `play` all that are whole, so
// that a script can be played as it is read; `cut` says what the end of the input leaves over. specs/
// says what each kind does, and what a whole script prints.
//
// No call has a `requires`: where there is no room for the longest line, that is answered.
//
// Offers: `Asked`, `read`, `identifier`; `Progress`, `fresh`; `Said`, `carry_out`, `play`, `cut`.
#![tactic(auto)]

mod carry;
mod print;
mod reading;

ghost use Rattle.std.specs.Prelude.{◌≡◌, ◌++◌, ◌+◌, ◌-◌, ◌≤◌, length, drop};
ghost use Rattle.busline_records.specs.Printing.{roomy};
ghost use Rattle.busline_records.specs.Record.{fresh_progress, left_at, text_of, said_of};
ghost use Rattle.busline_records.specs.Transcript.{piece_of, said_by};
ghost use Rattle.text.specs.Writing.{Wrote};

use bus::Bus;
use carry::{carry, put_off};
use playing::Then;
pub use print::cut;
pub use reading::{identifier, read};
use text::parts::part;

// Room for the longest line.
const ROOMY: usize = 64;

// What a record asks for: a card with the identifier in its body, a frame, nothing that is known, or
// more bytes than there are.
// Not a `Result`: it would take a second enum for the last two, for the one `match` in `carry`.
#[derive(Clone, Copy)]
pub enum Asked {
    Card,
    Frame,
    BadKind,
    More,
}

// What is kept from record to record: the bus, and how many frames there were.
#[derive(Clone, Copy)]
pub struct Progress {
    pub bus: Bus,
    pub count: u64,
}

// What a record, or a piece of a script, leaves.
pub type Said = playing::Said<Progress>;

// Before a script: a bus of no cards, and no frame yet.
#[tactic(auto, unfolding(crate::specs::Record::fresh_progress))]
pub fn fresh() -> Progress
    ensures answer { result ≡ fresh_progress }
{
    Progress {
        bus: bus::empty(),
        count: 0,
    }
}

// The record at the front of what is left of a script.
#[tactic(auto, unfolding(crate::specs::Record::text_of, crate::specs::Record::said_of))]
pub fn carry_out(progress: Progress, script: &[u8], out: &mut [u8]) -> Said
    ensures answer { result ≡ said_of progress script.now (length out.old) }
    ensures text { out.new ≡ text_of progress script.now (length out.old) ++ drop result.wrote out.old }
    ensures short { result.wrote ≤ roomy }
{
    let Some(line) = out.first_chunk_mut::<ROOMY>() else {
        return put_off(progress, Then::NoRoom);
    };
    carry(progress, read(script), script, line)
}

// The record from a place of a script on, its line written from a place of the output on.
fn turn(progress: Progress, script: &[u8], at: usize, out: &mut [u8], wrote: usize) -> Said
    requires { wrote ≤ length out.old }
    ensures answer { result ≡ said_of progress (drop at script.now) (length out.old - wrote) }
    ensures text { Wrote out.old out.new wrote (wrote + result.wrote) (text_of progress (drop at script.now) (length out.old - wrote)) }
    ensures short { result.wrote ≤ roomy }
{
    let rest = part(script, at, script.len());
    carry_out(progress, rest, &mut out[wrote..])
}

// The whole records at the front of what is left of a script, as many as there is room for. One at
// which the script stops takes all of it.
pub fn play(progress: Progress, script: &[u8], out: &mut [u8]) -> Said
    ensures answer { result ≡ said_by (piece_of progress script.now (length out.old)) (length script.now) }
    ensures text { out.new ≡ (piece_of progress script.now (length out.old)).text ++ drop result.wrote out.old }
{
    let lines = out.len() / ROOMY;
    let mut kept = progress;
    let mut used = 0;
    let mut wrote = 0;
    for i in 0..lines {
        let said = turn(kept, script, used, out, wrote);
        kept = said.progress;
        wrote += said.wrote;
        match said.then {
            Then::Goes => used += said.used,
            Then::Stops => return left(kept, script.len(), wrote, Then::Stops),
            Then::Waits => return left(kept, used, wrote, Then::Waits),
            Then::NoRoom => return left(kept, used, wrote, Then::NoRoom),
        }
    }
    left(kept, used, wrote, Then::NoRoom)
}

fn left(progress: Progress, used: usize, wrote: usize, then: Then) -> Said
    ensures { result ≡ left_at progress used wrote then }
{
    Said {
        progress,
        used,
        wrote,
        then,
    }
}
