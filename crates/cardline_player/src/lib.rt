// A turn of a script for one card: all that happens between a read and a write. The record at the
// front of the bytes at hand is carried out by `cardline_records`; where it is not whole yet they are
// moved to the front of the buffer, behind which more is read. What is handed to the write call is
// promised here; that it arrives is the operating system's.
//
// Offers: `Turned`, `advance`; `CardPlayer`.
#![tactic(auto)]

mod player;

ghost use Rattle.std.specs.Prelude.{◌≡◌, ◌++◌, ◌+◌, ◌-◌, ◌<◌, min, length, drop};
ghost use Rattle.cardline_player.specs.Turn.{at_hand, left_by, buffer_by, turned_by, advanced_of, buffer_of};
ghost use Rattle.cardline_records.specs.Record.{text_of, buffers_after};
ghost use Rattle.cardline_script.specs.Whole.{longest_record};
ghost use Rattle.store.specs.Lent.{lent_of};
ghost use Rattle.playing.specs.declared.Then.TheVariants.{Waits};

use cardline_records::{Progress, Said};
pub use player::CardPlayer;
use playing::{Then, keep};
use text::parts::part;

// `from` and `to` stand apart, and are no range: `turned_by` and the laws of a turn speak of each.

// What a turn leaves: the bytes of the buffer that are at hand, from one place to another; those of
// the line at the front of the output; how the script goes on.
#[derive(Clone, Copy)]
pub struct Turned {
    pub progress: Progress,
    pub from: usize,
    pub to: usize,
    pub wrote: usize,
    pub then: Then,
}

// The bytes at hand.
fn at_hand(buffer: &[u8], from: usize, to: usize) -> &[u8]
    ensures { result.now ≡ at_hand from to buffer.now }
{
    part(part(buffer, 0, to), from, buffer.len())
}

// What is at hand behind a record: what it left over, at the front of the buffer if it waits for
// more.
fn settle(said: Said, from: usize, to: usize, buffer: &mut [u8]) -> Turned
    ensures answer { result ≡ turned_by said.then said from to (min to (length buffer.old) - from) }
    ensures buffer { buffer.new ≡ buffer_by said.then from (min to (length buffer.old) - from) buffer.old }
{
    match said.then {
        Then::Goes => {
            let next = from.saturating_add(said.used).min(to);
            leave(said, next, to, Then::NoRoom)
        }
        Then::Stops => leave(said, to, to, Then::Stops),
        Then::Waits => {
            let n = keep(buffer, from, to);
            leave(said, 0, n, Then::Waits)
        }
        Then::NoRoom => leave(said, from, to, Then::NoRoom),
    }
}

fn leave(said: Said, from: usize, to: usize, then: Then) -> Turned
    ensures { result ≡ left_by said from to then }
{
    Turned {
        progress: said.progress,
        from,
        to,
        wrote: said.wrote,
        then,
    }
}

// The record at the front of the bytes at hand, carried out.
pub fn advance(
    progress: Progress,
    from: usize,
    to: usize,
    buffer: &mut [u8],
    memory: &mut [u8],
    map: &mut [u8],
    out: &mut [u8],
) -> Turned
    ensures answer { result ≡ advanced_of progress from to buffer.old (lent_of memory.old map.old) (length out.old) }
    ensures buffer { buffer.new ≡ buffer_of progress from to buffer.old (lent_of memory.old map.old) (length out.old) }
    ensures lent { lent_of memory.new map.new ≡ buffers_after progress (at_hand from to buffer.old) (lent_of memory.old map.old) (length out.old) }
    ensures text { out.new ≡ text_of progress (at_hand from to buffer.old) (lent_of memory.old map.old) (length out.old) ++ drop result.wrote out.old }
    ensures room { result.then ≡ Waits → result.to < longest_record }
{
    let script = at_hand(buffer, from, to);
    let said = cardline_records::carry_out(progress, script, memory, map, out);
    settle(said, from, to, buffer)
}
