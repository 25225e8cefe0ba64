// A turn of a script for a bus: all that happens between a read and a write. The whole records among
// the bytes at hand are carried out by `busline_records`, and what is left over is moved to the front
// of the buffer, behind which more is read. What is handed to the write call is promised here; that
// it arrives is the operating system's.
//
// Offers: `Turned`, `advance`; `BusPlayer`.
#![tactic(auto)]

mod player;

ghost use Rattle.std.specs.Prelude.{◌≡◌, ◌++◌, ◌-◌, length, take, drop};
ghost use Rattle.busline_records.specs.Transcript.{piece_of};
ghost use Rattle.busline_player.specs.Turn.{turned_by};
ghost use Rattle.playing.specs.Playing.{kept_of};

use busline_records::Progress;
pub use player::BusPlayer;
use playing::{Then, keep};
use text::parts::part;

// What a turn leaves: the bytes at the front of the buffer that are left over, and those of the text
// at the front of the output; how the script goes on.
#[derive(Clone, Copy)]
pub struct Turned {
    pub progress: Progress,
    pub kept: usize,
    pub wrote: usize,
    pub then: Then,
}

// The whole records among the first `kept` bytes of a buffer, played, and what is left over moved to
// its front.
pub fn advance(progress: Progress, buffer: &mut [u8], kept: usize, out: &mut [u8]) -> Turned
    ensures answer { result ≡ turned_by (piece_of progress (take kept buffer.old) (length out.old)) }
    ensures text { out.new ≡ (piece_of progress (take kept buffer.old) (length out.old)).text ++ drop result.wrote out.old }
    ensures left { take result.kept buffer.new ≡ (piece_of progress (take kept buffer.old) (length out.old)).left }
    ensures buffer { buffer.new ≡ kept_of (length (take kept buffer.old) - result.kept) result.kept buffer.old }
{
    let script = part(buffer, 0, kept);
    let said = busline_records::play(progress, script, out);
    let left = keep(buffer, said.used, kept);
    Turned {
        progress: said.progress,
        kept: left,
        wrote: said.wrote,
        then: said.then,
    }
}
