// A bus that is driven by a script, between its turns.
//
// Offers: `BusPlayer`.
ghost use Rattle.std.specs.Prelude.{◌≡◌, ◌++◌, ◌-◌, length, take, drop};
ghost use Rattle.busline_player.specs.Turn.{turned_by, turn_of};
ghost use Rattle.busline_records.specs.Printing.{cut_text};
ghost use Rattle.busline_records.specs.Record.{fresh_progress};
ghost use Rattle.busline_records.specs.Transcript.{piece_of};
ghost use Rattle.playing.specs.Playing.{kept_of};
ghost use Rattle.text.specs.Writing.{Put};

use crate::advance;
use busline_records::Progress;
use playing::{Player, Turn};

#[derive(Clone, Copy)]
pub struct BusPlayer {
    pub progress: Progress,
}

impl BusPlayer {
    // Before the first record.
    pub fn fresh() -> BusPlayer
        ensures { result.progress ≡ fresh_progress }
    {
        BusPlayer {
            progress: busline_records::fresh(),
        }
    }
}

impl Player for BusPlayer {
    fn turn(&mut self, to: usize, buffer: &mut [u8], out: &mut [u8]) -> Turn
        ensures answer { result ≡ turn_of (turned_by (piece_of self.old.progress (take to buffer.old) (length out.old))) }
        ensures progress { self.new.progress ≡ (piece_of self.old.progress (take to buffer.old) (length out.old)).kept }
        ensures text { out.new ≡ (piece_of self.old.progress (take to buffer.old) (length out.old)).text ++ drop result.wrote out.old }
        ensures left { take result.to buffer.new ≡ (piece_of self.old.progress (take to buffer.old) (length out.old)).left }
        ensures buffer { buffer.new ≡ kept_of (length (take to buffer.old) - result.to) result.to buffer.old }
    {
        let turned = advance(self.progress, buffer, to, out);
        self.progress = turned.progress;
        Turn {
            to: turned.kept,
            wrote: turned.wrote,
            then: turned.then,
        }
    }

    fn cut(&self, left: &[u8], out: &mut [u8]) -> usize
        ensures { Put out.old out.new 0 result (cut_text left.now) }
    {
        busline_records::cut(left, out)
    }
}
