// A card that is driven by a script, between its turns.
//
// Offers: `CardPlayer`.
ghost use Rattle.std.specs.Prelude.{◌≡◌, ◌++◌, ◌<◌, length, drop};
ghost use Rattle.cardline_player.specs.Turn.{at_hand, advanced_of, buffer_of, turn_of};
ghost use Rattle.cardline_records.specs.Progress.{fresh_progress};
ghost use Rattle.cardline_records.specs.Record.{text_of, buffers_after};
ghost use Rattle.cardline_records.specs.Transcript.{cut_text};
ghost use Rattle.cardline_script.specs.Whole.{longest_record};
ghost use Rattle.playing.specs.declared.Then.TheVariants.{Waits};
ghost use Rattle.store.specs.Lent.{lent_of};
ghost use Rattle.text.specs.Writing.{Put};

use crate::advance;
use cardline_records::Progress;
use playing::{Player, Turn};

// With the memory and the map that its records lend, and the place in the buffer at which the next
// record begins.
#[derive(Drop)]
pub struct CardPlayer<'a> {
    pub progress: Progress,
    pub from: usize,
    pub memory: &'a mut [u8],
    pub map: &'a mut [u8],
}

impl<'a> CardPlayer<'a> {
    // Before the first record.
    pub fn fresh(memory: &'a mut [u8], map: &'a mut [u8]) -> CardPlayer<'a>
        ensures kept { (result.progress ≡ fresh_progress) × (result.from ≡ 0) }
        ensures lent { lent_of result.memory.now result.map.now ≡ lent_of memory.old map.old }
    {
        CardPlayer {
            progress: cardline_records::fresh(),
            from: 0,
            memory,
            map,
        }
    }
}

impl Player for CardPlayer<'_> {
    fn turn(&mut self, to: usize, buffer: &mut [u8], out: &mut [u8]) -> Turn
        ensures answer { let turned = advanced_of self.old.progress self.old.from to buffer.old (lent_of self.old.memory.now self.old.map.now) (length out.old) in
            (result ≡ turn_of turned) × (self.new.progress ≡ turned.progress) × (self.new.from ≡ turned.from) }
        ensures buffer { buffer.new ≡ buffer_of self.old.progress self.old.from to buffer.old (lent_of self.old.memory.now self.old.map.now) (length out.old) }
        ensures lent { lent_of self.new.memory.now self.new.map.now ≡ buffers_after self.old.progress (at_hand self.old.from to buffer.old) (lent_of self.old.memory.now self.old.map.now) (length out.old) }
        ensures text { out.new ≡ text_of self.old.progress (at_hand self.old.from to buffer.old) (lent_of self.old.memory.now self.old.map.now) (length out.old) ++ drop result.wrote out.old }
        ensures room { result.then ≡ Waits → result.to < longest_record }
    {
        let turned = advance(
            self.progress,
            self.from,
            to,
            buffer,
            self.memory,
            self.map,
            out,
        );
        self.progress = turned.progress;
        self.from = turned.from;
        Turn {
            to: turned.to,
            wrote: turned.wrote,
            then: turned.then,
        }
    }

    fn cut(&self, left: &[u8], out: &mut [u8]) -> usize
        ensures { Put out.old out.new 0 result (cut_text (length left.now)) }
    {
        cardline_records::cut(left.len(), out)
    }
}
