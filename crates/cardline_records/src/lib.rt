// One card, driven through its own calls by a script of `cardline`. A script is a row of records,
// each a byte of kind and a body; one call here carries out the record at the front of what is left
// of a script and writes its line. specs/ says what each kind does.
//
// The card's memory and map are the first bytes of two buffers, with zeros behind them: what a call
// of the card is lent is so many of each from the front. A buffer that is shorter than a record
// wants is used as far as it goes, and an output without room for every line is left alone, so
// `carry_out` has no `requires`.
//
// Offers: `Progress`, `fresh`; `Said`, `carry_out`; `cut`.
#![tactic(auto)]

mod answers;
mod calls;
mod carry;
mod make;
mod results;

ghost use Rattle.std.specs.Prelude.{◌≡◌, ◌++◌, length, drop};
ghost use Rattle.cardline_records.specs.Record.{said_of, buffers_after, text_of};
ghost use Rattle.cardline_records.specs.Progress.{fresh_progress};
ghost use Rattle.cardline_records.specs.Transcript.{cut_text};
ghost use Rattle.store.specs.Lent.{lent_of};
ghost use Rattle.text.specs.Writing.{Put};

use card_blocks::Lending;
use card_record::Card;
use cardline_looks::ROOMY;
use cardline_script::Sizes;
use carry::obey;
use playing::Then;
use results::left_alone;
use text::lines::plain;

// What is kept from record to record: the card, if one was made; the sizes of its own memory and
// map, and of what its calls are lent; how many records were carried out since the make.
#[derive(Clone, Copy)]
pub struct Progress {
    // Not an `Option`: `fresh_progress` and the laws of a record name a card whatever `made` says, that of a refused make.
    pub card: Card,
    pub made: bool,
    pub own: Sizes,
    pub lent: Sizes,
    pub count: u64,
}

// What a record leaves.
pub type Said = playing::Said<Progress>;

// Before a script: no card, for which the record of a refused make stands, and nothing lent.
#[tactic(auto, unfolding(crate::specs::Progress::fresh_progress))]
pub fn fresh() -> Progress
    ensures answer { result ≡ fresh_progress }
{
    Progress {
        card: card_record::refused_make(),
        made: false,
        own: Sizes { memory: 0, map: 0 },
        lent: Sizes { memory: 0, map: 0 },
        count: 0,
    }
}

// The record at the front of what is left of a script.
#[tactic(auto, unfolding(crate::specs::Record::said_of, crate::specs::Record::buffers_after, crate::specs::Record::text_of))]
pub fn carry_out(
    progress: Progress,
    script: &[u8],
    memory: &mut [u8],
    map: &mut [u8],
    out: &mut [u8],
) -> Said
    ensures answer { result ≡ said_of progress script.now (lent_of memory.old map.old) (length out.old) }
    ensures lent { lent_of memory.new map.new ≡ buffers_after progress script.now (lent_of memory.old map.old) (length out.old) }
    ensures text { out.new ≡ text_of progress script.now (lent_of memory.old map.old) (length out.old) ++ drop result.wrote out.old }
{
    if out.len() < ROOMY {
        return left_alone(progress, Then::NoRoom);
    }
    let asked = cardline_script::read(progress.made, script);
    obey(progress, asked, script, &mut Lending { memory, map }, out)
}

// The line at the end of the input, where so many bytes are left over of it: `cut`, or none.
pub fn cut(left: usize, out: &mut [u8]) -> usize
    ensures text { Put out.old out.new 0 result (cut_text left) }
{
    if left == 0 {
        return 0;
    }
    plain(b"cut", out)
}
