// Kind 01: a card made.
//
// Offers: `make`.
ghost use Rattle.std.specs.Prelude.{◌≡◌, length};
ghost use Rattle.cardline_looks.specs.Lines.{roomy};
ghost use Rattle.cardline_records.specs.Makes.{memory_filled, buffers_made, register_at, made_from, card_made, made_progress, make_text, make_said};
ghost use Rattle.store.specs.Lent.{seen_of};
ghost use Rattle.card_blocks.specs.Lending.{held, Leaves};
ghost use Rattle.text.specs.Writing.{Line};

use crate::results::{ends, goes_on};
use crate::{Progress, Said};
use base::{Refusal, copy, fill};
use card_blocks::Lending;
use card_record::{Card, Made};
use cardline_script::numbers::four;
use cardline_script::{Making, Sizes};
use text::lines::{plain, refused_by};
use text::parts::part;

// The first bytes of a memory, as far as it has them, made one value.
fn fill_front(n: usize, value: u8, memory: &mut [u8])
    ensures { memory.new ≡ memory_filled n value memory.old }
{
    let k = n.min(memory.len());
    fill(&mut memory[..k], value);
}

// The 16 bytes of a register.
fn register(script: &[u8], at: usize) -> [u8; 16]
    ensures { result ≡ register_at script.now at }
{
    let mut bytes = [0; 16];
    copy(part(script, at, 16), &mut bytes, 0);
    bytes
}

// The card of a record, lent so much of a memory and this map.
#[tactic(auto, unfolding(crate::specs::Makes::made_from))]
fn made_of(making: Making, script: &[u8], memory: &[u8], map: &[u8]) -> Made
    ensures { result ≡ made_from making script.now (seen_of (length memory.now) map.now) }
{
    let at = making.map as usize;
    let cid = register(script, at + 6);
    let csd = register(script, at + 22);
    let ocr = four(script, at + 38);
    let password = part(script, at + 43, making.password as usize);
    card_record::make(cid, csd, ocr, password, memory, map)
}

// The memory and the map filled, and the card made that is lent them.
#[tactic(auto, unfolding(crate::specs::Makes::card_made))]
fn make_card(making: Making, script: &[u8], buffers: &mut Lending) -> Made
    ensures answer { result ≡ card_made making script.now (held buffers.old) }
    ensures lent { Leaves buffers.old buffers.new (buffers_made making script.now (held buffers.old)) }
{
    let (memory, map) = (&mut *buffers.memory, &mut *buffers.map);
    fill_front(making.memory as usize, making.fill, memory);
    copy(part(script, 6, making.map as usize), map, 0);
    let own = part(memory, 0, making.memory as usize);
    let entries = part(map, 0, making.map as usize);
    made_of(making, script, own, entries)
}

pub fn make(
    progress: Progress,
    making: Making,
    script: &[u8],
    buffers: &mut Lending,
    out: &mut [u8],
) -> Said
    ensures answer { result ≡ make_said progress making (card_made making script.now (held buffers.old)).card (card_made making script.now (held buffers.old)).making result.wrote }
    ensures lent { Leaves buffers.old buffers.new (buffers_made making script.now (held buffers.old)) }
    ensures line { Line roomy out.old out.new result.wrote (make_text (card_made making script.now (held buffers.old)).making) }
{
    let made = make_card(making, script, buffers);
    let outcome = made.making;
    let wrote = make_line(outcome, out);
    make_said(progress, making, made, wrote)
}

fn make_line(outcome: Result<(), Refusal>, out: &mut [u8]) -> usize
    ensures { Line roomy out.old out.new result (make_text outcome) }
{
    match outcome {
        Ok(()) => plain(b"made", out),
        Err(refusal) => refused_by(refusal, out),
    }
}

// The progress of a new card.
#[tactic(auto, unfolding(crate::specs::Makes::made_progress))]
fn made_progress(making: Making, card: Card) -> Progress
    ensures { result ≡ made_progress making card }
{
    let sizes = Sizes {
        memory: making.memory,
        map: making.map,
    };
    Progress {
        card,
        made: true,
        own: sizes,
        lent: sizes,
        count: 0,
    }
}

// What a make leaves: a new card, or a script that stops.
fn make_said(progress: Progress, making: Making, made: Made, wrote: usize) -> Said
    ensures answer { result ≡ make_said progress making made.card made.making result.wrote }
    ensures wrote { result.wrote ≡ wrote }
{
    let outcome = made.making;
    match outcome {
        Ok(()) => goes_on(
            made_progress(making, made.card),
            making.map as usize + 43 + making.password as usize,
            wrote,
        ),
        Err(_) => ends(progress, wrote),
    }
}
