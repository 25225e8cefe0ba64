// What a record asks for, carried out.
ghost use Rattle.std.specs.Prelude.{◌≡◌, ◌≤◌};
ghost use Rattle.busline_records.specs.Cards.{card_made};
ghost use Rattle.busline_records.specs.Printing.{bad_kind_text, roomy};
ghost use Rattle.busline_records.specs.Record.{stopped_by, put_off, card_text, card_said, frame_text, frame_said, asked_text, asked_said};
ghost use Rattle.text.specs.Writing.{Wrote};

use crate::print::{added_line, bad_kind_line, shown_line};
use crate::reading::identifier;
use crate::{Asked, Progress, ROOMY, Said, left};
use card_record::Card;
use playing::Then;
use text::parts::part;

// A record that has to wait.
pub fn put_off(progress: Progress, then: Then) -> Said
    ensures { result ≡ put_off progress then }
{
    left(progress, 0, 0, then)
}

// The card of a record of kind 01: lent one erased memory and a map of one entry.
#[tactic(auto, unfolding(crate::specs::Cards::made_with, crate::specs::Cards::card_made))]
fn card_of(script: &[u8]) -> Card
    ensures { result ≡ card_made script.now }
{
    let cid = identifier(script);
    let csd = [0, 0, 0, 0, 0, 0, 0, 0, 0, 0, 0, 0, 0, 0, 0, 1];
    let memory = [0xFFu8; 8192];
    let map = [0u8; 1];
    let made = card_record::make(cid, csd, 0x00FF_8000, b"", &memory, &map);
    made.card
}

fn stopped(progress: Progress, out: &mut [u8; ROOMY]) -> Said
    ensures answer { result ≡ stopped_by progress bad_kind_text }
    ensures text { Wrote out.old out.new 0 result.wrote bad_kind_text }
    ensures short { result.wrote ≤ roomy }
{
    let wrote = bad_kind_line(out);
    left(progress, 0, wrote, Then::Stops)
}

fn added(progress: Progress, script: &[u8], out: &mut [u8; ROOMY]) -> Said
    ensures answer { result ≡ card_said progress script.now }
    ensures text { Wrote out.old out.new 0 result.wrote (card_text progress script.now) }
    ensures short { result.wrote ≤ roomy }
{
    let card = card_of(script);
    let given = bus::add(progress.bus, card);
    let adding = given.adding;
    let next = given.bus;
    let wrote = added_line(adding, out);
    Said {
        progress: Progress {
            bus: next,
            count: progress.count,
        },
        used: 16,
        wrote,
        then: Then::Goes,
    }
}

// A refused frame counts as any other does.
#[tactic(auto, unfolding(crate::specs::Record::frame_text, crate::specs::Record::frame_said))]
fn framed(progress: Progress, script: &[u8], out: &mut [u8; ROOMY]) -> Said
    ensures answer { result ≡ frame_said progress script.now }
    ensures text { Wrote out.old out.new 0 result.wrote (frame_text progress script.now) }
    ensures short { result.wrote ≤ roomy }
{
    let count = progress.count.saturating_add(1);
    let given = bus::frame(progress.bus, part(script, 1, 6));
    let shown = given.shown;
    let line = given.line;
    let next = given.bus;
    let wrote = shown_line(count, shown, line, out);
    Said {
        progress: Progress { bus: next, count },
        used: 7,
        wrote,
        then: Then::Goes,
    }
}

#[tactic(auto, unfolding(crate::specs::Record::asked_text, crate::specs::Record::asked_said))]
pub fn carry(progress: Progress, asked: Asked, script: &[u8], out: &mut [u8; ROOMY]) -> Said
    ensures answer { result ≡ asked_said progress asked script.now }
    ensures text { Wrote out.old out.new 0 result.wrote (asked_text progress asked script.now) }
    ensures short { result.wrote ≤ roomy }
{
    match asked {
        Asked::Card => added(progress, script, out),
        Asked::Frame => framed(progress, script, out),
        Asked::BadKind => stopped(progress, out),
        Asked::More => put_off(progress, Then::Waits),
    }
}
