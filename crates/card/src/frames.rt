// A frame at a card: 12, 1, 2, 3, and then the command.
ghost use Rattle.std.specs.Prelude.{◌≡◌};
ghost use Rattle.card.specs.Frame.{framed, commanded, frame_judged, skip_told, frame_told, frame_stepped, changed, changed_by, command_heard};
ghost use Rattle.base.specs.Refusals.{by};
ghost use Rattle.command.specs.Command.{met_by};
ghost use Rattle.spi.specs.Hearing.{heard_of, damaged_of};
ghost use Rattle.card_blocks.specs.Lending.{held, Leaves};
ghost use Rattle.store.specs.Lent.{seen};

use crate::Answered;
use base::Refusal;
use card_blocks::{Lending, Reply, Stepped, refuse};
use card_record::{Card, Link, Mode};
use command::{Change, Met};
use status::ErrorBit;
use wire::{Command, Fields};

// Bit 15, which waits for the next R1, where an erase spared a sector.
fn tell_spared(link: Link, spared: bool) -> Link
    ensures { result ≡ skip_told link spared }
{
    if spared {
        Link {
            errors: status::set(link.errors, ErrorBit::WpEraseSkip),
            ..link
        }
    } else {
        link
    }
}

// A command at a card's mode and link: what it changes in what is lent is changed. `whole` says whether the
// CSD protects the whole card, `selected` whether its select line is low.
pub fn heard(
    mode: Mode,
    selected: bool,
    link: Link,
    met: Met,
    whole: bool,
    command: Command,
    lent: &mut Lending,
) -> Answered
    ensures answer { result ≡ command_heard mode selected link met whole command.index command.argument (seen (held lent.old)) }
    ensures lent { Leaves lent.old lent.new (changed link.tags whole (heard_of mode selected link met command.index command.argument).change (held lent.old)) }
{
    let given = spi::hear(mode, selected, link, met, command);
    let next = given.link;
    let told = match given.change {
        Change::Nothing => next,
        Change::Protect { group, on } => {
            store::protect(lent.map, group, on);
            next
        }
        Change::Erase => {
            let map = &mut *lent.map;
            tell_spared(next, store::erase(lent.memory, map, link.tags, whole))
        }
    };
    Answered {
        mode: given.mode,
        link: told,
        sent: given.sent,
    }
}

// A command at a card that would win the line in CMD2, or would not.
fn commanded(
    card: Card,
    wins: bool,
    selected: bool,
    command: Command,
    lent: &mut Lending,
) -> Stepped
    ensures answer { result ≡ frame_told card (seen (held lent.old)) (commanded card (Ok None) (heard_of card.mode selected card.link (met_by card wins) command.index command.argument)) }
    ensures lent { Leaves lent.old lent.new (changed_by card (heard_of card.mode selected card.link (met_by card wins) command.index command.argument).change (held lent.old)) }
{
    let whole = card_record::csd_protects(card.registers.csd);
    let met = command::met_by(card, wins);
    let given = heard(card.mode, selected, card.link, met, whole, command, lent);
    Stepped {
        card: Card {
            link: given.link,
            mode: given.mode,
            ..card
        },
        reply: Reply {
            outcome: Ok(None),
            sent: given.sent,
        },
    }
}

// A frame whose CRC7 is wrong, where that counts. It ends as `commanded` does; a function for both ends would take five parameters.
fn damaged(card: Card, selected: bool) -> Stepped
    ensures { result ≡ (commanded card (Err (by 3)) (damaged_of card.mode selected card.link)).stepped }
{
    let given = spi::damaged(card.mode, selected, card.link);
    Stepped {
        card: Card {
            link: given.link,
            mode: given.mode,
            ..card
        },
        reply: Reply {
            outcome: Err(Refusal::FrameCrc),
            sent: given.sent,
        },
    }
}

// A frame as `unframe` reads it, at a card that is lent what is its own: 1, 2, 3.
fn framed(
    card: Card,
    wins: bool,
    selected: bool,
    framing: Result<Fields, Refusal>,
    lent: &mut Lending,
) -> Stepped
    ensures answer { result ≡ frame_told card (seen (held lent.old)) (framed card wins selected framing) }
    ensures lent { Leaves lent.old lent.new (changed_by card (framed card wins selected framing).change (held lent.old)) }
{
    match framing {
        Ok(
            Fields {
                index,
                argument,
                crc_right,
            },
        ) => {
            if spi::crc_passes(card.mode, index, crc_right) {
                commanded(card, wins, selected, Command { index, argument }, lent)
            } else {
                damaged(card, selected)
            }
        }
        Err(refusal) => refuse(card, refusal),
    }
}

// A frame at a card: judged, and then carried out on what is lent. A card that is alone on its line wins
// CMD2; one that shares it is told whether its CID was heard to the last bit.
pub fn frame(card: Card, wins: bool, selected: bool, frame: &[u8], lent: &mut Lending) -> Stepped
    ensures answer { result ≡ frame_stepped card wins selected frame.now (seen (held lent.old)) }
    ensures lent { Leaves lent.old lent.new (changed_by card (frame_judged card wins selected frame.now (seen (held lent.old))).change (held lent.old)) }
{
    match lent.check(card.registers.groups as usize) {
        Ok(()) => {
            let framing = wire::unframe(frame);
            framed(card, wins, selected, framing, lent)
        }
        Err(refusal) => refuse(card, refusal),
    }
}
