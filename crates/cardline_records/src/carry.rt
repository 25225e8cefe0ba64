// What a record asks for, carried out: a function for each group of kinds.
//
// Offers: `obey`.
ghost use Rattle.std.specs.Prelude.{◌≡◌};
ghost use Rattle.cardline_looks.specs.Lines.{roomy};
ghost use Rattle.cardline_records.specs.Record.{stop_text, going_text, going_buffers, going_progress, asked_text, asked_buffers, asked_said};
ghost use Rattle.cardline_records.specs.Progress.{gone_on};
ghost use Rattle.cardline_script.specs.Whole.{used_going};
ghost use Rattle.cardline_script.specs.declared.Going.TheVariants.{Call, Look};
ghost use Rattle.card_blocks.specs.Lending.{held, Leaves};
ghost use Rattle.text.specs.Writing.{Line};

use crate::calls::called;
use crate::make::make;
use crate::results::{counted, ends, goes_on, left_alone, with_card, with_lent};
use crate::{Progress, Said};
use card_blocks::Lending;
use cardline_looks::{look_line, set_map, sizes_looked, wire_line};
use cardline_script::{Asked, Calling, Going, Halt, Looking, Stop, used};
use playing::Then;
use text::lines::plain;

fn stop_line(stop: Stop, out: &mut [u8]) -> usize
    ensures { Line roomy out.old out.new result (stop_text stop) }
{
    match stop {
        Stop::NoCard => plain(b"no card", out),
        Stop::BadKind => plain(b"bad kind", out),
        Stop::TooBig => plain(b"too big", out),
    }
}

// Each of these gives what is kept behind a record that takes so many bytes of a script.

#[tactic(auto, unfolding(crate::specs::Record::going_text, crate::specs::Record::going_buffers, crate::specs::Record::going_progress))]
fn call_on(
    progress: Progress,
    calling: Calling,
    used: usize,
    script: &[u8],
    buffers: &mut Lending,
    out: &mut [u8],
) -> Said
    ensures answer { result ≡ gone_on (going_progress progress (Call calling) script.now (held buffers.old)) used result.wrote }
    ensures lent { Leaves buffers.old buffers.new (going_buffers progress (Call calling) script.now (held buffers.old)) }
    ensures line { Line roomy out.old out.new result.wrote (going_text progress (Call calling) script.now (held buffers.old)) }
{
    let after = called(
        progress.count,
        progress.card,
        progress.lent,
        calling,
        script,
        buffers,
        out,
    );
    goes_on(with_card(progress, after.card), used, after.wrote)
}

#[tactic(auto, unfolding(crate::specs::Record::going_text, crate::specs::Record::going_buffers, crate::specs::Record::going_progress))]
fn look_on(
    progress: Progress,
    looking: Looking,
    used: usize,
    script: &[u8],
    buffers: &mut Lending,
    out: &mut [u8],
) -> Said
    ensures answer { result ≡ gone_on (going_progress progress (Look looking) script.now (held buffers.old)) used result.wrote }
    ensures lent { Leaves buffers.old buffers.new (going_buffers progress (Look looking) script.now (held buffers.old)) }
    ensures line { Line roomy out.old out.new result.wrote (going_text progress (Look looking) script.now (held buffers.old)) }
{
    let (memory, map) = (&mut *buffers.memory, &mut *buffers.map);
    let wrote = look_line(
        progress.count,
        progress.own,
        progress.card.link,
        progress.card.mode,
        progress.card.lock.locked,
        looking,
        memory,
        map,
        out,
    );
    set_map(progress.own, looking, map);
    let lent = sizes_looked(looking, progress.lent);
    goes_on(with_lent(progress, lent), used, wrote)
}

#[tactic(auto, unfolding(crate::specs::Record::going_text, crate::specs::Record::going_buffers, crate::specs::Record::going_progress))]
fn carry(
    progress: Progress,
    going: Going,
    script: &[u8],
    buffers: &mut Lending,
    out: &mut [u8],
) -> Said
    ensures answer { result ≡ gone_on (going_progress progress going script.now (held buffers.old)) (used_going going) result.wrote }
    ensures lent { Leaves buffers.old buffers.new (going_buffers progress going script.now (held buffers.old)) }
    ensures line { Line roomy out.old out.new result.wrote (going_text progress going script.now (held buffers.old)) }
{
    let used = used(going);
    match going {
        Going::Call(calling) => call_on(progress, calling, used, script, buffers, out),
        Going::Look(looking) => look_on(progress, looking, used, script, buffers, out),
        Going::Wire(wiring) => {
            let wrote = wire_line(progress.count, wiring, script, out);
            goes_on(progress, used, wrote)
        }
    }
}

#[tactic(auto, unfolding(crate::specs::Record::asked_said, crate::specs::Record::asked_buffers, crate::specs::Record::asked_text))]
pub fn obey(
    progress: Progress,
    asked: Result<Asked, Halt>,
    script: &[u8],
    buffers: &mut Lending,
    out: &mut [u8],
) -> Said
    ensures answer { result ≡ asked_said progress asked script.now (held buffers.old) result.wrote }
    ensures lent { Leaves buffers.old buffers.new (asked_buffers progress asked script.now (held buffers.old)) }
    ensures line { Line roomy out.old out.new result.wrote (asked_text progress asked script.now (held buffers.old)) }
{
    match asked {
        Err(Halt::More) => left_alone(progress, Then::Waits),
        Err(Halt::Stop(stop)) => {
            let wrote = stop_line(stop, out);
            ends(progress, wrote)
        }
        Ok(Asked::Make(making)) => make(progress, making, script, buffers, out),
        Ok(Asked::Go(going)) => carry(counted(progress), going, script, buffers, out),
    }
}
