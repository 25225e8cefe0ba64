// Kinds 02 to 06 and 0E: the calls of the card.
//
// Offers: `Left`, `called`.
ghost use Rattle.std.specs.Prelude.{◌≡◌, ◌<◌, max, length};
ghost use Rattle.cardline_looks.specs.Lines.{line_room, roomy};
ghost use Rattle.cardline_records.specs.Calls.{step_lent, buffers_lent, output_lent, call_text, called_by, input_of, room_of};
ghost use Rattle.card.specs.Step.{step_of, lent_after, output_of};
ghost use Rattle.card_blocks.specs.Lending.{held, Leaves};
ghost use Rattle.store.specs.Lent.{lent_of, seen};
ghost use Rattle.text.specs.Writing.{Line};

use crate::answers::reply_line;
use base::fill;
use card::Call;
use card_blocks::{Lending, Stepped};
use card_record::Card;
use cardline_looks::space;
use cardline_script::{Calling, Sizes};
use text::parts::part;

// A call of the card, through the socket. Memory and map come apart: of a part cut from a buffer and then lent in a struct, the check does not know what it holds afterwards.
fn step(
    card: Card,
    call: Call,
    input: &[u8],
    memory: &mut [u8],
    map: &mut [u8],
    output: &mut [u8],
) -> Stepped
    ensures answer { result ≡ step_of card call input.now (seen (lent_of memory.old map.old)) (length output.old) }
    ensures lent { lent_of memory.new map.new ≡ lent_after card call input.now (lent_of memory.old map.old) }
    ensures output { output.new ≡ output_of card call (lent_of memory.old map.old) output.old }
{
    socket::step_in_place(card, call, input, &mut Lending { memory, map }, output)
}

// The same, lent so much of each buffer.
fn lent_step(
    card: Card,
    lent: Sizes,
    call: Call,
    input: &[u8],
    buffers: &mut Lending,
    output: &mut [u8],
) -> Stepped
    ensures answer { result ≡ step_lent card lent call input.now (held buffers.old) (length output.old) }
    ensures lent { Leaves buffers.old buffers.new (buffers_lent card lent call input.now (held buffers.old)) }
    ensures output { output.new ≡ output_lent card lent call (held buffers.old) output.old }
{
    let k = (lent.memory as usize).min(buffers.memory.len());
    let j = (lent.map as usize).min(buffers.map.len());
    let (memory, map) = (&mut buffers.memory[..k], &mut buffers.map[..j]);
    step(card, call, input, memory, map, output)
}

// What a call leaves: the next record, and the bytes of its line.
#[derive(Clone, Copy)]
pub struct Left {
    pub card: Card,
    pub wrote: usize,
}

// A call with its input, lent an output that is made A5 first: the next record, and its line.
fn call_into(
    count: u64,
    card: Card,
    lent: Sizes,
    call: Call,
    input: &[u8],
    buffers: &mut Lending,
    output: &mut [u8],
    out: &mut [u8],
) -> Left
    ensures record { result.card ≡ (step_lent card lent call input.now (held buffers.old) (length output.old)).card }
    ensures lent { Leaves buffers.old buffers.new (buffers_lent card lent call input.now (held buffers.old)) }
    ensures line { Line (line_room 20 (max 17 (length output.old))) out.old out.new result.wrote (call_text count card lent call input.now (held buffers.old) (length output.old)) }
{
    fill(output, 0xA5);
    let stepped = lent_step(card, lent, call, input, buffers, output);
    let reply = stepped.reply;
    let wrote = reply_line(count, call, card.registers, reply, output, out);
    let next = stepped.card;
    Left { card: next, wrote }
}

fn called_by(calling: Calling) -> Call
    ensures { result ≡ called_by calling }
{
    match calling {
        Calling::Frame { selected, .. } => Call::Frame {
            wins: true,
            selected,
        },
        Calling::BlockIn(_) => Call::BlockIn,
        Calling::BlockOut(_) => Call::BlockOut,
        Calling::WorkDone => Call::WorkDone,
        Calling::PowerOn => Call::PowerOn,
    }
}

fn input_of(calling: Calling, script: &[u8]) -> &[u8]
    ensures { result.now ≡ input_of calling script.now }
{
    match calling {
        Calling::Frame { length, .. } => part(script, 2, length as usize),
        Calling::BlockIn(n) => part(script, 3, n as usize),
        Calling::BlockOut(_) | Calling::WorkDone | Calling::PowerOn => b"",
    }
}

fn room_of(calling: Calling) -> usize
    ensures room { result ≡ room_of calling }
    ensures within { result < 65536 }
{
    if let Calling::BlockOut(n) = calling {
        return n as usize;
    }
    0
}

// The call of a record at the front of a script, of a card that is lent so much of two buffers.
pub fn called(
    count: u64,
    card: Card,
    lent: Sizes,
    calling: Calling,
    script: &[u8],
    buffers: &mut Lending,
    out: &mut [u8],
) -> Left
    ensures record { result.card ≡ (step_lent card lent (called_by calling) (input_of calling script.now) (held buffers.old) (room_of calling)).card }
    ensures lent { Leaves buffers.old buffers.new (buffers_lent card lent (called_by calling) (input_of calling script.now) (held buffers.old)) }
    ensures line { Line roomy out.old out.new result.wrote (call_text count card lent (called_by calling) (input_of calling script.now) (held buffers.old) (room_of calling)) }
{
    let call = called_by(calling);
    let input = input_of(calling, script);
    let n = room_of(calling);
    let mut space = space();
    call_into(
        count,
        card,
        lent,
        call,
        input,
        buffers,
        &mut space[..n],
        out,
    )
}
