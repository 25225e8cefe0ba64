// Kinds 0B to 0D: the calls of the wire, which concern no card.
//
// Offers: `wire_line`; `space`.
ghost use Rattle.std.specs.Prelude.{◌≡◌, ◌+◌, length};
ghost use Rattle.cardline_looks.specs.Lines.{line_room, roomy, blank};
ghost use Rattle.cardline_looks.specs.Wires.{written_text, write_frame_text, write_block_text, checked_text, wire_text};
ghost use Rattle.text.specs.Writing.{Line};

use crate::lines::refused;
use base::{Refusal, fill};
use cardline_script::Wiring;
use text::lines::say;
use text::parts::part;

// What a writer answered, with the whole output that it was lent.
fn written_line(
    count: u64,
    word: &[u8],
    answer: Result<usize, Refusal>,
    output: &[u8],
    out: &mut [u8],
) -> usize
    ensures { Line (line_room (7 + length word.now) (length output.now)) out.old out.new result (written_text count word.now answer output.now) }
{
    match answer {
        Ok(_) => say(count, word, output, out),
        Err(refusal) => refused(count, refusal, output, out),
    }
}

fn frame_into(count: u64, index: u8, argument: u32, output: &mut [u8], out: &mut [u8]) -> usize
    ensures { Line (line_room 20 (length output.old)) out.old out.new result (write_frame_text count index argument (blank (length output.old))) }
{
    fill(output, 0xA5);
    let answer = wire::write_command(index, argument, output);
    written_line(count, b"frame", answer, output, out)
}

fn block_into(count: u64, payload: &[u8], output: &mut [u8], out: &mut [u8]) -> usize
    ensures { Line (line_room 20 (length output.old)) out.old out.new result (write_block_text count payload.now (blank (length output.old))) }
{
    fill(output, 0xA5);
    let answer = wire::write_block(payload, output);
    written_line(count, b"data", answer, output, out)
}

fn checked_line(count: u64, checked: Result<usize, Refusal>, out: &mut [u8]) -> usize
    ensures { Line roomy out.old out.new result (checked_text count checked) }
{
    match checked {
        Ok(_) => say(count, b"good", b"", out),
        Err(refusal) => refused(count, refusal, b"", out),
    }
}

// Room for the longest output that a call is lent.
pub fn space() -> [u8; 65536]
    ensures long { 65536 ≡ length result }
{
    [0; 65536]
}

fn write_frame(count: u64, index: u8, argument: u32, room: u8, out: &mut [u8]) -> usize
    ensures { Line roomy out.old out.new result (write_frame_text count index argument (blank room)) }
{
    let mut space = space();
    let n = room as usize;
    frame_into(count, index, argument, &mut space[0..n], out)
}

fn write_block(count: u64, payload: &[u8], room: u16, out: &mut [u8]) -> usize
    ensures { Line roomy out.old out.new result (write_block_text count payload.now (blank room)) }
{
    let mut space = space();
    let n = room as usize;
    block_into(count, payload, &mut space[0..n], out)
}

// The line of a call of the wire, whose record is at the front of a script.
pub fn wire_line(count: u64, wiring: Wiring, script: &[u8], out: &mut [u8]) -> usize
    ensures line { Line roomy out.old out.new result (wire_text count wiring script.now) }
{
    match wiring {
        Wiring::Frame {
            index,
            argument,
            room,
        } => write_frame(count, index, argument, room, out),
        Wiring::Block { length, room } => {
            write_block(count, part(script, 3, length as usize), room, out)
        }
        Wiring::Check(length) => {
            let checked = wire::check_block(part(script, 3, length as usize));
            checked_line(count, checked, out)
        }
    }
}
