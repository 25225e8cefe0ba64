// A frame at a card, for C. What is lent and the framing are judged on the numbers as they are, and of
// the record only the link and the mode then cross: no frame changes the lock or the registers, and a
// damaged one nothing but the error bits.
ghost use Rattle.firmware.specs.Numbers.{number_told};
ghost use Rattle.std.specs.Prelude.{◌++◌, ◌≡◌, ◌≤◌, length, drop, set};
ghost use Rattle.card.specs.Frame.{changed, frame_stepped, command_heard};
ghost use Rattle.card.specs.Step.{lent_after};
ghost use Rattle.card.specs.declared.Call.TheVariants.{Frame};
ghost use Rattle.card_record.specs.Record.{csd_protects};
ghost use Rattle.card_record.specs.Sending.{sent_bytes, Sendable};
ghost use Rattle.crossing.specs.Record.{card_of, link_of, link_numbers, mode_of, mode_numbers, registers_of};
ghost use Rattle.spi.specs.Hearing.{heard_of, damaged_of};
ghost use Rattle.store.specs.Lent.{lent_of, seen};
ghost use Rattle.firmware.specs.Answers.{met_at, byte_sent, frame_numbers, won_by, selected_by, fronted};

use crate::answers::send_byte;
use base::Refusal;
use card_blocks::Lending;
use card_record::{Registers, Sent};
use command::Met;
use crossing::{groups_of, link_of, locked_of, mode_of, registers_of, tell_errors, tell_link};
use wire::{Command, Fields};

// What a command meets beside the link, at the card that the numbers stand for: `command::met_by` of
// C's numbers, which never become a card.
fn met_of(numbers: [u32; 13], wins: bool) -> Met
    ensures { result ≡ met_at numbers wins }
{
    Met {
        ocr: numbers[12],
        groups: groups_of(numbers),
        locked: locked_of(numbers),
        wins,
    }
}

// A damaged frame at the card: the number of the error bits that it leaves, told in its place, and what
// is sent at the front of `answer`. The answer is how many bytes that is.
fn tell_damaged(numbers: &mut [u32; 13], selected: bool, answer: &mut [u8; 17]) -> usize
    ensures answer { let damaged = damaged_of (mode_of numbers.old) selected (link_of numbers.old) in
        result ≡ length (byte_sent damaged.sent) }
    ensures numbers { let damaged = damaged_of (mode_of numbers.old) selected (link_of numbers.old) in
        (numbers.new ≡ set numbers.old 4 damaged.link.errors.bits) × (link_of numbers.new ≡ damaged.link) }
    ensures sent { let damaged = damaged_of (mode_of numbers.old) selected (link_of numbers.old) in
        answer.new ≡ fronted (byte_sent damaged.sent) answer.old }
{
    let mode = mode_of(*numbers);
    let link = link_of(*numbers);
    let damaged = spi::damaged(mode, selected, link);
    tell_errors(damaged.link.errors, numbers);
    send_byte(damaged.sent, answer)
}

// What a card sends, written to the front of an answer: the longest fits. The answer is how many
// bytes it is.
fn send(registers: Registers, sent: Sent, out: &mut [u8; 17]) -> usize
    requires { Sendable sent }
    ensures answer { result ≡ length (sent_bytes registers sent) }
    ensures output { out.new ≡ fronted (sent_bytes registers sent) out.old }
{
    let written = card_record::write_sent(registers, sent, out);
    match written {
        Ok(n) => n,
        Err(_) => 0,
    }
}

// A command at the card: what it sends goes to the front of `answer`. The answer is how many bytes
// that is. The registers are taken in last, so that they are read only where they are sent.
fn hear(
    numbers: &mut [u32; 13],
    cid: &[u8; 16],
    csd: &[u8; 16],
    wins: bool,
    selected: bool,
    command: Command,
    memory: &mut [u8],
    map: &mut [u8],
    answer: &mut [u8; 17],
) -> usize
    requires { command.index ≤ 63 }
    ensures answer { let mode = mode_of numbers.old in
        let link = link_of numbers.old in
        let met = met_at numbers.old wins in
        let whole = csd_protects csd.now in
        let lent = lent_of memory.old map.old in
        let heard = command_heard mode selected link met whole command.index command.argument (seen lent) in
        let bytes = sent_bytes (registers_of numbers.old cid.now csd.now) heard.sent in
        result ≡ length bytes }
    ensures numbers { let mode = mode_of numbers.old in
        let link = link_of numbers.old in
        let met = met_at numbers.old wins in
        let whole = csd_protects csd.now in
        let lent = lent_of memory.old map.old in
        let heard = command_heard mode selected link met whole command.index command.argument (seen lent) in
        (numbers.new ≡ link_numbers heard.link ++ mode_numbers heard.mode ++ drop 9 numbers.old)
        × ((link_of numbers.new ≡ heard.link) × (mode_of numbers.new ≡ heard.mode)) }
    ensures lent { let mode = mode_of numbers.old in
        let link = link_of numbers.old in
        let met = met_at numbers.old wins in
        let whole = csd_protects csd.now in
        let lent = lent_of memory.old map.old in
        lent_of memory.new map.new ≡ changed link.tags whole (heard_of mode selected link met command.index command.argument).change lent }
    ensures sent { let mode = mode_of numbers.old in
        let link = link_of numbers.old in
        let met = met_at numbers.old wins in
        let whole = csd_protects csd.now in
        let lent = lent_of memory.old map.old in
        let heard = command_heard mode selected link met whole command.index command.argument (seen lent) in
        let bytes = sent_bytes (registers_of numbers.old cid.now csd.now) heard.sent in
        answer.new ≡ fronted bytes answer.old }
{
    let mode = mode_of(*numbers);
    let link = link_of(*numbers);
    let met = met_of(*numbers, wins);
    let whole = card_record::csd_protects(*csd);
    let lent = &mut Lending { memory, map };
    let heard = card::heard(mode, selected, link, met, whole, command, lent);
    tell_link(heard.link, heard.mode, numbers);
    let registers = registers_of(*numbers, *cid, *csd);
    send(registers, heard.sent, answer)
}

// A frame: 12, 1, 2, 3. `won` says whether the unit won the line, as a unit that is alone on its line
// does: 0 that it lost, which CMD2 alone asks. `selected` says whether the card's select line is low: 0
// that it is high. What the card sends goes to the front of `answer`, which is as long as the longest
// answer, and how many bytes it sends to `sent`.
#[unsafe(no_mangle)]
pub extern "C" fn mmc_parts_frame(
    numbers: &mut [u32; 13],
    cid: &[u8; 16],
    csd: &[u8; 16],
    password: &[u8; 16],
    won: u32,
    selected: u32,
    frame: &[u8],
    memory: &mut [u8],
    map: &mut [u8],
    answer: &mut [u8; 17],
    sent: &mut usize,
) -> u8
    ensures answer { let card = card_of numbers.old cid.now csd.now password.now in
        let lent = lent_of memory.old map.old in
        let stepped = frame_stepped card (won_by won) (selected_by selected) frame.now (seen lent) in
        result ≡ number_told stepped.reply.outcome }
    ensures numbers { let card = card_of numbers.old cid.now csd.now password.now in
        let lent = lent_of memory.old map.old in
        let stepped = frame_stepped card (won_by won) (selected_by selected) frame.now (seen lent) in
        (numbers.new ≡ frame_numbers result stepped.card numbers.old)
        × (card_of numbers.new cid.now csd.now password.now ≡ stepped.card) }
    ensures lent { let card = card_of numbers.old cid.now csd.now password.now in
        let lent = lent_of memory.old map.old in
        lent_of memory.new map.new ≡ lent_after card (Frame (won_by won) (selected_by selected)) frame.now lent }
    ensures sent { let card = card_of numbers.old cid.now csd.now password.now in
        let lent = lent_of memory.old map.old in
        let stepped = frame_stepped card (won_by won) (selected_by selected) frame.now (seen lent) in
        let bytes = sent_bytes card.registers stepped.reply.sent in
        (answer.new ≡ fronted bytes answer.old) × (sent.new ≡ length bytes) }
{
    *sent = 0;
    let lending = store::lent_check(memory.len(), map, groups_of(*numbers) as usize);
    match lending {
        Ok(()) => {}
        Err(refusal) => return base::number(refusal),
    }
    let framing = wire::unframe(frame);
    match framing {
        Ok(
            Fields {
                index,
                argument,
                crc_right,
            },
        ) => {
            if !spi::crc_passes(mode_of(*numbers), index, crc_right) {
                *sent = tell_damaged(numbers, selected != 0, answer);
                return base::number(Refusal::FrameCrc);
            }
            *sent = hear(
                numbers,
                cid,
                csd,
                won != 0,
                selected != 0,
                Command { index, argument },
                memory,
                map,
                answer,
            );
            0
        }
        Err(refusal) => base::number(refusal),
    }
}
