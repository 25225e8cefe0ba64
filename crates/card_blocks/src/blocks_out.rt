// A block out: 12, 15, 6, 18, 21.
ghost use Rattle.std.specs.Prelude.{false, ◌≡◌, ◌≤◌, length};
ghost use Rattle.card_blocks.specs.BlockOut.{unsent, out_refused, out_good, after_sent, part_judged, bytes_judged, outgoing_judged, state_sends, out_judged, part_block, protection_bytes, block_for, sent_whole, block_laid, sent_out};
ghost use Rattle.store.specs.Lent.{lent_of, seen};
ghost use Rattle.wire.specs.Blocks.{block_of};

use crate::framing::{START, beside};
use crate::replies::refuse;
use crate::{OutJudged, Reply, Sending, Stepped};
use base::Refusal;
use card_record::{Card, Link, Registers, Sent};
use states::{Outgoing, State};
use status::ErrorBit;

fn unsent(card: Card, refusal: Refusal) -> OutJudged
    ensures { result ≡ unsent card refusal }
{
    OutJudged {
        stepped: refuse(card, refusal),
        sending: Sending::Nothing,
    }
}

// A block that fails stays at its place, with its error bit.
#[tactic(auto, unfolding(crate::specs::BlockOut::out_refused))]
fn out_refused(card: Card, refusal: Refusal, bit: ErrorBit) -> OutJudged
    ensures { result ≡ out_refused card refusal bit }
{
    let link = card.link;
    unsent(
        Card {
            link: Link {
                errors: status::set(link.errors, bit),
                ..link
            },
            ..card
        },
        refusal,
    )
}

#[tactic(auto, unfolding(crate::specs::BlockOut::out_good))]
fn out_good(card: Card, state: State, n: u16, sending: Sending) -> OutJudged
    ensures { result ≡ out_good card state n sending }
{
    let link = card.link;
    OutJudged {
        stepped: Stepped {
            card: Card {
                link: Link { state, ..link },
                ..card
            },
            reply: Reply {
                outcome: Ok(Some(n as usize + beside(card.mode.spi))),
                sent: Sent::Nothing,
            },
        },
        sending,
    }
}

// The state after a block that goes out, with the address behind it.
fn after_sent(outgoing: Outgoing, next: u32) -> State
    ensures { result ≡ after_sent outgoing next }
{
    match outgoing {
        Outgoing::Many(_) => State::Data(Outgoing::Many(next)),
        _ => State::Tran,
    }
}

// So many bytes of memory from an address on: 6, 18, 21.
#[tactic(auto, unfolding(crate::specs::BlockOut::part_judged))]
fn part_judged(card: Card, outgoing: Outgoing, at: u32, n: u16, room: usize) -> OutJudged
    ensures { result ≡ part_judged card outgoing at n room }
{
    if room < n as usize + beside(card.mode.spi) {
        return unsent(card, Refusal::OutputShort);
    }
    let size = card_record::size(card.registers.groups);
    let more = u32::from(n);
    if size < more || size - more < at {
        return out_refused(card, Refusal::PastEnd, ErrorBit::OutOfRange);
    }
    if card_record::crosses(at, n) {
        return out_refused(card, Refusal::BlockCrosses, ErrorBit::AddressError);
    }
    let state = after_sent(outgoing, at + more);
    out_good(card, state, n, Sending::Part { at, length: n })
}

// Bytes that no address is judged for, the protection bits or a register: 6.
#[tactic(auto, unfolding(crate::specs::BlockOut::bytes_judged))]
fn bytes_judged(card: Card, n: u16, sending: Sending, room: usize) -> OutJudged
    ensures { result ≡ bytes_judged card n sending room }
{
    if room < n as usize + beside(card.mode.spi) {
        return unsent(card, Refusal::OutputShort);
    }
    out_good(card, State::Tran, n, sending)
}

// What is to go out: 6, and of memory 18 and 21. A part of memory is judged by one call, so that the
// compiler copies it in here.
fn outgoing_judged(card: Card, outgoing: Outgoing, room: usize) -> OutJudged
    ensures { result ≡ outgoing_judged card outgoing room }
{
    match outgoing {
        Outgoing::One(at) | Outgoing::Many(at) => {
            let n = card_record::read_length(card.link.length);
            part_judged(card, outgoing, at, n, room)
        }
        Outgoing::Protection(group) => bytes_judged(card, 4, Sending::Protection(group), room),
        Outgoing::Csd => bytes_judged(card, 16, Sending::Csd, room),
        Outgoing::Cid => bytes_judged(card, 16, Sending::Cid, room),
    }
}

// Whether anything is to go out at all: 15.
fn state_sends(card: Card, state: State, room: usize) -> OutJudged
    ensures { result ≡ state_sends card state room }
{
    match state {
        State::Data(outgoing) => outgoing_judged(card, outgoing, room),
        _ => unsent(card, Refusal::NoBlock),
    }
}

// A block of memory at the front of the output, where it lies in memory and fits: whether it does. It
// is moved in one go and summed where it then stands: that costs less than copying and summing byte by
// byte.
fn send_part(memory: &[u8], at: usize, n: usize, out: &mut [u8]) -> bool
    ensures answer { result ≡ sent_whole (part_block memory.now at n) (length out.old) }
    ensures output { out.new ≡ block_laid false (part_block memory.now at n) out.old }
{
    if out.len() < 2 || out.len() - 2 < n {
        return false;
    }
    if !store::read_part(memory, at, &mut out[..n]) {
        return false;
    }
    let sum = crc::crc16(&out[..n]);
    out[n..n + 2].copy_from_slice(&sum.to_be_bytes());
    true
}

// Bytes as a block at the front of the output, where it fits: whether it does.
fn send_bytes(bytes: &[u8], out: &mut [u8]) -> bool
    requires { (1 ≤ length bytes.now) × (length bytes.now ≤ 2048) }
    ensures answer { result ≡ sent_whole (block_of bytes.now) (length out.old) }
    ensures output { out.new ≡ block_laid false (block_of bytes.now) out.old }
{
    wire::write_block(bytes, out).is_ok()
}

// The protection bits as four bytes, highest first.
fn protection_bytes(map: &[u8], group: u32) -> [u8; 4]
    ensures { result ≡ protection_bytes map.now group }
{
    store::protection_bits(map, group).to_be_bytes()
}

// What was judged, payload and CRC16, at the front of the output: whether anything went out.
fn send_block(
    registers: Registers,
    sending: Sending,
    memory: &[u8],
    map: &[u8],
    out: &mut [u8],
) -> bool
    ensures answer { result ≡ sent_whole (block_for registers (lent_of memory.now map.now) sending) (length out.old) }
    ensures output { out.new ≡ block_laid false (block_for registers (lent_of memory.now map.now) sending) out.old }
{
    match sending {
        Sending::Nothing => false,
        Sending::Part { at, length } => send_part(memory, at as usize, usize::from(length), out),
        Sending::Protection(group) => send_bytes(&protection_bytes(map, group), out),
        Sending::Csd => send_bytes(&registers.csd, out),
        Sending::Cid => send_bytes(&registers.cid, out),
    }
}

// What was judged, at the front of the output; in SPI behind its start byte. The block is sent by one
// call, so that the compiler copies it in here.
fn send(card: Card, sending: Sending, memory: &[u8], map: &[u8], out: &mut [u8])
    ensures { out.new ≡ sent_out card (lent_of memory.now map.now) sending out.old }
{
    let registers = card.registers;
    let before = beside(card.mode.spi) - 2;
    if out.len() < before {
        return;
    }
    let sent = send_block(registers, sending, memory, map, &mut out[before..]);
    if sent && card.mode.spi {
        out[0] = START;
    }
}

// A block out at a card that is lent what is its own: judged, and then sent. Memory and map come apart, only to be read, as `mmc_parts_block_out` is lent them.
pub fn given_out(card: Card, memory: &[u8], map: &[u8], out: &mut [u8]) -> Stepped
    ensures answer { result ≡ (state_sends card card.link.state (length out.old)).stepped }
    ensures output { out.new ≡ sent_out card (lent_of memory.now map.now) (state_sends card card.link.state (length out.old)).sending out.old }
{
    let link = card.link;
    let state = link.state;
    let judged = state_sends(card, state, out.len());
    let sending = judged.sending;
    send(card, sending, memory, map, out);
    judged.stepped
}

// A block out: 12 before all else.
pub fn block_out(card: Card, memory: &[u8], map: &[u8], out: &mut [u8]) -> Stepped
    ensures answer { result ≡ (out_judged card (seen (lent_of memory.now map.now)) (length out.old)).stepped }
    ensures output { out.new ≡ sent_out card (lent_of memory.now map.now) (out_judged card (seen (lent_of memory.now map.now)) (length out.old)).sending out.old }
{
    match store::lent_check(memory.len(), map, card.registers.groups as usize) {
        Ok(()) => given_out(card, memory, map, out),
        Err(refusal) => refuse(card, refusal),
    }
}
