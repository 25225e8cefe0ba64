// What a call of the card answered, as its line.
//
// Offers: `reply_line`.
ghost use Rattle.std.specs.Prelude.{◌+◌, max, length};
ghost use Rattle.cardline_looks.specs.Lines.{line_room};
ghost use Rattle.cardline_records.specs.Calls.{shown_text, sent_text, beside_bytes, beside_text, refused_text, frame_text, good_text, taken_text, block_text, reply_text};
ghost use Rattle.text.specs.Pages.{Writes};
ghost use Rattle.text.specs.Writing.{Put, Line};

use base::Refusal;
use card::Call;
use card_blocks::Reply;
use card_record::{Registers, Sent};
use cardline_looks::lines::{refused, say_number};
use text::lines::say;
use text::page::Page;
use text::parts::part;

#[tactic(auto, unfolding(crate::specs::Calls::shown_text))]
fn shown(count: u64, bytes: &[u8], out: &mut [u8]) -> usize
    ensures { Put out.old out.new 0 result (shown_text count bytes.now) }
{
    if bytes.is_empty() {
        return say(count, b"silent", b"", out);
    }
    say(count, b"line", bytes, out)
}

// What a card sends, or that it is silent.
fn sent_line(count: u64, registers: Registers, sent: Sent, out: &mut [u8]) -> usize
    ensures { Line (line_room 20 0) out.old out.new result (sent_text count registers sent) }
{
    let mut bytes = [0u8; 17];
    let written = card_record::write_sent(registers, sent, &mut bytes);
    match written {
        Ok(n) => shown(count, part(&bytes, 0, n), out),
        Err(refusal) => refused(count, refusal, b"", out),
    }
}

// The end of a line that tells of bytes, if there are any, behind a word.
fn beside(word: &[u8], bytes: &[u8], page: &mut Page)
    ensures { Writes page.old page.new (beside_text word.now bytes.now) }
{
    if bytes.is_empty() {
        return page.put(b"\n");
    }
    page.put(b" ");
    page.put(word);
    page.ending(bytes);
}

// The end of a line that tells of what a card sends beside its answer.
fn sent_beside(word: &[u8], registers: Registers, sent: Sent, page: &mut Page)
    ensures { Writes page.old page.new (beside_text word.now (beside_bytes registers sent)) }
{
    let mut bytes = [0u8; 17];
    let written = card_record::write_sent(registers, sent, &mut bytes);
    match written {
        Ok(n) => beside(word, part(&bytes, 0, n), page),
        Err(_) => beside(word, b"", page),
    }
}

// A refusal, with what goes out beside its number.
fn refused_line(
    count: u64,
    refusal: Refusal,
    word: &[u8],
    registers: Registers,
    sent: Sent,
    out: &mut [u8],
) -> usize
    ensures { Line (line_room (8 + length word.now) 17) out.old out.new result (refused_text count refusal word.now (beside_bytes registers sent)) }
{
    let mut page = Page { out, at: 0 };
    page.head(count, b"refused");
    page.number(base::number(refusal) as u64);
    sent_beside(word, registers, sent, &mut page);
    page.at
}

// What a good call prints differs from `taken_line`, and the word: a closure for it reads no plainer.
fn frame_line(count: u64, registers: Registers, reply: Reply, out: &mut [u8]) -> usize
    ensures { Line (line_room 20 17) out.old out.new result (frame_text count registers reply.outcome reply.sent) }
{
    let outcome = reply.outcome;
    let sent = reply.sent;
    match outcome {
        Ok(None) => sent_line(count, registers, sent, out),
        Ok(Some(_)) => sent_line(count, registers, sent, out),
        Err(refusal) => refused_line(count, refusal, b"line", registers, sent, out),
    }
}

// A block that was good, with its data response.
fn good_line(count: u64, registers: Registers, sent: Sent, out: &mut [u8]) -> usize
    ensures { Line (line_room 20 17) out.old out.new result (good_text count (beside_bytes registers sent)) }
{
    let mut page = Page { out, at: 0 };
    page.head(count, b"taken");
    sent_beside(b"response", registers, sent, &mut page);
    page.at
}

fn taken_line(count: u64, registers: Registers, reply: Reply, out: &mut [u8]) -> usize
    ensures { Line (line_room 20 17) out.old out.new result (taken_text count registers reply.outcome reply.sent) }
{
    let outcome = reply.outcome;
    let sent = reply.sent;
    match outcome {
        Ok(None) => good_line(count, registers, sent, out),
        Ok(Some(_)) => good_line(count, registers, sent, out),
        Err(refusal) => { refused_line(count, refusal, b"response", registers, sent, out) }
    }
}

fn block_line(
    count: u64,
    outcome: Result<Option<usize>, Refusal>,
    output: &[u8],
    out: &mut [u8],
) -> usize
    ensures { Line (line_room 7 (length output.now)) out.old out.new result (block_text count outcome output.now) }
{
    match outcome {
        Ok(None) => say_number(count, b"block", 0, output, out),
        Ok(Some(n)) => say_number(count, b"block", n as u64, output, out),
        Err(refusal) => refused(count, refusal, output, out),
    }
}

// The line of a call, with what it answered and the output that it was lent.
pub fn reply_line(
    count: u64,
    call: Call,
    registers: Registers,
    reply: Reply,
    output: &[u8],
    out: &mut [u8],
) -> usize
    ensures { Line (line_room 20 (max 17 (length output.now))) out.old out.new result (reply_text count call registers reply output.now) }
{
    let outcome = reply.outcome;
    match call {
        Call::Frame { .. } => frame_line(count, registers, reply, out),
        Call::BlockIn => taken_line(count, registers, reply, out),
        Call::BlockOut => block_line(count, outcome, output, out),
        Call::WorkDone => say(count, b"done", b"", out),
        Call::PowerOn => say(count, b"power", b"", out),
    }
}
