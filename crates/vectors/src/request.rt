// The requests of a script: each is one call of the wire or of a CRC.
//
//     read HEX       unframe HEX       last HEX       register HEX       check HEX
//     crc7 HEX       crc16 HEX
//     r3 WORD into N       r2 HEX into N       block HEX into N
//     command INDEX WORD into N       r1 INDEX WORD into N
//
// HEX is bytes (parse.rt), at most 4,096; WORD is eight hex digits; INDEX and N are decimal. N
// bytes of A5, at most 4,096, are lent as the output, and all of them are shown.
//
// Offers: `answer`.
ghost use Rattle.std.specs.Prelude.{◌≤◌, IfSome};

use crate::parse::{Bytes, ROOM, number_of, read, word_of};
use crate::say::{say, say_checked, say_frame, say_framing, say_hex, say_written};
use wire::{R1, R2, R3};

// What came of a request. Each function below answers `None` for a request that does not follow the
// rules, and prints nothing of it.
pub fn answer(rt: &impl Print, line: &[u8]) {
    if asked(rt, line).is_none() {
        say(rt, b"bad request");
    }
}

// A verb, one operand or two, and `into N` where the call writes.
fn asked(rt: &impl Print, line: &[u8]) -> Option<()> {
    let mut words = line.split(|b| *b == b' ');
    let verb = words.next()?;
    let operand = words.next()?;
    let Some(third) = words.next() else {
        return of_bytes(rt, verb, operand);
    };
    let fourth = words.next()?;
    let (index, operand, n) = match words.next() {
        None => (None, operand, lent(third, fourth)?),
        Some(fifth) => (Some(operand), third, lent(fourth, fifth)?),
    };
    if words.next().is_some() {
        return None;
    }
    let mut room = [0xA5u8; ROOM];
    let out = &mut room[..n];
    match index {
        None => into(rt, verb, operand, out),
        Some(index) => index_into(rt, verb, index, operand, out),
    }
}

fn of_bytes(rt: &impl Print, verb: &[u8], hex: &[u8]) -> Option<()> {
    let mut bytes = Bytes::new();
    read(hex, &mut bytes)?;
    let bytes = bytes.as_slice();
    match verb {
        b"read" => say_frame(rt, wire::read_frame(bytes)),
        b"unframe" => say_framing(rt, wire::unframe(bytes)),
        b"check" => say_checked(rt, wire::check_block(bytes)),
        b"register" => {
            let right = wire::register_right(bytes.try_into().ok()?);
            say(rt, if right { b"right" } else { b"wrong" });
        }
        b"last" => say_hex(rt, &[wire::last_byte(bytes)]),
        b"crc7" => say_hex(rt, &[crc::crc7(bytes)]),
        b"crc16" => say_hex(rt, &crc::crc16(bytes).to_be_bytes()),
        _ => return None,
    }
    Some(())
}

// How many bytes `into N` lends: no more than there is room for.
fn lent(into: &[u8], n: &[u8]) -> Option<usize>
    ensures { IfSome result (λ n. n ≤ 4096) }
{
    if into != b"into".as_slice() {
        return None;
    }
    let n = number_of(n)? as usize;
    if n <= ROOM { Some(n) } else { None }
}

fn into(rt: &impl Print, verb: &[u8], operand: &[u8], out: &mut [u8]) -> Option<()> {
    let answer = match verb {
        b"r3" => {
            let ocr = word_of(operand)?;
            wire::write_r3(R3 { ocr }, out)
        }
        b"r2" => {
            let register = register_of(operand)?;
            wire::write_r2(R2 { register }, out)
        }
        b"block" => {
            let mut payload = Bytes::new();
            read(operand, &mut payload)?;
            wire::write_block(payload.as_slice(), out)
        }
        _ => return None,
    };
    say_written(rt, answer, out);
    Some(())
}

fn register_of(operand: &[u8]) -> Option<[u8; 16]> {
    let mut bytes = Bytes::new();
    read(operand, &mut bytes)?;
    bytes.as_slice().try_into().ok()
}

fn index_into(
    rt: &impl Print,
    verb: &[u8],
    index: &[u8],
    number: &[u8],
    out: &mut [u8],
) -> Option<()> {
    let index = u8::try_from(number_of(index)?).ok()?;
    let number = word_of(number)?;
    let answer = match verb {
        b"command" => wire::write_command(index, number, out),
        b"r1" => {
            let status = number;
            wire::write_r1(R1 { index, status }, out)
        }
        _ => return None,
    };
    say_written(rt, answer, out);
    Some(())
}
