// What came of a request, printed.
//
// Offers: `say`, `say_hex`; `say_frame`, `say_framing`, `say_checked`, `say_written`.
use base::Refusal;
use program_io::Hex;
use wire::{Command, Fields};

// A text, written to standard output. Whether it was is asked at a line's end, where it is said.
pub fn say(rt: &impl Print, text: &[u8]) {
    let _ = rt.write_all(text);
}

pub fn say_hex(rt: &impl Print, bytes: &[u8]) {
    let _ = print!(rt; "{}", Hex(bytes));
}

// A whole lent output, so that one sees what was not written too: a long one by its ends.
fn say_lent(rt: &impl Print, out: &[u8]) {
    let n = out.len();
    let _ = if n <= 40 {
        print!(rt; "{}", Hex(out))
    } else {
        print!(rt; "{}..{}", Hex(&out[..8]), Hex(&out[n - 8..]))
    };
}

fn say_refused(rt: &impl Print, refusal: Refusal) {
    let _ = print!(rt; "refused {}", base::number(refusal));
}

fn say_command(rt: &impl Print, index: u8, argument: u32) {
    let _ = print!(rt; "CMD{index} argument {}", Hex(&argument.to_be_bytes()));
}

pub fn say_frame(rt: &impl Print, frame: Result<Command, Refusal>) {
    match frame {
        Ok(Command { index, argument }) => say_command(rt, index, argument),
        Err(refusal) => say_refused(rt, refusal),
    }
}

pub fn say_framing(rt: &impl Print, framing: Result<Fields, Refusal>) {
    match framing {
        Ok(
            Fields {
                index,
                argument,
                crc_right,
            },
        ) => {
            say_command(rt, index, argument);
            let sum = if crc_right { "right" } else { "wrong" };
            let _ = print!(rt; " crc {sum}");
        }
        Err(refusal) => say_refused(rt, refusal),
    }
}

pub fn say_checked(rt: &impl Print, checked: Result<usize, Refusal>) {
    match checked {
        Ok(n) => {
            let _ = print!(rt; "payload of {n} bytes");
        }
        Err(refusal) => say_refused(rt, refusal),
    }
}

// What a call that writes answered, and the output that it was lent.
pub fn say_written(rt: &impl Print, answer: Result<usize, Refusal>, out: &[u8]) {
    match answer {
        Ok(n) => {
            let _ = print!(rt; "{n} bytes ");
        }
        Err(refusal) => {
            say_refused(rt, refusal);
            say(rt, b" ");
        }
    }
    say_lent(rt, out);
}
