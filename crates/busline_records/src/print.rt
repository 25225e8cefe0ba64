// The lines, none of which is longer than the room for one. Each function writes its line at the front of the
// output, as far as there is room, and answers how many bytes it wrote.
ghost use Rattle.std.specs.Prelude.{◌≡◌, ℕ, ◌<◌};
ghost use Rattle.busline_records.specs.Printing.{prints_silent, bad_kind_text, cut_text, added_text, refused_text, shown_text, roomy};
ghost use Rattle.text.specs.Writing.{Put, Line};

use base::Refusal;
use text::lines::{named, plain, refused_by, say};
use text::parts::part;

pub fn bad_kind_line(out: &mut [u8]) -> usize
    ensures { Line roomy out.old out.new result bad_kind_text }
{
    plain(b"bad kind", out)
}

// What is printed of the bytes that are left over at the end of the input, as far as there is room.
// A card's `cut` is given their number alone, and both are public.
pub fn cut(rest: &[u8], out: &mut [u8]) -> usize
    ensures { Put out.old out.new 0 result (cut_text rest.now) }
{
    if rest.is_empty() {
        return 0;
    }
    plain(b"cut", out)
}

pub fn added_line(adding: Result<usize, Refusal>, out: &mut [u8]) -> usize
    requires { (n : ℕ) → adding ≡ Ok n → n < 30 }
    ensures { Line roomy out.old out.new result (added_text adding) }
{
    match adding {
        Ok(place) => named(b"card", place as u64 + 1, out),
        Err(why) => refused_by(why, out),
    }
}

// Whether a frame refused so prints `silent`: on the line nobody answers a damaged one.
fn prints_silent(why: Refusal) -> bool
    ensures { result ≡ prints_silent why }
{
    matches!(
        why,
        Refusal::FrameLength | Refusal::FrameBits | Refusal::FrameCrc
    )
}

fn refused_line(count: u64, why: Refusal, out: &mut [u8]) -> usize
    ensures { Line roomy out.old out.new result (refused_text count why) }
{
    if prints_silent(why) {
        return say(count, b"silent", b"", out);
    }
    refused_by(why, out)
}

pub fn shown_line(
    count: u64,
    shown: Result<Option<usize>, Refusal>,
    line: [u8; 17],
    out: &mut [u8],
) -> usize
    ensures { Line roomy out.old out.new result (shown_text count shown line) }
{
    let heard = match shown {
        Ok(heard) => heard,
        Err(why) => return refused_line(count, why, out),
    };
    match heard {
        Some(n) => say(count, b"line", part(&line, 0, n), out),
        None => say(count, b"silent", b"", out),
    }
}
