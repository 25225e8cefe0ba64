// The lines that `cardline` alone prints, put together at the front of an output.
//
// Offers: `say_number`, `refused`.
ghost use Rattle.std.specs.Prelude.{length};
ghost use Rattle.cardline_looks.specs.Lines.{line_room, number_line, refused_line};
ghost use Rattle.text.specs.Writing.{Line};

use base::Refusal;
use text::page::Page;

// `N WORD K HEX`.
pub fn say_number(count: u64, word: &[u8], n: u64, bytes: &[u8], out: &mut [u8]) -> usize
    ensures line { Line (line_room (length word.now) (length bytes.now)) out.old out.new result (number_line count word.now n bytes.now) }
{
    let mut page = Page { out, at: 0 };
    page.head(count, word);
    page.number(n);
    page.ending(bytes);
    page.at
}

// The line of a refused call, with the bytes of what it was lent.
pub fn refused(count: u64, refusal: Refusal, bytes: &[u8], out: &mut [u8]) -> usize
    ensures line { Line (line_room 7 (length bytes.now)) out.old out.new result (refused_line count refusal bytes.now) }
{
    say_number(count, b"refused", base::number(refusal) as u64, bytes, out)
}
