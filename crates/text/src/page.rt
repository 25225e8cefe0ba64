// A lent output with the place in it where the next text goes: pieces of lines are written one behind
// the other, as far as there is room. Two pieces are the one text of both, cut where the output ends,
// so whoever wants whole lines sees to the room.
//
// Offers: `Page`, with `put`, `hex`, `number`, `hexed`, `head`, `ending`.
ghost use Rattle.std.specs.Prelude.{◌≡◌, ◌+◌, min};
ghost use Rattle.text.specs.Lines.{number_text, hex_text, head_text, end_text};
ghost use Rattle.text.specs.Pages.{Writes};
ghost use Rattle.text.specs.Text.{hex_of, decimal_of};

use crate::digit;
use base::copy;
use itoa::Buffer;

#[derive(Drop)]
pub struct Page<'a> {
    pub out: &'a mut [u8],
    pub at: usize,
}

// The place so many bytes behind another, within a length.
fn behind(at: usize, n: usize, length: usize) -> usize
    ensures { result ≡ min (at + n) length }
{
    at.saturating_add(n).min(length)
}

// Each of these writes a text behind what the page has.
impl Page<'_> {
    pub fn put(&mut self, bytes: &[u8])
        ensures { Writes self.old self.new bytes.now }
    {
        let at = self.at;
        copy(bytes, self.out, at);
        self.at = behind(at, bytes.len(), self.out.len());
    }

    // Most numbers of a line have one digit: it needs no buffer, which is cleared before it is used.
    #[tactic(auto, using(crate::proofs::Digits::written, crate::proofs::Digits::one))]
    fn decimal(&mut self, n: u64)
        ensures { Writes self.old self.new (decimal_of n) }
    {
        if n < 10 {
            self.put(&[b'0' + n as u8]);
        } else {
            self.put(Buffer::new().format(n).as_bytes());
        }
    }

    pub fn hex(&mut self, bytes: &[u8])
        ensures { Writes self.old self.new (hex_of bytes.now) }
    {
        self.at = self.at.min(self.out.len());
        for &b in bytes {
            let pair = [digit(b / 16), digit(b % 16)];
            self.put(&pair);
        }
    }

    pub fn number(&mut self, n: u64)
        ensures { Writes self.old self.new (number_text n) }
    {
        self.put(b" ");
        self.decimal(n);
    }

    pub fn hexed(&mut self, bytes: &[u8])
        ensures { Writes self.old self.new (hex_text bytes.now) }
    {
        self.put(b" ");
        self.hex(bytes);
    }

    // N and a word.
    pub fn head(&mut self, count: u64, word: &[u8])
        ensures { Writes self.old self.new (head_text count word.now) }
    {
        self.decimal(count);
        self.put(b" ");
        self.put(word);
    }

    // The end of a line: no space goes before bytes that are none.
    #[tactic(auto, using(crate::proofs::Pages::writes_both), unfolding(crate::specs::Lines::end_text))]
    pub fn ending(&mut self, bytes: &[u8])
        ensures { Writes self.old self.new (end_text bytes.now) }
    {
        if !bytes.is_empty() {
            self.hexed(bytes);
        }
        self.put(b"\n");
    }
}
