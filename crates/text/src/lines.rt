// Whole lines, each written at the front of a lent output as far as there is room; the answer is how much.
//
// Offers: `say`, `plain`, `named`, `refused_by`.
ghost use Rattle.text.specs.Lines.{word_line, plain_line, named_line, refusal_line};
ghost use Rattle.text.specs.Writing.{Put};

use crate::page::Page;
use base::Refusal;

pub fn say(count: u64, word: &[u8], bytes: &[u8], out: &mut [u8]) -> usize
    ensures { Put out.old out.new 0 result (word_line count word.now bytes.now) }
{
    let mut page = Page { out, at: 0 };
    page.head(count, word);
    page.ending(bytes);
    page.at
}

#[tactic(auto, using(crate::proofs::Writing::put_both), unfolding(crate::specs::Lines::plain_line))]
pub fn plain(word: &[u8], out: &mut [u8]) -> usize
    ensures { Put out.old out.new 0 result (plain_line word.now) }
{
    let mut page = Page { out, at: 0 };
    page.put(word);
    page.put(b"\n");
    page.at
}

pub fn named(word: &[u8], n: u64, out: &mut [u8]) -> usize
    ensures { Put out.old out.new 0 result (named_line word.now n) }
{
    let mut page = Page { out, at: 0 };
    page.put(word);
    page.number(n);
    page.put(b"\n");
    page.at
}

pub fn refused_by(refusal: Refusal, out: &mut [u8]) -> usize
    ensures { Put out.old out.new 0 result (refusal_line refusal) }
{
    named(b"refused", base::number(refusal) as u64, out)
}
