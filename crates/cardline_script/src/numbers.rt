// The numbers of a script: "All numbers in a script are high byte first". Behind its end stand zeros.
//
// Offers: `byte`, `two`, `three`, `four`.
ghost use Rattle.std.specs.Prelude.{◌≡◌, ◌+◌, get_or};
ghost use Rattle.cardline_script.specs.Reading.{two, three, four};

pub fn byte(script: &[u8], at: usize) -> u8
    ensures answer { result ≡ get_or script.now at 0 }
{
    script.get(at).copied().unwrap_or(0)
}

// The byte so many places further on: where the sum doesn't fit, no script is so long.
fn further(script: &[u8], at: usize, more: usize) -> u8
    ensures { result ≡ get_or script.now (at + more) 0 }
{
    byte(script, at.saturating_add(more))
}

// Each length for itself: one `[u8; N]` by `array::from_fn` was tried, and its proof did not close.
#[tactic(auto, unfolding(crate::specs::Reading::two))]
pub fn two(script: &[u8], at: usize) -> u16
    ensures answer { result ≡ two script.now at }
{
    u16::from_be_bytes([byte(script, at), further(script, at, 1)])
}

#[tactic(auto, unfolding(crate::specs::Reading::two, crate::specs::Reading::three))]
pub fn three(script: &[u8], at: usize) -> u32
    ensures answer { result ≡ three script.now at }
{
    u32::from_be_bytes([
        0,
        byte(script, at),
        further(script, at, 1),
        further(script, at, 2),
    ])
}

#[tactic(auto, unfolding(crate::specs::Reading::two, crate::specs::Reading::four))]
pub fn four(script: &[u8], at: usize) -> u32
    ensures answer { result ≡ four script.now at }
{
    u32::from_be_bytes([
        byte(script, at),
        further(script, at, 1),
        further(script, at, 2),
        further(script, at, 3),
    ])
}
