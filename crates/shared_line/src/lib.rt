// The shared line (document 01, "The shared line"): what it shows, bit by bit, and who is still
// heard, in specs/Line.antt. The code works on bytes: the smallest CID that was sent, and frames
// ANDed. No call has a `requires`.
//
// Offers: `nobody`, `is_lower`, `is_low`; `and`.
#![tactic(auto)]

ghost use Rattle.std.specs.Prelude.{◌≡◌};
ghost use Rattle.shared_line.specs.Bytes.{anded};
ghost use Rattle.shared_line.specs.Lowest.{no_low, is_lower, is_low};

// No CID yet.
#[tactic(auto, unfolding(crate::specs::Lowest::no_low))]
pub fn nobody() -> Option<[u8; 16]>
    ensures answer { result ≡ no_low }
{
    None
}

// Whether a CID is smaller than the one that was found, as any is where none was: the first byte in
// which they differ decides. `cmp` passes over equal bytes many at once, which `<` does not.
#[tactic(auto, unfolding(crate::specs::Lowest::is_lower))]
pub fn is_lower(low: Option<[u8; 16]>, cid: [u8; 16]) -> bool
    ensures answer { result ≡ is_lower low cid }
{
    match low {
        None => true,
        Some(found) => cid.cmp(&found).is_lt(),
    }
}

// Whether a CID is the one that was found.
#[tactic(auto, unfolding(crate::specs::Lowest::is_low))]
pub fn is_low(low: Option<[u8; 16]>, cid: [u8; 16]) -> bool
    ensures answer { result ≡ is_low low cid }
{
    match low {
        None => false,
        Some(least) => cid == least,
    }
}

// What the line held, ANDed with a frame: by index, as the edit or_for_and names it.
pub fn and(line: [u8; 17], frame: &[u8]) -> [u8; 17]
    ensures answer { result ≡ anded line frame.now }
{
    let mut out = line;
    for i in 0..frame.len().min(17) {
        out[i] = out[i] & frame[i];
    }
    out
}
