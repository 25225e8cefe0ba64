// Parts of bytes, as far as there are any: whatever places come in, nothing is asked of them.
//
// Offers: `part`.
ghost use Rattle.std.specs.Prelude.{◌≡◌, ◌≤◌, length, take, drop};

// At most `n` bytes from a place on: as many as there are.
pub fn part(bytes: &[u8], from: usize, n: usize) -> &[u8]
    ensures part { result.now ≡ take n (drop from bytes.now) }
    ensures within { (length result.now ≤ n) × (length result.now ≤ length bytes.now) }
{
    let a = from.min(bytes.len());
    let k = n.min(bytes.len() - a);
    &bytes[a..a + k]
}
