// Cutting lines of bytes, which need not be text.
ghost use Rattle.std.specs.Prelude.{◌≡◌, ℕ, ◌<◌, ◌∷◌, ◌++◌, length, MatchOption, ◌≢◌, slice_index};

// The index of the first byte that is `b`.
pub fn find(bytes: &[u8], b: u8) -> Option<usize>
    ensures { MatchOption result ((k : ℕ) → k < length bytes.now → slice_index bytes.now k ≢ b) (λ i. (i < length bytes.now) × (slice_index bytes.now i ≡ b) × ((k : ℕ) → k < i → slice_index bytes.now k ≢ b)) }
{
    bytes.iter().position(|x| *x == b)
}

// What stands before the first byte that is `b`, and what stands after it, if there is one.
pub fn cut(bytes: &[u8], b: u8) -> (&[u8], Option<&[u8]>)
    ensures first { (k : ℕ) → k < length result.0.now → slice_index result.0.now k ≢ b }
    ensures parts { MatchOption result.1 (result.0.now ≡ bytes.now) (λ rest. bytes.now ≡ result.0.now ++ b ∷ rest.now) }
{
    match find(bytes, b) {
        Some(i) => (&bytes[..i], Some(&bytes[i + 1..])),
        None => (bytes, None),
    }
}
