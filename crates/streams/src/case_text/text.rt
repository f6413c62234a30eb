//! Places in a text.
ghost use Rattle.std.specs.Prelude.{◌≡◌, ℕ, ◌<◌, ◌≤◌, ◌∷◌, ◌++◌, length, ◌≢◌, slice_index, MatchOption, EachIndex};

// The place of the first byte of that value.
fn first_stop(text: &[u8], stop: u8) -> Option<usize>
    ensures { MatchOption result (EachIndex text.now (λ k. slice_index text.now k ≢ stop))
        (λ n. (n < length text.now) × (slice_index text.now n ≡ stop) × ((k : ℕ) → k < n → slice_index text.now k ≢ stop)) }
{
    text.iter().position(|b| *b == stop)
}

/// The place of the next byte of that value, or the length.
pub fn next_stop(text: &[u8], from: usize, stop: u8) -> usize
    requires { from ≤ length text.now }
    ensures { (from ≤ result) × (result ≤ length text.now) × ((i : ℕ) → from ≤ i → i < result → slice_index text.now i ≢ stop)
        × (result < length text.now → slice_index text.now result ≡ stop) }
{
    match first_stop(&text[from..], stop) {
        Some(n) => from + n,
        None => text.len(),
    }
}

/// What stands before the first byte of that value, and what stands after it.
pub fn split_once(text: &[u8], stop: u8) -> Option<(&[u8], &[u8])>
    ensures { MatchOption result (EachIndex text.now (λ k. slice_index text.now k ≢ stop))
        (λ p. (text.now ≡ p.0.now ++ (stop ∷ p.1.now)) × EachIndex p.0.now (λ k. slice_index p.0.now k ≢ stop)) }
{
    let n = first_stop(text, stop)?;
    Some((&text[..n], &text[n + 1..]))
}

#[cfg(test)]
mod tests {
    use super::*;
    use std::test::Fail;

    #[test]
    fn first_of_two(rt: HostRuntime) -> Result<(), Fail> {
        let (before, after) = split_once(b"a\xff b c", b' ').unwrap_or((b"", b""));
        assert_eq!(rt; before, b"a\xff".as_slice());
        assert_eq!(rt; after, b"b c".as_slice());
        Ok(())
    }

    #[test]
    fn none_there(rt: HostRuntime) -> Result<(), Fail> {
        assert!(rt; split_once(b"abc", b' ').is_none());
        Ok(())
    }
}
