//! Words, and what follows them.
ghost use Rattle.std.specs.Prelude.{◌≡◌, ◌==◌, ◌<◌, ◌∷◌, not, drop, length, IfSome, option_copied, option_map};
ghost use Rattle.std.specs.List.{prefix_len};
ghost use Rattle.trace_format.specs.Words.{from, pieces, until};
ghost use Rattle.trace_format.specs.Reading.{word_at};
ghost use Rattle.trace_format.specs.Steps.{pieces_after};

/// How many bytes stand before the first `stop`, or at all.
fn length_before(stop: u8, bytes: &[u8]) -> usize
    ensures { result ≡ prefix_len (λ b. not (b == stop)) bytes.now }
{
    bytes.iter().take_while(|b| **b != stop).count()
}

/// The bytes before the first `stop`, and those from there on.
pub fn split_before(stop: u8, bytes: &[u8]) -> (&[u8], &[u8])
    ensures before { result.0.now ≡ until stop bytes.now }
    ensures rest { result.1.now ≡ from stop bytes.now }
{
    let middle = length_before(stop, bytes);
    bytes.split_at(middle)
}

/// What follows the first byte, where there is one.
pub fn skip_one(bytes: &[u8]) -> &[u8]
    ensures { result.now ≡ drop 1 bytes.now }
{
    match bytes.split_first() {
        None => bytes,
        Some((_, rest)) => rest,
    }
}

/// The piece before the first comma, and what follows the comma, where there is one.
pub fn split_piece(bytes: &[u8]) -> (&[u8], Option<&[u8]>)
    ensures pieces { pieces bytes.now ≡ result.0.now ∷ pieces_after (option_copied result.1) }
    ensures shorter { IfSome result.1 (λ rest. length rest.now < length bytes.now) }
{
    let (piece, after) = split_before(b',', bytes);
    match after.split_first() {
        None => (piece, None),
        Some((_, rest)) => (piece, Some(rest)),
    }
}

/// A word that is not empty, after one space, and what follows it.
pub fn next_word(bytes: &[u8]) -> Option<(&[u8], &[u8])>
    ensures { option_map (λ p. (p.0.now, p.1.now)) result ≡ word_at bytes.now }
{
    let (word, after) = split_before(b' ', bytes.strip_prefix(b" ")?);
    if word.is_empty() {
        return None;
    }
    Some((word, after))
}
