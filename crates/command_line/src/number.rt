//! Numbers in words.

ghost use Rattle.command_line.specs.Number.{IsNumeralOf};
ghost use Rattle.std.specs.Prelude.{◌≡◌, ◌≤◌, ℕ, Some, IfSome};

/// The number of a word of decimal digits, if it is at most `most`.
pub(crate) fn read_number(word: &str, most: u64) -> Option<u64>
    ensures some { IfSome result (λ n. IsNumeralOf word.now n × (n ≤ most)) }
    ensures only { (n : ℕ) → IsNumeralOf word.now n → n ≤ most → result ≡ Some n }
{
    // `parse` would accept a sign.
    if word.starts_with('+') {
        return None;
    }
    match word.parse::<u64>() {
        Ok(number) if number <= most => Some(number),
        _ => None,
    }
}
