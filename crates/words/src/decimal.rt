// Decimal numbers.
ghost use Rattle.std.specs.Prelude.{◌≡◌};
ghost use Rattle.words.specs.Decimals.{unsigned_of, signed_of};

// A number of digits alone, where it is at most `most`.
pub fn unsigned(word: &str, most: u64) -> Option<u64>
    ensures { result ≡ unsigned_of most word.now }
{
    // `parse` would take a plus.
    if word.starts_with('+') {
        return None;
    }
    word.parse::<u64>().ok().filter(|value| *value <= most)
}

// A number of digits behind an optional minus, where it fits. By `unsigned`, so that its bounds stand in the code; `as`: they make
// the casts exact.
pub fn signed(word: &str) -> Option<i64>
    ensures { result ≡ signed_of word.now }
{
    match word.strip_prefix('-') {
        Some(digits) => {
            let magnitude = unsigned(digits, 1 << 63)?;
            Some(-i128::from(magnitude) as i64)
        }
        None => {
            let value = unsigned(word, (1 << 63) - 1)?;
            Some(value as i64)
        }
    }
}
