// The value of an integer's digits, as far as it stays within a limit.
// The limit is the caller's: a place that takes another one passes another one.
ghost use Rattle.std.specs.Prelude.{◌≡◌, ◌+◌, ◌-◌, ◌*◌, if◌then◌else◌, Some, None, nat_le};
ghost use Rattle.words.specs.Numbers.{value_within};

// One digit more behind a value.
fn appended(value: u64, digit: u8, limit: u64) -> Option<u64>
    ensures { result ≡ (if nat_le (10 * value + (digit - 48)) limit then Some (10 * value + (digit - 48)) else None) }
{
    let next = 10 * u128::from(value) + u128::from(digit.saturating_sub(b'0'));
    let limit = u128::from(limit);
    if next > limit {
        return None;
    }
    Some(next as u64)
}

// The value of the digits where it is at most the limit, however many zeros stand in front.
pub fn value_within(digits: &[u8], limit: u64) -> Option<u64>
    ensures { result ≡ value_within limit digits.now }
{
    let mut value = 0;
    for digit in digits {
        value = appended(value, *digit, limit)?;
    }
    Some(value)
}
