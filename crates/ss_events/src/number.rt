// Numbers as event files write them: decimal digits, any number of leading zeros among them.

ghost use Rattle.std.specs.Prelude.{◌≡◌, ◌<◌, ◌≤◌, ◌^◌, IfSome};
ghost use Rattle.ss_events.specs.Numbers as spec;

const TIME_LIMIT: u64 = 1 << 62;

const VALUE_LIMIT: u64 = 1 << 63;

/// The time that the text writes: below 2^62.
pub(crate) fn time_of(text: &[u8]) -> Option<u64>
    ensures time { result ≡ spec.time_of text.now }
    ensures low { IfSome result (λ time. time < 2 ^ 62) }
{
    number_below(TIME_LIMIT, text)
}

/// The value that the text writes, with a `-` before a number below zero.
pub(crate) fn value_of(text: &[u8]) -> Option<i64>
    ensures { result ≡ spec.value_of text.now }
{
    match text {
        [b'-', digits @ ..] => {
            let size = number_below(VALUE_LIMIT + 1, digits)?;
            Some((-(size as i128)) as i64)
        }
        _ => {
            let size = number_below(VALUE_LIMIT, text)?;
            Some(size as i64)
        }
    }
}

/// The number that one or more digits write, where it is below the limit.
fn number_below(limit: u64, digits: &[u8]) -> Option<u64>
    requires { 0 < limit }
    ensures number { result ≡ spec.number_below limit digits.now }
    ensures low { IfSome result (λ number. number < limit) }
{
    if digits.is_empty() {
        return None;
    }
    let mut value = 0u64;
    'digits: for byte in digits {
        let digit = char::from(*byte).to_digit(10)?;
        let next = u128::from(value) * 10 + u128::from(digit);
        if next >= u128::from(limit) {
            return None;
        }
        value = next as u64;
    }
    Some(value)
}
