ghost use Rattle.std.specs.Prelude.{◌≡◌, ◌<◌, ◌≤◌, ◌^◌, IfSome};
ghost use Rattle.ss_fail.specs.Decimal as spec;

/// The number that one or more decimal digits write, where it is below the limit.
pub(crate) fn number_below(limit: u128, digits: &[u8]) -> Option<u64>
    requires some { 0 < limit }
    requires within { limit ≤ 2 ^ 64 }
    ensures number { result ≡ spec.number_below limit digits.now }
    ensures low { IfSome result (λ number. number < limit) }
{
    if digits.is_empty() {
        return None;
    }
    let mut value = 0u64;
    'digits: for byte in digits {
        let digit = char::from(*byte).to_digit(10)?;
        let next = u128::from(value) * 10 + u128::from(digit);
        if next >= limit {
            return None;
        }
        value = next as u64;
    }
    Some(value)
}
