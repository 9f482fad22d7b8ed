//! Numbers in decimal digits.
ghost use Rattle.std.specs.Prelude.{◌≡◌};
ghost use Rattle.flow_top.specs.Number.{number_of};

/// The number that decimal digits spell, where there is a digit, nothing else, and the number is
/// below 2^64. Zeros may stand in front.
#[tactic(auto, unfolding(crate::specs::Number::number_of, crate::specs::Number::number_from))]
pub fn number_of(digits: &[u8]) -> Option<u64>
    ensures { result ≡ number_of digits.now }
{
    if digits.is_empty() {
        return None;
    }
    let mut number: u64 = 0;
    let mut rest = digits;
    while let [digit, tail @ ..] = rest {
        if !digit.is_ascii_digit() {
            return None;
        }
        let more = number as u128 * 10 + (*digit - b'0') as u128;
        if more >= 1 << 64 {
            return None;
        }
        number = more as u64;
        rest = tail;
    }
    Some(number)
}
