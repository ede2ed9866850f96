ghost use Rattle.std.specs.Prelude.{◌≤◌, length, ◌≡◌};
ghost use Rattle.text.specs.Numerals.{MAX_DIGITS, digits_from, leading_zero, numeral_of};

// The most digits of a numeral.
const MAX_DIGITS: usize = 6;

// The number that a part of 1 to `MAX_DIGITS` digits without a leading zero stands for.
#[tactic(auto, unfolding(crate::specs::Numerals::numeral_of))]
pub fn parse(s: &[u8]) -> Option<u32>
    ensures { result ≡ numeral_of s.now }
{
    if s.is_empty() || MAX_DIGITS < s.len() || leads_with_zero(s) {
        return None;
    }
    digits(s)
}

// Whether a zero stands before other bytes.
fn leads_with_zero(s: &[u8]) -> bool
    ensures { result ≡ leading_zero s.now }
{
    1 < s.len() && s[0] == b'0'
}

// The number that the digits of `s` stand for.
#[tactic(auto, using(crate::proofs::NumeralSteps::digits_next, crate::proofs::NumeralSteps::digits_ended, crate::proofs::NumeralSteps::value_small, crate::proofs::NumeralSteps::value_next))]
fn digits(s: &[u8]) -> Option<u32>
    requires { length s.now ≤ MAX_DIGITS }
    ensures { result ≡ digits_from 0 s.now }
{
    let mut value = 0;
    for b in s {
        if !matches!(b, b'0'..=b'9') {
            return None;
        }
        value = value * 10 + u32::from(*b - b'0');
    }
    Some(value)
}
