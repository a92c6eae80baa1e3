//! Numbers of any length, told apart by a bound.

ghost use Rattle.std.specs.Prelude.{◌≡◌, ◌<◌, ◌≤◌, ◌^◌, length, IfSome};
ghost use Rattle.dz_syntax.specs.Numbers.{at_most, number_from, more_digits};

// The number with one digit more, unless it passes the bound.
fn next_value(value: u128, digit: u8, most: u128) -> Option<u128>
    requires { most < 2 ^ 127 }
    ensures { result ≡ at_most most (more_digits value digit) }
{
    let tens = value.checked_mul(10)?;
    let next = tens.checked_add(u128::from(digit.saturating_sub(b'0')))?;
    (next <= most).then_some(next)
}

/// The number that the digits spell, unless it passes the bound.
#[tactic(auto, using(crate::proofs::Digits::stays_above))]
pub(crate) fn number_of(digits: &[u8], most: u128) -> Option<u128>
    requires { most < 2 ^ 127 }
    ensures { result ≡ at_most most (number_from 0 digits.now) }
{
    let mut value = 0;
    let mut rest = digits;
    'digits: while let [first, after @ ..] = rest {
        let Some(next) = next_value(value, *first, most) else {
            return None;
        };
        value = next;
        rest = after;
    }
    Some(value)
}
