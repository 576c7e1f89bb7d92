// Numbers and exponents, digit by digit.
ghost use Rattle.std.specs.Prelude.{◌≡◌};
ghost use Rattle.formula.specs.Follow.{MovesAtDigit, with_digit};
ghost use Rattle.formula.specs.Formulas.{Formula};
ghost use Rattle.formula.specs.Machine.State.{in_number, past_caret, in_exponent};

use crate::limits::MAX_EXPONENT;
use crate::state::State;

// The number that n and one more digit spell, if it is below 2 ^ 32.
fn with_digit(n: u32, digit: u8) -> Option<u32>
    ensures { result ≡ with_digit n digit }
{
    n.checked_mul(10)?.checked_add(u32::from(digit))
}

// A number that begins with 0 has no further digit.
pub fn next_digit(n: u32, digit: u8) -> Option<State>
    ensures { MovesAtDigit digit (in_number n) result }
{
    if n == 0 {
        return None;
    }
    Some(State::Number(with_digit(n, digit)?))
}

pub fn first_exponent_digit(digit: u8) -> Option<State>
    ensures { (f : Formula) → MovesAtDigit digit (past_caret f) result }
{
    if digit == 0 {
        return None;
    }
    Some(State::Exponent(u32::from(digit)))
}

pub fn next_exponent_digit(k: u32, digit: u8) -> Option<State>
    ensures { (f : Formula) → MovesAtDigit digit (in_exponent f k) result }
{
    let next = with_digit(k, digit)?;
    if next > MAX_EXPONENT {
        return None;
    }
    Some(State::Exponent(next))
}
