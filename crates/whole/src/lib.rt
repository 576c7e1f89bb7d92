// The integers.
#![tactic(auto)]

ghost use Rattle.std.specs.Prelude.{◌≡◌, ◌^◌, ◌<◌, ◌≤◌, ℤ, Ok, int_div, unsigned_abs};
ghost use Rattle.std.specs.Int.{IsGcd};
ghost use Rattle.domain.specs.Answers.{given};
ghost use Rattle.whole.specs.Divisors.{gcd as divisor};
ghost use Rattle.whole.specs.Integers.{integers, signed as sign, negative, common as shared, fitted};
ghost use Rattle.domain.specs.Numbers.{number as numbered};
ghost use Rattle.whole.specs.IntegerLaws.{integers_sound};

use domain::domain::Domain;
use domain::fault::Fault;
use domain::number::Number;

const LIMIT: u32 = 2147483647;

#[derive(Clone, Copy)]
pub struct Whole;

// The greatest common divisor, by Euclid's algorithm: the remainder falls.
pub fn gcd(a: u32, b: u32) -> u32
    ensures value { result ≡ divisor a b }
    ensures greatest { IsGcd a b result }
{
    if b == 0 { a } else { gcd(b, a % b) }
}

// A code, which is the integer itself.
fn accept(a: Number) -> Result<Number, Fault>
    ensures { result ≡ given integers a (Ok a) }
{
    if a.int.unsigned_abs() <= LIMIT {
        Ok(a)
    } else {
        Err(a.no_code())
    }
}

// The code of an exact result; none where it did not even fit 32 bits.
fn encode(exact: Option<i32>) -> Result<Number, Fault>
    ensures { result ≡ fitted exact }
{
    match exact {
        Some(int) if int.unsigned_abs() <= LIMIT => Ok(Number { int }),
        _ => Err(Fault::OverLimit { limit: LIMIT }),
    }
}

// n, with the sign of a. By `as`: it fits, and `try_from` would have an `Err` that never comes.
fn signed(a: Number, n: u32) -> Number
    requires { n < 2 ^ 31 }
    ensures { result ≡ numbered (sign (negative a.int) n) }
{
    let int = n as i32;
    Number {
        int: if a.int < 0 { -int } else { int },
    }
}

// The greatest common divisor, with the sign of b.
fn common(a: Number, b: Number) -> Number
    requires nonzero { 0 < unsigned_abs b.int }
    requires in_range { unsigned_abs b.int ≤ 2147483647 }
    ensures value { result ≡ numbered (shared a.int b.int) }
    ensures nonzero { 0 < unsigned_abs result.int }
{
    let d = gcd(a.int.unsigned_abs(), b.int.unsigned_abs());
    signed(b, d)
}

// The quotient, rounded toward zero.
fn quotient(a: Number, g: Number) -> Number
    requires in_range { unsigned_abs a.int ≤ 2147483647 }
    requires nonzero { 0 < unsigned_abs g.int }
    ensures { result ≡ numbered (int_div a.int g.int) }
{
    Number { int: a.int / g.int }
}

impl Domain for Whole {
    ghost carrier = { ℤ };

    ghost model = { λ _. integers };

    ghost sound = { λ d. integers_sound };

    fn is_code(&self, a: Number) -> bool {
        accept(a).is_ok()
    }

    fn limit(&self) -> u32 {
        LIMIT
    }

    fn size(&self, a: Number) -> Result<u32, Fault> {
        let x = accept(a)?;
        Ok(x.int.unsigned_abs())
    }

    fn negation(&self, a: Number) -> Result<Number, Fault> {
        let x = accept(a)?;
        Ok(Number { int: -x.int })
    }

    fn sum(&self, a: Number, b: Number) -> Result<Number, Fault> {
        let x = accept(a)?;
        let y = accept(b)?;
        encode(x.int.checked_add(y.int))
    }

    fn product(&self, a: Number, b: Number) -> Result<Number, Fault> {
        let x = accept(a)?;
        let y = accept(b)?;
        encode(x.int.checked_mul(y.int))
    }

    fn factor(&self, a: Number, b: Number) -> Result<(Number, Number, Number), Fault> {
        let x = accept(a)?;
        let y = accept(b)?;
        if y.is_zero() {
            return Err(b.no_code());
        }
        let g = common(x, y);
        Ok((g, quotient(x, g), quotient(y, g)))
    }
}
