// Whole numbers as callers hold them.
ghost use Rattle.std.specs.Prelude.{◌≡◌, Some, pos};
ghost use Rattle.std.specs.Fmt.{signed_decimal};
ghost use Rattle.domain.specs.Numbers.{number as numbered, is_zero, no_code, held, natural};

use crate::fault::Fault;
use std::fmt;

// A whole number. Whether it is a code, and of which element, is for a domain to say.
#[derive(Clone, Copy, PartialEq, Eq, Debug)]
pub struct Number {
    pub int: i32,
}

impl Number {
    pub const ZERO: Number = Number { int: 0 };

    pub const ONE: Number = Number { int: 1 };

    pub fn is_zero(self) -> bool
        ensures { result ≡ is_zero self }
    {
        self.int == 0
    }

    // The refusal of this number where a code is wanted, or where it is zero and divides.
    pub fn no_code(self) -> Fault
        ensures { result ≡ no_code self }
    {
        Fault::NoCode {
            number: i64::from(self.int),
        }
    }

    // The number without its sign, if it is one of 0 to bound - 1.
    pub fn below(self, bound: u32) -> Result<u32, Fault>
        ensures { result ≡ held bound self }
    {
        match u32::try_from(self.int) {
            Ok(n) if n < bound => Ok(n),
            _ => Err(self.no_code()),
        }
    }
}

impl From<u8> for Number {
    ghost from_gives = { λ n a. a ≡ numbered (pos n) };

    fn from(n: u8) -> Number {
        Number::from(u16::from(n))
    }
}

impl From<u16> for Number {
    ghost from_gives = { λ n a. a ≡ numbered (pos n) };

    fn from(n: u16) -> Number {
        Number { int: i32::from(n) }
    }
}

// Refuses a number that no domain has as a code.
impl TryFrom<u32> for Number {
    type Error = Fault;

    ghost try_from_gives = { λ n r. r ≡ natural n };

    fn try_from(n: u32) -> Result<Number, Fault> {
        let int = i32::try_from(n).map_err(|_| Fault::NoCode {
            number: i64::from(n),
        })?;
        Ok(Number { int })
    }
}

impl fmt::Display for Number {
    ghost output = { λ a. Some (signed_decimal a.int) };

    fn fmt<W: fmt::Write>(&self, f: &mut fmt::Formatter<W>) -> fmt::Result {
        write!(f, "{}", self.int)
    }
}
