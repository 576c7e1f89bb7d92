// The records of a flow, and their bytes.
ghost use Rattle.std.specs.Prelude.{◌≡◌, ℕ, Some, Ok};
ghost use Rattle.formula.specs.Flow.{encoded, decoded, Formed, Stands};
ghost use Rattle.formula.specs.Lines.{line};
ghost use Rattle.formula.specs.declared.record.Record.TheVariants.{Constant};

use crate::fields::Fields;
use crate::limits::RECORD_SIZE;
use domain::fault::Fault;
use std::fmt;

// What one record computes: from a number, from a letter, or from earlier records by their numbers.
#[derive(Clone, Copy, PartialEq, Eq, Debug)]
pub enum Record {
    Constant(u32),
    Letter(u8),
    Sum(u16, u16),
    Difference(u16, u16),
    Product(u16, u16),
    Negation(u16),
}

// The blank of a place that no record has yet.
impl Default for Record {
    ghost is_default = { λ r. r ≡ Constant 0 };

    fn default() -> Record {
        Record::Constant(0)
    }
}

impl Record {
    // The record's bytes, from which `decode` makes it again wherever it may stand.
    pub fn encode(self) -> [u8; RECORD_SIZE]
        ensures bytes { result ≡ encoded self }
        ensures undone { (place : ℕ) → Formed place self → decoded place result ≡ Ok self }
    {
        Fields::from(self).into()
    }

    // The record with these bytes, if it may stand at a place of a flow: `encode` makes the bytes again.
    #[inline]
    pub fn decode(place: u16, bytes: [u8; RECORD_SIZE]) -> Result<Record, Fault>
        ensures value { result ≡ decoded place bytes }
        ensures undone { (item : Record) → result ≡ Ok item → Stands place bytes item }
    {
        Fields::from(bytes).record(place)
    }
}

// As `letter a`, `constant 5` or `product 0 1`.
impl fmt::Display for Record {
    ghost output = { λ r. Some (line r) };

    fn fmt<W: fmt::Write>(&self, f: &mut fmt::Formatter<W>) -> fmt::Result {
        match self {
            Record::Constant(n) => write!(f, "constant {n}"),
            Record::Letter(i) => {
                let name = char::from(b'a'.wrapping_add(*i));
                write!(f, "letter {name}")
            }
            Record::Sum(left, right) => write!(f, "sum {left} {right}"),
            Record::Difference(left, right) => write!(f, "difference {left} {right}"),
            Record::Product(left, right) => write!(f, "product {left} {right}"),
            Record::Negation(operand) => write!(f, "negation {operand}"),
        }
    }
}
