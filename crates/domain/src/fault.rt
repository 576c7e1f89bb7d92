// The refusals of every layer, each with the values that belong to it.
ghost use Rattle.std.specs.Prelude.{◌≡◌, Some};
ghost use Rattle.domain.specs.Faults.{numbered};
ghost use Rattle.domain.specs.Lines.{refusal};
ghost use Rattle.domain.specs.declared.fault.Fault.TheVariants.{Memory};

use std::alloc::{AllocError, AllocFailed};
use std::fmt;

#[derive(Clone, Copy, PartialEq, Eq, Debug)]
pub enum Fault {
    // 1: a letter order of so many letters that is empty or too long, or has a wrong letter or one twice
    BadOrder { letters: usize },
    // 2: a capacity outside 1 to 1,024
    BadCapacity { asked: usize },
    // 3: a letter that is not in the order
    UnknownLetter { letter: u8 },
    // 4: a number that is no code, or is zero where it divides
    NoCode { number: i64 },
    // 5: a reference to this entry that is not lawful
    Unlawful { entry: usize },
    // 6: a mass over this limit, or a result without a code
    OverLimit { limit: u32 },
    // 7: degrees that add up to this, which is too much
    OverDegree { degree: usize },
    // 8: no room in a table of this capacity
    Full { capacity: usize },
    // 9: a flow or a text of a wrong length
    BadLength { bytes: usize },
    // 10: a malformed record
    Malformed,
    // 11: not a formula from this place on
    NoFormula { place: usize },
    // 12: more than a buffer of this length, or a flow, can hold
    NoRoom { room: usize },
    // 13: so many exponents, unequal in number to the letters
    BadExponents { given: usize },
    // 14: judge input that is not four lines, or has an unknown domain word
    BadInput,
    // want of memory, outside the fourteen
    Memory,
}

impl Fault {
    // The refusal's number, 1 to 14; want of memory has none.
    pub fn number(&self) -> Option<u8>
        ensures { result ≡ numbered self.now }
    {
        match self {
            Fault::BadOrder { .. } => Some(1),
            Fault::BadCapacity { .. } => Some(2),
            Fault::UnknownLetter { .. } => Some(3),
            Fault::NoCode { .. } => Some(4),
            Fault::Unlawful { .. } => Some(5),
            Fault::OverLimit { .. } => Some(6),
            Fault::OverDegree { .. } => Some(7),
            Fault::Full { .. } => Some(8),
            Fault::BadLength { .. } => Some(9),
            Fault::Malformed => Some(10),
            Fault::NoFormula { .. } => Some(11),
            Fault::NoRoom { .. } => Some(12),
            Fault::BadExponents { .. } => Some(13),
            Fault::BadInput => Some(14),
            Fault::Memory => None,
        }
    }
}

impl From<AllocError> for Fault {
    ghost from_gives = { λ _ r. r ≡ Memory };

    fn from(_e: AllocError) -> Fault {
        Self::Memory
    }
}

impl<T: Drop> From<AllocFailed<T>> for Fault {
    ghost from_gives = { λ _ r. r ≡ Memory };

    fn from(_e: AllocFailed<T>) -> Fault {
        Fault::from(AllocError)
    }
}

// `refused 4`, with the place of a text that is no formula: `refused 11 3`.
impl fmt::Display for Fault {
    ghost output = { λ f. Some (refusal f) };

    fn fmt<W: fmt::Write>(&self, f: &mut fmt::Formatter<W>) -> fmt::Result {
        match (self, self.number()) {
            (Fault::NoFormula { place }, Some(number)) => write!(f, "refused {number} {place}"),
            (_, Some(number)) => write!(f, "refused {number}"),
            (_, None) => write!(f, "out of memory"),
        }
    }
}
