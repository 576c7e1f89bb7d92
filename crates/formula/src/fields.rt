// The fields of a record's bytes. Those that a kind does not use are 0.
ghost use Rattle.std.specs.Prelude.{◌≡◌, Ok, Err};
ghost use Rattle.formula.specs.Flow.{fields, field_bytes, fields_in, formed, two_operands};

use crate::limits::RECORD_SIZE;
use crate::record::Record;
use domain::fault::Fault;

#[derive(Clone, Copy)]
pub struct Fields {
    // A byte of the format; an enum of kinds would only say the cases of `Record` once more.
    kind: u8,
    letter: u8,
    left: u16,
    right: u32,
}

impl From<[u8; RECORD_SIZE]> for Fields {
    ghost from_gives = { λ bytes r. (r ≡ fields_in bytes) × (field_bytes r ≡ bytes) };

    fn from(bytes: [u8; RECORD_SIZE]) -> Fields {
        let [kind, letter, l0, l1, r0, r1, r2, r3] = bytes;
        Fields {
            kind,
            letter,
            left: u16::from_le_bytes([l0, l1]),
            right: u32::from_le_bytes([r0, r1, r2, r3]),
        }
    }
}

impl From<Fields> for [u8; RECORD_SIZE] {
    ghost from_gives = { λ f r. r ≡ field_bytes f };

    fn from(fields: Fields) -> [u8; RECORD_SIZE] {
        let [l0, l1] = fields.left.to_le_bytes();
        let [r0, r1, r2, r3] = fields.right.to_le_bytes();
        [fields.kind, fields.letter, l0, l1, r0, r1, r2, r3]
    }
}

impl From<Record> for Fields {
    ghost from_gives = { λ r f. f ≡ fields r };

    fn from(record: Record) -> Fields {
        let (kind, letter, left, right) = match record {
            Record::Constant(n) => (0, 0, 0, n),
            Record::Letter(i) => (1, i, 0, 0),
            Record::Sum(left, right) => (2, 0, left, u32::from(right)),
            Record::Difference(left, right) => (3, 0, left, u32::from(right)),
            Record::Product(left, right) => (4, 0, left, u32::from(right)),
            Record::Negation(operand) => (5, 0, operand, 0),
        };
        Fields {
            kind,
            letter,
            left,
            right,
        }
    }
}

impl Fields {
    // The record with these fields, if it may stand at a place.
    #[inline]
    pub fn record(self, place: u16) -> Result<Record, Fault>
        ensures { result ≡ formed place self }
    {
        let Fields {
            kind,
            letter,
            left,
            right,
        } = self;
        match kind {
            0 if letter == 0 && left == 0 => Ok(Record::Constant(right)),
            1 if letter < 16 && left == 0 && right == 0 => Ok(Record::Letter(letter)),
            2 => self
                .operands(place)
                .map(|(left, right)| Record::Sum(left, right)),
            3 => self
                .operands(place)
                .map(|(left, right)| Record::Difference(left, right)),
            4 => self
                .operands(place)
                .map(|(left, right)| Record::Product(left, right)),
            5 if letter == 0 && left < place && right == 0 => Ok(Record::Negation(left)),
            _ => Err(Fault::Malformed),
        }
    }

    // The operands of a record that joins two, if both are records before the place.
    #[inline]
    fn operands(self, place: u16) -> Result<(u16, u16), Fault>
        ensures { result ≡ two_operands place self }
    {
        let Fields {
            letter,
            left,
            right,
            ..
        } = self;
        match u16::try_from(right) {
            Ok(right) if letter == 0 && left < place && right < place => Ok((left, right)),
            _ => Err(Fault::Malformed),
        }
    }
}
