// Formula texts.
ghost use Rattle.formula.specs.Answer.{Answer};

use crate::class::Class;
use crate::flow::write_records;
use crate::limits::{MAX_RECORDS, MAX_TEXT, RECORD_SIZE};
use crate::reader::Reader;
use domain::fault::Fault;

// The flow of the formula that a text spells, over the first bytes of the buffer, and the number of its records.
// A refusal leaves the buffer as it is.
pub fn read(text: &[u8], buffer: &mut [u8]) -> Result<usize, Fault>
    ensures { Answer text.now buffer.old buffer.new result }
{
    if text.len() > MAX_TEXT {
        return Err(Fault::BadLength { bytes: text.len() });
    }
    let mut reader = Reader::new();
    for (place, byte) in text.iter().enumerate() {
        reader
            .step(Class::from(*byte))
            .ok_or(Fault::NoFormula { place })?;
    }
    reader
        .finish()
        .ok_or(Fault::NoFormula { place: text.len() })?;
    let records = reader.tape.records();
    let count = records.len();
    let room = buffer.len();
    if count > MAX_RECORDS || RECORD_SIZE * count > room {
        return Err(Fault::NoRoom { room });
    }
    write_records(records, buffer);
    Ok(count)
}
