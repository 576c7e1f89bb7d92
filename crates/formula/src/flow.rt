// Whole flows.
ghost use Rattle.std.specs.Prelude.{◌≡◌, ◌*◌, ◌≤◌, ◌++◌, length, drop};
ghost use Rattle.formula.specs.Flow.{flow_bytes};
ghost use Rattle.formula.specs.Limits.{record_size};

use crate::limits::RECORD_SIZE;
use crate::record::Record;

// The records' bytes over the first of the buffer.
pub fn write_records(records: &[Record], buffer: &mut [u8])
    requires { record_size * length records.now ≤ length buffer.old }
    ensures { buffer.new ≡ flow_bytes records.now ++ drop (record_size * length records.now) buffer.old }
{
    // By index: tried with `chunks_exact_mut(RECORD_SIZE).zip(records)`, behind which a proof knows no byte of the buffer.
    for (i, record) in records.iter().enumerate() {
        let at = RECORD_SIZE * i;
        buffer[at..at + RECORD_SIZE].copy_from_slice(&record.encode());
    }
}
