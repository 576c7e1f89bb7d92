// The limits of formula texts and flows.

// The bytes of a text that the reader takes.
pub const MAX_TEXT: usize = 4096;

// The records of a flow.
pub const MAX_RECORDS: usize = 512;

// The parentheses that are open together.
pub const MAX_OPEN: usize = 128;

// The highest exponent.
pub const MAX_EXPONENT: u32 = 48;

// The bytes of a record.
pub const RECORD_SIZE: usize = 8;
