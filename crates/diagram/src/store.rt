// The entries of a table.
ghost use Rattle.std.specs.Prelude.{◌≤◌, vec_len, vec_capacity};
ghost use Rattle.diagram.specs.Places.{Falls};

use crate::entry::Entry;

// The most entries of a table.
pub(crate) const MOST_ENTRIES: usize = 1024;

// And of its numbers: those of the entries, and 0.
pub(crate) const MOST_NUMBERS: usize = 1025;

// The entry with number i + 1 is at place i. Every edge leads to a lower number, and the memory for all entries is there
// from the start: entries are found by their numbers, which callers hold, and no later call may want memory.
#[derive(Drop)]
pub struct Store {
    pub(crate) entries: Vec<Entry>,
    pub(crate) capacity: usize,
    ghost few: { vec_len entries ≤ capacity },
    ghost some: { 1 ≤ capacity },
    ghost small: { capacity ≤ 1024 },
    ghost reserved: { 1024 ≤ vec_capacity entries },
    ghost falling: { Falls entries.items },
}
