// Counting the entries that a reference reaches.
ghost use Rattle.std.specs.Prelude.{◌≤◌, length, IfOk};
ghost use Rattle.domain.specs.declared.fault.Fault.TheVariants.{Unlawful};
ghost use Rattle.diagram.specs.Checks.{Checked};
ghost use Rattle.diagram.specs.Counting.{Counted, Marking};
ghost use Rattle.diagram.specs.Stores.{items};
ghost use Rattle.diagram.specs.Terms.{entries_of, Lawful, Kept, LeastCount};

use crate::entry::Reference;
use crate::store::{MOST_NUMBERS, Store};
use crate::table::Table;
use domain::domain::Domain;
use domain::fault::Fault;

impl Store {
    // A mark for each number that is reached from n, by one pass downwards. A whole array, since a number is marked before
    // those below it are looked at.
    fn marks(&self, n: usize) -> [bool; MOST_NUMBERS]
        requires { n ≤ length (items self.now) }
        ensures { Marking (items self.now) n 0 result }
    {
        let mut marks = [false; MOST_NUMBERS];
        marks[n] = true;
        for i in (0..n).rev() {
            if marks[i + 1] {
                let e = self.entries[i];
                marks[e.additive.target] = true;
                marks[e.multiplicative.target] = true;
            }
        }
        marks
    }

    // How many entries are reached from n.
    fn reached(&self, n: usize) -> usize
        requires { n ≤ length (items self.now) }
        ensures { Counted (items self.now) n result }
    {
        let marks = self.marks(n);
        marks[1..=n].iter().filter(|mark| **mark).count()
    }
}

impl<D: Domain, S> Table<D, S> {
    // How many entries a reference reaches, entry 0 not counted.
    pub fn count(&self, f: Reference) -> Result<usize, Fault>
        ensures counted { Checked (Lawful self.now f) (Unlawful f.entry) (Counted (entries_of self.now) f.entry) result }
        ensures least { Kept self.now → IfOk result (LeastCount self.now f) }
    {
        self.lawful(f)?;
        Ok(self.store.reached(f.entry))
    }
}
