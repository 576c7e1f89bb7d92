// Filling a table by hand, entry by entry.
ghost use Rattle.std.specs.Prelude.{◌≡◌, ◌<◌, ◌≤◌, true, length, take, MatchResult};
ghost use Rattle.domain.specs.Numbers.{no_code};
ghost use Rattle.domain.specs.declared.fault.Fault.TheVariants.{Unlawful, Full};
ghost use Rattle.diagram.specs.Checks.{Admits, Never};
ghost use Rattle.diagram.specs.Filling.{Appended};
ghost use Rattle.diagram.specs.Places.{Lower};
ghost use Rattle.diagram.specs.Stores.{items};
ghost use Rattle.diagram.specs.Terms.{model_of, entries_of, SameFrame, Fits, Misfit, Filled, BadFilling};

use crate::entry::{Edge, Entry};
use crate::store::Store;
use crate::table::{Open, Table};
use domain::domain::Domain;
use domain::fault::Fault;
use domain::number::Number;

impl Store {
    // Refuses a number without an entry.
    fn need_entry(&self, n: usize) -> Result<(), Fault>
        ensures { Admits (n ≤ length (items self.now)) (Unlawful n) result }
    {
        if n <= self.entries.len() {
            Ok(())
        } else {
            Err(Fault::Unlawful { entry: n })
        }
    }

    // Refuses a further entry where there is no room.
    pub(crate) fn need_room(&self) -> Result<(), Fault>
        ensures { Admits (length (items self.now) < self.now.capacity) (Full self.now.capacity) result }
    {
        if self.entries.len() < self.capacity {
            Ok(())
        } else {
            Err(Fault::Full {
                capacity: self.capacity,
            })
        }
    }

    // Puts an entry at the end, and answers its number.
    pub(crate) fn push(&mut self, e: Entry) -> usize
        requires room { length (items self.old) < self.old.capacity }
        requires lower { Lower (length (items self.old)) e }
        ensures room { self.new.capacity ≡ self.old.capacity }
        ensures appended { Appended (items self.old) (items self.new) self.old.capacity e result }
    {
        self.entries.push_reserved(e);
        self.entries.len()
    }

    // Takes away the entries after the first n.
    fn truncate(&mut self, n: usize)
        ensures room { self.new.capacity ≡ self.old.capacity }
        ensures rest { items self.new ≡ take n (items self.old) }
    {
        self.entries.truncate(n);
    }
}

impl<D: Domain> Table<D, Open> {
    // Takes away the entries after the first n.
    pub(crate) fn truncate(&mut self, n: usize)
        ensures frame { SameFrame self.old self.new }
        ensures rest { entries_of self.new ≡ take n (entries_of self.old) }
    {
        self.store.truncate(n);
    }

    // Refuses a weight that is no code.
    fn need_code(&self, a: Number) -> Result<(), Fault>
        ensures { Admits ((model_of self.now).coded a ≡ true) (no_code a) result }
    {
        if self.domain.is_code(a) {
            Ok(())
        } else {
            Err(a.no_code())
        }
    }

    // The entry of a letter and two edges.
    fn entry_of(&self, letter: u8, additive: Edge, multiplicative: Edge) -> Result<Entry, Fault>
        ensures { MatchResult result
            (Fits self.now letter additive multiplicative)
            (Misfit self.now letter additive multiplicative Never) }
    {
        let place = self.order.place(letter)?;
        self.need_code(additive.weight)?;
        self.need_code(multiplicative.weight)?;
        self.store.need_entry(additive.target)?;
        self.store.need_entry(multiplicative.target)?;
        Ok(Entry {
            letter: place,
            additive,
            multiplicative,
        })
    }

    // Appends an entry, whatever it is, and answers its number.
    pub fn fill(&mut self, letter: u8, additive: Edge, multiplicative: Edge) -> Result<usize, Fault>
        ensures frame { SameFrame self.old self.new }
        ensures answer { MatchResult result
            (Filled self.old self.new letter additive multiplicative)
            (λ f. (self.new ≡ self.old) × BadFilling self.old letter additive multiplicative f) }
    {
        let e = self.entry_of(letter, additive, multiplicative)?;
        self.store.need_room()?;
        Ok(self.store.push(e))
    }
}
