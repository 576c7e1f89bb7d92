// Finding an entry, or appending it where it is missing.
ghost use Rattle.std.specs.Prelude.{◌≡◌, ◌+◌, ◌<◌, ◌≤◌, true, length, IfErr, MatchResult, OnErr};
ghost use Rattle.domain.specs.declared.fault.Fault.TheVariants.{Full};
ghost use Rattle.diagram.specs.Places.{Lower};
ghost use Rattle.diagram.specs.Tables.{Coded, most_degree};
ghost use Rattle.diagram.specs.Terms.{degree_of, Shallow, model_of, letter_count, entries_of, capacity_of, SameFrame, Moved, Interned, Joins, Wanted, Joined, Denied};

use crate::entry::{Edge, Entry, Reference};
use crate::find::position;
use crate::table::{Open, Table};
use domain::domain::Domain;
use domain::fault::Fault;

impl<D: Domain> Table<D, Open> {
    // The number of an entry, which is appended if it is missing.
    pub(crate) fn intern(&mut self, e: Entry) -> Result<usize, Fault>
        requires lower { Lower (length (entries_of self.old)) e }
        requires known { e.letter < letter_count self.old }
        requires coded { Coded (model_of self.old) 0 e }
        ensures frame { SameFrame self.old self.new }
        ensures interned { Interned self.old self.new e result }
        ensures refused { OnErr result (self.new ≡ self.old) }
    {
        if let Some(i) = position(self.store.entries.as_slice(), &e) {
            return Ok(i + 1);
        }
        self.store.need_room()?;
        Ok(self.store.push(e))
    }

    // The reference of `low` plus the letter times `high`. What their weights have in common goes in front.
    pub(crate) fn node(
        &mut self,
        letter: u8,
        low: Reference,
        high: Reference,
    ) -> Result<Reference, Fault>
        requires known { letter < letter_count self.old }
        requires low { low.entry ≤ length (entries_of self.old) }
        requires high { high.entry ≤ length (entries_of self.old) }
        ensures frame { SameFrame self.old self.new }
        ensures moved { MatchResult result (λ v. Moved self.old self.new × (v.entry ≤ length (entries_of self.new))) (λ _. self.new ≡ self.old) }
        ensures full { (model_of self.old).coded low.weight ≡ true → (model_of self.old).coded high.weight ≡ true
            → IfErr result (λ e. (e ≡ Full (capacity_of self.old)) × (length (entries_of self.old) < capacity_of self.old → ⊥)) }
        ensures joined { Joins self.old letter low high
            → MatchResult result (Joined self.old self.new letter low high) (Denied self.old (Wanted self.old letter low high)) }
        ensures shallow { Shallow self.old → 1 + degree_of self.old high.entry ≤ most_degree → Shallow self.new }
    {
        if high.weight.is_zero() {
            return Ok(low);
        }
        let (weight, p, q) = self.domain.factor(low.weight, high.weight)?;
        let additive = Edge {
            weight: p,
            target: low.entry,
        };
        let multiplicative = Edge {
            weight: q,
            target: high.entry,
        };
        let entry = self.intern(Entry {
            letter,
            additive,
            multiplicative,
        })?;
        Ok(Reference { weight, entry })
    }
}
