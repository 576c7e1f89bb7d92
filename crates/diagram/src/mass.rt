// Mass, by one pass over the entries.
ghost use Rattle.std.specs.Prelude.{◌≡◌, ◌<◌, ◌≤◌, true, length};
ghost use Rattle.domain.specs.declared.fault.Fault.TheVariants.{OverLimit};
ghost use Rattle.diagram.specs.Checks.{Admits};
ghost use Rattle.diagram.specs.Tables.{Coded};
ghost use Rattle.diagram.specs.Masses.{capped, weighed};
ghost use Rattle.diagram.specs.Terms.{model_of, entries_of, entry_mass, mass_of};

use crate::entry::{Entry, Reference};
use crate::store::MOST_NUMBERS;
use crate::table::Table;
use arrayvec::ArrayVec;
use domain::domain::Domain;
use domain::fault::Fault;
use domain::number::Number;

impl<D: Domain, S> Table<D, S> {
    // The size of a code's element.
    fn size_of(&self, a: Number) -> u32
        ensures { (model_of self.now).coded a ≡ true → result ≡ (model_of self.now).size ((model_of self.now).value a) }
    {
        self.domain.size(a).unwrap_or(0)
    }

    // The mass of an entry from the masses of those before it. Masses past the range stop at its end.
    fn weigh(&self, masses: &[u32], e: Entry) -> u32
        requires left { e.additive.target < length masses.now }
        requires right { e.multiplicative.target < length masses.now }
        ensures { Coded (model_of self.now) 0 e → result ≡ weighed (model_of self.now) masses.now e }
    {
        let low = self
            .size_of(e.additive.weight)
            .saturating_mul(masses[e.additive.target]);
        let high = self
            .size_of(e.multiplicative.weight)
            .saturating_mul(masses[e.multiplicative.target]);
        low.saturating_add(high)
    }

    // The mass of an entry. That the number is the table's is asked here and not of a type: it depends on the table.
    pub(crate) fn mass(&self, n: usize) -> u32
        requires { n ≤ length (entries_of self.now) }
        ensures { result ≡ capped (entry_mass self.now n) }
    {
        let mut masses: ArrayVec<u32, MOST_NUMBERS> = ArrayVec::new();
        masses.push(self.size_of(Number::ONE));
        for e in &self.store.entries[..n] {
            let mass = self.weigh(masses.as_slice(), *e);
            masses.push(mass);
        }
        masses.as_slice()[n]
    }

    // The mass of a reference, or the end of the range where it is past it.
    pub(crate) fn reference_mass(&self, f: Reference) -> u32
        requires { f.entry ≤ length (entries_of self.now) }
        ensures { (model_of self.now).coded f.weight ≡ true → result ≡ capped (mass_of self.now f) }
    {
        self.size_of(f.weight).saturating_mul(self.mass(f.entry))
    }

    // Refuses a mass over the limit.
    pub(crate) fn within_limit(&self, mass: u32) -> Result<(), Fault>
        ensures { Admits (mass ≤ (model_of self.now).limit) (OverLimit (model_of self.now).limit) result }
    {
        let limit = self.domain.limit();
        if mass <= limit {
            Ok(())
        } else {
            Err(Fault::OverLimit { limit })
        }
    }
}
