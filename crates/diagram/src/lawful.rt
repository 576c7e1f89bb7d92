// Lawful references.
ghost use Rattle.std.specs.Prelude.{◌*◌, ◌≤◌, length};
ghost use Rattle.std.specs.Bool.{Decides};
ghost use Rattle.domain.specs.declared.fault.Fault.TheVariants.{Unlawful};
ghost use Rattle.diagram.specs.Checks.{Admits};
ghost use Rattle.diagram.specs.Terms.{model_of, entries_of, entry_mass, Light, Lawful};

use crate::entry::Reference;
use crate::table::Table;
use domain::domain::Domain;
use domain::fault::Fault;

impl<D: Domain, S> Table<D, S> {
    // Whether a size times the mass of an entry is within the limit.
    fn is_within(&self, size: u32, n: usize) -> bool
        requires { n ≤ length (entries_of self.now) }
        ensures { Decides result (size * entry_mass self.now n ≤ (model_of self.now).limit) }
    {
        size.saturating_mul(self.mass(n)) <= self.domain.limit()
    }

    // Whether the weight is a code and the mass within the limit.
    fn is_light(&self, f: Reference) -> bool
        requires { f.entry ≤ length (entries_of self.now) }
        ensures { Decides result (Light self.now f) }
    {
        self.domain
            .size(f.weight)
            .is_ok_and(|size| self.is_within(size, f.entry))
    }

    // Whether a reference is lawful.
    fn is_lawful(&self, f: Reference) -> bool
        ensures { Decides result (Lawful self.now f) }
    {
        if f.entry > self.store.entries.len() {
            return false;
        }
        if f.weight.is_zero() {
            return f.entry == 0;
        }
        self.is_light(f)
    }

    // Refuses a reference that is not lawful.
    pub(crate) fn lawful(&self, f: Reference) -> Result<(), Fault>
        ensures { Admits (Lawful self.now f) (Unlawful f.entry) result }
    {
        if self.is_lawful(f) {
            Ok(())
        } else {
            Err(Fault::Unlawful { entry: f.entry })
        }
    }
}
