// Comparing two references.
ghost use Rattle.std.specs.Prelude.{IfOk, MatchResult};
ghost use Rattle.diagram.specs.Answering.{Tells};
ghost use Rattle.diagram.specs.Terms.{Agree, Compared, UnlawfulOf, Kept};

use crate::comparison::Comparison;
use crate::entry::Reference;
use crate::table::Table;
use domain::domain::Domain;
use domain::fault::Fault;

impl<D: Domain, S> Table<D, S> {
    // Whether two references stand for the same polynomial.
    pub fn compare(&self, f: Reference, g: Reference) -> Result<Comparison, Fault>
        ensures compared { MatchResult result (Compared self.now f g) (UnlawfulOf self.now f g) }
        ensures canonical { Kept self.now → IfOk result (Tells (Agree self.now f g)) }
    {
        self.lawful(f)?;
        self.lawful(g)?;
        Ok(if f == g {
            Comparison::Equal
        } else {
            Comparison::Different
        })
    }
}
