// Constants, and negation.
ghost use Rattle.std.specs.Prelude.{◌≡◌, true, pos, IfOk, MatchResult};
ghost use Rattle.domain.specs.Numbers.{number as numbered};
ghost use Rattle.domain.specs.declared.fault.Fault.TheVariants.{NoCode, Unlawful};
ghost use Rattle.diagram.specs.Checks.{Checked};
ghost use Rattle.diagram.specs.Terms.{model_of, constant_of, negated_of, Lawful, StandsFor};

use crate::entry::Reference;
use crate::table::{Open, Table};
use domain::domain::Domain;
use domain::fault::Fault;
use domain::number::Number;

impl<D: Domain> Table<D, Open> {
    // The constant whose code is n.
    pub fn constant(&self, n: u32) -> Result<Reference, Fault>
        ensures { Checked ((model_of self.now).coded (numbered (pos n)) ≡ true) (NoCode (pos n)) (StandsFor self.now (constant_of self.now (numbered (pos n)))) result }
    {
        let weight = Number::try_from(n)?;
        if self.domain.is_code(weight) {
            Ok(Reference { weight, entry: 0 })
        } else {
            Err(weight.no_code())
        }
    }

    // The negated polynomial.
    pub fn negation(&self, f: Reference) -> Result<Reference, Fault>
        ensures fault { MatchResult result (λ g. g.entry ≡ f.entry) (λ e. e ≡ Unlawful f.entry) }
        ensures opposite { IfOk result (λ g. (model_of self.now).value g.weight ≡ (model_of self.now).ring.neg ((model_of self.now).value f.weight)) }
        ensures negated { Checked (Lawful self.now f) (Unlawful f.entry) (StandsFor self.now (negated_of self.now f)) result }
    {
        self.lawful(f)?;
        let weight = self.domain.negation(f.weight)?;
        Ok(Reference {
            weight,
            entry: f.entry,
        })
    }
}
