// The arithmetic that the domain of a field is built from. Four of its methods are `Domain`'s too: with one trait below
// both, `Finite` would hand these four on all the same, and the meaning that every contract names would be that trait's.
ghost use Rattle.std.specs.Prelude.{◌≡◌};
ghost use Rattle.domain.specs.Answers.{negated, added, multiplied, inverted};
ghost use Rattle.domain.specs.Fields.{Field as FieldModel, FieldLaws, domain_of};

use crate::fault::Fault;
use crate::number::Number;

pub trait Arithmetic {
    ghost carrier: { Type 0 };

    ghost meaning: { Self → FieldModel carrier };

    fn is_code(&self, a: Number) -> bool
        ensures { result ≡ (meaning self.now).coded a };

    fn negation(&self, a: Number) -> Result<Number, Fault>
        ensures { result ≡ negated (domain_of (meaning self.now)) a };

    fn sum(&self, a: Number, b: Number) -> Result<Number, Fault>
        ensures { result ≡ added (domain_of (meaning self.now)) a b };

    fn product(&self, a: Number, b: Number) -> Result<Number, Fault>
        ensures { result ≡ multiplied (domain_of (meaning self.now)) a b };

    fn inverse(&self, a: Number) -> Result<Number, Fault>
        ensures { result ≡ inverted (domain_of (meaning self.now)) (meaning self.now).inverse a };

    ghost sound: { (f : Self) → FieldLaws (meaning f) };
}
