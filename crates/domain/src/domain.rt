// The interface of a coefficient domain.
ghost use Rattle.std.specs.Prelude.{◌≡◌};
ghost use Rattle.domain.specs.Answers.{sized, negated, added, multiplied, factored};
ghost use Rattle.domain.specs.Model.{Model, Sound};

use crate::fault::Fault;
use crate::number::Number;

pub trait Domain {
    // The exact elements.
    ghost carrier: { Type 0 };

    // What a domain means, by its value: two values of one type may differ.
    ghost model: { Self → Model carrier };

    fn is_code(&self, a: Number) -> bool
        ensures { result ≡ (model self.now).coded a };

    // The limit M: an element has a code exactly when its size is at most M.
    fn limit(&self) -> u32
        ensures { result ≡ (model self.now).limit };

    fn size(&self, a: Number) -> Result<u32, Fault>
        ensures { result ≡ sized (model self.now) a };

    fn negation(&self, a: Number) -> Result<Number, Fault>
        ensures { result ≡ negated (model self.now) a };

    fn sum(&self, a: Number, b: Number) -> Result<Number, Fault>
        ensures { result ≡ added (model self.now) a b };

    fn product(&self, a: Number, b: Number) -> Result<Number, Fault>
        ensures { result ≡ multiplied (model self.now) a b };

    // What a and b have in common, and what is left of each: g, p and q with a = g times p and b = g times q.
    fn factor(&self, a: Number, b: Number) -> Result<(Number, Number, Number), Fault>
        ensures { result ≡ factored (model self.now) a b };

    ghost sound: { (d : Self) → Sound (model d) };
}
