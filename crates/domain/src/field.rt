// The interface of a field: a coefficient domain with inverses.
ghost use Rattle.std.specs.Prelude.{◌≡◌};
ghost use Rattle.domain.specs.declared.number.Number.{Number};
ghost use Rattle.domain.specs.Answers.{inverted};
ghost use Rattle.domain.specs.Fields.{Inverts};

use crate::domain::Domain;
use crate::fault::Fault;
use crate::number::Number;

pub trait Field: Domain {
    // The inverse of each code other than zero.
    ghost reciprocal: { Self → Number → Number };

    fn inverse(&self, a: Number) -> Result<Number, Fault>
        ensures { result ≡ inverted (Self.Domain.model self.now) (reciprocal self.now) a };

    ghost undoes: { (d : Self) → Inverts (Self.Domain.model d) (reciprocal d) };
}
