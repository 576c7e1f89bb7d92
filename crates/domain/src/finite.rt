// The domain of a field, over any field's arithmetic: every size is 0, and factor takes all of b out.
ghost use Rattle.std.specs.Prelude.{◌≡◌};
ghost use Rattle.domain.specs.Fields.{domain_of};
ghost use Rattle.domain.specs.FieldDomains.{field_sound};

use crate::arithmetic::Arithmetic;
use crate::domain::Domain;
use crate::fault::Fault;
use crate::field::Field;
use crate::number::Number;

const LIMIT: u32 = 1;

#[derive(Clone, Copy)]
pub struct Finite<A> {
    pub arithmetic: A,
}

impl<A: Arithmetic> Domain for Finite<A> {
    ghost carrier = { A.Arithmetic.carrier };

    ghost model = { λ d. domain_of (A.Arithmetic.meaning d.arithmetic) };

    ghost sound = { λ d. field_sound (A.Arithmetic.meaning d.arithmetic) (A.Arithmetic.sound d.arithmetic) };

    fn is_code(&self, a: Number) -> bool {
        self.arithmetic.is_code(a)
    }

    fn limit(&self) -> u32 {
        LIMIT
    }

    fn size(&self, a: Number) -> Result<u32, Fault> {
        if self.is_code(a) {
            Ok(0)
        } else {
            Err(a.no_code())
        }
    }

    fn negation(&self, a: Number) -> Result<Number, Fault> {
        self.arithmetic.negation(a)
    }

    fn sum(&self, a: Number, b: Number) -> Result<Number, Fault> {
        self.arithmetic.sum(a, b)
    }

    fn product(&self, a: Number, b: Number) -> Result<Number, Fault> {
        self.arithmetic.product(a, b)
    }

    fn factor(&self, a: Number, b: Number) -> Result<(Number, Number, Number), Fault> {
        if !self.is_code(a) {
            return Err(a.no_code());
        }
        let inverse = self.arithmetic.inverse(b)?;
        let quotient = self.arithmetic.product(a, inverse)?;
        Ok((b, quotient, Number::ONE))
    }
}

impl<A: Arithmetic> Field for Finite<A> {
    ghost reciprocal = { λ d. (A.Arithmetic.meaning d.arithmetic).inverse };

    ghost undoes = { λ d. (A.Arithmetic.sound d.arithmetic).inverts };

    fn inverse(&self, a: Number) -> Result<Number, Fault> {
        self.arithmetic.inverse(a)
    }
}
