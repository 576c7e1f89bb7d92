// The coefficient at a monomial.
ghost use Rattle.std.specs.Prelude.{◌≡◌, ℕ, ◌<◌, ◌≤◌, ◌≢◌, ◌⊎◌, length, Ok, Err, MatchBool, MatchResult, slice_index};
ghost use Rattle.domain.specs.Answers.{multiplied};
ghost use Rattle.diagram.specs.Checks.{Never};
ghost use Rattle.diagram.specs.Monomials.{Spent, Used, Unused};
ghost use Rattle.diagram.specs.Terms.{model_of, entries_of, letter_count, Lawful, Kept, CoefficientAt, BadMonomial, Found};

use crate::entry::{Edge, Entry, Reference};
use crate::order::MOST_LETTERS;
use crate::table::Table;
use arrayvec::ArrayVec;
use domain::domain::Domain;
use domain::fault::Fault;
use domain::number::Number;

// Whether nothing of a monomial is left.
fn is_spent(left: &[u8]) -> bool
    ensures { MatchBool result (Spent left.now) ((i : ℕ) × (i < length left.now) × (slice_index left.now i ≢ 0)) }
{
    left.iter().all(|x| *x == 0)
}

// The edge by which a monomial goes on: the multiplicative one uses up one of the entry's letter.
fn step(e: Entry, left: &mut [u8]) -> Edge
    ensures { Used e left.old left.new result ⊎ Unused e left.old left.new result }
{
    let x = usize::from(e.letter);
    if x < left.len() && left[x] > 0 {
        left[x] -= 1;
        e.multiplicative
    } else {
        e.additive
    }
}

impl<D: Domain, S> Table<D, S> {
    // A weight times an edge.
    pub(crate) fn along(&self, weight: Number, edge: Edge) -> Result<Reference, Fault>
        ensures { MatchResult result
            (λ r. (r.entry ≡ edge.target) × (Ok r.weight ≡ multiplied (model_of self.now) weight edge.weight))
            (λ e. Err e ≡ multiplied (model_of self.now) weight edge.weight) }
    {
        let weight = self.domain.product(weight, edge.weight)?;
        Ok(Reference {
            weight,
            entry: edge.target,
        })
    }

    // The coefficient of a reference at what is left of a monomial.
    fn walk(&self, f: Reference, left: &mut [u8]) -> Result<Number, Fault>
        requires inside { f.entry ≤ length (entries_of self.now) }
        requires long { length left.old ≡ letter_count self.now }
        ensures { Kept self.now → Lawful self.now f → MatchResult result (CoefficientAt self.now f left.old) (λ _. ⊥) }
    {
        if f.entry == 0 {
            return Ok(if is_spent(left) {
                f.weight
            } else {
                Number::ZERO
            });
        }
        let edge = step(self.store.entries[f.entry - 1], left);
        let next = self.along(f.weight, edge)?;
        self.walk(next, left)
    }

    // The code of the coefficient at the monomial with these exponents, one for each letter.
    pub fn coefficient(&self, f: Reference, exponents: &[u8]) -> Result<Number, Fault>
        ensures refused { MatchResult result (λ _. Lawful self.now f × (length exponents.now ≡ letter_count self.now)) (BadMonomial self.now f exponents.now (λ _. Unit {0})) }
        ensures found { Kept self.now → MatchResult result (Found self.now f exponents.now) (BadMonomial self.now f exponents.now Never) }
    {
        self.lawful(f)?;
        match ArrayVec::<u8, MOST_LETTERS>::try_from(exponents) {
            Ok(mut left) if left.len() == self.order.as_slice().len() => {
                self.walk(f, left.as_mut_slice())
            }
            _ => Err(Fault::BadExponents {
                given: exponents.len(),
            }),
        }
    }
}
