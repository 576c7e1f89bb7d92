// Products.
ghost use Rattle.std.specs.Prelude.{◌≡◌, ◌+◌, ◌*◌, ◌<◌, ◌≤◌, true, length, IfOk, OnErr, MatchResult};
ghost use Rattle.domain.specs.declared.fault.Fault.TheVariants.{OverLimit, OverDegree};
ghost use Rattle.diagram.specs.Checks.{Admits};
ghost use Rattle.diagram.specs.Tables.{most_degree};
ghost use Rattle.diagram.specs.Terms.{model_of, letter_count, entries_of, degree_of, mass_of, SameFrame, Moved, Kept, Shallow, Granted, Denied, StandsFor, scaled_of, product_of, WorkingOf, Scalable, Multipliable, Ordered, SmallProduct, BadProduct};

use crate::entry::Reference;
use crate::table::{Open, Table};
use domain::domain::Domain;
use domain::fault::Fault;
use domain::number::Number;

// The highest degree of a product.
const MOST_DEGREE: usize = 48;

impl<D: Domain> Table<D, Open> {
    // A coefficient times a reference.
    fn scaled(&self, weight: Number, f: Reference) -> Result<Reference, Fault>
        ensures inside { IfOk result (λ r. r.entry ≤ f.entry) }
        ensures scaled { Scalable self.now weight f → MatchResult result (StandsFor self.now (scaled_of self.now weight f)) (λ _. ⊥) }
    {
        if weight.is_zero() {
            return Ok(Reference::ZERO);
        }
        let weight = self.domain.product(weight, f.weight)?;
        Ok(Reference {
            weight,
            entry: f.entry,
        })
    }

    // The higher letter of two references, the one that has it, which is the first if both do, and the other.
    fn order(&self, f: Reference, g: Reference) -> (u8, Reference, Reference)
        requires first { (1 ≤ f.entry) × (f.entry ≤ length (entries_of self.now)) }
        requires second { (1 ≤ g.entry) × (g.entry ≤ length (entries_of self.now)) }
        ensures known { result.0 < letter_count self.now }
        ensures ordered { Ordered self.now f g result.0 result.1 result.2 }
    {
        let x = self.store.entries[f.entry - 1].letter;
        let y = self.store.entries[g.entry - 1].letter;
        if y < x { (y, g, f) } else { (x, f, g) }
    }

    // The product of two references, with the entries of all working polynomials added. A refusal may leave some of them.
    pub(crate) fn multiply(&mut self, f: Reference, g: Reference) -> Result<Reference, Fault>
        requires first { f.entry ≤ length (entries_of self.old) }
        requires second { g.entry ≤ length (entries_of self.old) }
        ensures frame { SameFrame self.old self.new }
        ensures moved { Moved self.old self.new }
        ensures inside { IfOk result (λ r. r.entry ≤ length (entries_of self.new)) }
        ensures multiplied { Multipliable self.old f g → MatchResult result (Granted self.old self.new (WorkingOf self.old f g) (product_of self.old f g)) (Denied self.old (WorkingOf self.old f g)) }
        ensures shallow { Multipliable self.old f g → degree_of self.old f.entry + degree_of self.old g.entry ≤ most_degree → Shallow self.old → IfOk result (λ _. Shallow self.new) }
    {
        if f.entry == 0 {
            return self.scaled(f.weight, g);
        }
        if g.entry == 0 {
            return self.scaled(g.weight, f);
        }
        let (letter, first, second) = self.order(f, g);
        let (without, multiplied) = self.split(first, letter)?;
        let low = self.multiply(without, second)?;
        let high = self.multiply(multiplied, second)?;
        let shifted = self.node(letter, Reference::ZERO, high)?;
        self.add(low, shifted)
    }

    // Refuses two references whose masses multiplied are more than the limit.
    fn need_mass(&self, f: Reference, g: Reference) -> Result<(), Fault>
        requires first { f.entry ≤ length (entries_of self.now) }
        requires second { g.entry ≤ length (entries_of self.now) }
        ensures { (model_of self.now).coded f.weight ≡ true → (model_of self.now).coded g.weight ≡ true
            → Admits (mass_of self.now f * mass_of self.now g ≤ (model_of self.now).limit) (OverLimit (model_of self.now).limit) result }
    {
        self.within_limit(
            self.reference_mass(f)
                .saturating_mul(self.reference_mass(g)),
        )
    }

    // Refuses two entries whose degrees add up to more than that of a product.
    fn need_degree(&self, m: usize, n: usize) -> Result<(), Fault>
        requires first { m ≤ length (entries_of self.now) }
        requires second { n ≤ length (entries_of self.now) }
        ensures { Admits (degree_of self.now m + degree_of self.now n ≤ most_degree) (OverDegree (degree_of self.now m + degree_of self.now n)) result }
    {
        let degree = self.degree(m) + self.degree(n);
        if degree <= MOST_DEGREE {
            Ok(())
        } else {
            Err(Fault::OverDegree { degree })
        }
    }

    // The product of two polynomials; the missing entries of all its working polynomials are added.
    pub fn product(&mut self, f: Reference, g: Reference) -> Result<Reference, Fault>
        ensures frame { SameFrame self.old self.new }
        ensures restored { OnErr result (entries_of self.new ≡ entries_of self.old) }
        ensures every { MatchResult result (λ _. Moved self.old self.new × SmallProduct self.old f g) (BadProduct self.old f g (λ _. Unit {0})) }
        ensures kept { Kept self.old → MatchResult result (Granted self.old self.new (WorkingOf self.old f g) (product_of self.old f g)) (BadProduct self.old f g (Denied self.old (WorkingOf self.old f g))) }
        ensures shallow { Kept self.old → Shallow self.old → Shallow self.new }
    {
        self.lawful(f)?;
        self.lawful(g)?;
        self.need_mass(f, g)?;
        self.need_degree(f.entry, g.entry)?;
        let mark = self.store.entries.len();
        let product = self.multiply(f, g);
        if product.is_err() {
            self.truncate(mark);
        }
        product
    }
}
