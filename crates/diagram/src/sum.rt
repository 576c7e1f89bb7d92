// Sums and differences.
ghost use Rattle.std.specs.Prelude.{◌≡◌, ◌+◌, ◌<◌, ◌≤◌, true, length, IfOk, OnErr, MatchResult};
ghost use Rattle.domain.specs.declared.fault.Fault.TheVariants.{OverLimit};
ghost use Rattle.diagram.specs.Checks.{Admits};
ghost use Rattle.diagram.specs.Terms.{model_of, letter_count, entries_of, SameFrame, Moved, Kept, Shallow, Granted, Denied, Gained, DiagramOf, mass_of, sum_of, difference_of, Top, Cuts, Parted, Falling, Addable, SmallSum, BadSum, NoSum};

use crate::entry::Reference;
use crate::table::{Open, Table};
use domain::domain::Domain;
use domain::fault::Fault;

impl<D: Domain> Table<D, Open> {
    // The higher of the letters of two numbers.
    pub(crate) fn top(&self, m: usize, n: usize) -> u8
        requires first { m ≤ length (entries_of self.now) }
        requires second { n ≤ length (entries_of self.now) }
        requires some { 1 ≤ m + n }
        ensures known { result < letter_count self.now }
        ensures top { Top self.now m n result }
    {
        if m == 0 {
            return self.store.entries[n - 1].letter;
        }
        let x = self.store.entries[m - 1].letter;
        if n == 0 {
            return x;
        }
        x.min(self.store.entries[n - 1].letter)
    }

    // The part of a reference without a letter, and what the letter is multiplied by.
    pub(crate) fn split(&self, f: Reference, x: u8) -> Result<(Reference, Reference), Fault>
        requires { f.entry ≤ length (entries_of self.now) }
        ensures falling { IfOk result (λ r. Falling self.now f x r.0 r.1) }
        ensures parted { Cuts self.now f x → MatchResult result (λ r. Parted self.now f x r.0 r.1) (λ _. ⊥) }
    {
        if f.entry == 0 {
            return Ok((f, Reference::ZERO));
        }
        let e = self.store.entries[f.entry - 1];
        if e.letter != x {
            return Ok((f, Reference::ZERO));
        }
        let low = self.along(f.weight, e.additive)?;
        let high = self.along(f.weight, e.multiplicative)?;
        Ok((low, high))
    }

    // The sum of two references, its entries added. A refusal may leave some of them.
    pub(crate) fn add(&mut self, f: Reference, g: Reference) -> Result<Reference, Fault>
        requires first { f.entry ≤ length (entries_of self.old) }
        requires second { g.entry ≤ length (entries_of self.old) }
        ensures frame { SameFrame self.old self.new }
        ensures moved { Moved self.old self.new }
        ensures inside { IfOk result (λ r. r.entry ≤ length (entries_of self.new)) }
        ensures added { Addable self.old f g → MatchResult result (Granted self.old self.new (DiagramOf self.old (sum_of self.old f g)) (sum_of self.old f g)) (Denied self.old (DiagramOf self.old (sum_of self.old f g))) }
        ensures shallow { Addable self.old f g → Shallow self.old → IfOk result (λ _. Shallow self.new) }
    {
        if f.entry == 0 && g.entry == 0 {
            let weight = self.domain.sum(f.weight, g.weight)?;
            return Ok(Reference { weight, entry: 0 });
        }
        let x = self.top(f.entry, g.entry);
        let (f_low, f_high) = self.split(f, x)?;
        let (g_low, g_high) = self.split(g, x)?;
        let low = self.add(f_low, g_low)?;
        let high = self.add(f_high, g_high)?;
        self.node(x, low, high)
    }

    // Refuses two references whose masses add up to more than the limit.
    fn need_limit(&self, f: Reference, g: Reference) -> Result<(), Fault>
        requires first { f.entry ≤ length (entries_of self.now) }
        requires second { g.entry ≤ length (entries_of self.now) }
        ensures { (model_of self.now).coded f.weight ≡ true → (model_of self.now).coded g.weight ≡ true
            → Admits (mass_of self.now f + mass_of self.now g ≤ (model_of self.now).limit) (OverLimit (model_of self.now).limit) result }
    {
        self.within_limit(
            self.reference_mass(f)
                .saturating_add(self.reference_mass(g)),
        )
    }

    // The sum of two polynomials; the missing entries of its diagram are added.
    pub fn sum(&mut self, f: Reference, g: Reference) -> Result<Reference, Fault>
        ensures frame { SameFrame self.old self.new }
        ensures restored { OnErr result (entries_of self.new ≡ entries_of self.old) }
        ensures every { MatchResult result (λ _. Moved self.old self.new × SmallSum self.old f g) (BadSum self.old f g (λ _. Unit {0})) }
        ensures kept { Kept self.old → MatchResult result (Gained self.old self.new (sum_of self.old f g)) (NoSum self.old f g (sum_of self.old f g)) }
        ensures shallow { Kept self.old → Shallow self.old → Shallow self.new }
    {
        self.lawful(f)?;
        self.lawful(g)?;
        self.need_limit(f, g)?;
        let mark = self.store.entries.len();
        let sum = self.add(f, g);
        if sum.is_err() {
            self.truncate(mark);
        }
        sum
    }

    // The first polynomial minus the second.
    pub fn difference(&mut self, f: Reference, g: Reference) -> Result<Reference, Fault>
        ensures frame { SameFrame self.old self.new }
        ensures restored { OnErr result (entries_of self.new ≡ entries_of self.old) }
        ensures every { MatchResult result (λ _. Moved self.old self.new × SmallSum self.old f g) (BadSum self.old f g (λ _. Unit {0})) }
        ensures kept { Kept self.old → MatchResult result (Gained self.old self.new (difference_of self.old f g)) (NoSum self.old f g (difference_of self.old f g)) }
        ensures shallow { Kept self.old → Shallow self.old → Shallow self.new }
    {
        self.lawful(f)?;
        let negated = self.negation(g)?;
        self.sum(f, negated)
    }
}
