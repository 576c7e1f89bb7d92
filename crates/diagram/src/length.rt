// The length of a line, worked out before it is written.
ghost use Rattle.std.specs.Prelude.{◌≡◌, ◌-◌, ◌<◌, ◌≤◌, true, length};
ghost use Rattle.std.specs.Fmt.{signed_decimal};
ghost use Rattle.diagram.specs.Printing.{clipped};
ghost use Rattle.diagram.specs.Terms.{model_of, entries_of, line_of, entry_text_of, times_text_of, plus_text_of, Measured};

use crate::entry::{Edge, Reference};
use crate::store::MOST_NUMBERS;
use crate::table::{Closed, Table};
use arrayvec::ArrayVec;
use domain::domain::Domain;
use domain::number::Number;
use itoa::Buffer;

// The length of a number in decimal.
fn digits(a: Number) -> usize
    ensures value { result ≡ length (signed_decimal a.int) }
    ensures short { result ≤ 40 }
{
    let mut buffer = Buffer::new();
    buffer.format(a.int).len()
}

// Lengths that pass the range stop at its end; no buffer is that long.
impl<D: Domain> Table<D, Closed> {
    // The length of a reference's line, from those of the entries before.
    fn reference_length(&self, lengths: &[usize], f: Reference) -> usize
        requires inside { f.entry ≤ length (entries_of self.now) }
        requires coded { (model_of self.now).coded f.weight ≡ true }
        requires known { f.entry < length lengths.now }
        ensures { Measured self.now lengths.now f.entry → result ≡ clipped (length (line_of self.now f)) }
    {
        if f.entry == 0 {
            return digits(f.weight);
        }
        if f.weight == Number::ONE {
            return lengths[f.entry];
        }
        lengths[f.entry].saturating_add(digits(f.weight) + 3)
    }

    // What the multiplicative edge adds.
    fn times_length(&self, lengths: &[usize], edge: Edge) -> usize
        requires inside { edge.target ≤ length (entries_of self.now) }
        requires coded { (model_of self.now).coded edge.weight ≡ true }
        requires known { edge.target < length lengths.now }
        ensures { Measured self.now lengths.now edge.target → result ≡ clipped (length (times_text_of self.now edge)) }
    {
        if edge.weight == Number::ONE && edge.target == 0 {
            return 0;
        }
        let f = Reference {
            weight: edge.weight,
            entry: edge.target,
        };
        self.reference_length(lengths, f).saturating_add(3)
    }

    // What the additive edge adds.
    fn plus_length(&self, lengths: &[usize], edge: Edge) -> usize
        requires inside { edge.target ≤ length (entries_of self.now) }
        requires coded { (model_of self.now).coded edge.weight ≡ true }
        requires known { edge.target < length lengths.now }
        ensures { Measured self.now lengths.now edge.target → result ≡ clipped (length (plus_text_of self.now edge)) }
    {
        if edge.weight.is_zero() {
            return 0;
        }
        let f = Reference {
            weight: edge.weight,
            entry: edge.target,
        };
        self.reference_length(lengths, f).saturating_add(1)
    }

    // The length of an entry's text.
    fn entry_length(&self, lengths: &[usize], n: usize) -> usize
        requires some { 1 ≤ n }
        requires inside { n ≤ length (entries_of self.now) }
        requires known { length lengths.now ≡ n }
        ensures { Measured self.now lengths.now (n - 1) → result ≡ clipped (length (entry_text_of self.now n)) }
    {
        let e = self.store.entries[n - 1];
        let times = self.times_length(lengths, e.multiplicative);
        let plus = self.plus_length(lengths, e.additive);
        times.saturating_add(plus).saturating_add(1)
    }

    // The length of a reference's line, by one pass over the entries.
    pub(crate) fn line_length(&self, f: Reference) -> usize
        requires inside { f.entry ≤ length (entries_of self.now) }
        requires coded { (model_of self.now).coded f.weight ≡ true }
        ensures { result ≡ clipped (length (line_of self.now f)) }
    {
        let mut lengths: ArrayVec<usize, MOST_NUMBERS> = ArrayVec::new();
        lengths.push(0);
        for n in 1..f.entry + 1 {
            let length = self.entry_length(lengths.as_slice(), n);
            lengths.push(length);
        }
        self.reference_length(lengths.as_slice(), f)
    }
}
