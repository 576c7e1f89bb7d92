// Printing a reference.
ghost use Rattle.std.specs.Prelude.{◌≡◌, ◌+◌, ◌≤◌, true, length, codes, MatchResult};
ghost use Rattle.std.specs.Fmt.{signed_decimal};
ghost use Rattle.diagram.specs.Printing.{Puts};
ghost use Rattle.diagram.specs.Terms.{model_of, entries_of, line_of, entry_text_of, times_text_of, plus_text_of, Printed, BadPrinting};

use crate::entry::{Edge, Reference};
use crate::table::{Closed, Table};
use domain::domain::Domain;
use domain::fault::Fault;
use domain::number::Number;
use itoa::Buffer;

// Puts a text into a buffer at a place, and answers the place behind it.
fn put(out: &mut [u8], at: usize, text: &[u8]) -> usize
    requires { at + length text.now ≤ length out.old }
    ensures { Puts out.old out.new at text.now result }
{
    let end = at + text.len();
    out[at..end].copy_from_slice(text);
    end
}

// The same, of a number in decimal.
fn put_number(out: &mut [u8], at: usize, a: Number) -> usize
    requires { at + length (signed_decimal a.int) ≤ length out.old }
    ensures { Puts out.old out.new at (signed_decimal a.int) result }
{
    let mut digits = Buffer::new();
    put(out, at, digits.format(a.int).as_bytes())
}

impl<D: Domain> Table<D, Closed> {
    // The line of a reference.
    #[cycle(put)]
    fn put_reference(&self, out: &mut [u8], at: usize, f: Reference) -> usize
        requires inside { f.entry ≤ length (entries_of self.now) }
        requires coded { (model_of self.now).coded f.weight ≡ true }
        requires room { at + length (line_of self.now f) ≤ length out.old }
        ensures { Puts out.old out.new at (line_of self.now f) result }
    {
        if f.entry == 0 {
            return put_number(out, at, f.weight);
        }
        if f.weight == Number::ONE {
            return self.put_entry(out, at, f.entry);
        }
        let at = put_number(out, at, f.weight);
        let at = put(out, at, b"*(");
        let at = self.put_entry(out, at, f.entry);
        put(out, at, b")")
    }

    // An entry other than 1: its letter and what its edges add.
    #[cycle(put)]
    fn put_entry(&self, out: &mut [u8], at: usize, n: usize) -> usize
        requires some { 1 ≤ n }
        requires inside { n ≤ length (entries_of self.now) }
        requires room { at + length (entry_text_of self.now n) ≤ length out.old }
        ensures { Puts out.old out.new at (entry_text_of self.now n) result }
    {
        let e = self.store.entries[n - 1];
        let at = put(out, at, &[self.order.letter(e.letter)]);
        let at = self.put_times(out, at, e.multiplicative);
        self.put_plus(out, at, e.additive)
    }

    // The multiplicative edge as a factor, unless it leaves the letter alone.
    #[cycle(put)]
    fn put_times(&self, out: &mut [u8], at: usize, edge: Edge) -> usize
        requires inside { edge.target ≤ length (entries_of self.now) }
        requires coded { (model_of self.now).coded edge.weight ≡ true }
        requires room { at + length (times_text_of self.now edge) ≤ length out.old }
        ensures { Puts out.old out.new at (times_text_of self.now edge) result }
    {
        if edge.weight == Number::ONE && edge.target == 0 {
            return at;
        }
        let at = put(out, at, b"*(");
        let at = self.put_reference(
            out,
            at,
            Reference {
                weight: edge.weight,
                entry: edge.target,
            },
        );
        put(out, at, b")")
    }

    // The additive edge as a summand, unless it is zero.
    #[cycle(put)]
    fn put_plus(&self, out: &mut [u8], at: usize, edge: Edge) -> usize
        requires inside { edge.target ≤ length (entries_of self.now) }
        requires coded { (model_of self.now).coded edge.weight ≡ true }
        requires room { at + length (plus_text_of self.now edge) ≤ length out.old }
        ensures { Puts out.old out.new at (plus_text_of self.now edge) result }
    {
        if edge.weight.is_zero() {
            return at;
        }
        let at = put(out, at, b"+");
        self.put_reference(
            out,
            at,
            Reference {
                weight: edge.weight,
                entry: edge.target,
            },
        )
    }

    // Writes the line of a reference over the first bytes of a buffer, and answers its length.
    pub fn print(&self, f: Reference, buffer: &mut [u8]) -> Result<usize, Fault>
        ensures { MatchResult result (Printed self.now f buffer.old buffer.new) (λ e. (buffer.new ≡ buffer.old) × BadPrinting self.now f buffer.old e) }
    {
        self.lawful(f)?;
        let room = buffer.len();
        if self.line_length(f) > room {
            return Err(Fault::NoRoom { room });
        }
        Ok(self.put_reference(buffer, 0, f))
    }
}
