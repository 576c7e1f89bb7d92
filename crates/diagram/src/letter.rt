// Letters as polynomials.
ghost use Rattle.std.specs.Prelude.{◌≡◌, MatchResult};
ghost use Rattle.diagram.specs.Terms.{SameFrame, Moved, Named, BadLetter, Kept, Shallow, Lettered, NoLetter};

use crate::entry::Reference;
use crate::table::{Open, Table};
use domain::domain::Domain;
use domain::fault::Fault;

impl<D: Domain> Table<D, Open> {
    // The letter alone; its entry is added if it is missing.
    pub fn letter(&mut self, byte: u8) -> Result<Reference, Fault>
        ensures frame { SameFrame self.old self.new }
        ensures every { MatchResult result (λ _. Named self.old byte × Moved self.old self.new) (λ e. (self.new ≡ self.old) × BadLetter self.old byte e) }
        ensures kept { Kept self.old → MatchResult result (Lettered self.old self.new byte) (NoLetter self.old byte) }
        ensures shallow { Shallow self.old → Shallow self.new }
    {
        let place = self.order.place(byte)?;
        self.node(place, Reference::ZERO, Reference::ONE)
    }
}
