// Lines that tables print.
ghost use Rattle.std.specs.Prelude.{◌≡◌, ◌↔◌};
ghost use Rattle.diagram.specs.Terms.{Kept, Shallow, Lawful, line_of};
ghost use Rattle.printing.specs.Printed.{LineSpells, Alike, SamePolynomial};

use diagram::entry::Reference;
use diagram::table::{Closed, Table};
use domain::domain::Domain;

// The line that a table prints of a lawful reference spells a formula, and the formula means its polynomial.
pub fn printed_spells<D: Domain>(table: &Table<D, Closed>, f: Reference)
    ensures { Kept table.now → Shallow table.now → Lawful table.now f → LineSpells table.now f }
{}

// Two tables of one domain and order print the same line exactly where the polynomials are the same.
pub fn printed_tells<D: Domain>(
    table: &Table<D, Closed>,
    f: Reference,
    other: &Table<D, Closed>,
    g: Reference,
)
    ensures { Alike table.now other.now → Kept table.now → Kept other.now → Shallow table.now → Shallow other.now
        → Lawful table.now f → Lawful other.now g → (line_of table.now f ≡ line_of other.now g) ↔ SamePolynomial table.now f other.now g }
{}
