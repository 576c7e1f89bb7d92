// What printed lines spell. Each function's contract is a theorem, for every domain; the code does nothing.
#![tactic(auto)]

pub mod tables;

ghost use Rattle.printing.specs.Theorems.{LinesSpell, LinesTell};

use domain::domain::Domain;

// A line spells a formula, and the formula means the polynomial of the reference.
pub fn lines_spell<D: Domain>(domain: &D)
    ensures { LinesSpell (D.Domain.model domain.now) }
{}

// Two lines are the same exactly when the polynomials are.
pub fn lines_tell<D: Domain>(domain: &D)
    ensures { LinesTell (D.Domain.model domain.now) }
{}
