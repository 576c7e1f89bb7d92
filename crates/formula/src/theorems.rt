// What holds of all texts and formulas. Each call does nothing: its contract is the theorem.
ghost use Rattle.formula.specs.Theorems.{SpelledOnce, AnsweredOnce, WellFormed, FlowMeans};

use domain::domain::Domain;

// A text spells at most one formula.
pub fn spelled_once()
    ensures { SpelledOnce }
{}

// The contract of `text::read` leaves one answer for each text and buffer, and one buffer behind it.
pub fn answered_once()
    ensures { AnsweredOnce }
{}

// A formula that is spelled has a record, and each of its records may stand at its place.
pub fn well_formed()
    ensures { WellFormed }
{}

// The flow of a formula that is spelled has the formula's meaning as its value, in the arithmetic of each domain.
pub fn flow_means<D: Domain>(domain: &D)
    ensures { FlowMeans (D.model domain.now).ring }
{}
