// Polynomials over a coefficient domain and their reduced diagrams. Each function's contract is a theorem, for every
// domain and every number k of letters; the code does nothing.
#![tactic(auto)]

ghost use Rattle.std.specs.Prelude.{ℕ};
ghost use Rattle.polynomial.specs.Examples.{Examples};
ghost use Rattle.polynomial.specs.Theorems.{RingLaws, CoefficientLaws, MassLaws, DegreeLaws, Canonical, Existence, LeastEntries, Attained, DiagramLaws, WorkingLaws, GrowthLaws, Room, KnownEntries};

use domain::domain::Domain;

// The polynomials are a commutative ring, and their coefficients are those of sums over all splits.
pub fn polynomial_laws<D: Domain>(domain: &D)
    ensures ring { (k : ℕ) → RingLaws (D.Domain.model domain.now) k }
    ensures coefficients { (k : ℕ) → CoefficientLaws (D.Domain.model domain.now) k }
{}

// Mass of a scaled polynomial, a sum, a product, an entry and a reference.
pub fn mass_laws<D: Domain>(domain: &D)
    ensures { (k : ℕ) → MassLaws (D.Domain.model domain.now) k }
{}

// Degree of an entry, a reference, a product and a sum.
pub fn degree_laws<D: Domain>(domain: &D)
    ensures { (k : ℕ) → DegreeLaws (D.Domain.model domain.now) k }
{}

// A polynomial has at most one lawful reference to a reduced entry.
pub fn canonical<D: Domain>(domain: &D)
    ensures { (k : ℕ) → Canonical (D.Domain.model domain.now) k }
{}

// Each polynomial within the limit has one.
pub fn existence<D: Domain>(domain: &D)
    ensures { (k : ℕ) → Existence (D.Domain.model domain.now) k }
{}

// No rival diagram is smaller than the reduced one, and one is as small.
pub fn least<D: Domain>(domain: &D)
    ensures least { (k : ℕ) → LeastEntries (D.Domain.model domain.now) k }
    ensures attained { (k : ℕ) → Attained (D.Domain.model domain.now) k }
{}

// The diagram of a polynomial is what its reference reaches.
pub fn diagram_laws<D: Domain>(domain: &D)
    ensures { (k : ℕ) → DiagramLaws (D.Domain.model domain.now) k }
{}

// The working polynomials of a product, in each case.
pub fn working_laws<D: Domain>(domain: &D)
    ensures { (k : ℕ) → WorkingLaws (D.Domain.model domain.now) k }
{}

// Growth composes, a refusal half-way is a refusal of the whole, and the new length is determined.
pub fn growth_laws<D: Domain>(domain: &D)
    ensures composes { (capacity : ℕ) → GrowthLaws D.Domain.carrier capacity }
    ensures room { (k : ℕ) → Room (D.Domain.model domain.now) k }
    ensures known { KnownEntries D.Domain.carrier }
{}

// One small example of each definition.
pub fn examples()
    ensures { Examples }
{}
