// The entries of a table, and the references to them.
use domain::number::Number;

// To an entry by its number, with a weight. Number 0 stands for 1.
#[derive(Clone, Copy, PartialEq, Eq, Debug)]
pub struct Edge {
    pub weight: Number,
    pub target: usize,
}

// An additive edge plus a letter times a multiplicative edge. The letter is its position in the order, 0 being the highest.
#[derive(Clone, Copy, PartialEq, Eq, Debug)]
pub struct Entry {
    pub letter: u8,
    pub additive: Edge,
    pub multiplicative: Edge,
}

// A weight times an entry. It is no `Edge`: a reference is asked whether it is lawful, and neither may pass for the other.
#[derive(Clone, Copy, PartialEq, Eq, Debug)]
pub struct Reference {
    pub weight: Number,
    pub entry: usize,
}

impl Reference {
    pub const ZERO: Reference = Reference {
        weight: Number::ZERO,
        entry: 0,
    };

    pub const ONE: Reference = Reference {
        weight: Number::ONE,
        entry: 0,
    };
}
