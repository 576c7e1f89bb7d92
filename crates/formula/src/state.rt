// Where the reader stands in a text.

#[derive(Clone, Copy)]
pub enum State {
    // An operand is to come: after the start, an operator, a sign or an open parenthesis.
    Operand,
    // Inside a number, which is this one so far.
    Number(u32),
    // Past an atom, which an exponent may follow.
    Atom,
    // Past `^`: an exponent is to come.
    Caret,
    // Inside an exponent, which is this one so far.
    Exponent(u32),
    // Past a factor with an exponent.
    Power,
}

// How a term joins the formula before it.
#[derive(Clone, Copy)]
pub enum Sign {
    Plus,
    Minus,
}

// What waits for the operand that is being read, inside one pair of parentheses or outside all. A record's number stands
// for the formula whose last record it is.
#[derive(Clone, Copy, Default)]
pub struct Level {
    // The formula before the term that is being read, and how the term joins it.
    pub sum: Option<(Sign, u16)>,
    // The term before the factor that is being read.
    pub product: Option<u16>,
    // The signs before the operand. More than u16::MAX of them count as so many, which is already more than a flow has records.
    pub negations: u16,
}
