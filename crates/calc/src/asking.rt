// What a line asks.
use domain::number::Number;

#[derive(Clone, Copy, PartialEq, Eq, Debug)]
pub enum DomainName {
    Whole,
    Residue,
    Byte,
}

#[derive(Clone, Copy, PartialEq, Eq, Debug)]
pub enum Query {
    Code(Number),
    Limit,
    Size(Number),
    Negation(Number),
    Sum(Number, Number),
    Product(Number, Number),
    Factor(Number, Number),
    Inverse(Number),
}

// A query, and the domain that it is put to.
#[derive(Clone, Copy, PartialEq, Eq, Debug)]
pub struct Question {
    pub domain: DomainName,
    pub query: Query,
}
