// Coefficient domains: what the coefficients of a polynomial are, and the interface of exact arithmetic on their codes.
#![tactic(auto)]

pub mod arithmetic;
pub mod domain;
pub mod fault;
pub mod field;
pub mod finite;
pub mod number;
