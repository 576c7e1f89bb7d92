// The unique table of two-edge nodes over any coefficient domain.
#![tactic(auto)]

pub mod coefficient;
pub mod compare;
pub mod comparison;
pub mod constant;
pub mod count;
pub mod degree;
pub mod entry;
pub mod filling;
pub mod find;
pub mod lawful;
pub mod length;
pub mod letter;
pub mod letters;
pub mod making;
pub mod mass;
pub mod node;
pub mod order;
pub mod print;
pub mod product;
pub mod store;
pub mod sum;
pub mod table;
