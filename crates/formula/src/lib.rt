// Formula texts, the flows of records that they stand for, and the reader from one to the other.
#![tactic(auto)]

mod class;
mod digits;
mod fields;
mod flow;
pub mod limits;
mod reader;
pub mod record;
mod state;
mod tape;
pub mod text;
pub mod theorems;
