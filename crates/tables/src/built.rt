// A table built by its calls.
use diagram::entry::Reference;
use diagram::table::{Open, Table};
use domain::domain::Domain;
use domain::fault::Fault;
use std::alloc::Global;

// The most entries.
const CAPACITY: usize = 64;

// A table, and references that are worth a look.
#[derive(Drop)]
pub struct Built<D: Domain> {
    pub table: Table<D, Open>,
    pub shown: Vec<Reference>,
}

// (a^2 + 5 a + 6) (b + c) from its letters and numbers, and what comes on the way.
pub fn build<D: Domain + Drop>(heap: Global, domain: D) -> Result<Built<D>, Fault> {
    let mut table = Table::first(heap, domain)?;
    table.make(b"abc", CAPACITY)?;
    let a = table.letter(b'a')?;
    let b = table.letter(b'b')?;
    let c = table.letter(b'c')?;
    let five = table.constant(5)?;
    let six = table.constant(6)?;
    let square = table.product(a, a)?;
    let linear = table.product(five, a)?;
    let quadratic = table.sum(square, linear)?;
    let left = table.sum(quadratic, six)?;
    let right = table.sum(b, c)?;
    let whole = table.product(left, right)?;
    let seven = table.constant(7)?;
    let multiple = table.product(seven, whole)?;
    let nothing = table.difference(multiple, multiple)?;
    let shown = vec![in heap; c, right, left, whole, multiple, nothing]?;
    Ok(Built { table, shown })
}
