// What a closed table answers of its references.
use diagram::entry::Reference;
use diagram::table::{Closed, Table};
use domain::domain::Domain;
use domain::number::Number;
use std::io;

// The bytes of a line at most.
const MOST_BYTES: usize = 64;

// The line of a reference, how many entries it reaches, and its coefficient at a b.
fn show_reference<D: Domain>(
    rt: &impl Print,
    table: &Table<D, Closed>,
    f: Reference,
) -> io::Result<()> {
    let mut buffer = [0; MOST_BYTES];
    match table.print(f, &mut buffer) {
        Ok(length) => match str::from_utf8(&buffer[..length]) {
            Ok(line) => print!(rt; "{line}")?,
            Err(_) => print!(rt; "no text")?,
        },
        Err(fault) => print!(rt; "{fault}")?,
    }
    match table.count(f) {
        Ok(count) => print!(rt; ", entries {count}")?,
        Err(fault) => print!(rt; ", {fault}")?,
    }
    match table.coefficient(f, &[1, 1, 0]) {
        Ok(code) => println!(rt; ", coefficient {code}"),
        Err(fault) => println!(rt; ", {fault}"),
    }
}

// The references, and one to an entry that is not there.
pub fn show_table<D: Domain>(
    rt: &impl Print,
    table: &Table<D, Closed>,
    shown: &[Reference],
) -> io::Result<()> {
    for f in shown {
        show_reference(rt, table, *f)?;
    }
    let weight = Number::ONE;
    show_reference(rt, table, Reference { weight, entry: 65 })
}
