// Builds a table over each domain by sums and products, closes it, and prints what its references stand for.
#![tactic(auto)]

mod built;
mod shown;

use built::{Built, build};
use byte::Bytes;
use domain::domain::Domain;
use domain::finite::Finite;
use residue::Residues;
use shown::show_table;
use std::io;
use whole::Whole;

// One domain's table, by its name.
fn show<D: Domain + Drop>(rt: &HostRuntime, name: &str, domain: D) -> io::Result<()> {
    println!(rt; "{name}")?;
    match build(rt.alloc(), domain) {
        Ok(Built { table, shown }) => show_table(rt, &table.close(), &shown),
        Err(fault) => rt.println(fault),
    }
}

fn main(rt: HostRuntime) -> io::Result<()> {
    show(&rt, "whole", Whole)?;
    show(
        &rt,
        "residue",
        Finite {
            arithmetic: Residues,
        },
    )?;
    show(&rt, "byte", Finite { arithmetic: Bytes })
}
