// A calculator over the coefficient domains: one question a line, one answer a line.
#![tactic(auto)]

mod answering;
mod asking;
mod no_answer;
mod reading;

use answering::reply;
use reading::read;
use std::io;
use std::io::{BufRead, BufReader};

fn main(rt: HostRuntime) -> io::Result<()> {
    for line in BufReader::new(rt.alloc(), rt.stdin())?.split(rt.alloc(), b'\n') {
        match reply(read(&line?)) {
            Ok(answer) => println!(rt; "{answer}")?,
            Err(reason) => println!(rt; "{reason}")?,
        }
    }
    Ok(())
}
