// Prints what the reader answers for each line of standard input.
//
// A line is `ROOM:TEXT`: the bytes of the buffer, at most 8,192, and the text. The answer is the number of records and,
// of a short flow, the records, or the refusal with its place; and then how many bytes at the buffer's end are as they were.
#![tactic(auto)]

mod cases;

use cases::print_case;
use std::io;
use std::io::{BufRead, BufReader};

fn main(rt: HostRuntime) -> io::Result<()> {
    for line in BufReader::new(rt.alloc(), rt.stdin())?.lines(rt.alloc()) {
        let line = line?;
        if let Some((room, text)) = line.split_once(':') {
            print_case(&rt, room.parse::<usize>().unwrap_or(0), text.as_bytes())?;
        }
    }
    Ok(())
}
