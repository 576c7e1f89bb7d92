// Reads one formula from standard input and prints the records of its flow, or the refusal.
#![tactic(auto)]

use formula::limits::{MAX_RECORDS, RECORD_SIZE};
use formula::text::read;
use listing::records::Records;
use std::io;
use std::io::Read;

// One line for each record.
fn print_flow(rt: &impl Print, flow: &[u8]) -> io::Result<()> {
    for (place, record) in Records::of(flow).take(MAX_RECORDS).enumerate() {
        match record {
            Ok(record) => println!(rt; "{place} {record}")?,
            Err(fault) => return rt.println(fault),
        }
    }
    Ok(())
}

fn main(rt: HostRuntime) -> io::Result<()> {
    let mut text = Vec::new(rt.alloc());
    rt.stdin().read_to_end(&mut text)?;
    let text = text.strip_suffix(b"\n").unwrap_or(&text);
    let mut buffer = [0; MAX_RECORDS * RECORD_SIZE];
    match read(text, &mut buffer) {
        Ok(count) => print_flow(&rt, &buffer[..RECORD_SIZE * count]),
        Err(fault) => rt.println(fault),
    }
}
