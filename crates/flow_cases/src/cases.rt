// One case: a text, and the bytes of the buffer.
use formula::limits::RECORD_SIZE;
use formula::text::read;
use listing::records::Records;
use std::io;

const MOST_ROOM: usize = 8192;

// The longest flow that is printed whole.
const SHORT: usize = 12;

// What the buffer holds before the call: no record ends in it.
const MARK: u8 = 0xa5;

// The bytes at the end of the buffer that are as they were.
fn kept(buffer: &[u8]) -> usize {
    buffer
        .iter()
        .rev()
        .take_while(|byte| **byte == MARK)
        .count()
}

fn print_flow(rt: &impl Print, flow: &[u8]) -> io::Result<()> {
    let count = flow.len() / RECORD_SIZE;
    print!(rt; "records {count}")?;
    if count > SHORT {
        return Ok(());
    }
    for record in Records::of(flow) {
        match record {
            Ok(record) => print!(rt; ", {record}")?,
            Err(fault) => print!(rt; ", {fault}")?,
        }
    }
    Ok(())
}

pub fn print_case(rt: &impl Print, room: usize, text: &[u8]) -> io::Result<()> {
    let mut bytes = [MARK; MOST_ROOM];
    let buffer = &mut bytes[..room.min(MOST_ROOM)];
    match read(text, buffer) {
        Ok(count) => print_flow(rt, &buffer[..RECORD_SIZE * count])?,
        Err(fault) => rt.print(fault)?,
    }
    let left = kept(buffer);
    println!(rt; "; {left} bytes left")
}
