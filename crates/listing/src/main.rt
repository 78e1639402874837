// Lists the record on standard input.
#![tactic(auto)]

use program::{Fault, Why};

// Prints the listing of the bytes in one write, and gives why they are refused, where they are.
fn list<'a>(rt: &HostRuntime, bytes: &'a [u8]) -> Result<(), Fault<'a>> {
    let mut out = text::buffer();
    let length = text::listing(bytes, &mut out);
    rt.stdout()
        .write_all(&out[..length])
        .map_err(|_| Fault::Output)?;
    program::open(bytes).map_err(|refusal| Fault::Record(Why { refusal, bytes }))?;
    Ok(())
}

// Reads all of standard input, at most one byte more than a record may have, and lists it.
fn run<'a>(rt: &HostRuntime, room: &'a mut [u8; 4097]) -> Result<(), Fault<'a>> {
    let count = program::read_all(&mut rt.stdin(), room)?;
    list(rt, &room[..count])
}

// Says what went wrong, where something did.
fn main(rt: HostRuntime) {
    let mut room = [0; 4097];
    if let Err(fault) = run(&rt, &mut room) {
        let _ = eprintln!(rt; "listing: {fault}");
    }
}
