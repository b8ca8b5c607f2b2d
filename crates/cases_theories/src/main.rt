//! Reads cases of theory texts and of imports, one a line, and writes a line for each: what it answers. A line without ` @ ` is written as
//! it is. A case is `WORD @ TEXT`; the words are those of `answers`.
#![tactic(auto)]

mod answers;
mod elements;
mod graphs;
mod parts;
mod sizes;
mod theories;

use answers::answer;
use std::io;

fn main(rt: HostRuntime) -> io::Result<()> {
    let alloc = rt.alloc();
    for line in rt.lines(alloc) {
        let line = line?;
        match answer(alloc, line.as_str()) {
            Ok(text) => println!(rt; "{text}")?,
            Err(_) => return Err(io::Error::from(io::ErrorKind::OutOfMemory)),
        }
    }
    Ok(())
}
