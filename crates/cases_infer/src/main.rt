//! Reads cases of inference and printing, one a line, and writes a line for each: what it answers. A line without ` @ ` says where the
//! cases below it stand, and is written as it is.
//!
//! Settings: `env NAME`, `params A B`, `vars x INT; S POW(INT)`, `limits NESTING SIZE DEPTH`. A case is `WORD @ TEXT`, or `WORD TYPE @
//! TEXT` where a type is asked. The words are those of `answers`.
#![tactic(auto)]

mod answers;
mod bares;
mod formulas;
mod notation;
mod refusals;
mod samples;
mod settings;
mod types;

use answers::answer;
use settings::Setting;
use std::io;

fn main(rt: HostRuntime) -> io::Result<()> {
    let alloc = rt.alloc();
    let mut setting = Setting::new(alloc);
    for line in rt.lines(alloc) {
        let line = line?;
        match answer(alloc, &mut setting, line.as_str()) {
            Ok(text) => println!(rt; "{text}")?,
            Err(_) => return Err(io::Error::from(io::ErrorKind::OutOfMemory)),
        }
    }
    Ok(())
}
