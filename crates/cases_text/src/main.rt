//! Cases of tokens, types and formulas. Reads cases, one a line, calls the function that each names, and writes a line with what it
//! answers. A line that is empty or begins with `#` is written as it stands.
#![tactic(auto)]

mod answers;
mod cases;
mod made;
mod places;
mod shown;
mod texts;
mod tokens;
mod types_shown;
mod wholes;
mod words;

use answers::answer;
use std::io;
use std::io::{BufRead, BufReader, BufWriter, Write};

fn main(rt: HostRuntime) -> io::Result<()> {
    let alloc = rt.alloc();
    let mut output = BufWriter::new(alloc, io::writer(&rt))?;
    for line in BufReader::new(alloc, rt.reader())?.lines(alloc) {
        let line = line?;
        let told = answer(alloc, line.as_str())?;
        output.write_all(told.as_slice())?;
        output.write_all(b"\n")?;
    }
    output.flush()
}
