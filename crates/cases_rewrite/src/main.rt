//! Cases of places and of matching. Each line of the input is a case: a word, and fields with commas between them. The program writes
//! what the library answers, a line for each case. Lines that begin with `--` it writes as they are.
#![tactic(auto)]

mod large_cases;
mod match_cases;
mod place_cases;
mod words;

use cases_notation::fault::Fault;
use cases_notation::text::Text;
use cases_notation::words::fields_of;
use std::alloc::Global;
use std::io;

/// Writes what the library answers.
fn answer(alloc: Global, out: &mut Text, case: &str, fields: &[&str]) -> Result<(), Fault> {
    match (case, fields) {
        ("match", [counts, pattern, tree]) => {
            match_cases::match_case(alloc, out, *counts, *pattern, *tree)
        }
        ("look", [place, tree]) => place_cases::look(alloc, out, *place, *tree),
        ("replace", [place, tree, new]) => { place_cases::replace(alloc, out, *place, *tree, *new) }
        ("match-comb", [counts]) => large_cases::match_comb(alloc, out, *counts),
        ("replace-comb", [counts]) => large_cases::replace_comb(alloc, out, *counts),
        _ => Err(Fault::NoCase),
    }
}

fn answer_of_line(alloc: Global, line: &str) -> Result<String, Fault> {
    let (case, text) = match line.split_once(' ') {
        Some(parts) => parts,
        None => (line, ""),
    };
    let fields = fields_of(alloc, text)?;
    let mut out = Text::new(alloc);
    answer(alloc, &mut out, case, fields.as_slice())?;
    out.finish()
}

fn write_answer(rt: &(impl Print + AllocGlobal), line: &str) -> io::Result<()> {
    match answer_of_line(rt.alloc(), line) {
        Ok(text) => rt.println(text),
        Err(Fault::NoCase) => rt.println("no case"),
        Err(Fault::NoMemory) => Err(io::Error::from(io::ErrorKind::OutOfMemory)),
    }
}

fn main(rt: HostRuntime) -> io::Result<()> {
    for line in rt.lines(rt.alloc()) {
        let line = line?;
        if line.as_str().starts_with("--") {
            rt.println(line)?;
        } else {
            write_answer(&rt, line.as_str())?;
        }
    }
    Ok(())
}
