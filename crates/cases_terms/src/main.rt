//! Cases of lists, names, types, terms and forms. Each line of the input is a case: a word, which begins with the group
//! that it is of, and fields with commas between them. The program writes what the libraries answer, a line for each case. Lines that
//! begin with `--` it writes as they are.
#![tactic(auto)]

mod form_cases;
mod list_cases;
mod name_cases;
mod term_cases;
mod type_cases;

use cases_notation::fault::Fault;
use cases_notation::text::Text;
use cases_notation::words::fields_of;
use std::alloc::Global;
use std::io;

/// Writes what the libraries answer.
fn answer(
    alloc: Global,
    out: &mut Text,
    group: &str,
    case: &str,
    fields: &[&str],
) -> Result<(), Fault> {
    match group {
        "list" => list_cases::answer(alloc, out, case, fields),
        "name" => name_cases::answer(alloc, out, case, fields),
        "type" => type_cases::answer(alloc, out, case, fields),
        "term" => term_cases::answer(alloc, out, case, fields),
        "form" => form_cases::answer(alloc, out, case, fields),
        _ => Err(Fault::NoCase),
    }
}

fn answer_of_case(alloc: Global, word: &str, text: &str) -> Result<String, Fault> {
    let (group, case) = word.split_once('-').ok_or(Fault::NoCase)?;
    let fields = fields_of(alloc, text)?;
    let mut out = Text::new(alloc);
    answer(alloc, &mut out, group, case, fields.as_slice())?;
    out.finish()
}

fn answer_of_line(alloc: Global, line: &str) -> Result<String, Fault> {
    match line.split_once(' ') {
        Some((word, text)) => answer_of_case(alloc, word, text),
        None => answer_of_case(alloc, line, ""),
    }
}

fn write_answer(rt: &(impl Print + AllocGlobal), line: &str) -> io::Result<()> {
    match answer_of_line(rt.alloc(), line) {
        Ok(text) => rt.println(text),
        Err(Fault::NoCase) => rt.println("no case"),
        Err(Fault::NoMemory) => Err(io::Error::from(io::ErrorKind::OutOfMemory)),
    }
}

fn main(rt: HostRuntime) -> io::Result<()> {
    for line in rt.lines(rt.alloc()) {
        let line = line?;
        if line.as_str().starts_with("--") {
            rt.println(line)?;
        } else {
            write_answer(&rt, line.as_str())?;
        }
    }
    Ok(())
}
