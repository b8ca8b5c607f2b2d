//! Cases of lines by derived rules. Each line of the input is a case with commas between its fields: a call; the types of a context;
//! equations, each a type and the terms on its two sides, with `;` between them; and for `congruence_of` a body, whose innermost variables
//! stand for the sides, the outermost for those of the first equation. Types and terms are in the notation of `cases_notation`. The
//! equations are the hypotheses, so that each premise is a line by `Hyp`. The program has the kernel look at each line of the derivation,
//! and writes how many lines there are, or which is the first that does not follow, and the goal of the answered line. Lines that begin
//! with `--` it writes as they are.
#![tactic(auto)]

mod case;
mod congruences;
mod equations;
mod following;
mod premises;

use cases_notation::fault::Fault;
use cases_notation::text::Text;
use cases_notation::words::fields_of;
use cases_notation::writing::write_tree;
use congruences::derive;
use ev_congruence::Derivation;
use following::{failing, goal_of};
use std::alloc::Global;
use std::io;

fn answer(alloc: Global, line: &str) -> Result<String, Fault> {
    let fields = fields_of(alloc, line)?;
    let mut lines = Derivation::new(alloc);
    let Some(number) = derive(alloc, fields.as_slice(), &mut lines)? else {
        return Err(Fault::NoCase);
    };
    let mut text = Text::new(alloc);
    match failing(alloc, &lines)? {
        None => text.named("lines", lines.len() as u64),
        Some(failing) => text.named("fails", failing as u64),
    }
    text.label("goal");
    match goal_of(&lines, number) {
        Some(goal) => write_tree(alloc, &mut text, goal),
        None => text.word("none"),
    }
    text.finish()
}

fn write_answer(rt: &(impl Print + AllocGlobal), line: &str) -> io::Result<()> {
    match answer(rt.alloc(), line) {
        Ok(text) => rt.println(text),
        Err(Fault::NoCase) => rt.println("no case"),
        Err(Fault::NoMemory) => Err(io::Error::from(io::ErrorKind::OutOfMemory)),
    }
}

fn main(rt: HostRuntime) -> io::Result<()> {
    for line in rt.lines(rt.alloc()) {
        let line = line?;
        if line.as_str().starts_with("--") {
            rt.println(line)?;
        } else {
            write_answer(&rt, line.as_str())?;
        }
    }
    Ok(())
}
