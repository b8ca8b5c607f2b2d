//! Cases of the base rules. Each line of the input is a case with commas between its fields: the rule's name, its arguments, and
//! sequents with `;` between them, the conclusion last. Types and terms are in the notation of `cases_notation`. The program writes
//! `follows` or `fails` for each, over the environment of `cases_samples`. With `concludes` before the name, it asks whether the only sequent is a conclusion of the rule without
//! premises, and types are not looked at. Lines that begin with `--` it writes as they are.
#![tactic(auto)]

mod follows;
mod reading;
mod rules;

use cases_notation::fault::Fault;
use cases_samples::samples::environment;
use ev_typing::Env;
use follows::{last_follows, only_concludes};
use reading::read_sequents;
use rules::read_rule;
use std::alloc::Global;
use std::io;

/// Whether the case's last sequent follows.
fn answer(
    alloc: Global,
    env: &Env,
    case: &str,
    fields: &[&str],
    text: &str,
) -> Result<bool, Fault> {
    let sequents = read_sequents(alloc, text)?;
    match case.strip_prefix("concludes ") {
        Some(name) => {
            let rule = read_rule(alloc, name, fields)?;
            only_concludes(alloc, env, &rule, &sequents)
        }
        None => last_follows(alloc, env, read_rule(alloc, case, fields)?, sequents),
    }
}

fn answer_of_line(alloc: Global, env: &Env, line: &str) -> Result<bool, Fault> {
    let fields: Vec<&str> = line.split(',').map(|field| field.trim()).collect(alloc)?;
    match fields.as_slice() {
        [case, fields @ .., text] => answer(alloc, env, *case, fields, *text),
        _ => Err(Fault::NoCase),
    }
}

fn write_answer(rt: &(impl Print + AllocGlobal), env: &Env, line: &str) -> io::Result<()> {
    match answer_of_line(rt.alloc(), env, line) {
        Ok(true) => rt.println("follows"),
        Ok(false) => rt.println("fails"),
        Err(Fault::NoCase) => rt.println("no case"),
        Err(Fault::NoMemory) => Err(io::Error::from(io::ErrorKind::OutOfMemory)),
    }
}

fn main(rt: HostRuntime) -> io::Result<()> {
    let Ok(env) = environment(rt.alloc()) else {
        return Err(io::Error::from(io::ErrorKind::OutOfMemory));
    };
    for line in rt.lines(rt.alloc()) {
        let line = line?;
        if line.as_str().starts_with("--") {
            rt.println(line)?;
        } else {
            write_answer(&rt, &env, line.as_str())?;
        }
    }
    Ok(())
}
