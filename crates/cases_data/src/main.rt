//! Cases of the axioms and of datatypes. Each line of the input is a case: a word, and what it is asked of. The program writes what the
//! libraries answer, a line for each case. Lines that begin with `--` it writes as they are.
#![tactic(auto)]

mod axiom_cases;
mod data_cases;
mod fault;
mod formula_cases;
mod writing;

use cases_samples::samples::environment;
use ev_typing::Env;
use fault::Fault;
use std::alloc::Global;
use std::io;

fn answer_of_line(alloc: Global, env: &Env, line: &str) -> Result<String, Fault> {
    let (case, rest) = line.split_once(' ').unwrap_or((line, ""));
    let mut out = String::new(alloc);
    if axiom_cases::answer(alloc, &mut out, env, case, rest)? {
        return Ok(out);
    }
    if data_cases::answer(alloc, &mut out, env, case, rest)? {
        return Ok(out);
    }
    if formula_cases::answer(alloc, &mut out, env, case, rest)? {
        return Ok(out);
    }
    Err(Fault::NoCase)
}

fn write_answer(rt: &(impl Print + AllocGlobal), env: &Env, line: &str) -> io::Result<()> {
    match answer_of_line(rt.alloc(), env, line) {
        Ok(text) => rt.println(text),
        Err(Fault::NoCase) => rt.println("no case"),
        Err(Fault::NoMemory) => Err(io::Error::from(io::ErrorKind::OutOfMemory)),
    }
}

fn main(rt: HostRuntime) -> io::Result<()> {
    let Ok(env) = environment(rt.alloc()) else {
        return Err(io::Error::from(io::ErrorKind::OutOfMemory));
    };
    for line in rt.lines(rt.alloc()) {
        let line = line?;
        if line.as_str().starts_with("--") {
            rt.println(line)?;
        } else {
            write_answer(&rt, &env, line.as_str())?;
        }
    }
    Ok(())
}
