//! Cases of operators and of the type parameters of elements. Each line of the input is a case: the name of a call, and what it is
//! asked of, over the environment of `samples` and of the lines that declare operators. Types and terms are in the notation of `cases_notation`. The program writes what the
//! libraries answer, a line for each case. Lines that begin with `--` it writes as they are.
#![tactic(auto)]

mod admission_cases;
mod declaring;
mod entry_cases;
mod param_cases;
mod reading;
mod samples;
mod unfold_cases;

use cases_notation::fault::Fault;
use cases_notation::text::Text;
use ev_typing::Env;
use samples::environment;
use std::alloc::Global;
use std::io;

fn write_case(
    alloc: Global,
    out: &mut Text,
    env: &Env,
    case: &str,
    rest: &str,
) -> Result<(), Fault> {
    if unfold_cases::answer(alloc, out, env, case, rest)? {
        return Ok(());
    }
    if admission_cases::answer(alloc, out, env, case, rest)? {
        return Ok(());
    }
    if entry_cases::answer(alloc, out, env, case, rest)? {
        return Ok(());
    }
    if param_cases::answer(alloc, out, case, rest)? {
        return Ok(());
    }
    Err(Fault::NoCase)
}

fn write_line(
    alloc: Global,
    out: &mut Text,
    env: &mut Env,
    case: &str,
    rest: &str,
) -> Result<(), Fault> {
    if case == "declare" {
        return declaring::answer(alloc, out, env, rest);
    }
    write_case(alloc, out, env, case, rest)
}

fn answer_of_line(alloc: Global, env: &mut Env, line: &str) -> Result<String, Fault> {
    let (case, rest) = line.split_once(' ').ok_or(Fault::NoCase)?;
    let mut out = Text::new(alloc);
    write_line(alloc, &mut out, env, case, rest)?;
    out.finish()
}

fn write_answer(rt: &(impl Print + AllocGlobal), env: &mut Env, line: &str) -> io::Result<()> {
    match answer_of_line(rt.alloc(), env, line) {
        Ok(text) => rt.println(text),
        Err(Fault::NoCase) => rt.println("no case"),
        Err(Fault::NoMemory) => Err(io::Error::from(io::ErrorKind::OutOfMemory)),
    }
}

fn main(rt: HostRuntime) -> io::Result<()> {
    let Ok(mut env) = environment(rt.alloc()) else {
        return Err(io::Error::from(io::ErrorKind::OutOfMemory));
    };
    for line in rt.lines(rt.alloc()) {
        let line = line?;
        if line.as_str().starts_with("--") {
            rt.println(line)?;
        } else {
            write_answer(&rt, &mut env, line.as_str())?;
        }
    }
    Ok(())
}
