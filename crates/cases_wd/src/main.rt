//! Reads cases of well-definedness, one a line, and writes a line for each. A line with another first word than the cases below have is
//! a remark, and is written as it is.
//!
//! - `env NAME`: the environment of the cases behind it, `none`, `lists` or `pick`.
//! - `wd FORMULA`: the canonical text of the condition of the formula.
//! - `nest COUNT @ BEFORE @ FORMULA @ BEHIND`: the size and the depth of the condition of FORMULA with BEFORE so many times before it and
//!   BEHIND as often behind it. What stands behind a further `@` ends the text.
//! - `double COUNT @ FIRST @ FORMULA`: those of the condition of `FIRST or P`, where P is the formula, joined so many times with itself by
//!   `&`.
//! - `far NUMBER`: whether the condition of `!u. !w. 1 / x = 1` is `not x = 0`, for the variable x of that number outside.
#![tactic(auto)]

mod answers;
mod formulas;
mod made;
mod refusals;
mod samples;

use answers::answer;
use samples::Setting;
use std::io;

fn main(rt: HostRuntime) -> io::Result<()> {
    let alloc = rt.alloc();
    let mut setting = match Setting::new(alloc) {
        Ok(setting) => setting,
        Err(_) => return Err(io::Error::from(io::ErrorKind::OutOfMemory)),
    };
    for line in rt.lines(alloc) {
        let line = line?;
        match answer(alloc, &mut setting, line.as_str()) {
            Ok(text) => println!(rt; "{text}")?,
            Err(_) => return Err(io::Error::from(io::ErrorKind::OutOfMemory)),
        }
    }
    Ok(())
}
