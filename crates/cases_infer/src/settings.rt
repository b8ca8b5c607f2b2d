//! Where cases stand: an environment, type parameters, variables and limits.
use crate::refusals::Refusal;
use crate::samples::{env_of_lists, env_of_symbols};
use crate::types::read_type;
use ev_terms::{Extent, Name, Names, NoMemory};
use ev_typing::{Env, Var, Vars};
use std::alloc::Global;

/// Where cases stand.
#[derive(Drop)]
pub struct Setting {
    pub env: Env,
    pub params: Names,
    /// The outermost first.
    pub vars: Vars,
    /// How deep a formula may nest.
    pub nesting: u32,
    /// How large and how deep an annotation may be.
    pub limit: Extent,
}

impl Setting {
    /// Nothing declared, under the limits of theories.
    pub fn new(alloc: Global) -> Setting {
        Setting {
            env: Env::new(alloc),
            params: Names::new(alloc),
            vars: Vars::new(alloc),
            nesting: 200,
            limit: Extent {
                size: 65_536,
                depth: 512,
            },
        }
    }

    fn set_limits(&mut self, text: &str) -> Result<(), Refusal> {
        let mut words = text.split_whitespace();
        self.nesting = u32::try_from(number(words.next())?).unwrap_or(u32::MAX);
        let size = number(words.next())?;
        let depth = number(words.next())?;
        self.limit = Extent { size, depth };
        Ok(())
    }

    /// Reads a setting.
    pub fn set(&mut self, alloc: Global, line: &str) -> Result<(), Refusal> {
        let (word, text) = line.split_once(' ').unwrap_or((line, ""));
        match word {
            "env" => self.env = env_of(alloc, text)?,
            "params" => self.params = names_of(alloc, text)?,
            "vars" => self.vars = vars_of(alloc, &self.params, text)?,
            "limits" => self.set_limits(text)?,
            "" | "--" => {}
            _ => return Err(Refusal::Case),
        }
        Ok(())
    }
}

fn number(word: Option<&str>) -> Result<u64, Refusal> {
    match word.unwrap_or("").parse::<u64>() {
        Ok(number) => Ok(number),
        Err(_) => Err(Refusal::Case),
    }
}

fn env_of(alloc: Global, name: &str) -> Result<Env, Refusal> {
    match name {
        "none" => Ok(Env::new(alloc)),
        "lists" => Ok(env_of_lists(alloc)?),
        "symbols" => Ok(env_of_symbols(alloc)?),
        _ => Err(Refusal::Case),
    }
}

fn names_of(alloc: Global, text: &str) -> Result<Names, NoMemory> {
    let mut names = Names::new(alloc);
    for word in text.split_whitespace() {
        names.push(alloc, Name::from_slice(alloc, word.as_bytes())?)?;
    }
    Ok(names)
}

fn var_of(alloc: Global, params: &Names, text: &str) -> Result<Var, Refusal> {
    let Some((name, written)) = text.trim().split_once(' ') else {
        return Err(Refusal::Case);
    };
    let ty = read_type(alloc, params, written.as_bytes())?;
    let name = Name::from_slice(alloc, name.as_bytes())?;
    Ok(Var { name, ty })
}

/// Variables with their types, `;` between them.
fn vars_of(alloc: Global, params: &Names, text: &str) -> Result<Vars, Refusal> {
    let mut vars = Vars::new(alloc);
    if text.is_empty() {
        return Ok(vars);
    }
    for part in text.split(';') {
        vars.push(alloc, var_of(alloc, params, part)?)?;
    }
    Ok(vars)
}
