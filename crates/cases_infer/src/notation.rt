//! Terms from short texts, each symbol behind its children, with blanks between. `x0` is the variable 0 and `0` a literal. A symbol is
//! the number of a base symbol or a name, the number of its children, and its type arguments, one letter each, as `9.2.I` for `=`. `I`
//! and `B` are INT and BOOL.
use crate::refusals::Refusal;
use ev_terms::{Name, NoMemory, Sym, Tree, Trees, Ty, Tys, make_lit, make_node, make_var};
use std::alloc::Global;

/// The bound of literals.
const LITERALS: u128 = 1 << 127;

fn sym_of(alloc: Global, sign: &str) -> Result<Sym, NoMemory> {
    match sign.parse::<u16>() {
        Ok(row) => Ok(Sym::Base(row)),
        Err(_) => Ok(Sym::User(Name::from_slice(alloc, sign.as_bytes())?)),
    }
}

fn types_of(alloc: Global, letters: &str) -> Result<Tys, NoMemory> {
    let mut types = Tys::new(alloc);
    for letter in letters.as_bytes() {
        let ty = if *letter == b'B' { Ty::Bool } else { Ty::Int };
        types.push(alloc, ty)?;
    }
    Ok(types)
}

/// The last terms of the stack.
fn taken(alloc: Global, stack: &mut Vec<Tree>, count: usize) -> Result<Trees, Refusal> {
    if count > stack.len() {
        return Err(Refusal::Case);
    }
    Ok(Trees::from_vec(stack.split_off(stack.len() - count)?))
}

fn node_of(
    alloc: Global,
    stack: &mut Vec<Tree>,
    sign: &str,
    behind: &str,
) -> Result<Tree, Refusal> {
    let (count, letters) = behind.split_once('.').unwrap_or((behind, ""));
    let Ok(count) = count.parse::<usize>() else {
        return Err(Refusal::Case);
    };
    let children = taken(alloc, stack, count)?;
    let sym = sym_of(alloc, sign)?;
    Ok(make_node(alloc, sym, types_of(alloc, letters)?, children)?)
}

fn leaf_of(alloc: Global, token: &str) -> Result<Tree, Refusal> {
    if let Some(number) = token.strip_prefix('x') {
        return match number.parse::<u32>() {
            Ok(i) => Ok(make_var(alloc, i)?),
            Err(_) => Err(Refusal::Case),
        };
    }
    match token.parse::<u128>() {
        Ok(n) if n < LITERALS => Ok(make_lit(alloc, n)?),
        _ => Err(Refusal::Case),
    }
}

/// The term that a text is.
pub fn term(alloc: Global, text: &str) -> Result<Tree, Refusal> {
    let mut stack = Vec::new(alloc);
    for token in text.split_whitespace() {
        let tree = match token.split_once('.') {
            Some((sign, behind)) => node_of(alloc, &mut stack, sign, behind)?,
            None => leaf_of(alloc, token)?,
        };
        stack.push(tree)?;
    }
    match stack.pop() {
        Some(tree) => Ok(tree),
        None => Err(Refusal::Case),
    }
}
