//! Answers of texts as types and formulas.
ghost use Rattle.std.specs.Prelude.{◌≤◌, ◌<◌, ◌^◌, length};
ghost use Rattle.std.specs.List.{All};
ghost use Rattle.ev_syntax.specs.Views.{LiesIn};

use crate::cases::Case;
use crate::shown::{put_counted, put_raw};
use crate::texts::{put, put_number};
use crate::types_shown::{put_type, put_type_size};
use ev_parse::{parse_formula, parse_front};
use ev_syntax::{LexFault, ParseFault, Raw, RawType, Tokens, lex, parse_type};
use ev_terms::NoMemory;
use std::alloc::Global;

fn put_fault(out: &mut Vec<u8>, fault: ParseFault) -> Result<(), NoMemory> {
    match fault {
        ParseFault::Syntax => put(out, b"syntax"),
        ParseFault::TooDeep => put(out, b"deep"),
        ParseFault::NoMemory => Err(NoMemory),
    }
}

fn put_type_found(
    alloc: Global,
    out: &mut Vec<u8>,
    counts: bool,
    found: Result<RawType, ParseFault>,
) -> Result<(), NoMemory> {
    match found {
        Ok(ty) if counts => put_type_size(alloc, out, &ty),
        Ok(ty) => put_type(alloc, out, &ty),
        Err(fault) => put_fault(out, fault),
    }
}

fn put_tree(alloc: Global, out: &mut Vec<u8>, counts: bool, raw: &Raw) -> Result<(), NoMemory> {
    if counts {
        put_counted(alloc, out, raw)
    } else {
        put_raw(alloc, out, raw)
    }
}

fn put_formula_found(
    alloc: Global,
    out: &mut Vec<u8>,
    counts: bool,
    found: Result<Raw, ParseFault>,
) -> Result<(), NoMemory> {
    match found {
        Ok(raw) => put_tree(alloc, out, counts, &raw),
        Err(fault) => put_fault(out, fault),
    }
}

/// The tree and the place behind it.
fn put_front_found(
    alloc: Global,
    out: &mut Vec<u8>,
    counts: bool,
    found: Result<(Raw, u32), ParseFault>,
) -> Result<(), NoMemory> {
    match found {
        Ok((raw, to)) => {
            put_tree(alloc, out, counts, &raw)?;
            put(out, b" to ")?;
            put_number(alloc, out, u128::from(to))
        }
        Err(fault) => put_fault(out, fault),
    }
}

fn put_front(
    alloc: Global,
    out: &mut Vec<u8>,
    case: &Case<'_>,
    text: &[u8],
    tokens: &Tokens,
) -> Result<(), NoMemory>
    requires { All (LiesIn text.now) tokens.now }
{
    if tokens.len() > u32::MAX as usize || case.from as usize > tokens.len() {
        return put(out, b"no place");
    }
    let found = parse_front(alloc, text, tokens, case.from, case.sort, case.limit);
    put_front_found(alloc, out, case.counts, found)
}

/// What is told of the tokens, by the call.
fn put_call(
    alloc: Global,
    out: &mut Vec<u8>,
    case: &Case<'_>,
    text: &[u8],
    tokens: &Tokens,
) -> Result<(), NoMemory>
    requires { All (LiesIn text.now) tokens.now }
{
    match case.call {
        "parse_type" => {
            let found = parse_type(alloc, text, tokens, case.limit);
            put_type_found(alloc, out, case.counts, found)
        }
        "parse_formula" => {
            let found = parse_formula(alloc, text, tokens, case.sort, case.limit);
            put_formula_found(alloc, out, case.counts, found)
        }
        _ => put_front(alloc, out, case, text, tokens),
    }
}

fn takes_wholes(call: &str) -> bool {
    match call {
        "parse_type" => true,
        "parse_formula" => true,
        "parse_front" => true,
        _ => false,
    }
}

/// What a call that reads a text as a type or a formula answers.
pub(crate) fn told_whole(
    alloc: Global,
    case: &Case<'_>,
    text: &[u8],
) -> Result<Option<Vec<u8>>, NoMemory>
    requires { length text.now < 2 ^ 32 }
{
    if !takes_wholes(case.call) {
        return Ok(None);
    }
    let mut out = Vec::new(alloc);
    match lex(alloc, text) {
        Ok(tokens) => put_call(alloc, &mut out, case, text, &tokens)?,
        Err(LexFault::NoMemory) => return Err(NoMemory),
        Err(_) => put(&mut out, b"no tokens")?,
    }
    Ok(Some(out))
}
