//! Answers of texts as tokens, and of what stands at the places of tokens.
ghost use Rattle.std.specs.Prelude.{◌<◌, ◌^◌, length};
ghost use Rattle.std.specs.List.{All};
ghost use Rattle.ev_syntax.specs.Views.{LiesIn};

use crate::cases::Case;
use crate::texts::{put, put_number, separate};
use crate::words::put_mark;
use ev_parse::closings_of;
use ev_syntax::{LexFault, Reader, Token, TokenKind, lex};
use ev_terms::NoMemory;
use std::alloc::Global;

/// `n:x`, `7`, `m:+`
fn put_kind(
    alloc: Global,
    out: &mut Vec<u8>,
    kind: TokenKind,
    name: &[u8],
) -> Result<(), NoMemory> {
    match kind {
        TokenKind::Name => {
            put(out, b"n:")?;
            put(out, name)
        }
        TokenKind::Number(value) => put_number(alloc, out, value),
        TokenKind::Mark(mark) => {
            put(out, b"m:")?;
            put_mark(out, mark)
        }
    }
}

/// `n:x@0-1`
fn put_token(alloc: Global, out: &mut Vec<u8>, text: &[u8], token: &Token) -> Result<(), NoMemory>
    requires { LiesIn text.now token.now }
{
    put_kind(alloc, out, token.kind, token.bytes(text))?;
    put(out, b"@")?;
    put_number(alloc, out, u128::from(token.start))?;
    put(out, b"-")?;
    put_number(alloc, out, u128::from(token.end))
}

/// The tokens, each with the bytes that it takes.
fn put_tokens(
    alloc: Global,
    out: &mut Vec<u8>,
    text: &[u8],
    tokens: &[Token],
) -> Result<(), NoMemory>
    requires { All (LiesIn text.now) tokens.now }
{
    for token in tokens {
        separate(out)?;
        put_token(alloc, out, text, token)?;
    }
    Ok(())
}

/// The bytes of each token.
fn put_bytes(out: &mut Vec<u8>, text: &[u8], tokens: &[Token]) -> Result<(), NoMemory>
    requires { All (LiesIn text.now) tokens.now }
{
    for token in tokens {
        separate(out)?;
        put(out, token.bytes(text))?;
    }
    Ok(())
}

/// What a reader sees at a place: a name with `Reader::name`, a number below 2^32 with `Reader::small_number`.
fn put_seen(
    alloc: Global,
    out: &mut Vec<u8>,
    reader: &Reader<'_>,
    at: usize,
) -> Result<(), NoMemory> {
    match reader.kind(at) {
        Some(TokenKind::Name) => {
            let name = reader.name(alloc, at)?;
            put_kind(alloc, out, TokenKind::Name, name.as_slice())
        }
        Some(TokenKind::Number(_)) => match reader.small_number(at) {
            Some(number) => put_number(alloc, out, u128::from(number)),
            None => put(out, b"large"),
        },
        Some(TokenKind::Mark(mark)) if reader.is_mark(at, mark) => {
            put_kind(alloc, out, TokenKind::Mark(mark), b"")
        }
        Some(TokenKind::Mark(_)) => put(out, b"no mark"),
        None => put(out, b"end"),
    }
}

/// What a reader sees at each place, the place behind the last token too.
fn put_all_seen(alloc: Global, out: &mut Vec<u8>, reader: &Reader<'_>) -> Result<(), NoMemory> {
    for at in 0..reader.len() {
        separate(out)?;
        put_seen(alloc, out, reader, at)?;
    }
    separate(out)?;
    put_seen(alloc, out, reader, reader.len())
}

/// For each place, the last first: the place behind the parenthesis that closes there, or `-`.
fn put_closings(alloc: Global, out: &mut Vec<u8>, reader: &Reader<'_>) -> Result<(), NoMemory> {
    for place in closings_of(reader, alloc)?.as_slice() {
        separate(out)?;
        match place {
            Some(at) => put_number(alloc, out, *at as u128)?,
            None => put(out, b"-")?,
        }
    }
    Ok(())
}

/// What is told of tokens, by the call.
fn put_call(
    alloc: Global,
    out: &mut Vec<u8>,
    call: &str,
    text: &[u8],
    tokens: &[Token],
) -> Result<(), NoMemory>
    requires { All (LiesIn text.now) tokens.now }
{
    let reader = Reader::new(text, tokens);
    match call {
        "bytes" => put_bytes(out, text, tokens),
        "reader" => put_all_seen(alloc, out, &reader),
        "closings_of" => put_closings(alloc, out, &reader),
        _ => put_tokens(alloc, out, text, tokens),
    }
}

/// Whether a call takes tokens alone.
fn takes_tokens(call: &str) -> bool {
    match call {
        "lex" => true,
        "bytes" => true,
        "reader" => true,
        "closings_of" => true,
        _ => false,
    }
}

/// What a call that takes tokens answers.
pub(crate) fn told_of_tokens(
    alloc: Global,
    case: &Case<'_>,
    text: &[u8],
) -> Result<Option<Vec<u8>>, NoMemory>
    requires { length text.now < 2 ^ 32 }
{
    if !takes_tokens(case.call) {
        return Ok(None);
    }
    let mut out = Vec::new(alloc);
    match lex(alloc, text) {
        Ok(tokens) => put_call(alloc, &mut out, case.call, text, tokens.as_slice())?,
        Err(LexFault::BadText) => put(&mut out, b"bad")?,
        Err(LexFault::NumberTooLarge) => put(&mut out, b"large")?,
        Err(LexFault::NoMemory) => return Err(NoMemory),
    }
    if out.is_empty() {
        put(&mut out, b"none")?;
    }
    Ok(Some(out))
}
