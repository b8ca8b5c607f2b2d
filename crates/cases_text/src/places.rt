//! Answers of what stands at a place of a text's tokens: it, or `deep` where it nests too deeply, and the place behind it.
ghost use Rattle.std.specs.Prelude.{◌≤◌, ◌<◌, ◌^◌, length};
ghost use Rattle.std.specs.List.{All};
ghost use Rattle.ev_syntax.specs.Views.{LiesIn};

use crate::cases::Case;
use crate::made::{put_inverse_at, put_pair_at, put_power_at};
use crate::shown::put_raw;
use crate::texts::{put, put_number};
use crate::types_shown::{put_binder, put_binders, put_pattern, put_type};
use ev_parse::{closings_of, read_item};
use ev_syntax::binder_reader::{read_binder, read_binders};
use ev_syntax::pattern_reader::read_pattern;
use ev_syntax::pattern_states::PatternPiece;
use ev_syntax::type_reader::read_type;
use ev_syntax::{Binder, Binders, LexFault, Piece, Raw, RawType, Reader, Token, lex};
use ev_terms::NoMemory;
use std::alloc::Global;

fn put_type_piece(
    alloc: Global,
    out: &mut Vec<u8>,
    piece: &Piece<RawType>,
) -> Result<(), NoMemory> {
    match piece {
        Piece::Whole(ty, _) => put_type(alloc, out, ty),
        Piece::Deep => put(out, b"deep"),
    }
}

fn put_binder_piece(
    alloc: Global,
    out: &mut Vec<u8>,
    piece: &Piece<Binder>,
) -> Result<(), NoMemory> {
    match piece {
        Piece::Whole(binder, _) => put_binder(alloc, out, binder),
        Piece::Deep => put(out, b"deep"),
    }
}

fn put_binders_piece(
    alloc: Global,
    out: &mut Vec<u8>,
    piece: &Piece<Binders>,
) -> Result<(), NoMemory> {
    match piece {
        Piece::Whole(binders, _) => {
            put(out, b"bind")?;
            put_binders(alloc, out, binders.as_slice())
        }
        Piece::Deep => put(out, b"deep"),
    }
}

fn put_pattern_piece(
    alloc: Global,
    out: &mut Vec<u8>,
    piece: &PatternPiece,
) -> Result<(), NoMemory> {
    match piece {
        PatternPiece::Whole(pattern, _, _) => put_pattern(alloc, out, pattern),
        PatternPiece::Deep => put(out, b"deep"),
    }
}

fn put_item_piece(alloc: Global, out: &mut Vec<u8>, piece: &Piece<Raw>) -> Result<(), NoMemory> {
    match piece {
        Piece::Whole(raw, _) => put_raw(alloc, out, raw),
        Piece::Deep => put(out, b"deep"),
    }
}

/// Puts the type at a place, and answers the place behind it.
fn put_type_at(
    alloc: Global,
    out: &mut Vec<u8>,
    reader: &Reader<'_>,
    limit: u32,
    at: usize,
) -> Result<Option<usize>, NoMemory>
    requires { at ≤ length reader.now }
{
    let Some((piece, to)) = read_type(reader, alloc, limit, at)? else {
        return Ok(None);
    };
    put_type_piece(alloc, out, &piece)?;
    Ok(Some(to))
}

fn put_binder_at(
    alloc: Global,
    out: &mut Vec<u8>,
    reader: &Reader<'_>,
    limit: u32,
    at: usize,
) -> Result<Option<usize>, NoMemory> {
    let Some((piece, to)) = read_binder(reader, alloc, limit, at)? else {
        return Ok(None);
    };
    put_binder_piece(alloc, out, &piece)?;
    Ok(Some(to))
}

fn put_binders_at(
    alloc: Global,
    out: &mut Vec<u8>,
    reader: &Reader<'_>,
    limit: u32,
    at: usize,
) -> Result<Option<usize>, NoMemory> {
    let Some((piece, to)) = read_binders(reader, alloc, limit, at)? else {
        return Ok(None);
    };
    put_binders_piece(alloc, out, &piece)?;
    Ok(Some(to))
}

fn put_pattern_at(
    alloc: Global,
    out: &mut Vec<u8>,
    reader: &Reader<'_>,
    limit: u32,
    at: usize,
) -> Result<Option<usize>, NoMemory>
    requires { at ≤ length reader.now }
{
    let Some((piece, to)) = read_pattern(reader, alloc, limit, at)? else {
        return Ok(None);
    };
    put_pattern_piece(alloc, out, &piece)?;
    Ok(Some(to))
}

fn put_item_at(
    alloc: Global,
    out: &mut Vec<u8>,
    reader: &Reader<'_>,
    case: &Case<'_>,
    at: usize,
) -> Result<Option<usize>, NoMemory>
    requires { at ≤ length reader.now }
{
    let (limit, sort) = (case.limit, case.sort);
    let table = closings_of(reader, alloc)?;
    let Some((piece, to)) = read_item(reader, alloc, limit, table.as_slice(), sort, at)? else {
        return Ok(None);
    };
    put_item_piece(alloc, out, &piece)?;
    Ok(Some(to))
}

/// What is put, by the call.
fn put_call(
    alloc: Global,
    out: &mut Vec<u8>,
    reader: &Reader<'_>,
    case: &Case<'_>,
    at: usize,
) -> Result<Option<usize>, NoMemory>
    requires { at ≤ length reader.now }
{
    match case.call {
        "read_type" => put_type_at(alloc, out, reader, case.limit, at),
        "read_binder" => put_binder_at(alloc, out, reader, case.limit, at),
        "read_binders" => put_binders_at(alloc, out, reader, case.limit, at),
        "read_pattern" => put_pattern_at(alloc, out, reader, case.limit, at),
        "read_item" => put_item_at(alloc, out, reader, case, at),
        "new_type" => put_power_at(alloc, out, reader, case.limit, at),
        "new_pattern" => put_pair_at(alloc, out, reader, case.limit, at),
        "new_formula" => put_inverse_at(alloc, out, reader, case, at),
        _ => Ok(None),
    }
}

/// Puts what is found, and the place behind it.
fn put_found(
    alloc: Global,
    out: &mut Vec<u8>,
    case: &Case<'_>,
    text: &[u8],
    tokens: &[Token],
) -> Result<(), NoMemory>
    requires { All (LiesIn text.now) tokens.now }
{
    let reader = Reader::new(text, tokens);
    let at = case.from as usize;
    if at > reader.len() {
        return put(out, b"no place");
    }
    match put_call(alloc, out, &reader, case, at)? {
        Some(to) => {
            put(out, b" to ")?;
            put_number(alloc, out, to as u128)
        }
        None => put(out, b"none"),
    }
}

fn reads(call: &str) -> bool {
    match call {
        "read_type" => true,
        "read_binder" => true,
        "read_binders" => true,
        "read_pattern" => true,
        "read_item" => true,
        "new_type" => true,
        "new_pattern" => true,
        "new_formula" => true,
        _ => false,
    }
}

/// What a call that reads what stands at a place answers.
pub(crate) fn told_at_place(
    alloc: Global,
    case: &Case<'_>,
    text: &[u8],
) -> Result<Option<Vec<u8>>, NoMemory>
    requires { length text.now < 2 ^ 32 }
{
    if !reads(case.call) {
        return Ok(None);
    }
    let mut out = Vec::new(alloc);
    match lex(alloc, text) {
        Ok(tokens) => put_found(alloc, &mut out, case, text, tokens.as_slice())?,
        Err(LexFault::NoMemory) => return Err(NoMemory),
        Err(_) => put(&mut out, b"no tokens")?,
    }
    Ok(Some(out))
}
