//! Trees that are made of what stands at a place of a text's tokens, by the calls that make trees.
ghost use Rattle.std.specs.Prelude.{◌≤◌, length};

use crate::cases::Case;
use crate::shown::put_raw;
use crate::types_shown::{put_pattern, put_type};
use ev_parse::{closings_of, read_item};
use ev_syntax::pattern_reader::read_pattern;
use ev_syntax::pattern_states::PatternPiece;
use ev_syntax::type_reader::read_type;
use ev_syntax::{
    Binder, FormulaForm, Pattern, PatternForm, Piece, Raw, RawType, RawTypeForm, Reader,
};
use ev_terms::{Name, NoMemory};
use std::alloc::Global;

/// Puts `POW(A)` of the type A at a place, and answers the place behind A.
pub(crate) fn put_power_at(
    alloc: Global,
    out: &mut Vec<u8>,
    reader: &Reader<'_>,
    limit: u32,
    at: usize,
) -> Result<Option<usize>, NoMemory>
    requires { at ≤ length reader.now }
{
    let Some((piece, to)) = read_type(reader, alloc, limit, at)? else {
        return Ok(None);
    };
    let Piece::Whole(ty, _) = piece else {
        return Ok(None);
    };
    let power = RawType::new(alloc, RawTypeForm::Pow(ty))?;
    put_type(alloc, out, &power)?;
    Ok(Some(to))
}

fn named(alloc: Global, name: &[u8]) -> Result<Pattern, NoMemory> {
    let name = Name::from_slice(alloc, name)?;
    let written = None;
    Pattern::new(alloc, PatternForm::Bound(Binder { name, written }))
}

/// Puts `p |-> last` of the pattern p at a place, and answers the place behind p.
pub(crate) fn put_pair_at(
    alloc: Global,
    out: &mut Vec<u8>,
    reader: &Reader<'_>,
    limit: u32,
    at: usize,
) -> Result<Option<usize>, NoMemory>
    requires { at ≤ length reader.now }
{
    let Some((piece, to)) = read_pattern(reader, alloc, limit, at)? else {
        return Ok(None);
    };
    let PatternPiece::Whole(pattern, _, _) = piece else {
        return Ok(None);
    };
    let pair = Pattern::new(alloc, PatternForm::Pair(pattern, named(alloc, b"last")?))?;
    put_pattern(alloc, out, &pair)?;
    Ok(Some(to))
}

/// Puts `E~` of the formula E of a sort at a place, and answers the place behind E.
pub(crate) fn put_inverse_at(
    alloc: Global,
    out: &mut Vec<u8>,
    reader: &Reader<'_>,
    case: &Case<'_>,
    at: usize,
) -> Result<Option<usize>, NoMemory>
    requires { at ≤ length reader.now }
{
    let (limit, sort) = (case.limit, case.sort);
    let table = closings_of(reader, alloc)?;
    let Some((piece, to)) = read_item(reader, alloc, limit, table.as_slice(), sort, at)? else {
        return Ok(None);
    };
    let Piece::Whole(raw, _) = piece else {
        return Ok(None);
    };
    let inverse = Raw::new(alloc, FormulaForm::Inverse(raw))?;
    put_raw(alloc, out, &inverse)?;
    Ok(Some(to))
}
