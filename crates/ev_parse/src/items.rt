//! Formulas among other tokens.
ghost use Rattle.std.specs.Prelude.{◌≡◌, ◌≤◌, ◌<◌, ◌+◌, ℕ, length, IfOk, Some};
ghost use Rattle.ev_parse.specs.inner.Closings.{IsTable};
ghost use Rattle.ev_parse.specs.inner.Forms.{IsRaw};
ghost use Rattle.ev_syntax.specs.Raw.{Raw as RawTree, RawType as WrittenType, nesting, type_nesting, written};
ghost use Rattle.ev_syntax.specs.inner.Pieces.{IsPiece};
ghost use Rattle.ev_parse.specs.Items.{ItemAnswer};

use crate::endings::ends_at;
use crate::formula_reader::{read_expression, read_predicate};
use crate::states::RawPiece;
use ev_syntax::type_reader::read_type;
use ev_syntax::{FormulaForm, Piece, Raw, RawType, Reader, Sort};
use ev_terms::NoMemory;
use std::alloc::Global;

/// What was read, without what its reader alone needs.
fn plain(piece: RawPiece) -> Piece<Raw>
    ensures { (limit : ℕ) → (raw : RawTree) → IsRaw limit piece raw → IsPiece nesting limit result raw }
{
    match piece {
        RawPiece::Whole(raw, depth) => Piece::Whole(raw, depth),
        RawPiece::Deep(_) => Piece::Deep,
    }
}

/// A type as a raw tree.
fn written_type(alloc: Global, piece: Piece<RawType>) -> Result<Piece<Raw>, NoMemory>
    ensures { (limit : ℕ) → (a : WrittenType) → IsPiece type_nesting limit piece a → IfOk result (λ p. IsPiece nesting limit p (written a)) }
{
    match piece {
        Piece::Whole(a, depth) => {
            let raw = Raw::new(alloc, FormulaForm::Written(a))?;
            Ok(Piece::Whole(raw, depth))
        }
        Piece::Deep => Ok(Piece::Deep),
    }
}

fn predicate_item(
    reader: &Reader<'_>,
    alloc: Global,
    limit: u32,
    table: &[Option<usize>],
    from: usize,
) -> Result<Option<(Piece<Raw>, usize)>, NoMemory>
    requires table { IsTable reader.now table.now }
    requires full { length table.now ≡ length reader.now + 1 }
    requires inside { from ≤ length reader.now }
    ensures { IfOk result (ItemAnswer Sort.Pred limit reader.now from) }
{
    let Some((piece, to)) = read_predicate(reader, alloc, limit, table, from)? else {
        return Ok(None);
    };
    if !ends_at(reader, to) {
        return Ok(None);
    }
    Ok(Some((plain(piece), to)))
}

fn expression_item(
    reader: &Reader<'_>,
    alloc: Global,
    limit: u32,
    table: &[Option<usize>],
    from: usize,
) -> Result<Option<(Piece<Raw>, usize)>, NoMemory>
    requires table { IsTable reader.now table.now }
    requires full { length table.now ≡ length reader.now + 1 }
    requires inside { from ≤ length reader.now }
    ensures { IfOk result (ItemAnswer Sort.Expr limit reader.now from) }
{
    let Some((piece, to)) = read_expression(reader, alloc, limit, table, from)? else {
        return Ok(None);
    };
    if !ends_at(reader, to) {
        return Ok(None);
    }
    Ok(Some((plain(piece), to)))
}

fn type_item(
    reader: &Reader<'_>,
    alloc: Global,
    limit: u32,
    from: usize,
) -> Result<Option<(Piece<Raw>, usize)>, NoMemory>
    requires inside { from ≤ length reader.now }
    ensures { IfOk result (ItemAnswer Sort.TypeText limit reader.now from) }
{
    let Some((piece, to)) = read_type(reader, alloc, limit, from)? else {
        return Ok(None);
    };
    if !ends_at(reader, to) {
        return Ok(None);
    }
    Ok(Some((written_type(alloc, piece)?, to)))
}

/// The formula of a sort that stands at a place and behind which none goes on, and the place behind it. One that nests deeper than the
/// limit is not built (`Piece::Deep`). Linear in the tokens that are read.
pub fn read_item(
    reader: &Reader<'_>,
    alloc: Global,
    limit: u32,
    table: &[Option<usize>],
    sort: Sort,
    from: usize,
) -> Result<Option<(Piece<Raw>, usize)>, NoMemory>
    requires table { IsTable reader.now table.now }
    requires full { length table.now ≡ length reader.now + 1 }
    requires inside { from ≤ length reader.now }
    ensures { IfOk result (ItemAnswer sort limit reader.now from) }
{
    match sort {
        Sort::Pred => predicate_item(reader, alloc, limit, table, from),
        Sort::Expr => expression_item(reader, alloc, limit, table, from),
        Sort::TypeText => type_item(reader, alloc, limit, from),
        Sort::Either => match predicate_item(reader, alloc, limit, table, from)? {
            Some(found) => Ok(Some(found)),
            None => expression_item(reader, alloc, limit, table, from),
        },
    }
}
