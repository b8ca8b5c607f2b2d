//! The reader of bound names.
ghost use Rattle.std.specs.Prelude.{◌≡◌, ◌≤◌, [], ◌∷◌, ◌++◌, ℕ, List, Some, None, length, IfOk};
ghost use Rattle.ev_syntax.specs.declared.kinds.TokenKind.TheVariants.{Name as AName};
ghost use Rattle.ev_syntax.specs.Raw.{RawType as WrittenType, Binder as Bound, type_nesting};
ghost use Rattle.ev_syntax.specs.inner.BinderParser.{typed_binder};
ghost use Rattle.ev_syntax.specs.inner.TokenAt.{IsTokenAt, IsIndex};
ghost use Rattle.ev_syntax.specs.inner.Pieces.{IsPiece};
ghost use Rattle.ev_syntax.specs.inner.BinderAnswers.{BinderAnswer, BindersAnswer, FurtherAnswer, binder_nesting, own_nesting};

use crate::TokenKind;
use crate::binders::{Binder, Binders};
use crate::mark_names::{COMMA, OFTYPE_WORD};
use crate::read_pieces::Piece;
use crate::reader::Reader;
use crate::type_reader::read_type;
use crate::written::RawType;
use ev_terms::{ListOf, Name, NoMemory};
use std::alloc::Global;

/// A name with a type.
fn with_type(name: Name, written: Piece<RawType>) -> Piece<Binder>
    ensures { (limit : ℕ) → (r : WrittenType) → IsPiece type_nesting limit written r → IsPiece binder_nesting limit result (typed_binder name r) }
{
    match written {
        Piece::Whole(a, nesting) => {
            let written = Some(a);
            Piece::Whole(Binder { name, written }, nesting)
        }
        Piece::Deep => Piece::Deep,
    }
}

fn named(
    reader: &Reader<'_>,
    alloc: Global,
    limit: u32,
    at: usize,
) -> Result<Option<(Piece<Binder>, usize)>, NoMemory>
    requires inside { IsIndex reader.now at }
    requires token { IsTokenAt (Some AName) reader.now at }
    ensures { IfOk result (BinderAnswer limit reader.now at) }
{
    let name = reader.name(alloc, at)?;
    if !reader.is_mark(at + 1, OFTYPE_WORD) {
        let written = None;
        return Ok(Some((Piece::Whole(Binder { name, written }, 0), at + 1)));
    }
    match read_type(reader, alloc, limit, at + 2)? {
        Some((written, to)) => Ok(Some((with_type(name, written), to))),
        None => Ok(None),
    }
}

/// Reads a bound name at a place: it and the place behind it.
pub fn read_binder(
    reader: &Reader<'_>,
    alloc: Global,
    limit: u32,
    at: usize,
) -> Result<Option<(Piece<Binder>, usize)>, NoMemory>
    ensures { IfOk result (BinderAnswer limit reader.now at) }
{
    match reader.kind(at) {
        Some(TokenKind::Name) => named(reader, alloc, limit, at),
        Some(TokenKind::Number(_)) => Ok(None),
        Some(TokenKind::Mark(_)) => Ok(None),
        None => Ok(None),
    }
}

/// Bound names with one more.
#[tactic(auto, using(crate::proofs::Nesting::nestings))]
pub(crate) fn binders_with(
    alloc: Global,
    limit: u32,
    binders: Piece<Binders>,
    binder: Piece<Binder>,
) -> Result<Piece<Binders>, NoMemory>
    ensures { (bs : List Bound) → (b : Bound) → IsPiece own_nesting limit binders bs → IsPiece binder_nesting limit binder b → IfOk result (λ p. IsPiece own_nesting limit p (bs ++ b ∷ [])) }
{
    let Piece::Whole(mut binders, n) = binders else {
        return Ok(Piece::Deep);
    };
    let Piece::Whole(binder, m) = binder else {
        return Ok(Piece::Deep);
    };
    let count = binders.len() as u64;
    if m >= limit as u64 {
        return Ok(Piece::Deep);
    }
    if count >= limit as u64 - m {
        return Ok(Piece::Deep);
    }
    binders.push(alloc, binder)?;
    Ok(Piece::Whole(binders, n.max(m + count + 1)))
}

/// Reads further bound names, each after a comma.
pub(crate) fn further_binders(
    reader: &Reader<'_>,
    alloc: Global,
    limit: u32,
    first: Piece<Binders>,
    from: usize,
) -> Result<Option<(Piece<Binders>, usize)>, NoMemory>
    requires { from ≤ length reader.now }
    ensures { (bs : List Bound) → IsPiece own_nesting limit first bs → IfOk result (FurtherAnswer limit reader.now from bs) }
{
    let mut binders = first;
    let mut at = from;
    while reader.is_mark(at, COMMA) {
        match read_binder(reader, alloc, limit, at + 1)? {
            Some((binder, to)) => {
                binders = binders_with(alloc, limit, binders, binder)?;
                at = to;
            }
            None => return Ok(None),
        }
    }
    Ok(Some((binders, at)))
}

/// Reads bound names at a place, at least one: they and the place behind them.
pub fn read_binders(
    reader: &Reader<'_>,
    alloc: Global,
    limit: u32,
    at: usize,
) -> Result<Option<(Piece<Binders>, usize)>, NoMemory>
    ensures { IfOk result (BindersAnswer limit reader.now at) }
{
    match read_binder(reader, alloc, limit, at)? {
        Some((binder, to)) => {
            let none = Piece::Whole(ListOf::new(alloc), 0);
            let first = binders_with(alloc, limit, none, binder)?;
            further_binders(reader, alloc, limit, first, to)
        }
        None => Ok(None),
    }
}
