//! Written types that are made of pieces.
ghost use Rattle.std.specs.Prelude.{◌≡◌, [], ◌∷◌, ◌++◌, ℕ, List, IfOk};
ghost use Rattle.ev_syntax.specs.Raw.{RawType, pow_type, prod_type, named_type, type_nesting};
ghost use Rattle.ev_syntax.specs.inner.TypeView.{raw_type_of, raw_types};
ghost use Rattle.ev_syntax.specs.inner.Pieces.{IsPiece};
ghost use Rattle.ev_syntax.specs.inner.TypeFrames.{list_nesting};

use crate::read_pieces::Piece;
use crate::written::{RawType, RawTypeForm, RawTypes};
use ev_terms::{Name, NoMemory};
use std::alloc::Global;

/// The type of a form whose nesting is known.
pub(crate) fn type_piece(
    alloc: Global,
    limit: u32,
    form: RawTypeForm,
    nesting: u64,
) -> Result<Piece<RawType>, NoMemory>
    ensures { nesting ≡ type_nesting (raw_type_of form) → IfOk result (λ p. IsPiece type_nesting limit p (raw_type_of form)) }
{
    if nesting <= limit as u64 {
        Ok(Piece::Whole(RawType::new(alloc, form)?, nesting))
    } else {
        Ok(Piece::Deep)
    }
}

pub(crate) fn pow_piece(
    alloc: Global,
    limit: u32,
    a: Piece<RawType>,
) -> Result<Piece<RawType>, NoMemory>
    ensures { (r : RawType) → IsPiece type_nesting limit a r → IfOk result (λ p. IsPiece type_nesting limit p (pow_type r)) }
{
    match a {
        Piece::Whole(a, nesting) if nesting < limit as u64 => {
            type_piece(alloc, limit, RawTypeForm::Pow(a), 1 + nesting)
        }
        _ => Ok(Piece::Deep),
    }
}

pub(crate) fn prod_piece(
    alloc: Global,
    limit: u32,
    a: Piece<RawType>,
    b: Piece<RawType>,
) -> Result<Piece<RawType>, NoMemory>
    ensures { (r s : RawType) → IsPiece type_nesting limit a r → IsPiece type_nesting limit b s → IfOk result (λ p. IsPiece type_nesting limit p (prod_type r s)) }
{
    let Piece::Whole(a, n) = a else {
        return Ok(Piece::Deep);
    };
    let Piece::Whole(b, m) = b else {
        return Ok(Piece::Deep);
    };
    let most = n.max(m);
    if most < limit as u64 {
        type_piece(alloc, limit, RawTypeForm::Prod(a, b), 1 + most)
    } else {
        Ok(Piece::Deep)
    }
}

/// A list with one type more.
#[tactic(auto, using(crate::proofs::Nesting::nestings))]
pub(crate) fn types_with(
    alloc: Global,
    types: Piece<RawTypes>,
    a: Piece<RawType>,
    limit: u32,
) -> Result<Piece<RawTypes>, NoMemory>
    ensures { (rs : List RawType) → (r : RawType) → IsPiece list_nesting limit types rs → IsPiece type_nesting limit a r → IfOk result (λ p. IsPiece list_nesting limit p (rs ++ r ∷ [])) }
{
    let Piece::Whole(mut types, n) = types else {
        return Ok(Piece::Deep);
    };
    let Piece::Whole(a, m) = a else {
        return Ok(Piece::Deep);
    };
    types.push(alloc, a)?;
    Ok(Piece::Whole(types, n.max(m)))
}

/// A name with types.
pub(crate) fn named_piece(
    alloc: Global,
    limit: u32,
    name: Name,
    types: Piece<RawTypes>,
) -> Result<Piece<RawType>, NoMemory>
    ensures { (rs : List RawType) → IsPiece list_nesting limit types rs → IfOk result (λ p. IsPiece type_nesting limit p (named_type name (raw_types rs))) }
{
    match types {
        Piece::Whole(types, nesting) if nesting < limit as u64 => {
            type_piece(alloc, limit, RawTypeForm::Named(name, types), 1 + nesting)
        }
        _ => Ok(Piece::Deep),
    }
}
