//! Formulas that are made of pieces.
ghost use Rattle.std.specs.Prelude.{◌≡◌, ◌≤◌, ◌<◌, ◌+◌, [], ◌∷◌, ◌++◌, ℕ, List, Bool, true, false, max, length, IfOk, IfSome, None};
ghost use Rattle.ev_syntax.specs.Raw.{RawType as WrittenType, Binder as Bound, Pattern as BoundPattern, Raw as RawTree, call as called, around, unary, binary, inverse, apply, image as imaged, of_type, type_set, quantified, set_of, collected, lambda, members as membered, type_nesting, nesting};
ghost use Rattle.ev_syntax.specs.inner.RawView.{raw_of, raws};
ghost use Rattle.ev_syntax.specs.inner.Pieces.{IsPiece};
ghost use Rattle.ev_syntax.specs.inner.BinderAnswers.{binder_nesting, own_nesting, IsPattern};
ghost use Rattle.ev_parse.specs.inner.Forms.{IsRaw, is_call, args_nesting, members_nesting};

use crate::states::RawPiece;
use ev_syntax::binders::{Binder, Binders};
use ev_syntax::formulas::{FormulaForm, Raw, Raws};
use ev_syntax::pattern_states::PatternPiece;
use ev_syntax::read_pieces::Piece;
use ev_syntax::written::RawType;
use ev_terms::{Name, NoMemory};
use std::alloc::Global;

/// The formula of a form whose nesting is known. It is a name if `call` says so.
pub(crate) fn raw_piece(
    alloc: Global,
    limit: u32,
    form: FormulaForm,
    depth: u64,
    call: bool,
) -> Result<RawPiece, NoMemory>
    ensures { depth ≡ nesting (raw_of form) → call ≡ is_call (raw_of form) → IfOk result (λ p. IsRaw limit p (raw_of form)) }
{
    if depth <= limit as u64 {
        Ok(RawPiece::Whole(Raw::new(alloc, form)?, depth))
    } else {
        Ok(RawPiece::Deep(call))
    }
}

/// Whether the piece is a name, with arguments or with none.
pub(crate) fn is_name(piece: &RawPiece) -> bool
    ensures { (limit : ℕ) → (r : RawTree) → IsRaw limit piece.now r → result ≡ is_call r }
{
    match piece {
        RawPiece::Whole(raw, _) => matches!(raw.form(), FormulaForm::Call(_, _)),
        RawPiece::Deep(call) => *call,
    }
}

pub(crate) fn around_piece(
    alloc: Global,
    limit: u32,
    mark: u16,
    a: RawPiece,
) -> Result<RawPiece, NoMemory>
    ensures { (r : RawTree) → IsRaw limit a r → IfOk result (λ p. IsRaw limit p (around mark r)) }
{
    let RawPiece::Whole(a, n) = a else {
        return Ok(RawPiece::Deep(false));
    };
    if n >= limit as u64 {
        return Ok(RawPiece::Deep(false));
    }
    raw_piece(alloc, limit, FormulaForm::Around(mark, a), n + 1, false)
}

pub(crate) fn unary_piece(
    alloc: Global,
    limit: u32,
    mark: u16,
    a: RawPiece,
) -> Result<RawPiece, NoMemory>
    ensures { (r : RawTree) → IsRaw limit a r → IfOk result (λ p. IsRaw limit p (unary mark r)) }
{
    let RawPiece::Whole(a, n) = a else {
        return Ok(RawPiece::Deep(false));
    };
    if n >= limit as u64 {
        return Ok(RawPiece::Deep(false));
    }
    raw_piece(alloc, limit, FormulaForm::Unary(mark, a), n + 1, false)
}

pub(crate) fn inverse_piece(alloc: Global, limit: u32, a: RawPiece) -> Result<RawPiece, NoMemory>
    ensures { (r : RawTree) → IsRaw limit a r → IfOk result (λ p. IsRaw limit p (inverse r)) }
{
    let RawPiece::Whole(a, n) = a else {
        return Ok(RawPiece::Deep(false));
    };
    if n >= limit as u64 {
        return Ok(RawPiece::Deep(false));
    }
    raw_piece(alloc, limit, FormulaForm::Inverse(a), n + 1, false)
}

pub(crate) fn binary_piece(
    alloc: Global,
    limit: u32,
    mark: u16,
    a: RawPiece,
    b: RawPiece,
) -> Result<RawPiece, NoMemory>
    ensures { (r s : RawTree) → IsRaw limit a r → IsRaw limit b s → IfOk result (λ p. IsRaw limit p (binary mark r s)) }
{
    let RawPiece::Whole(a, n) = a else {
        return Ok(RawPiece::Deep(false));
    };
    let RawPiece::Whole(b, m) = b else {
        return Ok(RawPiece::Deep(false));
    };
    let most = n.max(m);
    if most >= limit as u64 {
        return Ok(RawPiece::Deep(false));
    }
    raw_piece(
        alloc,
        limit,
        FormulaForm::Binary(mark, a, b),
        most + 1,
        false,
    )
}

pub(crate) fn apply_piece(
    alloc: Global,
    limit: u32,
    a: RawPiece,
    b: RawPiece,
) -> Result<RawPiece, NoMemory>
    ensures { (r s : RawTree) → IsRaw limit a r → IsRaw limit b s → IfOk result (λ p. IsRaw limit p (apply r s)) }
{
    let RawPiece::Whole(a, n) = a else {
        return Ok(RawPiece::Deep(false));
    };
    let RawPiece::Whole(b, m) = b else {
        return Ok(RawPiece::Deep(false));
    };
    let most = n.max(m);
    if most >= limit as u64 {
        return Ok(RawPiece::Deep(false));
    }
    raw_piece(alloc, limit, FormulaForm::Apply(a, b), most + 1, false)
}

pub(crate) fn image_piece(
    alloc: Global,
    limit: u32,
    a: RawPiece,
    b: RawPiece,
) -> Result<RawPiece, NoMemory>
    ensures { (r s : RawTree) → IsRaw limit a r → IsRaw limit b s → IfOk result (λ p. IsRaw limit p (imaged r s)) }
{
    let RawPiece::Whole(a, n) = a else {
        return Ok(RawPiece::Deep(false));
    };
    let RawPiece::Whole(b, m) = b else {
        return Ok(RawPiece::Deep(false));
    };
    let most = n.max(m);
    if most >= limit as u64 {
        return Ok(RawPiece::Deep(false));
    }
    raw_piece(alloc, limit, FormulaForm::Image(a, b), most + 1, false)
}

pub(crate) fn typed_piece(
    alloc: Global,
    limit: u32,
    a: RawPiece,
    ty: Piece<RawType>,
) -> Result<RawPiece, NoMemory>
    ensures { (r : RawTree) → (s : WrittenType) → IsRaw limit a r → IsPiece type_nesting limit ty s → IfOk result (λ p. IsRaw limit p (of_type r s)) }
{
    let RawPiece::Whole(a, n) = a else {
        return Ok(RawPiece::Deep(false));
    };
    let Piece::Whole(ty, m) = ty else {
        return Ok(RawPiece::Deep(false));
    };
    let most = n.max(m);
    if most >= limit as u64 {
        return Ok(RawPiece::Deep(false));
    }
    raw_piece(alloc, limit, FormulaForm::OfType(a, ty), most + 1, false)
}

pub(crate) fn type_set_piece(
    alloc: Global,
    limit: u32,
    ty: Piece<RawType>,
) -> Result<RawPiece, NoMemory>
    ensures { (s : WrittenType) → IsPiece type_nesting limit ty s → IfOk result (λ p. IsRaw limit p (type_set s)) }
{
    let Piece::Whole(ty, n) = ty else {
        return Ok(RawPiece::Deep(false));
    };
    if n >= limit as u64 {
        return Ok(RawPiece::Deep(false));
    }
    raw_piece(alloc, limit, FormulaForm::TypeSet(ty), n + 1, false)
}

/// Arguments with one more.
#[tactic(auto, using(crate::proofs::RawNesting::raw_nestings))]
pub(crate) fn args_with(
    alloc: Global,
    limit: u32,
    args: Piece<Raws>,
    a: RawPiece,
) -> Result<Piece<Raws>, NoMemory>
    ensures { (rs : List RawTree) → (r : RawTree) → IsPiece args_nesting limit args rs → IsRaw limit a r → IfOk result (λ p. IsPiece args_nesting limit p (rs ++ r ∷ [])) }
{
    let Piece::Whole(mut args, n) = args else {
        return Ok(Piece::Deep);
    };
    let RawPiece::Whole(a, m) = a else {
        return Ok(Piece::Deep);
    };
    args.push(alloc, a)?;
    Ok(Piece::Whole(args, n.max(m)))
}

/// Members with one more.
#[tactic(auto, using(crate::proofs::RawNesting::raw_nestings))]
pub(crate) fn members_with(
    alloc: Global,
    limit: u32,
    members: Piece<Raws>,
    a: RawPiece,
) -> Result<Piece<Raws>, NoMemory>
    ensures { (rs : List RawTree) → (r : RawTree) → IsPiece members_nesting limit members rs → IsRaw limit a r → IfOk result (λ p. IsPiece members_nesting limit p (rs ++ r ∷ [])) }
{
    let Piece::Whole(mut members, n) = members else {
        return Ok(Piece::Deep);
    };
    let RawPiece::Whole(a, m) = a else {
        return Ok(Piece::Deep);
    };
    let count = members.len() as u64;
    let least = m.max(1);
    if least >= limit as u64 {
        return Ok(Piece::Deep);
    }
    if count >= limit as u64 - least {
        return Ok(Piece::Deep);
    }
    members.push(alloc, a)?;
    Ok(Piece::Whole(members, n.max(count + 1 + least)))
}

/// A name with arguments.
pub(crate) fn call_piece(
    alloc: Global,
    limit: u32,
    name: Name,
    args: Piece<Raws>,
) -> Result<RawPiece, NoMemory>
    ensures { (rs : List RawTree) → IsPiece args_nesting limit args rs → IfOk result (λ p. IsRaw limit p (called name (raws rs))) }
{
    let Piece::Whole(args, n) = args else {
        return Ok(RawPiece::Deep(true));
    };
    if n >= limit as u64 {
        return Ok(RawPiece::Deep(true));
    }
    raw_piece(alloc, limit, FormulaForm::Call(name, args), n + 1, true)
}

pub(crate) fn members_piece(
    alloc: Global,
    limit: u32,
    members: Piece<Raws>,
) -> Result<RawPiece, NoMemory>
    ensures { (rs : List RawTree) → IsPiece members_nesting limit members rs → IfOk result (λ p. IsRaw limit p (membered (raws rs))) }
{
    let Piece::Whole(members, n) = members else {
        return Ok(RawPiece::Deep(false));
    };
    raw_piece(alloc, limit, FormulaForm::Members(members), n, false)
}

pub(crate) fn set_piece(
    alloc: Global,
    limit: u32,
    binder: Piece<Binder>,
    a: RawPiece,
) -> Result<RawPiece, NoMemory>
    ensures { (b : Bound) → (r : RawTree) → IsPiece binder_nesting limit binder b → IsRaw limit a r → IfOk result (λ p. IsRaw limit p (set_of b r)) }
{
    let Piece::Whole(binder, n) = binder else {
        return Ok(RawPiece::Deep(false));
    };
    let RawPiece::Whole(a, m) = a else {
        return Ok(RawPiece::Deep(false));
    };
    let most = n.max(m);
    if most >= limit as u64 {
        return Ok(RawPiece::Deep(false));
    }
    raw_piece(alloc, limit, FormulaForm::SetOf(binder, a), most + 1, false)
}

/// The nesting of bound names above a part, if it is within the limit.
#[tactic(auto, using(crate::proofs::RawNesting::raw_nestings))]
fn above(limit: u32, own: u64, names: u64, inner: u64) -> Option<u64>
    requires { (own ≤ limit) × (inner ≤ limit) }
    ensures some { IfSome result (λ n. (n ≡ max own (names + inner)) × (n ≤ limit)) }
    ensures none { result ≡ None → limit < max own (names + inner) }
{
    if names > limit as u64 - inner {
        return None;
    }
    Some(own.max(names + inner))
}

#[tactic(auto, using(crate::proofs::RawNesting::raw_nestings))]
pub(crate) fn quantified_piece(
    alloc: Global,
    limit: u32,
    mark: u16,
    binders: Piece<Binders>,
    a: RawPiece,
) -> Result<RawPiece, NoMemory>
    ensures { (bs : List Bound) → (r : RawTree) → IsPiece own_nesting limit binders bs → IsRaw limit a r → IfOk result (λ p. IsRaw limit p (quantified mark bs r)) }
{
    let Piece::Whole(binders, n) = binders else {
        return Ok(RawPiece::Deep(false));
    };
    let RawPiece::Whole(a, m) = a else {
        return Ok(RawPiece::Deep(false));
    };
    if n > limit as u64 || m > limit as u64 {
        return Ok(RawPiece::Deep(false));
    }
    let Some(depth) = above(limit, n, binders.len() as u64, m) else {
        return Ok(RawPiece::Deep(false));
    };
    raw_piece(
        alloc,
        limit,
        FormulaForm::Quantified(mark, binders, a),
        depth,
        false,
    )
}

#[tactic(auto, using(crate::proofs::RawNesting::raw_nestings))]
pub(crate) fn collected_piece(
    alloc: Global,
    limit: u32,
    mark: u16,
    binders: Piece<Binders>,
    a: RawPiece,
    b: RawPiece,
) -> Result<RawPiece, NoMemory>
    ensures { (bs : List Bound) → (r s : RawTree) → IsPiece own_nesting limit binders bs → IsRaw limit a r → IsRaw limit b s → IfOk result (λ p. IsRaw limit p (collected mark bs r s)) }
{
    let Piece::Whole(binders, n) = binders else {
        return Ok(RawPiece::Deep(false));
    };
    let RawPiece::Whole(a, m) = a else {
        return Ok(RawPiece::Deep(false));
    };
    let RawPiece::Whole(b, l) = b else {
        return Ok(RawPiece::Deep(false));
    };
    let most = m.max(l);
    if n > limit as u64 || most > limit as u64 {
        return Ok(RawPiece::Deep(false));
    }
    let Some(depth) = above(limit, n, binders.len() as u64, most) else {
        return Ok(RawPiece::Deep(false));
    };
    raw_piece(
        alloc,
        limit,
        FormulaForm::Collected(mark, binders, a, b),
        depth,
        false,
    )
}

#[tactic(auto, using(crate::proofs::RawNesting::raw_nestings))]
pub(crate) fn lambda_piece(
    alloc: Global,
    limit: u32,
    pattern: PatternPiece,
    a: RawPiece,
    b: RawPiece,
) -> Result<RawPiece, NoMemory>
    ensures { (x : BoundPattern) → (r s : RawTree) → IsPattern limit pattern x → IsRaw limit a r → IsRaw limit b s → IfOk result (λ p. IsRaw limit p (lambda x r s)) }
{
    let PatternPiece::Whole(pattern, n, names) = pattern else {
        return Ok(RawPiece::Deep(false));
    };
    let RawPiece::Whole(a, m) = a else {
        return Ok(RawPiece::Deep(false));
    };
    let RawPiece::Whole(b, l) = b else {
        return Ok(RawPiece::Deep(false));
    };
    let most = m.max(l);
    if n > limit as u64 || most > limit as u64 {
        return Ok(RawPiece::Deep(false));
    }
    let Some(depth) = above(limit, n, names, most) else {
        return Ok(RawPiece::Deep(false));
    };
    raw_piece(
        alloc,
        limit,
        FormulaForm::Lambda(pattern, a, b),
        depth,
        false,
    )
}
