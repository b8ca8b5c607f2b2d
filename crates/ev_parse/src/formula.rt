//! Formulas of texts.
ghost use Rattle.std.specs.Prelude.{◌≡◌, ◌≢◌, ◌↔◌, ◌≤◌, ◌<◌, drop, length, Some, Err, IfOk};
ghost use Rattle.std.specs.List.{All};
ghost use Rattle.ev_syntax.specs.Views.{LiesIn, all_seen_in};
ghost use Rattle.ev_syntax.specs.Tokens.{tokens_of};
ghost use Rattle.ev_syntax.specs.Raw.{Raw as RawTree, nesting};
ghost use Rattle.ev_syntax.specs.Parses.{Parses};
ghost use Rattle.ev_parse.specs.Wholes.{WholeAnswer, IsFormulaResult};

use crate::closings::closings_of;
use crate::items::read_item;
use ev_syntax::{ParseFault, Piece, Raw, Reader, Sort, Tokens};
use ev_terms::NoMemory;
use std::alloc::Global;

/// The formula of a sort that all the tokens from a place on are. Linear in the tokens.
pub(crate) fn read_whole(
    reader: &Reader<'_>,
    alloc: Global,
    limit: u32,
    sort: Sort,
    from: usize,
) -> Result<Option<Piece<Raw>>, NoMemory>
    requires inside { from ≤ length reader.now }
    ensures { IfOk result (WholeAnswer sort limit (drop from reader.now)) }
{
    let table = closings_of(reader, alloc)?;
    let Some((piece, to)) = read_item(reader, alloc, limit, table.as_slice(), sort, from)? else {
        return Ok(None);
    };
    if to < reader.len() {
        return Ok(None);
    }
    Ok(Some(piece))
}

fn all_formula(
    reader: &Reader<'_>,
    alloc: Global,
    sort: Sort,
    limit: u32,
) -> Result<Raw, ParseFault>
    ensures { IsFormulaResult sort limit reader.now result }
{
    let Some(piece) = read_whole(reader, alloc, limit, sort, 0)? else {
        return Err(ParseFault::Syntax);
    };
    match piece {
        Piece::Whole(raw, _) => Ok(raw),
        Piece::Deep => Err(ParseFault::TooDeep),
    }
}

/// The formula of a sort that all the tokens are. `Syntax` where they are none, `TooDeep` where it nests deeper than the limit. Linear in
/// the tokens.
pub fn parse_formula(
    alloc: Global,
    text: &[u8],
    tokens: &Tokens,
    sort: Sort,
    limit: u32,
) -> Result<Raw, ParseFault>
    requires { All (LiesIn text.now) tokens.now }
    ensures ok { IfOk result (λ raw. Parses (tokens_of (all_seen_in text.now tokens.now)) sort raw × (nesting raw ≤ limit)) }
    ensures syntax { result ≢ Err ParseFault.NoMemory → (result ≡ Err ParseFault.Syntax) ↔ ((raw : RawTree) → Parses (tokens_of (all_seen_in text.now tokens.now)) sort raw → ⊥) }
    ensures too_deep { result ≢ Err ParseFault.NoMemory → (result ≡ Err ParseFault.TooDeep) ↔ ((raw : RawTree) × Parses (tokens_of (all_seen_in text.now tokens.now)) sort raw × (limit < nesting raw)) }
{
    let reader = Reader::new(text, tokens.as_slice());
    all_formula(&reader, alloc, sort, limit)
}
