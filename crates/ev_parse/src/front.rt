//! Formulas at the front of tokens.
ghost use Rattle.std.specs.Prelude.{◌≡◌, ◌≢◌, ◌↔◌, ◌≤◌, ◌<◌, ◌-◌, ◌^◌, ℕ, drop, length, Some, Err, IfOk};
ghost use Rattle.std.specs.List.{All};
ghost use Rattle.ev_syntax.specs.Views.{LiesIn, all_seen_in};
ghost use Rattle.ev_syntax.specs.Tokens.{tokens_of};
ghost use Rattle.ev_syntax.specs.Raw.{Raw as RawTree, nesting};
ghost use Rattle.ev_syntax.specs.Parses.{IsRun, IsLongestRun};
ghost use Rattle.ev_parse.specs.Fronts.{FrontAnswer, IsFrontResult};

use crate::closings::closings_of;
use crate::formula::read_whole;
use crate::items::read_item;
use ev_syntax::{ParseFault, Piece, Raw, Reader, Sort, Token, Tokens};
use ev_terms::NoMemory;
use std::alloc::Global;

/// The longest run from a place on, looked for from the last token back.
fn longest_of_all(
    alloc: Global,
    text: &[u8],
    tokens: &[Token],
    from: usize,
    sort: Sort,
    limit: u32,
) -> Result<Option<(Piece<Raw>, usize)>, NoMemory>
    requires lies { All (LiesIn text.now) tokens.now }
    requires inside { from ≤ length tokens.now }
    ensures { IfOk result (FrontAnswer sort limit (tokens_of (all_seen_in text.now tokens.now)) from) }
{
    let mut to = tokens.len();
    while to > from {
        let reader = Reader::new(text, &tokens[..to]);
        if let Some(piece) = read_whole(&reader, alloc, limit, sort, from)? {
            return Ok(Some((piece, to)));
        }
        to -= 1;
    }
    Ok(None)
}

/// The longest run from a place on. Where none goes on behind a formula it is read once.
fn longest_run(
    alloc: Global,
    text: &[u8],
    tokens: &[Token],
    from: usize,
    sort: Sort,
    limit: u32,
) -> Result<Option<(Piece<Raw>, usize)>, NoMemory>
    requires lies { All (LiesIn text.now) tokens.now }
    requires inside { from ≤ length tokens.now }
    ensures { IfOk result (FrontAnswer sort limit (tokens_of (all_seen_in text.now tokens.now)) from) }
{
    let reader = Reader::new(text, tokens);
    let table = closings_of(&reader, alloc)?;
    match read_item(&reader, alloc, limit, table.as_slice(), sort, from)? {
        Some(found) => Ok(Some(found)),
        None => longest_of_all(alloc, text, tokens, from, sort, limit),
    }
}

fn all_front(
    alloc: Global,
    text: &[u8],
    tokens: &[Token],
    from: usize,
    sort: Sort,
    limit: u32,
) -> Result<(Raw, u32), ParseFault>
    requires lies { All (LiesIn text.now) tokens.now }
    requires inside { from ≤ length tokens.now }
    requires few { length tokens.now < 2 ^ 32 }
    ensures { IsFrontResult sort limit (tokens_of (all_seen_in text.now tokens.now)) from result }
{
    let Some((piece, to)) = longest_run(alloc, text, tokens, from, sort, limit)? else {
        return Err(ParseFault::Syntax);
    };
    match piece {
        Piece::Whole(raw, _) => Ok((raw, to as u32)),
        Piece::Deep => Err(ParseFault::TooDeep),
    }
}

/// The longest run of tokens from a place on that is a formula of the sort, and the number of the token behind it. `Syntax` where no
/// run is one, `TooDeep` where the longest nests deeper than the limit. Linear in the tokens where no formula goes on behind the
/// run; quadratic in them where what comes behind it goes on with a formula and makes none.
pub fn parse_front(
    alloc: Global,
    text: &[u8],
    tokens: &Tokens,
    from: u32,
    sort: Sort,
    limit: u32,
) -> Result<(Raw, u32), ParseFault>
    requires lies { All (LiesIn text.now) tokens.now }
    requires inside { from ≤ length tokens.now }
    requires few { length tokens.now < 2 ^ 32 }
    ensures ok { IfOk result (λ r. IsLongestRun (tokens_of (all_seen_in text.now tokens.now)) from sort (r.1 - from) r.0 × (from ≤ r.1) × (r.1 ≤ length tokens.now) × (nesting r.0 ≤ limit)) }
    ensures syntax { result ≢ Err ParseFault.NoMemory → (result ≡ Err ParseFault.Syntax) ↔ ((n : ℕ) → (raw : RawTree) → IsRun (tokens_of (all_seen_in text.now tokens.now)) from sort n raw → ⊥) }
    ensures too_deep { result ≢ Err ParseFault.NoMemory → (result ≡ Err ParseFault.TooDeep) ↔ ((n : ℕ) × (raw : RawTree) × IsLongestRun (tokens_of (all_seen_in text.now tokens.now)) from sort n raw × (limit < nesting raw)) }
{
    all_front(alloc, text, tokens.as_slice(), from as usize, sort, limit)
}
