//! The tokens of a text.
ghost use Rattle.std.specs.Prelude.{◌≡◌, ◌≢◌, ◌↔◌, ◌⊎◌, ◌<◌, ◌^◌, List, IsTrue, IfOk, IsOkUnless, length};
ghost use Rattle.std.specs.List.{All};
ghost use Rattle.ev_syntax.specs.Tokens.{Spanned, HasTokens, IsBadText, HasTooLarge};
ghost use Rattle.ev_syntax.specs.inner.Places.{IsPlace};
ghost use Rattle.ev_syntax.specs.Laws.{AreSpans};
ghost use Rattle.ev_syntax.specs.Views.{all_seen_in, LiesIn};
ghost use Rattle.ev_syntax.specs.inner.Reading.{HasTokensFrom, AreSmall, IsAnswer};

use crate::faults::LexFault;
use crate::kinds::Tokens;
use crate::pieces::Piece;
use crate::runs::blanks_end;
use crate::scan::piece_at;
use std::alloc::Global;

/// Whether the text from a place on has tokens, of whatever size its numbers are.
fn has_tokens_from(text: &str, from: usize) -> bool
    requires place { IsPlace text.now from }
    requires short { length text.now < 2 ^ 32 }
    ensures { IsTrue result ↔ HasTokensFrom text.now from }
{
    let mut at = blanks_end(text, from);
    'pieces: while at < text.len() {
        at = match piece_at(text, at) {
            Piece::Found(token) => blanks_end(text, token.end as usize),
            Piece::TooLarge(end) => blanks_end(text, end),
            Piece::Bad => return false,
        };
    }
    true
}

/// The tokens of a text, each the longest that stands at its place.
fn lex_text(alloc: Global, text: &str) -> Result<Tokens, LexFault>
    requires { length text.now < 2 ^ 32 }
    ensures { IsAnswer text.now result }
{
    let mut tokens = Tokens::new(alloc);
    let mut at = blanks_end(text, 0);
    'pieces: while at < text.len() {
        match piece_at(text, at) {
            Piece::Found(token) => {
                tokens.push(alloc, token)?;
                at = blanks_end(text, token.end as usize);
            }
            Piece::TooLarge(end) => return Err(large_or_bad(text, end)),
            Piece::Bad => return Err(LexFault::BadText),
        }
    }
    Ok(tokens)
}

/// The fault of a text in which a number that is too large ends at a place.
fn large_or_bad(text: &str, end: usize) -> LexFault
    requires place { IsPlace text.now end }
    requires short { length text.now < 2 ^ 32 }
    ensures { ((result ≡ LexFault.NumberTooLarge) × HasTokensFrom text.now end) ⊎ ((result ≡ LexFault.BadText) × (HasTokensFrom text.now end → ⊥)) }
{
    if has_tokens_from(text, end) {
        LexFault::NumberTooLarge
    } else {
        LexFault::BadText
    }
}

/// The tokens of a text, in their order. `BadText` comes before `NumberTooLarge` where both hold.
pub fn lex(alloc: Global, text: &[u8]) -> Result<Tokens, LexFault>
    requires { length text.now < 2 ^ 32 }
    ensures ok { IfOk result (λ tokens. HasTokens text.now (all_seen_in text.now tokens)) }
    ensures spans { IfOk result (λ tokens. AreSpans text.now 0 (all_seen_in text.now tokens)) }
    ensures within { IfOk result (λ tokens. All (LiesIn text.now) tokens) }
    ensures small { IfOk result AreSmall }

    ensures succeeds { (ts : List Spanned) → HasTokens text.now ts → (HasTooLarge text.now → ⊥) → IsOkUnless result LexFault.NoMemory }
    ensures bad_text { result ≢ Err LexFault.NoMemory → ((result ≡ Err LexFault.BadText) ↔ IsBadText text.now) }
    ensures too_large { result ≢ Err LexFault.NoMemory → ((result ≡ Err LexFault.NumberTooLarge) ↔ HasTooLarge text.now) }
{
    match std::str::from_utf8(text) {
        Ok(text) => lex_text(alloc, text),
        Err(_) => Err(LexFault::BadText),
    }
}
