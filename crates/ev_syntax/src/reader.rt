//! Tokens of a text, as parsers read them.
ghost use Rattle.std.specs.Prelude.{◌≡◌, ◌∷◌, ◌<◌, ◌^◌, List, ℕ, length, drop, IsTrue, IfOk, IfSome};
ghost use Rattle.std.specs.List.{All};
ghost use Rattle.ev_syntax.specs.Views.{LiesIn, all_seen_in};
ghost use Rattle.ev_syntax.specs.Tokens.{name, tokens_of};
ghost use Rattle.ev_syntax.specs.inner.TypeParser.{begins};
ghost use Rattle.ev_syntax.specs.inner.TokenAt.{IsTokenAt, IsIndex, small_number};

use crate::{Token, TokenKind};
use ev_terms::{Name, NoMemory};
use std::alloc::Global;
use std::marker::Model;

/// Tokens of a text.
#[derive(Drop)]
pub struct Reader<'a> {
    text: &'a [u8],
    tokens: &'a [Token],
}

impl<'a> Model for Reader<'a> {
    ghost use Rattle.std.specs.Prelude.{List};
    ghost use Rattle.ev_syntax.specs.Tokens.{Token as SpecToken};

    ghost Value = { List SpecToken };

    ghost use Rattle.std.specs.List.{All};
    ghost use Rattle.ev_syntax.specs.Views.{LiesIn, all_seen_in};
    ghost use Rattle.ev_syntax.specs.Tokens.{tokens_of};

    ghost view = { λ r. tokens_of (all_seen_in r.text.now r.tokens.now) };

    ghost invariant = { λ r. All (LiesIn r.text.now) r.tokens.now };
}

impl<'a> Reader<'a> {
    pub fn new(text: &'a [u8], tokens: &'a [Token]) -> Reader<'a>
        requires { All (LiesIn text.now) tokens.now }
        ensures { result ≡ tokens_of (all_seen_in text.now tokens.now) }
    {
        Reader { text, tokens }
    }

    pub fn len(&self) -> usize
        ensures { result ≡ length self.now }
    {
        self.tokens.len()
    }

    /// What stands at a place, if the tokens do not end there.
    #[tactic(auto, using(crate::proofs::Reading::reading))]
    pub fn kind(&self, at: usize) -> Option<TokenKind>
        ensures token { IsTokenAt result self.now at }
        ensures inside { IfSome result (λ _. IsIndex self.now at) }
    {
        match self.tokens.get(at) {
            Some(token) => Some(token.kind),
            None => None,
        }
    }

    /// Whether the mark stands at a place.
    #[tactic(auto, using(crate::proofs::Reading::reading))]
    pub fn is_mark(&self, at: usize, mark: u16) -> bool
        ensures is { result ≡ begins mark (drop at self.now) }
        ensures inside { IsTrue result → IsIndex self.now at }
    {
        match self.kind(at) {
            Some(TokenKind::Mark(row)) => row == mark,
            _ => false,
        }
    }

    /// The number below 2^32 that stands at a place.
    #[tactic(auto, using(crate::proofs::Reading::reading))]
    pub fn small_number(&self, at: usize) -> Option<u32>
        ensures is { result ≡ small_number (drop at self.now) }
        ensures inside { IfSome result (λ _. IsIndex self.now at) }
    {
        match self.kind(at) {
            Some(TokenKind::Number(number)) if number <= u32::MAX as u128 => Some(number as u32),
            _ => None,
        }
    }

    /// The name that stands at a place.
    #[tactic(auto, using(crate::proofs::Reading::reading))]
    pub fn name(&self, alloc: Global, at: usize) -> Result<Name, NoMemory>
        ensures { IfOk result (λ x. (n : List ℕ) → (rest : _) → drop at self.now ≡ name n ∷ rest → x ≡ n) }
    {
        match self.tokens.get(at) {
            Some(token) => Name::from_slice(alloc, token.bytes(self.text)),
            None => Ok(Name::new(alloc)),
        }
    }
}
