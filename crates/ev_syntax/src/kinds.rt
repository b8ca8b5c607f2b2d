//! Tokens.
ghost use Rattle.std.specs.Prelude.{◌≡◌, slice_range};

use ev_terms::ListOf;

/// What a token is: a name, a number by its value, or a sign or a reserved word by its row in the table of spellings.
#[derive(Debug, Clone, Copy, PartialEq, Eq)]
pub enum TokenKind {
    Name,
    Number(u128),
    Mark(u16),
}

/// A token, and the bytes of the text that it takes, from `start` up to `end`.
#[derive(Debug, Clone, Copy, PartialEq, Eq)]
pub struct Token {
    pub kind: TokenKind,
    pub start: u32,
    pub end: u32,
}

impl Token {
    ghost use Rattle.ev_syntax.specs.Views.{LiesIn};

    /// The bytes that the token takes, of the text in which it stands.
    pub fn bytes<'a>(&self, text: &'a [u8]) -> &'a [u8]
        requires { LiesIn text.now self.now }
        ensures { result.now ≡ slice_range text.now self.now.start self.now.end }
    {
        &text[self.start as usize..self.end as usize]
    }
}

/// The tokens of a text, in their order.
pub type Tokens = ListOf<Token>;
