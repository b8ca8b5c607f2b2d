//! What may stand at a place of a text.
use crate::kinds::Token;

/// A token, a number above 2^127 - 1 that ends at a place, or a character that begins no token.
#[derive(Clone, Copy)]
pub enum Piece {
    Found(Token),
    TooLarge(usize),
    Bad,
}
