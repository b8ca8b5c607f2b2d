//! What a text is read as.

/// What a text is read as: a predicate, an expression, either of them, a type.
#[derive(Debug, Clone, Copy, PartialEq, Eq, Drop)]
pub enum Sort {
    Pred,
    Expr,
    Either,
    TypeText,
}
