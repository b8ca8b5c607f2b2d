//! Formulas of texts, read by a machine that goes from token to token with a stack of its own. Source: Métayer and Voisin, The Event-B
//! Mathematical Language; Butler and Maamria, Practical Theory Extension in Event-B.
#![tactic(auto)]

pub mod blanks;
mod closings;
pub mod cursor;
mod endings;
mod expression_reader;
pub mod formula;
mod formula_reader;
mod frame_steps;
pub mod front;
pub mod items;
mod list_steps;
pub mod lists;
mod literal_steps;
mod machine;
mod marks;
mod operand_reader;
mod predicate_reader;
mod raw_pieces;
mod states;

pub use closings::closings_of;
pub use ev_syntax::{
    Binder, Binders, FormulaForm, ParseFault, Pattern, PatternForm, Piece, Raw, RawType,
    RawTypeForm, RawTypes, Raws, Reader, Sort, grammar_laws, parse_type,
};
pub use formula::parse_formula;
pub use front::parse_front;
pub use items::read_item;
