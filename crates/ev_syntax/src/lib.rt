//! Tokens of texts, and what they say before types are inferred: raw trees, their grammar, and readers of types, bound names and
//! patterns. Source: Métayer and Voisin, The Event-B Mathematical Language; Butler and Maamria, Practical Theory Extension in Event-B.
#![tactic(auto)]

pub mod binder_reader;
pub mod binders;
pub mod faults;
pub mod formulas;
pub mod grammar;
pub mod kinds;
pub mod laws;
pub mod lexer;
pub mod machines;
pub mod mark_names;
pub mod marks;
pub mod names;
pub mod parse_faults;
pub mod pattern_reader;
pub mod pattern_states;
mod pieces;
pub mod read_pieces;
pub mod reader;
pub mod rows;
mod runs;
mod scan;
mod slots;
pub mod sorts;
mod type_pieces;
pub mod type_reader;
mod type_states;
pub mod types;
pub mod written;

pub use binders::{Binder, Binders, Pattern, PatternForm};
pub use faults::LexFault;
pub use formulas::{FormulaForm, Raw, Raws};
pub use grammar::grammar_laws;
pub use kinds::{Token, TokenKind, Tokens};
pub use laws::token_laws;
pub use lexer::lex;
pub use marks::{Spellings, all_spellings, mark_of};
pub use names::{is_name, is_variable_name};
pub use parse_faults::ParseFault;
pub use read_pieces::Piece;
pub use reader::Reader;
pub use rows::Spelling;
pub use sorts::Sort;
pub use types::parse_type;
pub use written::{RawType, RawTypeForm, RawTypes};
