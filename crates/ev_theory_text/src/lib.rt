//! Theory texts: the parts that are their elements, the form of each element as it is written, and the names that a text imports.
//! Source: Butler and Maamria, Practical Theory Extension in Event-B.
#![tactic(auto)]

mod args;
mod branches;
mod cases;
mod cutting;
mod datatypes;
pub mod elements;
mod form_reader;
pub mod forms;
mod givens;
mod heads;
mod imports;
mod names;
mod theories;

pub use cutting::{Pieces, cut};
pub use elements::{RawElement, RawElements, TextKind, read_element, read_front};
pub use forms::{
    ElementForm, RawArg, RawArgs, RawBody, RawBranch, RawBranches, RawCase, RawCases, RawCon,
    RawCons, RawHead, RawResult,
};
pub use imports::import_names;
pub use theories::read_theory;
