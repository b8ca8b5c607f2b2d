//! What the programs of cases share: cases as lines, answers as texts, types and terms in a prefix notation.
#![tactic(auto)]

pub mod fault;
pub mod making;
pub mod reading;
pub mod symbols;
pub mod text;
pub mod words;
pub mod writing;
