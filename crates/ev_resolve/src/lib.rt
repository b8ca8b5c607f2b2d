//! Raw trees with their names looked up: names that are unknown or taken, and the bare term that a raw tree says in a scope. Source:
//! Métayer and Voisin, The Event-B Mathematical Language; Butler and Maamria, Practical Theory Extension in Event-B.
#![tactic(auto)]

pub mod bare;
mod bound;
mod calls;
mod formula_names;
mod makers;
mod marks;
mod names;
mod resolving;
mod scope;
mod taken;
mod types;
mod used;

pub use bare::{Bare, BareForm, BareTerms, bare_literal, bare_symbol, bare_typed, bare_variable};
pub use formula_names::FormulaNames;
pub use resolving::resolve;
pub use scope::{Scope, ScopeVariable};
pub use taken::has_taken_binder;
pub use types::resolve_type;
pub use used::{has_unknown_name, has_unknown_type};
