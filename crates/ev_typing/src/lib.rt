//! Sequents and environments. Source: Métayer and Voisin, The Event-B Mathematical Language, with datatypes after Butler and
//! Maamria, Practical Theory Extension in Event-B.
#![tactic(auto)]

pub mod base_sequents;
pub mod checking;
pub mod environment;
mod instances;
pub mod symbol_types;
pub mod table;
pub mod type_forms;
pub mod typing;
pub mod typing_laws;

pub use base_sequents::{
    has_type, have_types_at, is_base_sequent, is_plain, is_sequent, wholes_keep_base_sequents,
};
pub use checking::{are_proper, is_proper, type_of};
pub use environment::{Declared, Env};
pub use symbol_types::{SymbolTypes, own_type, types_of_symbol};
pub use table::{BASE_COUNT, Children, Form, Row, Symbols, base_symbols};
pub use type_forms::{pair_of, relation_of, set_of};
pub use typing::{
    Con, Cons, DataDecl, Entry, Sequent, Sequents, Signature, Var, Vars, field_of, sequent_extent,
};
pub use typing_laws::{signatures_are_proper, type_is_unique, types_are_kept, wholes_keep_types};
