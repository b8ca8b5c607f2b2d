//! Types, terms and their substitution, with the small types that all other crates use. Source: Métayer and Voisin, The Event-B
//! Mathematical Language.
#![tactic(auto)]

pub mod extents;
pub mod limits;
pub mod list;
pub mod obligation;
pub mod shared;
pub mod strings;
pub mod symbols;
pub mod term_laws;
pub mod tree;
pub mod types;
pub mod values;

pub use extents::{Bounds, Extent};
pub use list::ListOf;
pub use obligation::ObKind;
pub use shared::Shared;
pub use strings::{Bytes, Name, Names};
pub use tree::{
    Tree, Trees, bounds_of, extent, instantiate_types, loose, make_lit, make_node, make_var, same,
    same_all, shift, shift_fits, substitute, substitute_fits, trees_extent, type_extent,
    type_params, types_extent, types_params,
};
pub use types::{Sym, Ty, Tys, binds, instantiate_list, instantiate_type};
pub use values::{NoMemory, Same, TryCopy};

/// Numbers, as those of theories.
pub type Ids = ListOf<u32>;

/// Numbers of lines, or those of a proof step.
pub type Nums = ListOf<u128>;

/// Where a node stands in a term: child numbers from 1, the first that of the root's child.
pub type Place = ListOf<u32>;
