//! Terms by their forms: the base symbols by name, terms that are made of them, and what a term is made of. Source: Métayer and Voisin,
//! The Event-B Mathematical Language.
#![tactic(auto)]

pub mod connectives;
pub mod forms;

pub use connectives::{
    Connective, is_falsity, is_truth, joined_parts, make_falsity, make_joined, make_negation,
    make_truth,
};
pub use forms::{
    Binder, Relation, bool_part, bound_parts, equation_parts, is_true_value, make_bool, make_bound,
    make_related, make_true_value, negated_part, node_parts, related_parts,
};
