//! Imports between theories, which are numbers here: the walk that a cycle of imports takes, and the theories that a theory
//! reaches. Source: Butler and Maamria, Practical Theory Extension in Event-B.
#![tactic(auto)]

mod cycle;
mod lists;
mod reached;

pub use cycle::first_cycle;
use ev_terms::{Ids, ListOf};
pub use reached::reach;

/// For each number the list of the numbers that it imports, in order.
pub type Graph = ListOf<Ids>;

/// For each number whether it is deployed.
pub type Flags = ListOf<bool>;
