//! The environment that the programs of cases share: lists with their length, and trees.
#![tactic(auto)]

pub mod samples;
