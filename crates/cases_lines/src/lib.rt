//! Lines of cases, with escapes for what a line cannot hold.
#![tactic(auto)]

mod bytes;
mod repeats;

pub use bytes::unescaped;
