//! Scripts: the events that their units are, and a script that is generated. The notation is this project's own.
#![tactic(auto)]

mod bodies;
mod events;
mod faults;
mod generator;
mod heads;
mod lines;
mod sequent_names;
mod units;

pub use events::{Event, Events};
pub use faults::ScriptFault;
pub use generator::generate;
pub use sequent_names::{SeqName, sequent_name};
pub use units::{read_script, script_laws};
