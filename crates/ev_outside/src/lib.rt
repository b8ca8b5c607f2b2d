//! What the program reads from and writes to, and steps that are counted. A source or a sink may tell its bytes to contracts, and
//! counts its faults, so that each refusal has a cause that contracts see.
#![tactic(auto)]

pub mod counting;
pub mod memory;
mod numbered;
pub mod reading;
pub mod standard;
mod store;
pub mod writing;

pub use counting::Steps;
pub use memory::{MemSink, MemSource, SureSink, SureSource};
pub use reading::{Failed, ReadFault, Source, read_all};
pub use standard::{StdSink, StdSource};
pub use writing::{Sink, SinkStop, write_all};
