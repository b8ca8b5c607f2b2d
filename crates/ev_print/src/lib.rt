//! The canonical text of types and terms, which reads back. Source: Métayer and Voisin, The Event-B Mathematical Language, in outline.
#![tactic(auto)]

mod annotations;
mod buffer;
pub mod laws;
mod params;
pub mod styles;
pub mod terms;
pub mod type_texts;

pub use laws::text_reads_back;
pub use styles::Style;
pub use terms::print;
pub use type_texts::print_type;
