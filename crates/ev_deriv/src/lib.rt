//! Derivations as text. Source of the rules: Gentzen, Untersuchungen über das logische Schließen. The notation is this project's own.
#![tactic(auto)]

mod fields;
mod header_lines;
mod laws;
mod rule_lines;
mod verdicts;

pub use header_lines::header_text;
pub use laws::derivation_text_laws;
pub use rule_lines::line_text;
pub use verdicts::{Verdict, verify};
