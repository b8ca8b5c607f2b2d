//! The limits that are stated for what is read and made.

/// How deep a formula or a type of a theory or a proof may be nested.
pub const NESTING_LIMIT: u32 = 200;

/// The greatest size of a formula, an obligation or a goal.
pub const SIZE_LIMIT: u64 = 65536;

/// The greatest depth of a formula, an obligation or a goal, unfolded or not.
pub const DEPTH_LIMIT: u64 = 512;

/// The greatest size of a formula that is unfolded.
pub const UNFOLDED_SIZE_LIMIT: u64 = 16384;

/// How many bytes an input may have.
pub const INPUT_LIMIT: u64 = 16777216;

/// The greatest depth of a tree in a derivation text.
pub const DERIVATION_DEPTH_LIMIT: u64 = 1024;

/// How deep a formula or a type of a derivation text may be nested.
pub const DERIVATION_NESTING_LIMIT: u32 = 2048;
