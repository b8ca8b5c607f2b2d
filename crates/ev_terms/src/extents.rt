/// How large a type, a term or a sequent is: its number of nodes, and the number of nodes on its longest path. Both numbers stand
/// still at the end of their type.
#[derive(Debug, Clone, Copy, PartialEq, Eq)]
pub struct Extent {
    pub size: u64,
    pub depth: u64,
}

/// What a node keeps of its term: one more than the greatest loose variable, the size and the depth, which stand still at the end of
/// their type, and one more than the greatest type parameter.
#[derive(Debug, Clone, Copy, PartialEq, Eq)]
pub struct Bounds {
    pub loose: u64,
    pub size: u64,
    pub depth: u64,
    pub params: u64,
}
