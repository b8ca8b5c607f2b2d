/// Which proof obligation of an element a sequent is: that a theorem holds, that a formula is well defined, that a rule is sound,
/// that the branches of a rewrite rule cover all cases. A number counts constructors or branches, from 1. Source: Butler and
/// Maamria, Practical Theory Extension in Event-B.
#[derive(Debug, Clone, Copy, PartialEq, Eq)]
pub enum ObKind {
    Thm,
    Wd,
    WdOf(u32),
    Sound,
    SoundOf(u32),
    Complete,
}
