//! What steps do to goals, and how replays end.
use ev_typing::Sequents;

/// What a step does to a goal: it gives subgoals in order, leaves it, or does not fit.
#[derive(Drop)]
pub enum Applied {
    Goals(Sequents),
    Left,
    Refused,
}

/// How a replay ends: no goal is left, so many are left, or the step with this number, from 1, is broken.
#[derive(Debug, Clone, Copy, PartialEq, Eq, Drop)]
pub enum Outcome {
    Complete,
    Partial(u128),
    Broken(u64),
}
