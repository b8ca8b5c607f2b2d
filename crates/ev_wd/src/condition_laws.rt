//! The laws of well-definedness conditions.
ghost use Rattle.ev_wd.specs.ConditionLaws.{ConditionIsTyped, ConditionOfShift, ConditionOfSubstitution, ConditionOfInstance, ConditionOverWhole};

/// The condition of a typed term is a predicate in the same context.
pub fn condition_is_typed()
    ensures { ConditionIsTyped }
{}

/// A shift goes into the condition.
pub fn condition_of_shift()
    ensures { ConditionOfShift }
{}

/// A substitution of terms that are always defined, none of them `true`, goes into the condition.
pub fn condition_of_substitution()
    ensures { ConditionOfSubstitution }
{}

/// Types go into the condition.
pub fn condition_of_type_instance()
    ensures { ConditionOfInstance }
{}

/// A larger environment does not change the condition.
pub fn wholes_keep_conditions()
    ensures { ConditionOverWhole }
{}
