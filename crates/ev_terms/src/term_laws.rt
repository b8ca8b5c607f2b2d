ghost use Rattle.ev_terms.specs.Laws.{ShiftsCommute, ShiftsMerge, ShiftByZero, ShiftIsInst, InstsCompose, InstByVariables, InstReadsLoose, LiftsKeepBound, LiftsShiftOuter, LiftsAdd, EntryIsGiven, EntryPastFalls, SubstitutionsCompose, ShiftOfInst, InstOfShift, InstPastBinders, ShiftOfSubstitution, SubstitutionOfShift, SubstitutionUndoesShift, FillIsGiven, FillPastFalls, InstOfSubstitution, InstOfFill, ShiftOfFill, RetypeOfFill, RetypeOfShift, RetypeOfInst, InstanceOfSubstitution, RetypesCompose, TypeInstsCompose, InstancesCompose, TypeListsCompose, RetypeReadsParams, RetypeByParams, ClosedKeepsShift, ClosedKeepsInst, ClosedKeepsSubstitution, ClosedKeepsRetype, ClosedKeepsTypeInst, SizeOfShift, DepthOfShift, ParamsOfShift, LooseOfShift, LooseOfInst, DepthOfInst, HighestIsBounded, HighestOfShift, HighestOfSubstitution, SizeOfInst, ParamsOfInst, SizeOfRetype, SizeOfTypeInst, DepthOfRetype, DepthOfTypeInst, LooseOfRetype, HighestOfRetype, ParamsOfRetype, ParamsOfTypeInst};

/// Shifts commute, add up, and are substitutions of variables.
pub fn shift_laws()
    ensures commute { ShiftsCommute }
    ensures merge { ShiftsMerge }
    ensures by_zero { ShiftByZero }
    ensures is_inst { ShiftIsInst }
{}

/// Substitutions compose, and read the loose variables alone.
pub fn substitution_laws()
    ensures compose { InstsCompose }
    ensures by_variables { InstByVariables }
    ensures reads_loose { InstReadsLoose }
    ensures bound_stay { LiftsKeepBound }
    ensures outer_shifted { LiftsShiftOuter }
    ensures binders_add { LiftsAdd }
    ensures entry_given { EntryIsGiven }
    ensures entry_falls { EntryPastFalls }
    ensures lists_compose { SubstitutionsCompose }
{}

/// A shift goes into a substitution, and a substitution reads past a shift.
pub fn shift_and_substitution_laws()
    ensures shift_inst { ShiftOfInst }
    ensures inst_shift { InstOfShift }
    ensures past_binders { InstPastBinders }
    ensures shift_subst { ShiftOfSubstitution }
    ensures subst_shift { SubstitutionOfShift }
    ensures undone { SubstitutionUndoesShift }
{}

/// The first argument stands for the outermost variable, and all else goes into the arguments.
pub fn argument_laws()
    ensures given { FillIsGiven }
    ensures falls { FillPastFalls }
    ensures inst_subst { InstOfSubstitution }
    ensures inst_fill { InstOfFill }
    ensures shift_fill { ShiftOfFill }
    ensures retype_fill { RetypeOfFill }
{}

/// Type instances compose, and commute with shift and substitution.
pub fn type_instance_laws()
    ensures shift { RetypeOfShift }
    ensures inst { RetypeOfInst }
    ensures subst { InstanceOfSubstitution }
    ensures compose { RetypesCompose }
    ensures types_compose { TypeInstsCompose }
    ensures lists_compose { InstancesCompose }
    ensures type_lists_compose { TypeListsCompose }
    ensures reads_params { RetypeReadsParams }
    ensures by_params { RetypeByParams }
{}

/// What a term without loose variables or type parameters keeps.
pub fn closed_term_laws()
    ensures shift { ClosedKeepsShift }
    ensures inst { ClosedKeepsInst }
    ensures subst { ClosedKeepsSubstitution }
    ensures retype { ClosedKeepsRetype }
    ensures type_inst { ClosedKeepsTypeInst }
{}

/// What shift and substitution do to sizes, depths, type parameters and numbers of variables.
pub fn measure_laws()
    ensures size_shift { SizeOfShift }
    ensures depth_shift { DepthOfShift }
    ensures params_shift { ParamsOfShift }
    ensures loose_shift { LooseOfShift }
    ensures loose_inst { LooseOfInst }
    ensures depth_inst { DepthOfInst }
    ensures highest { HighestIsBounded }
    ensures highest_shift { HighestOfShift }
    ensures highest_subst { HighestOfSubstitution }
    ensures size_inst { SizeOfInst }
    ensures params_inst { ParamsOfInst }
{}

/// What a type instance does to them.
pub fn type_instance_measure_laws()
    ensures size { SizeOfRetype }
    ensures type_size { SizeOfTypeInst }
    ensures depth { DepthOfRetype }
    ensures type_depth { DepthOfTypeInst }
    ensures loose { LooseOfRetype }
    ensures highest { HighestOfRetype }
    ensures params { ParamsOfRetype }
    ensures type_params { ParamsOfTypeInst }
{}
