//! The names of an element's variables.
ghost use Rattle.std.specs.Prelude.{◌≡◌, ◌++◌, reverse, IfOk, OnOk};
ghost use Rattle.ev_elab.specs.Parts.{arg_names, but, case_names};

use ev_terms::{Name, NoMemory, TryCopy};
use ev_theory_text::forms::RawArg;
use std::alloc::Global;

/// The names of arguments, in order.
#[tactic(auto, using(crate::proofs::Binding::lists))]
pub(crate) fn arg_names(alloc: Global, args: &[RawArg]) -> Result<Vec<Name>, NoMemory>
    ensures { IfOk result (λ names. names.items ≡ arg_names args.now) }
{
    let mut names = Vec::new(alloc);
    for arg in args {
        names.push(arg.name.try_copy(alloc)?)?;
    }
    Ok(names)
}

/// The names of a case's variables: the arguments, with these in place of the one that BY names.
#[tactic(auto, using(crate::proofs::Binding::cases))]
pub(crate) fn case_names(
    alloc: Global,
    by: &Name,
    vars: &[Name],
    args: &[Name],
) -> Result<Vec<Name>, NoMemory>
    ensures { IfOk result (λ names. names.items ≡ case_names by.now vars.now args.now) }
{
    let mut names = Vec::new(alloc);
    for i in 0..args.len() {
        if *by == args[i] {
            push_all(alloc, &mut names, vars)?;
            push_but(alloc, &mut names, by, &args[i + 1..])?;
            return Ok(names);
        }
        names.push(args[i].try_copy(alloc)?)?;
    }
    push_all(alloc, &mut names, vars)?;
    Ok(names)
}

#[tactic(auto, using(crate::proofs::Binding::lists))]
pub(crate) fn push_all(alloc: Global, names: &mut Vec<Name>, more: &[Name]) -> Result<(), NoMemory>
    ensures { OnOk result (names.new.items ≡ names.old.items ++ more.now) }
{
    for name in more {
        names.push(name.try_copy(alloc)?)?;
    }
    Ok(())
}

/// Appends the names but for one.
#[tactic(auto, using(crate::proofs::Binding::lists))]
pub(crate) fn push_but(
    alloc: Global,
    names: &mut Vec<Name>,
    by: &Name,
    more: &[Name],
) -> Result<(), NoMemory>
    ensures { OnOk result (names.new.items ≡ names.old.items ++ but by.now more.now) }
{
    for name in more {
        if *by != *name {
            names.push(name.try_copy(alloc)?)?;
        }
    }
    Ok(())
}

/// The names from the last to the first.
#[tactic(auto, using(crate::proofs::Binding::backwards))]
pub(crate) fn backwards(alloc: Global, names: &[Name]) -> Result<Vec<Name>, NoMemory>
    ensures { IfOk result (λ back. reverse back.items ≡ names.now) }
{
    let mut back = Vec::new(alloc);
    let mut left = names.len();
    'names: while left > 0 {
        left -= 1;
        back.push(names[left].try_copy(alloc)?)?;
    }
    Ok(back)
}
