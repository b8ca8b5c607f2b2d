ghost use Rattle.std.specs.Prelude.{◌≤◌, IfOk, length};
ghost use Rattle.std.specs.List.{AllByRecursion};

use cases_notation::fault::Fault;
use ev_kernel::{BaseRule, Line, concludes, infers};
use ev_terms::{NoMemory, Nums, TryCopy};
use ev_typing::{Env, Sequent, Sequents};
use std::alloc::Global;

/// The numbers from 1 on.
fn numbers(alloc: Global, count: usize) -> Result<Nums, NoMemory>
    ensures { IfOk result (AllByRecursion (λ n. (1 ≤ n) × (n ≤ count))) }
{
    let mut numbers = Nums::new(alloc);
    for i in 0..count {
        numbers.push(alloc, i as u128 + 1)?;
    }
    Ok(numbers)
}

/// Whether what a copy of the line says follows.
fn copy_follows(alloc: Global, env: &Env, earlier: &Sequents, line: &Line) -> Result<bool, NoMemory>
    requires { AllByRecursion (λ n. (1 ≤ n) × (n ≤ length earlier.now)) line.now.premises }
{
    let copy = line.try_copy(alloc)?;
    infers(
        alloc,
        env,
        earlier,
        &line.premises,
        &copy.rule,
        &copy.sequent,
    )
}

/// Whether the sequent follows from all the earlier ones.
fn line_follows(
    alloc: Global,
    env: &Env,
    earlier: &Sequents,
    rule: BaseRule,
    sequent: Sequent,
) -> Result<bool, NoMemory> {
    let premises = numbers(alloc, earlier.len())?;
    let line = Line {
        sequent,
        rule,
        premises,
    };
    copy_follows(alloc, env, earlier, &line)
}

/// Whether the last of the sequents follows from the other ones.
pub fn last_follows(
    alloc: Global,
    env: &Env,
    rule: BaseRule,
    sequents: Sequents,
) -> Result<bool, Fault> {
    let mut earlier = sequents.into_vec();
    match earlier.pop() {
        Some(last) => {
            let earlier = Sequents::from_vec(earlier);
            Ok(line_follows(alloc, env, &earlier, rule, last)?)
        }
        None => Err(Fault::NoCase),
    }
}

/// Whether the only sequent is a conclusion of the rule without premises.
pub fn only_concludes(
    alloc: Global,
    env: &Env,
    rule: &BaseRule,
    sequents: &Sequents,
) -> Result<bool, Fault> {
    match sequents.as_slice() {
        [only] => Ok(concludes(alloc, env, rule, only)?),
        _ => Err(Fault::NoCase),
    }
}
