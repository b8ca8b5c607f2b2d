ghost use Rattle.std.specs.Prelude.{◌≤◌, IsTrue, length};
ghost use Rattle.std.specs.List.{AllByRecursion};

use ev_congruence::Derivation;
use ev_kernel::{Line, infers};
use ev_terms::{NoMemory, Tree, TryCopy};
use ev_typing::{Env, Sequents};
use std::alloc::Global;

/// Whether each number is one of the first so many, from 1.
fn are_within(numbers: &[u128], count: usize) -> bool
    ensures { IsTrue result → AllByRecursion (λ n. (1 ≤ n) × (n ≤ count)) numbers.now }
{
    for number in numbers {
        if *number < 1 || *number > count as u128 {
            return false;
        }
    }
    true
}

/// Whether the line follows from earlier ones, over the environment that declares nothing.
fn follows(alloc: Global, earlier: &Sequents, line: &Line) -> Result<bool, NoMemory> {
    if !are_within(line.premises.as_slice(), earlier.len()) {
        return Ok(false);
    }
    let env = Env::new(alloc);
    let premises = &line.premises;
    infers(alloc, &env, earlier, premises, &line.rule, &line.sequent)
}

/// The number of the first line that does not follow from earlier ones.
pub fn failing(alloc: Global, lines: &Derivation) -> Result<Option<usize>, NoMemory> {
    let mut earlier = Sequents::new(alloc);
    for line in lines.as_slice() {
        let follows = follows(alloc, &earlier, line)?;
        earlier.push(alloc, line.sequent.try_copy(alloc)?)?;
        if !follows {
            return Ok(Some(earlier.len()));
        }
    }
    Ok(None)
}

/// The goal of the line with a number.
pub fn goal_of(lines: &Derivation, number: u128) -> Option<&Tree> {
    if number == 0 || number > lines.len() as u128 {
        return None;
    }
    match lines.as_slice().get((number - 1) as usize) {
        Some(line) => Some(&line.sequent.goal),
        None => None,
    }
}
