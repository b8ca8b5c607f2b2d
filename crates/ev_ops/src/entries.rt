//! The environments that the elements of theories make.
ghost use Rattle.std.specs.Prelude.{◌≡◌, ◌++◌, ◌∷◌, [], IfOk, OnOk};
ghost use Rattle.ev_typing.specs.WellFormed.{IsWellFormed};
ghost use Rattle.ev_ops.specs.Unfold.{bodies_after};
ghost use Rattle.ev_ops.specs.Entries.{entry_by, entry_of, with_element, env_of};

use crate::kept_bodies::Bodies;
use ev_rules::{Element, Elements};
use ev_terms::{NoMemory, Tree, TryCopy};
use ev_typing::{Entry, Env};
use std::alloc::Global;

/// The entry that an element makes over the environment, or nothing where it makes none. For a recursive operator it makes the bodies
/// of the environment first: where many elements follow one another, keep `Bodies` and ask `entry_by`.
#[tactic(auto, using(crate::proofs::Making::entries))]
pub fn entry_of(alloc: Global, env: &Env, element: &Element) -> Result<Option<Entry>, NoMemory>
    ensures { IfOk result (λ e. e ≡ entry_of env.now element.now) }
{
    match element {
        Element::Recursive(_, _, _, _) => {
            let bodies = Bodies::of(alloc, env)?;
            entry_by(alloc, &bodies, element)
        }
        _ => entry_by(alloc, &Bodies::new(alloc), element),
    }
}

/// The entry that an element makes, with the bodies of a recursive operator unfolded by these.
#[tactic(auto, using(crate::proofs::Making::entries))]
pub fn entry_by(
    alloc: Global,
    bodies: &Bodies,
    element: &Element,
) -> Result<Option<Entry>, NoMemory>
    ensures { IfOk result (λ e. e ≡ entry_by bodies.now element.now) }
{
    match element {
        Element::Data(decl) => Ok(Some(Entry::Data(decl.try_copy(alloc)?))),
        Element::Constant(signature, condition) => {
            let condition = copied(alloc, condition)?;
            Ok(Some(Entry::Constant(signature.try_copy(alloc)?, condition)))
        }
        Element::Direct(signature, condition, body) => {
            let condition = copied(alloc, condition)?;
            let body = body.try_copy(alloc)?;
            Ok(Some(Entry::Direct(signature.try_copy(alloc)?, condition, body)))
        }
        Element::Recursive(signature, condition, place, trees) => {
            let condition = copied(alloc, condition)?;
            let trees = bodies.unfold_all(alloc, trees.as_slice())?;
            Ok(Some(Entry::Recursive(signature.try_copy(alloc)?, condition, *place, trees)))
        }
        _ => Ok(None),
    }
}

fn copied(alloc: Global, condition: &Option<Tree>) -> Result<Option<Tree>, NoMemory>
    ensures { IfOk result (λ copy. copy ≡ condition.now) }
{
    match condition {
        Some(tree) => Ok(Some(tree.try_copy(alloc)?)),
        None => Ok(None),
    }
}

/// The environment that the elements make in their order. Each body is unfolded once: linear in the elements and in what they unfold to.
#[tactic(auto, using(crate::proofs::Making::elements))]
pub fn env_of(alloc: Global, elements: &Elements) -> Result<Env, NoMemory>
    requires { IsWellFormed (env_of elements.now) }
    ensures { IfOk result (λ e. e ≡ env_of elements.now) }
{
    let mut env = Env::new(alloc);
    let mut bodies = Bodies::new(alloc);
    for element in elements.as_slice() {
        add_element(alloc, &mut env, &mut bodies, element.get())?;
    }
    Ok(env)
}

/// One more element, where the bodies are those of the environment. Both grow by what the element declares.
#[tactic(auto, using(crate::proofs::Making::single))]
pub fn add_element(
    alloc: Global,
    env: &mut Env,
    bodies: &mut Bodies,
    element: &Element,
) -> Result<(), NoMemory>
    requires known { bodies.old ≡ bodies_after [] env.old }
    requires well_formed { IsWellFormed (with_element env.old element.now) }
    ensures env { OnOk result (env.new ≡ with_element env.old element.now) }
    ensures bodies { OnOk result (bodies.new ≡ bodies_after [] (with_element env.old element.now)) }
{
    match entry_by(alloc, bodies, element)? {
        Some(entry) => add_entry(alloc, env, bodies, entry),
        None => Ok(()),
    }
}

/// One more entry, with its body where it has one.
#[tactic(auto, using(crate::proofs::Making::single))]
fn add_entry(
    alloc: Global,
    env: &mut Env,
    bodies: &mut Bodies,
    entry: Entry,
) -> Result<(), NoMemory>
    requires known { bodies.old ≡ bodies_after [] env.old }
    requires well_formed { IsWellFormed (env.old ++ entry ∷ []) }
    ensures env { OnOk result (env.new ≡ env.old ++ entry ∷ []) }
    ensures bodies { OnOk result (bodies.new ≡ bodies_after [] (env.old ++ entry ∷ [])) }
{
    bodies.add(alloc, &entry)?;
    env.add(alloc, entry)
}
