//! `unfold TERM` and `unfold_by TERM`, the second by bodies that are made once: the unfolded term. `unfold_all TERMS`: the unfolded
//! terms. `unfold_sequent TYPES TERMS |- TERM`: the unfolded sequent. `unfolded_extent TERM` and `extent TERM`, the second by weights
//! that are made once: size and depth of the unfolded term.
use cases_notation::fault::Fault;
use cases_notation::reading::{Items, read_items, read_tree, read_trees};
use cases_notation::text::Text;
use cases_notation::writing::{write_extent, write_tree, write_trees, write_types};
use ev_ops::{Bodies, OperatorWeights, unfold, unfold_sequent, unfolded_extent};
use ev_typing::{Env, Sequent};
use std::alloc::Global;

fn unfold_one(alloc: Global, out: &mut Text, env: &Env, text: &str) -> Result<(), Fault> {
    let tree = unfold(alloc, env, &read_tree(alloc, text)?)?;
    write_tree(alloc, out, &tree);
    Ok(())
}

fn unfold_by(alloc: Global, out: &mut Text, env: &Env, text: &str) -> Result<(), Fault> {
    let bodies = Bodies::of(alloc, env)?;
    let tree = bodies.unfold(alloc, &read_tree(alloc, text)?)?;
    write_tree(alloc, out, &tree);
    Ok(())
}

fn unfold_all(alloc: Global, out: &mut Text, env: &Env, text: &str) -> Result<(), Fault> {
    let bodies = Bodies::of(alloc, env)?;
    let trees = read_trees(alloc, text)?;
    let all = bodies.unfold_all(alloc, trees.as_slice())?;
    write_trees(alloc, out, all.as_slice());
    Ok(())
}

/// The types of the context and the hypotheses, `|-`, and the goal.
fn read_sequent(alloc: Global, text: &str) -> Result<Sequent, Fault> {
    let (before, goal) = text.split_once("|- ").ok_or(Fault::NoCase)?;
    let Items { types, trees } = read_items(alloc, before)?;
    Ok(Sequent {
        context: types,
        hyps: trees,
        goal: read_tree(alloc, goal)?,
    })
}

fn unfold_whole(alloc: Global, out: &mut Text, env: &Env, text: &str) -> Result<(), Fault> {
    let sequent = unfold_sequent(alloc, env, &read_sequent(alloc, text)?)?;
    write_types(alloc, out, &sequent.context);
    write_trees(alloc, out, sequent.hyps.as_slice());
    out.word("|-");
    write_tree(alloc, out, &sequent.goal);
    Ok(())
}

fn extent(alloc: Global, out: &mut Text, env: &Env, text: &str) -> Result<(), Fault> {
    let tree = read_tree(alloc, text)?;
    write_extent(out, unfolded_extent(alloc, env, &tree)?);
    Ok(())
}

fn extent_by(alloc: Global, out: &mut Text, env: &Env, text: &str) -> Result<(), Fault> {
    let weights = OperatorWeights::of(alloc, env)?;
    let tree = read_tree(alloc, text)?;
    write_extent(out, weights.extent(alloc, &tree));
    Ok(())
}

/// Whether the case is one of these, and then its answer.
pub fn answer(
    alloc: Global,
    out: &mut Text,
    env: &Env,
    case: &str,
    rest: &str,
) -> Result<bool, Fault> {
    match case {
        "unfold" => unfold_one(alloc, out, env, rest)?,
        "unfold_by" => unfold_by(alloc, out, env, rest)?,
        "unfold_all" => unfold_all(alloc, out, env, rest)?,
        "unfolded_extent" => extent(alloc, out, env, rest)?,
        "extent" => extent_by(alloc, out, env, rest)?,
        "unfold_sequent" => unfold_whole(alloc, out, env, rest)?,
        _ => return Ok(false),
    }
    Ok(true)
}
