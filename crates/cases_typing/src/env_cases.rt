//! Cases of environments, of types over them and of sequents.
use crate::samples::environment;
use cases_notation::fault::Fault;
use cases_notation::reading::{read_tree, read_trees, read_type, read_types};
use cases_notation::text::Text;
use cases_notation::words::{place, text_of};
use cases_notation::writing::{write_extent, write_optional};
use ev_terms::{Name, NoMemory, Same, Tree, Trees, TryCopy, Tys};
use ev_typing::{
    Entry, Env, Sequent, are_proper, has_type, have_types_at, is_base_sequent, is_plain, is_proper,
    is_sequent, sequent_extent, type_of,
};
use std::alloc::Global;

/// How many types are asked for one by one.
const TYPES_LIMIT: usize = 10;

/// Terms in a context over an environment.
#[derive(Drop)]
struct Setting {
    env: Env,
    context: Tys,
    trees: Trees,
}

fn read_setting(alloc: Global, env: &str, context: &str, trees: &str) -> Result<Setting, Fault> {
    Ok(Setting {
        env: environment(alloc, env)?,
        context: read_types(alloc, context)?,
        trees: read_trees(alloc, trees)?,
    })
}

impl Setting {
    /// The only term.
    fn tree(&self) -> Result<&Tree, Fault> {
        match self.trees.as_slice() {
            [only] => Ok(only),
            _ => Err(Fault::NoCase),
        }
    }
}

/// How many entries an environment has, and whether it declares a name, and a datatype by it.
fn write_declared(out: &mut Text, env: &Env, name: &Name) {
    out.named("entries", env.count() as u64);
    out.test("declared", env.symbol(name).is_some());
    out.test("datatype", env.datatype(name).is_some());
}

fn declared(alloc: Global, out: &mut Text, env: &str, name: &str) -> Result<(), Fault> {
    let name = Name::from_slice(alloc, name.trim().as_bytes())?;
    let env = environment(alloc, env)?.try_copy(alloc)?;
    write_declared(out, &env, &name);
    Ok(())
}

fn name_of(entry: &Entry) -> &Name {
    match entry {
        Entry::Data(data) => &data.name,
        Entry::Constant(signature, _) => &signature.name,
        Entry::Direct(signature, _, _) => &signature.name,
        Entry::Recursive(signature, _, _, _) => &signature.name,
    }
}

/// The name of an entry, and whether its copy is the same.
fn write_entry(alloc: Global, out: &mut Text, entry: &Entry) -> Result<(), NoMemory> {
    out.word(text_of(name_of(entry).as_slice()));
    let copy = entry.try_copy(alloc)?;
    out.test("copied", copy.same(entry));
    Ok(())
}

/// The entry at a place from 0.
fn entry(alloc: Global, out: &mut Text, env: &str, at: &str) -> Result<(), Fault> {
    let at = place(at)?;
    let env = environment(alloc, env)?;
    match env.entry(at) {
        Some(entry) => write_entry(alloc, out, entry)?,
        None => out.word("none"),
    }
    Ok(())
}

/// Whether types are proper, all of them, and each.
fn write_proper(out: &mut Text, env: &Env, types: &Tys) {
    out.test("all", are_proper(env, types));
    for i in 0..TYPES_LIMIT {
        if let Some(ty) = types.get(i) {
            out.test("proper", is_proper(env, ty));
        }
    }
}

fn proper(alloc: Global, out: &mut Text, env: &str, types: &str) -> Result<(), Fault> {
    let setting = read_setting(alloc, env, types, "")?;
    write_proper(out, &setting.env, &setting.context);
    Ok(())
}

fn plain(alloc: Global, out: &mut Text, env: &str, tree: &str) -> Result<(), Fault> {
    let setting = read_setting(alloc, env, "", tree)?;
    out.test("plain", is_plain(&setting.env, setting.tree()?));
    Ok(())
}

/// The type of a term in a context, where the type of the outermost variable stands first.
fn type_in(
    alloc: Global,
    out: &mut Text,
    env: &str,
    context: &str,
    tree: &str,
) -> Result<(), Fault> {
    let setting = read_setting(alloc, env, context, tree)?;
    let ty = type_of(alloc, &setting.env, &setting.context, setting.tree()?)?;
    write_optional(alloc, out, ty.as_ref());
    Ok(())
}

/// Whether a term has the type of a text.
fn write_typed(alloc: Global, out: &mut Text, setting: &Setting, ty: &str) -> Result<(), Fault> {
    let ty = read_type(alloc, ty)?;
    let typed = has_type(alloc, &setting.env, &setting.context, setting.tree()?, &ty)?;
    out.test("typed", typed);
    Ok(())
}

/// Whether terms have the types of a list, with types put for its parameters.
fn write_all_typed(
    alloc: Global,
    out: &mut Text,
    setting: &Setting,
    list: &str,
    types: &str,
) -> Result<(), Fault> {
    let (list, types) = (read_types(alloc, list)?, read_types(alloc, types)?);
    let Setting {
        env,
        context,
        trees,
    } = setting;
    let typed = have_types_at(alloc, env, context, trees.as_slice(), &list, &types)?;
    out.test("typed", typed);
    Ok(())
}

/// A sequent whose hypotheses are the terms of the setting.
fn sequent_of(alloc: Global, setting: &Setting, goal: Tree) -> Result<Sequent, NoMemory> {
    Ok(Sequent {
        context: setting.context.try_copy(alloc)?,
        hyps: setting.trees.try_copy(alloc)?,
        goal,
    })
}

/// Whether a sequent is well typed, whether it is one without direct operators, and how large it is.
fn write_sequent(
    alloc: Global,
    out: &mut Text,
    env: &Env,
    sequent: &Sequent,
) -> Result<(), NoMemory> {
    out.test("sequent", is_sequent(alloc, env, sequent)?);
    out.test("base", is_base_sequent(alloc, env, sequent)?);
    write_extent(out, sequent_extent(sequent));
    Ok(())
}

fn sequent(alloc: Global, out: &mut Text, setting: &Setting, goal: &str) -> Result<(), Fault> {
    let sequent = sequent_of(alloc, setting, read_tree(alloc, goal)?)?;
    let copy = sequent.try_copy(alloc)?;
    write_sequent(alloc, out, &setting.env, &copy)?;
    out.test("same", copy.same(&sequent));
    Ok(())
}

fn answer_two(
    alloc: Global,
    out: &mut Text,
    case: &str,
    env: &str,
    text: &str,
) -> Result<(), Fault> {
    match case {
        "declared" => declared(alloc, out, env, text),
        "entry" => entry(alloc, out, env, text),
        "proper" => proper(alloc, out, env, text),
        "plain" => plain(alloc, out, env, text),
        _ => Err(Fault::NoCase),
    }
}

fn answer_four(
    alloc: Global,
    out: &mut Text,
    case: &str,
    setting: &Setting,
    text: &str,
) -> Result<(), Fault> {
    match case {
        "typed" => write_typed(alloc, out, setting, text),
        "sequent" => sequent(alloc, out, setting, text),
        _ => Err(Fault::NoCase),
    }
}

/// The answer of a case of environments.
pub fn answer(alloc: Global, out: &mut Text, case: &str, fields: &[&str]) -> Result<(), Fault> {
    match fields {
        [env, text] => answer_two(alloc, out, case, *env, *text),
        [env, context, tree] => match case {
            "type" => type_in(alloc, out, *env, *context, *tree),
            _ => Err(Fault::NoCase),
        },
        [env, context, trees, text] => {
            let setting = read_setting(alloc, *env, *context, *trees)?;
            answer_four(alloc, out, case, &setting, *text)
        }
        [env, context, trees, list, types] => {
            let setting = read_setting(alloc, *env, *context, *trees)?;
            write_all_typed(alloc, out, &setting, *list, *types)
        }
        _ => Err(Fault::NoCase),
    }
}
