//! What a declared symbol asks beside the conditions of its children.
ghost use Rattle.std.specs.Prelude.{◌≡◌, ◌≤◌, ◌++◌, [], ◌∷◌, map, flat_map, find, reverse, bytes_eq, if◌then◌else◌, IfOk, Err};
ghost use Rattle.std.specs.Option.{option_copied};
ghost use Rattle.std.specs.List.{list_any};
ghost use Rattle.ev_terms.specs.Term.{Term, node, terms};
ghost use Rattle.ev_terms.specs.Measures.{all_loose};
ghost use Rattle.ev_terms.specs.declared.types.Sym.TheVariants.{User};
ghost use Rattle.ev_terms.specs.Substitution.{fill, instance, type_inst, type_at};
ghost use Rattle.ev_typing.specs.declared.typing.Var.{Var};
ghost use Rattle.ev_typing.specs.Env.{look_up, symbols, con_symbols, find_symbol};
ghost use Rattle.ev_forms.specs.Forms.{exists_all, vars};
ghost use Rattle.ev_wd.specs.Limits.{IsSmall};
ghost use Rattle.ev_wd.specs.Makers.{joined_after};
ghost use Rattle.ev_wd.specs.WellDefined.{is_made_by, parts_of_condition, parts_of_destructor, parts_of_symbol};
ghost use Rattle.ev_wd.specs.inner.Destructors.{destructed};
ghost use Rattle.ev_wd.specs.declared.faults.WdFault.TheVariants.{TooLarge};

use crate::faults::WdFault;
use crate::filled::filled_extent;
use crate::limits::{is_small, is_within};
use crate::parts::{one_part, only_of};
use ev_forms::{Binder, Relation, make_bound, make_related};
use ev_terms::limits::DEPTH_LIMIT;
use ev_terms::{
    Name, NoMemory, Sym, Tree, Trees, TryCopy, Ty, Tys, instantiate_type, instantiate_types, loose,
    make_node, make_var, shift, shift_fits, substitute,
};
use ev_typing::{Con, DataDecl, Entry, Env, Signature, Var};
use std::alloc::Global;

/// The variables of the n innermost binders, the outermost first.
#[tactic(auto, using(crate::proofs::Destructing::variables))]
fn make_vars(alloc: Global, n: u32) -> Result<Trees, NoMemory>
    ensures { IfOk result (λ ts. ts ≡ vars n) }
{
    let mut all = Trees::new(alloc);
    let mut left = n;
    while left > 0 {
        left -= 1;
        all.push(alloc, make_var(alloc, left)?)?;
    }
    Ok(all)
}

/// `#xs. P`, the variables being those of a constructor's fields.
fn bind_fields(alloc: Global, fields: &[Var], types: &Tys, body: Tree) -> Result<Tree, NoMemory>
    ensures { IfOk result (λ t. t ≡ exists_all (map (type_inst (type_at types.now)) (map (λ (f : Var). f.ty) fields.now)) body) }
{
    match fields {
        [] => Ok(body),
        [first, rest @ ..] => {
            let inner = bind_fields(alloc, rest, types, body)?;
            make_bound(
                alloc,
                Binder::ForSome,
                instantiate_type(alloc, &first.ty, types)?,
                inner,
            )
        }
    }
}

/// `#xs. e = c(xs)`. A value with a variable too near 2^32 to be raised by the number of fields is answered as want of memory.
#[tactic(auto, using(crate::proofs::Destructing::made))]
fn is_made_by(
    alloc: Global,
    name_of: &Name,
    con: &Con,
    types: &Tys,
    value: &Tree,
) -> Result<Tree, WdFault>
    ensures found { IfOk result (λ t. t ≡ is_made_by name_of.now con.now types.now value.now) }
    ensures large { result ≡ Err TooLarge → ¬ IsSmall (is_made_by name_of.now con.now types.now value.now) }
{
    let fields = con.fields.as_slice();
    if fields.len() as u64 > DEPTH_LIMIT || !is_small(value) {
        return Err(WdFault::TooLarge);
    }
    let count = fields.len() as u32;
    if !shift_fits(value, 0, count) {
        return Err(WdFault::NoMemory);
    }
    let raised = shift(alloc, value, 0, count)?;
    let sym = Sym::User(con.name.try_copy(alloc)?);
    let made = make_node(alloc, sym, types.try_copy(alloc)?, make_vars(alloc, count)?)?;
    let ty = Ty::Data(name_of.try_copy(alloc)?, types.try_copy(alloc)?);
    let equal = make_related(alloc, Relation::Equal, ty, raised, made)?;
    Ok(bind_fields(alloc, fields, types, equal)?)
}

/// The terms from the last to the first.
#[tactic(auto, using(crate::proofs::Destructing::backwards))]
fn reversed(alloc: Global, trees: &[Tree]) -> Result<Trees, NoMemory>
    ensures { IfOk result (λ ts. ts ≡ reverse trees.now) }
{
    let mut all = Trees::new(alloc);
    let mut left = trees.len();
    while left > 0 {
        left -= 1;
        all.push(alloc, trees[left].try_copy(alloc)?)?;
    }
    Ok(all)
}

/// One more than the greatest variable of the terms that reaches outside, or 0.
#[tactic(auto, using(crate::proofs::Filling::greatest))]
fn greatest_loose(trees: &[Tree]) -> u64
    ensures is { result ≡ all_loose (terms trees.now) }
    ensures small { result ≤ 4294967296 }
{
    let mut greatest = 0;
    for tree in trees {
        greatest = greatest.max(loose(tree));
    }
    greatest
}

/// The condition of an operator with types and arguments put in. An argument with a variable that is nearer to 2^32 than the condition
/// is deep is answered as want of memory.
#[tactic(auto, using(crate::proofs::Filling::conditions))]
fn condition_at(
    alloc: Global,
    condition: &Tree,
    types: &Tys,
    children: &[Tree],
) -> Result<Tree, WdFault>
    ensures found { IfOk result (λ t. t ≡ fill (instance condition.now types.now) children.now) }
    ensures large { result ≡ Err TooLarge → ¬ IsSmall (fill (instance condition.now types.now) children.now) }
{
    let instance = instantiate_types(alloc, condition, types)?;
    let entries = reversed(alloc, children)?;
    let extent = filled_extent(&instance, 0, entries.as_slice());
    if !is_within(extent) {
        return Err(WdFault::TooLarge);
    }
    let greatest = loose(&instance).max(greatest_loose(entries.as_slice()));
    if greatest + extent.depth > 1 << 32 {
        return Err(WdFault::NoMemory);
    }
    Ok(substitute(alloc, &instance, &entries)?)
}

/// What an operator or a constant asks: its condition, where it has one.
#[tactic(auto, using(crate::proofs::Making::parts))]
fn condition_parts(
    alloc: Global,
    condition: &Option<Tree>,
    types: &Tys,
    children: &[Tree],
) -> Result<Trees, WdFault>
    ensures found { IfOk result (λ ts. ts ≡ parts_of_condition condition.now types.now children.now) }
    ensures large { result ≡ Err TooLarge → (P : Term) → ¬ IsSmall (joined_after P (parts_of_condition condition.now types.now children.now)) }
{
    match condition {
        Some(tree) => {
            let part = condition_at(alloc, tree, types, children)?;
            Ok(one_part(alloc, part)?)
        }
        None => Ok(Trees::new(alloc)),
    }
}

/// The same, where the operator or the constant has the name.
fn named_parts(
    alloc: Global,
    signature: &Signature,
    condition: &Option<Tree>,
    name: &Name,
    types: &Tys,
    children: &[Tree],
) -> Result<Trees, WdFault>
    ensures found { IfOk result (λ ts. ts ≡ (if bytes_eq signature.now.name name.now then parts_of_condition condition.now types.now children.now else [])) }
    ensures large { result ≡ Err TooLarge → (P : Term) → ¬ IsSmall (joined_after P (if bytes_eq signature.now.name name.now then parts_of_condition condition.now types.now children.now else [])) }
{
    if signature.name == *name {
        condition_parts(alloc, condition, types, children)
    } else {
        Ok(Trees::new(alloc))
    }
}

/// Whether the constructor has a destructor of the name.
#[tactic(auto, using(crate::proofs::Destructing::found))]
fn has_destructor(con: &Con, name: &Name) -> bool
    ensures { result ≡ list_any (λ (f : Var). bytes_eq f.name name.now) con.now.fields }
{
    for field in con.fields.as_slice() {
        if field.name == *name {
            return true;
        }
    }
    false
}

/// The constructor that the destructor of the name takes apart: none where the name is no destructor of the datatype.
#[tactic(auto, using(crate::proofs::Destructing::found))]
fn destructed<'a>(decl: &'a DataDecl, name: &Name) -> Option<&'a Con>
    ensures { option_copied result ≡ destructed (look_up (flat_map (con_symbols decl.now) decl.now.cons) name.now) }
{
    for con in decl.cons.as_slice() {
        if con.name == *name {
            return None;
        }
        if has_destructor(con, name) {
            return Some(con);
        }
    }
    None
}

/// What a destructor of the name asks.
#[tactic(auto, using(crate::proofs::Destructing::asked))]
fn destructor_parts(
    alloc: Global,
    decl: &DataDecl,
    name: &Name,
    types: &Tys,
    children: &[Tree],
) -> Result<Trees, WdFault>
    ensures found { IfOk result (λ ts. ts ≡ parts_of_symbol (look_up (flat_map (con_symbols decl.now) decl.now.cons) name.now) types.now children.now) }
    ensures large { result ≡ Err TooLarge → (P : Term) → ¬ IsSmall (joined_after P (parts_of_symbol (look_up (flat_map (con_symbols decl.now) decl.now.cons) name.now) types.now children.now)) }
{
    match destructed(decl, name) {
        Some(con) => made_parts(alloc, &decl.name, con, types, children),
        None => Ok(Trees::new(alloc)),
    }
}

#[tactic(auto, using(crate::proofs::Destructing::children))]
fn made_parts(
    alloc: Global,
    name_of: &Name,
    con: &Con,
    types: &Tys,
    children: &[Tree],
) -> Result<Trees, WdFault>
    ensures found { IfOk result (λ ts. ts ≡ parts_of_destructor name_of.now con.now types.now children.now) }
    ensures large { result ≡ Err TooLarge → (P : Term) → ¬ IsSmall (joined_after P (parts_of_destructor name_of.now con.now types.now children.now)) }
{
    match only_of(children) {
        Some(value) => {
            let part = is_made_by(alloc, name_of, con, types, value)?;
            Ok(one_part(alloc, part)?)
        }
        None => Ok(Trees::new(alloc)),
    }
}

/// What the symbol that the entry declares under the name asks.
#[tactic(auto, using(crate::proofs::Destructing::named))]
fn entry_parts(
    alloc: Global,
    entry: &Entry,
    name: &Name,
    types: &Tys,
    children: &[Tree],
) -> Result<Trees, WdFault>
    ensures found { IfOk result (λ ts. ts ≡ parts_of_symbol (look_up (symbols entry.now) name.now) types.now children.now) }
    ensures large { result ≡ Err TooLarge → (P : Term) → ¬ IsSmall (joined_after P (parts_of_symbol (look_up (symbols entry.now) name.now) types.now children.now)) }
{
    match entry {
        Entry::Data(decl) => destructor_parts(alloc, decl, name, types, children),
        Entry::Constant(signature, condition)
        | Entry::Direct(signature, condition, _)
        | Entry::Recursive(signature, condition, _, _) => {
            named_parts(alloc, signature, condition, name, types, children)
        }
    }
}

/// What the declared symbol asks of its children. `TooLarge` means that no condition with these parts is within the limits.
#[tactic(auto, using(crate::proofs::Destructing::entries))]
pub(crate) fn symbol_parts(
    alloc: Global,
    env: &Env,
    name: &Name,
    types: &Tys,
    children: &[Tree],
) -> Result<Trees, WdFault>
    ensures found { IfOk result (λ ts. ts ≡ parts_of_symbol (find_symbol env.now name.now) types.now children.now) }
    ensures large { result ≡ Err TooLarge → (P : Term) → ¬ IsSmall (joined_after P (parts_of_symbol (find_symbol env.now name.now) types.now children.now)) }
{
    match env.symbol(name) {
        Some(entry) => entry_parts(alloc, entry, name, types, children),
        None => Ok(Trees::new(alloc)),
    }
}
