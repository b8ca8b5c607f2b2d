//! The environment of the cases: `List`, and the direct operators `double`, `quad`, `swap` and `alleq`.
ghost use Rattle.std.specs.Prelude.{◌≡◌, [], ◌∷◌, ◌++◌, IfOk, OnOk};
ghost use Rattle.ev_terms.specs.declared.types.Tys.{Empty};
ghost use Rattle.ev_terms.specs.Types.{prod};
ghost use Rattle.ev_forms.specs.Forms.{call, two_types};
ghost use Rattle.ev_ops.specs.Entries.{env_of};
ghost use Rattle.cases_ops.specs.Samples.{double_body, double_entry, quad_body, quad_entry, swap_body, swap_entry, alleq_body, alleq_entry, only_lists, with_double, with_quad, with_swap};

use cases_samples::samples::lists;
use ev_forms::{Binder, Relation, make_bound, make_related, make_truth};
use ev_rules::{Element, Elements};
use ev_terms::{Name, NoMemory, Shared, Sym, Tree, Trees, Ty, Tys, make_node, make_var};
use ev_typing::{Entry, Env, Signature};
use std::alloc::Global;

fn two_types(alloc: Global, first: Ty, second: Ty) -> Result<Tys, NoMemory>
    ensures { IfOk result (λ As. As ≡ two_types first second) }
{
    let rest = Tys::one(alloc, second)?;
    Tys::before(alloc, first, rest)
}

#[tactic(auto, using(ev_terms::specs::Types::type_forms))]
fn pair_of(alloc: Global, first: Ty, second: Ty) -> Result<Ty, NoMemory>
    ensures { IfOk result (λ A. A ≡ prod first second) }
{
    let first = Shared::new(alloc, first)?;
    let second = Shared::new(alloc, second)?;
    Ok(Ty::Prod(first, second))
}

fn two_trees(alloc: Global, first: Tree, second: Tree) -> Result<Trees, NoMemory>
    ensures { IfOk result (λ ts. ts ≡ first ∷ second ∷ []) }
{
    let mut trees = Trees::new(alloc);
    trees.push(alloc, first)?;
    trees.push(alloc, second)?;
    Ok(trees)
}

fn signature(
    alloc: Global,
    name: &[u8],
    params: u32,
    args: Tys,
    gives: Ty,
) -> Result<Signature, NoMemory>
    ensures { IfOk result (λ s. s ≡ record { name = name.now; params = params; args = args; result = gives }) }
{
    Ok(Signature {
        name: Name::from_slice(alloc, name)?,
        params,
        args,
        result: gives,
    })
}

fn double_body(alloc: Global) -> Result<Tree, NoMemory>
    ensures { IfOk result (λ t. t ≡ double_body) }
{
    let parts = two_trees(alloc, make_var(alloc, 0)?, make_var(alloc, 0)?)?;
    make_node(alloc, Sym::Base(19), Tys::Empty, parts)
}

/// `double(x: INT): INT`, defined as `x + x`
fn double(alloc: Global) -> Result<Entry, NoMemory>
    ensures { IfOk result (λ e. e ≡ double_entry) }
{
    let head = signature(alloc, b"double", 0, Tys::one(alloc, Ty::Int)?, Ty::Int)?;
    Ok(Entry::Direct(head, None, double_body(alloc)?))
}

/// A call without type arguments.
fn call_of(alloc: Global, name: &[u8], argument: Tree) -> Result<Tree, NoMemory>
    ensures { IfOk result (λ t. t ≡ call name.now Empty (argument ∷ [])) }
{
    let mut args = Trees::new(alloc);
    args.push(alloc, argument)?;
    let sym = Sym::User(Name::from_slice(alloc, name)?);
    make_node(alloc, sym, Tys::Empty, args)
}

fn quad_body(alloc: Global) -> Result<Tree, NoMemory>
    ensures { IfOk result (λ t. t ≡ quad_body) }
{
    let inner = call_of(alloc, b"double", make_var(alloc, 0)?)?;
    call_of(alloc, b"double", inner)
}

/// `quad(x: INT): INT`, defined as `double(double(x))`
fn quad(alloc: Global) -> Result<Entry, NoMemory>
    ensures { IfOk result (λ e. e ≡ quad_entry) }
{
    let head = signature(alloc, b"quad", 0, Tys::one(alloc, Ty::Int)?, Ty::Int)?;
    Ok(Entry::Direct(head, None, quad_body(alloc)?))
}

fn swap_body(alloc: Global) -> Result<Tree, NoMemory>
    ensures { IfOk result (λ t. t ≡ swap_body) }
{
    let parts = two_trees(alloc, make_var(alloc, 0)?, make_var(alloc, 1)?)?;
    let types = two_types(alloc, Ty::Param(1), Ty::Param(0))?;
    make_node(alloc, Sym::Base(30), types, parts)
}

/// `swap(x: ?0, y: ?1): ?1 × ?0`, defined as `y |-> x`
fn swap(alloc: Global) -> Result<Entry, NoMemory>
    ensures { IfOk result (λ e. e ≡ swap_entry) }
{
    let args = two_types(alloc, Ty::Param(0), Ty::Param(1))?;
    let gives = pair_of(alloc, Ty::Param(1), Ty::Param(0))?;
    let head = signature(alloc, b"swap", 2, args, gives)?;
    Ok(Entry::Direct(head, None, swap_body(alloc)?))
}

fn alleq_body(alloc: Global) -> Result<Tree, NoMemory>
    ensures { IfOk result (λ t. t ≡ alleq_body) }
{
    let (left, right) = (make_var(alloc, 0)?, make_var(alloc, 1)?);
    let equal = make_related(alloc, Relation::Equal, Ty::Param(0), left, right)?;
    make_bound(alloc, Binder::ForAll, Ty::Param(0), equal)
}

/// `alleq(x: ?0): PRED`, defined as `!y. y = x`
fn alleq(alloc: Global) -> Result<Entry, NoMemory>
    ensures { IfOk result (λ e. e ≡ alleq_entry) }
{
    let args = Tys::one(alloc, Ty::Param(0))?;
    let head = signature(alloc, b"alleq", 1, args, Ty::Prop)?;
    Ok(Entry::Direct(head, None, alleq_body(alloc)?))
}

fn only_lists(alloc: Global) -> Result<Env, NoMemory>
    ensures { IfOk result (λ env. env ≡ only_lists) }
{
    let mut env = Env::new(alloc);
    let list = lists(alloc)?;
    env.add(alloc, Entry::Data(list))?;
    Ok(env)
}

pub fn with_double(alloc: Global) -> Result<Env, NoMemory>
    ensures { IfOk result (λ env. env ≡ with_double) }
{
    let mut env = only_lists(alloc)?;
    let entry = double(alloc)?;
    env.add(alloc, entry)?;
    Ok(env)
}

fn share(alloc: Global, elements: &mut Elements, element: Element) -> Result<(), NoMemory>
    ensures { OnOk result (elements.new ≡ elements.old ++ element ∷ []) }
{
    elements.push(alloc, Shared::new(alloc, element)?)
}

/// Elements of a theory that make `List` and `double`: an import, the datatype, a theorem and the operator.
pub fn some_elements(alloc: Global) -> Result<Elements, NoMemory>
    ensures { IfOk result (λ es. env_of es ≡ with_double) }
{
    let mut elements = Elements::new(alloc);
    share(
        alloc,
        &mut elements,
        Element::Import(Name::from_slice(alloc, b"Base")?),
    )?;
    share(alloc, &mut elements, Element::Data(lists(alloc)?))?;
    let truth = make_truth(alloc)?;
    share(
        alloc,
        &mut elements,
        Element::Theorem(Name::from_slice(alloc, b"t")?, truth),
    )?;
    let args = Tys::one(alloc, Ty::Int)?;
    let head = signature(alloc, b"double", 0, args, Ty::Int)?;
    share(
        alloc,
        &mut elements,
        Element::Direct(head, None, double_body(alloc)?),
    )?;
    Ok(elements)
}

fn with_quad(alloc: Global) -> Result<Env, NoMemory>
    ensures { IfOk result (λ env. env ≡ with_quad) }
{
    let mut env = with_double(alloc)?;
    let entry = quad(alloc)?;
    env.add(alloc, entry)?;
    Ok(env)
}

fn with_swap(alloc: Global) -> Result<Env, NoMemory>
    ensures { IfOk result (λ env. env ≡ with_swap) }
{
    let mut env = with_quad(alloc)?;
    let entry = swap(alloc)?;
    env.add(alloc, entry)?;
    Ok(env)
}

/// The environment with all of them.
pub fn environment(alloc: Global) -> Result<Env, NoMemory> {
    let mut env = with_swap(alloc)?;
    let entry = alleq(alloc)?;
    env.add(alloc, entry)?;
    Ok(env)
}
