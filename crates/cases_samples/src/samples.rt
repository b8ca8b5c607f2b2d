//! The environment of the cases: `List` with `len`, and `B`, the trees.
ghost use Rattle.std.specs.Prelude.{◌≡◌, [], ◌∷◌, IfOk, codes};
ghost use Rattle.ev_terms.specs.declared.types.Ty.{Data, Param};
ghost use Rattle.ev_terms.specs.declared.types.Tys.{Empty};
ghost use Rattle.ev_terms.specs.Types.{more};
ghost use Rattle.ev_terms.specs.Term.{var};
ghost use Rattle.ev_forms.specs.Forms.{call};
ghost use Rattle.cases_samples.specs.Samples.{list_type, list_decl, tree_type, tree_decl, len_bodies, len_entry};

use ev_terms::{Name, NoMemory, Shared, Sym, Tree, Trees, Ty, Tys, make_lit, make_node, make_var};
use ev_typing::{Con, Cons, DataDecl, Entry, Env, Signature, Var, Vars};
use std::alloc::Global;

/// One type argument.
#[tactic(auto, using(ev_terms::specs::Types::type_forms))]
pub fn one_type(alloc: Global, ty: Ty) -> Result<Tys, NoMemory>
    ensures { IfOk result (λ As. As ≡ more ty Empty) }
{
    let ty = Shared::new(alloc, ty)?;
    Ok(Tys::More(ty, Shared::new(alloc, Tys::Empty)?))
}

/// A datatype at one type.
pub fn data_at(alloc: Global, name: &[u8], ty: Ty) -> Result<Ty, NoMemory>
    ensures { IfOk result (λ A. A ≡ Data name.now (more ty Empty)) }
{
    let types = one_type(alloc, ty)?;
    Ok(Ty::Data(Name::from_slice(alloc, name)?, types))
}

/// A field of a constructor.
pub fn field(alloc: Global, name: &[u8], ty: Ty) -> Result<Var, NoMemory>
    ensures { IfOk result (λ v. v ≡ record { name = name.now; ty = ty }) }
{
    Ok(Var {
        name: Name::from_slice(alloc, name)?,
        ty,
    })
}

/// A constructor.
pub fn constructor(alloc: Global, name: &[u8], fields: Vars) -> Result<Con, NoMemory>
    ensures { IfOk result (λ c. c ≡ record { name = name.now; fields = fields }) }
{
    Ok(Con {
        name: Name::from_slice(alloc, name)?,
        fields,
    })
}

fn list_at(alloc: Global) -> Result<Ty, NoMemory>
    ensures { IfOk result (λ A. A ≡ list_type) }
{
    data_at(alloc, b"List", Ty::Param(0))
}

fn tree_at(alloc: Global) -> Result<Ty, NoMemory>
    ensures { IfOk result (λ A. A ≡ tree_type) }
{
    data_at(alloc, b"B", Ty::Param(0))
}

/// Two constructors, the first without fields.
pub fn two_cons(alloc: Global, first: &[u8], second: &[u8], fields: Vars) -> Result<Cons, NoMemory>
    ensures { IfOk result (λ cs. cs ≡ record { name = first.now; fields = [] } ∷ record { name = second.now; fields = fields } ∷ []) }
{
    let mut cons = Cons::new(alloc);
    cons.push(alloc, constructor(alloc, first, Vars::new(alloc))?)?;
    cons.push(alloc, constructor(alloc, second, fields)?)?;
    Ok(cons)
}

/// `List(?0) = nil | cons(head: ?0, tail: List(?0))`
pub fn lists(alloc: Global) -> Result<DataDecl, NoMemory>
    ensures { IfOk result (λ d. d ≡ list_decl) }
{
    let mut fields = Vars::new(alloc);
    fields.push(alloc, field(alloc, b"head", Ty::Param(0))?)?;
    fields.push(alloc, field(alloc, b"tail", list_at(alloc)?)?)?;
    Ok(DataDecl {
        name: Name::from_slice(alloc, b"List")?,
        params: 1,
        cons: two_cons(alloc, b"nil", b"cons", fields)?,
    })
}

/// `B(?0) = leaf | fork(l: B(?0), x: ?0, r: B(?0))`
pub fn trees(alloc: Global) -> Result<DataDecl, NoMemory>
    ensures { IfOk result (λ d. d ≡ tree_decl) }
{
    let mut fields = Vars::new(alloc);
    fields.push(alloc, field(alloc, b"l", tree_at(alloc)?)?)?;
    fields.push(alloc, field(alloc, b"x", Ty::Param(0))?)?;
    fields.push(alloc, field(alloc, b"r", tree_at(alloc)?)?)?;
    Ok(DataDecl {
        name: Name::from_slice(alloc, b"B")?,
        params: 1,
        cons: two_cons(alloc, b"leaf", b"fork", fields)?,
    })
}

/// `len` of the innermost variable.
fn len_of_rest(alloc: Global) -> Result<Tree, NoMemory>
    ensures { IfOk result (λ t. t ≡ call (codes "len") (more (Param 0) Empty) (var 0 ∷ [])) }
{
    let mut args = Trees::new(alloc);
    args.push(alloc, make_var(alloc, 0)?)?;
    let sym = Sym::User(Name::from_slice(alloc, b"len")?);
    make_node(alloc, sym, one_type(alloc, Ty::Param(0))?, args)
}

/// 0 at `nil`, and one more than that of the rest at `cons`.
fn bodies_of_len(alloc: Global) -> Result<Trees, NoMemory>
    ensures { IfOk result (λ ts. ts ≡ len_bodies) }
{
    let mut parts = Trees::new(alloc);
    parts.push(alloc, make_lit(alloc, 1)?)?;
    parts.push(alloc, len_of_rest(alloc)?)?;
    let sum = make_node(alloc, Sym::Base(19), Tys::Empty, parts)?;
    let mut bodies = Trees::new(alloc);
    bodies.push(alloc, make_lit(alloc, 0)?)?;
    bodies.push(alloc, sum)?;
    Ok(bodies)
}

fn len_entry(alloc: Global) -> Result<Entry, NoMemory>
    ensures { IfOk result (λ e. e ≡ len_entry) }
{
    let signature = Signature {
        name: Name::from_slice(alloc, b"len")?,
        params: 1,
        args: one_type(alloc, list_at(alloc)?)?,
        result: Ty::Int,
    };
    Ok(Entry::Recursive(signature, None, 0, bodies_of_len(alloc)?))
}

/// The environment with all three.
pub fn environment(alloc: Global) -> Result<Env, NoMemory> {
    let mut env = Env::new(alloc);
    let list = lists(alloc)?;
    env.add(alloc, Entry::Data(list))?;
    let tree = trees(alloc)?;
    env.add(alloc, Entry::Data(tree))?;
    let len = len_entry(alloc)?;
    env.add(alloc, len)?;
    Ok(env)
}
