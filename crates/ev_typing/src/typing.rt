ghost use Rattle.std.specs.Prelude.{◌≡◌, ◌↔◌, find, bytes_eq, IsTrue, IfOk};
ghost use Rattle.std.specs.Option.{option_copied};
ghost use Rattle.ev_terms.specs.Measures.{capped};
ghost use Rattle.ev_typing.specs.declared.typing.Var.{Var};
ghost use Rattle.ev_typing.specs.Sequents.{sequent_size, sequent_depth};

use ev_terms::{
    Extent, ListOf, Name, NoMemory, Same, Tree, Trees, TryCopy, Ty, Tys, extent, trees_extent,
    types_extent,
};
use std::alloc::Global;

/// A name with a type: a constructor's field, which is its destructor, or a variable.
#[derive(Drop)]
pub struct Var {
    pub name: Name,
    pub ty: Ty,
}

pub type Vars = ListOf<Var>;

/// A constructor of a datatype with its fields in order.
#[derive(Drop)]
pub struct Con {
    pub name: Name,
    pub fields: Vars,
}

pub type Cons = ListOf<Con>;

/// A datatype with its number of type parameters.
#[derive(Drop)]
pub struct DataDecl {
    pub name: Name,
    pub params: u32,
    pub cons: Cons,
}

/// An operator or a constant: its number of type parameters, the types of its arguments, and its own, `Prop` for a predicate.
#[derive(Drop)]
pub struct Signature {
    pub name: Name,
    pub params: u32,
    pub args: Tys,
    pub result: Ty,
}

/// What an environment declares. The option is the condition for well-definedness; a direct operator has its body, a recursive one
/// its inductive place from 0 and a body per constructor.
#[derive(Drop)]
pub enum Entry {
    Data(DataDecl),
    Constant(Signature, Option<Tree>),
    Direct(Signature, Option<Tree>, Tree),
    Recursive(Signature, Option<Tree>, u32, Trees),
}

/// A goal under hypotheses, in a context that has the types of the variables, the outermost first.
#[derive(Drop)]
pub struct Sequent {
    pub context: Tys,
    pub hyps: Trees,
    pub goal: Tree,
}

pub type Sequents = ListOf<Sequent>;

impl TryCopy for Var {
    fn try_copy(&self, alloc: Global) -> Result<Var, NoMemory> {
        Ok(Var {
            name: self.name.try_copy(alloc)?,
            ty: self.ty.try_copy(alloc)?,
        })
    }
}

impl Same for Var {
    fn same(&self, other: &Var) -> bool {
        self.name.same(&other.name) && self.ty.same(&other.ty)
    }
}

impl TryCopy for Con {
    fn try_copy(&self, alloc: Global) -> Result<Con, NoMemory> {
        Ok(Con {
            name: self.name.try_copy(alloc)?,
            fields: self.fields.try_copy(alloc)?,
        })
    }
}

impl Same for Con {
    fn same(&self, other: &Con) -> bool {
        self.name.same(&other.name) && self.fields.same(&other.fields)
    }
}

impl TryCopy for DataDecl {
    fn try_copy(&self, alloc: Global) -> Result<DataDecl, NoMemory> {
        Ok(DataDecl {
            name: self.name.try_copy(alloc)?,
            params: self.params,
            cons: self.cons.try_copy(alloc)?,
        })
    }
}

impl Same for DataDecl {
    fn same(&self, other: &DataDecl) -> bool {
        self.name.same(&other.name) && self.params == other.params && self.cons.same(&other.cons)
    }
}

impl TryCopy for Signature {
    fn try_copy(&self, alloc: Global) -> Result<Signature, NoMemory> {
        Ok(Signature {
            name: self.name.try_copy(alloc)?,
            params: self.params,
            args: self.args.try_copy(alloc)?,
            result: self.result.try_copy(alloc)?,
        })
    }
}

impl Same for Signature {
    fn same(&self, other: &Signature) -> bool {
        if !self.name.same(&other.name) || self.params != other.params {
            return false;
        }
        self.args.same(&other.args) && self.result.same(&other.result)
    }
}

fn copy_condition(alloc: Global, condition: &Option<Tree>) -> Result<Option<Tree>, NoMemory>
    ensures { IfOk result (λ copy. copy ≡ condition.now) }
{
    match condition {
        Some(tree) => Ok(Some(tree.try_copy(alloc)?)),
        None => Ok(None),
    }
}

fn same_condition(condition: &Option<Tree>, other: &Option<Tree>) -> bool
    ensures { IsTrue result ↔ (condition.now ≡ other.now) }
{
    match (condition, other) {
        (Some(tree), Some(other)) => tree.same(other),
        (None, None) => true,
        _ => false,
    }
}

impl TryCopy for Entry {
    fn try_copy(&self, alloc: Global) -> Result<Entry, NoMemory> {
        match self {
            Entry::Data(data) => Ok(Entry::Data(data.try_copy(alloc)?)),
            Entry::Constant(signature, condition) => {
                let condition = copy_condition(alloc, condition)?;
                Ok(Entry::Constant(signature.try_copy(alloc)?, condition))
            }
            Entry::Direct(signature, condition, body) => {
                let condition = copy_condition(alloc, condition)?;
                let body = body.try_copy(alloc)?;
                Ok(Entry::Direct(signature.try_copy(alloc)?, condition, body))
            }
            Entry::Recursive(signature, condition, place, bodies) => {
                let condition = copy_condition(alloc, condition)?;
                let bodies = bodies.try_copy(alloc)?;
                Ok(Entry::Recursive(signature.try_copy(alloc)?, condition, *place, bodies))
            }
        }
    }
}

impl Same for Entry {
    fn same(&self, other: &Entry) -> bool {
        match (self, other) {
            (Entry::Data(data), Entry::Data(other)) => data.same(other),
            (Entry::Constant(signature, condition), Entry::Constant(other, with)) => {
                signature.same(other) && same_condition(condition, with)
            }
            (Entry::Direct(signature, condition, body), Entry::Direct(other, with, term)) => {
                if !signature.same(other) || !same_condition(condition, with) {
                    return false;
                }
                body.same(term)
            }
            (
                Entry::Recursive(signature, condition, place, bodies),
                Entry::Recursive(other, with, at, terms),
            ) => {
                if !signature.same(other) || !same_condition(condition, with) || *place != *at {
                    return false;
                }
                bodies.same(terms)
            }
            _ => false,
        }
    }
}

impl TryCopy for Sequent {
    fn try_copy(&self, alloc: Global) -> Result<Sequent, NoMemory> {
        Ok(Sequent {
            context: self.context.try_copy(alloc)?,
            hyps: self.hyps.try_copy(alloc)?,
            goal: self.goal.try_copy(alloc)?,
        })
    }
}

impl Same for Sequent {
    fn same(&self, other: &Sequent) -> bool {
        self.context.same(&other.context)
            && self.hyps.same(&other.hyps)
            && self.goal.same(&other.goal)
    }
}

/// The field of the name, the first one if there are more. Linear in the constructor's fields.
#[tactic(auto, using(crate::proofs::Names::listed))]
pub fn field_of<'a>(con: &'a Con, name: &Name) -> Option<&'a Var>
    ensures { option_copied result ≡ find (λ (f : Var). bytes_eq f.name name.now) con.now.fields }
{
    for field in con.fields.as_slice() {
        if field.name == *name {
            return Some(field);
        }
    }
    None
}

/// How large a sequent is, from the numbers that its terms keep: linear in the number of hypotheses and in the types of the context.
pub fn sequent_extent(sequent: &Sequent) -> Extent
    ensures { result ≡ record { size = capped (sequent_size sequent.now); depth = capped (sequent_depth sequent.now) } }
{
    let context = types_extent(&sequent.context);
    let hyps = trees_extent(sequent.hyps.as_slice());
    let goal = extent(&sequent.goal);
    Extent {
        size: context
            .size
            .saturating_add(hyps.size.saturating_add(goal.size)),
        depth: context.depth.max(hyps.depth.max(goal.depth)),
    }
}
