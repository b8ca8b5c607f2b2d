//! The unfolded bodies of an environment's direct operators, each made once.
ghost use Rattle.std.specs.Prelude.{◌≡◌, ◌<◌, ◌+◌, ◌∷◌, [], map, reverse, take, length, IfOk, OnOk};
ghost use Rattle.std.specs.Option.{option_copied};
ghost use Rattle.ev_terms.specs.Term.{node, terms};
ghost use Rattle.ev_terms.specs.Substitution.{fill, instance};
ghost use Rattle.ev_typing.specs.WellFormed.{IsWellFormed};
ghost use Rattle.ev_ops.specs.Unfold.{body_of, bodies_after, unfold_by, unfolded_node};
ghost use Rattle.ev_ops.specs.inner.Kept.{IsNewBody};

use ev_forms::node_parts;
use ev_terms::{
    Name, NoMemory, Sym, Tree, Trees, TryCopy, Tys, instantiate_types, make_node, substitute,
    substitute_fits,
};
use ev_typing::{Entry, Env};
use indexmap::IndexMap;
use std::alloc::Global;
use std::marker::Model;

/// The unfolded bodies of direct operators, by their names.
#[derive(Drop)]
pub struct Bodies {
    by_name: IndexMap<Name, Tree>,
}

impl Model for Bodies {
    ghost use Rattle.std.specs.Prelude.{List};
    ghost use Rattle.ev_terms.specs.Term.{Term};
    ghost use Rattle.ev_typing.specs.Env.{Name};

    ghost Value = { List (Name × Term) };

    ghost use Rattle.std.specs.Coded.{codes};
    ghost use Rattle.ev_terms.specs.contracts.types.Sym as sym;
    ghost use Rattle.ev_terms.specs.contracts.types.Tys as tys;
    ghost use Rattle.ev_terms.specs.inner.TermCode.{term_code};

    ghost coded = { Prim.hlevel (codes, term_code sym.the_row.coded tys.the_row.coded) };

    ghost view = { λ b. b.by_name.entries };
}

#[tactic(auto, using(crate::proofs::Kept::look_ups))]
impl Bodies {
    /// Those of the environment in which nothing is declared.
    pub fn new(alloc: Global) -> Bodies
        ensures { result ≡ [] }
    {
        Bodies {
            by_name: IndexMap::new(alloc),
        }
    }

    /// Those of the environment. Each body is unfolded once, by those before it: linear in the bodies and in what they unfold to.
    pub fn of(alloc: Global, env: &Env) -> Result<Bodies, NoMemory>
        ensures { IfOk result (λ bodies. bodies ≡ bodies_after [] env.now) }
    {
        let mut bodies = Bodies::new(alloc);
        for i in 0..env.count() {
            bodies.add_at(alloc, env, i)?;
        }
        Ok(bodies)
    }

    /// The entry at the place, where those before it are there.
    fn add_at(&mut self, alloc: Global, env: &Env, i: usize) -> Result<(), NoMemory>
        requires well_formed { IsWellFormed env.now }
        requires known { self.old ≡ bodies_after [] (take i env.now) }
        requires within { i < length env.now }
        ensures { OnOk result (self.new ≡ bodies_after [] (take (i + 1) env.now)) }
    {
        match env.entry(i) {
            Some(entry) => self.add(alloc, entry),
            None => unreachable!(),
        }
    }

    /// One more entry, which has a body where it is a direct operator.
    pub(crate) fn add(&mut self, alloc: Global, entry: &Entry) -> Result<(), NoMemory>
        requires { IsNewBody self.old entry.now }
        ensures { OnOk result (self.new ≡ bodies_after self.old (entry.now ∷ [])) }
    {
        if let Entry::Direct(signature, _, body) = entry {
            let unfolded = self.unfold(alloc, body)?;
            self.by_name
                .insert(signature.name.try_copy(alloc)?, unfolded)?;
        }
        Ok(())
    }

    fn body(&self, sym: &Sym) -> Option<&Tree>
        ensures { option_copied result ≡ body_of self.now sym.now }
    {
        match sym {
            Sym::Base(_) => None,
            Sym::User(name) => self.by_name.get(name),
        }
    }

    /// The term with each application of an operator that has a body replaced by the body. Parts that the term shares with the bodies
    /// stay shared. A variable that 32 bits do not hold has no room, and is answered as want of memory.
    #[cycle(unfold)]
    #[tactic(auto, using(crate::proofs::Kept::walk))]
    pub fn unfold(&self, alloc: Global, tree: &Tree) -> Result<Tree, NoMemory>
        ensures { IfOk result (λ t. t ≡ unfold_by self.now tree.now) }
    {
        match node_parts(tree) {
            Some((sym, types, children)) => {
                let children = self.unfold_all(alloc, children)?;
                self.unfold_node(alloc, sym, types, children)
            }
            None => tree.try_copy(alloc),
        }
    }

    #[cycle(unfold)]
    #[tactic(auto, using(crate::proofs::Kept::walk))]
    pub fn unfold_all(&self, alloc: Global, trees: &[Tree]) -> Result<Trees, NoMemory>
        ensures { IfOk result (λ ts. ts ≡ map (unfold_by self.now) trees.now) }
    {
        let mut all = Trees::new(alloc);
        for tree in trees {
            all.push(alloc, self.unfold(alloc, tree)?)?;
        }
        Ok(all)
    }

    /// A symbol at types with unfolded children.
    fn unfold_node(
        &self,
        alloc: Global,
        sym: &Sym,
        types: &Tys,
        children: Trees,
    ) -> Result<Tree, NoMemory>
        ensures { IfOk result (λ t. t ≡ unfolded_node (body_of self.now sym.now) sym.now types.now (terms children)) }
    {
        match self.body(sym) {
            Some(body) => fill_body(alloc, body, types, children.as_slice()),
            None => {
                let sym = sym.try_copy(alloc)?;
                make_node(alloc, sym, types.try_copy(alloc)?, children)
            }
        }
    }
}

/// The body with the types and the arguments put in.
fn fill_body(alloc: Global, body: &Tree, types: &Tys, arguments: &[Tree]) -> Result<Tree, NoMemory>
    ensures { IfOk result (λ t. t ≡ fill (instance body.now types.now) arguments.now) }
{
    let instance = instantiate_types(alloc, body, types)?;
    let entries = reversed(alloc, arguments)?;
    if !substitute_fits(&instance, &entries) {
        return Err(NoMemory);
    }
    substitute(alloc, &instance, &entries)
}

/// The terms from the last to the first.
#[tactic(auto, using(crate::proofs::Kept::backwards))]
fn reversed(alloc: Global, trees: &[Tree]) -> Result<Trees, NoMemory>
    ensures { IfOk result (λ ts. ts ≡ reverse trees.now) }
{
    let mut all = Trees::new(alloc);
    let mut left = trees.len();
    while left > 0 {
        left -= 1;
        all.push(alloc, trees[left].try_copy(alloc)?)?;
    }
    Ok(all)
}
