ghost use Rattle.std.specs.Prelude.{◌≡◌, ◌<◌, ◌^◌, length, slice_get, IfOk, IfSome};
ghost use Rattle.std.specs.Option.{option_copied};
ghost use Rattle.ev_terms.specs.inner.View.{term_of, Kept};
ghost use Rattle.ev_terms.specs.Term.{Term, var, lit, node, terms, var_of, lit_of, sym_of, types_of, children};

mod fits;
mod instances;
mod measures;
mod substitution;

use crate::extents::Bounds;
use crate::list::ListOf;
use crate::shared::Shared;
use crate::types::{Sym, Tys};
use crate::values::{NoMemory, Same, TryCopy};
pub use fits::{shift_fits, substitute_fits};
pub use instances::{instantiate_types, same, same_all};
use measures::bounds_of_node;
pub use measures::{
    bounds_of, extent, loose, trees_extent, type_extent, type_params, types_extent, types_params,
};
use std::alloc::Global;
use std::marker::Model;
pub use substitution::{shift, substitute};

/// A term: a variable by the number of binders between, a literal below 2^127, or a symbol at type arguments with children. A copy
/// shares its nodes, and each node keeps its size, its depth and the bounds of its variables and type parameters. Source: Métayer
/// and Voisin, The Event-B Mathematical Language.
#[cycle(tree)]
#[derive(Drop)]
pub struct Tree {
    node: Node,
}

#[cycle(tree)]
#[derive(Drop)]
enum Node {
    Var(u32),
    Lit(u128),
    Sym(Shared<App>),
}

#[cycle(tree)]
#[derive(Drop)]
enum App {
    Of(Bounds, Sym, Tys, ListOf<Tree>),
}

pub type Trees = ListOf<Tree>;

impl Model for Tree {
    ghost use Rattle.std.specs.Prelude.{ℕ};
    ghost use Rattle.ev_terms.specs.Term.{Term};
    ghost use Rattle.ev_terms.specs.Measures.{depth};

    ghost Value = { Term };

    ghost use Rattle.ev_terms.specs.contracts.types.Sym as sym;
    ghost use Rattle.ev_terms.specs.contracts.types.Tys as tys;
    ghost use Rattle.ev_terms.specs.inner.TermCode.{term_code};

    ghost coded = { term_code sym.the_row.coded tys.the_row.coded };

    ghost use Rattle.ev_terms.specs.inner.View.{term_of, Kept};

    ghost view = { λ a. term_of a.node };

    ghost invariant = { λ a. Kept a.node };

    ghost size = { depth };

    ghost use Rattle.ev_terms.specs.inner.TreeFalls.{falls};

    ghost size_decreases = { λ a h. falls a.node };
}

impl Same for Tree {
    fn same(&self, other: &Tree) -> bool {
        same(self, other)
    }
}

impl TryCopy for Tree {
    fn try_copy(&self, _alloc: Global) -> Result<Tree, NoMemory> {
        match &self.node {
            Node::Var(i) => Ok(Tree {
                node: Node::Var(*i),
            }),
            Node::Lit(n) => Ok(Tree {
                node: Node::Lit(*n),
            }),
            Node::Sym(app) => Ok(Tree {
                node: Node::Sym(app.share()?),
            }),
        }
    }
}

/// The variable i, which takes no memory.
pub fn make_var(_alloc: Global, i: u32) -> Result<Tree, NoMemory>
    ensures { IfOk result (λ t. t ≡ var i) }
{
    Ok(Tree { node: Node::Var(i) })
}

/// The literal n, which takes no memory.
pub fn make_lit(_alloc: Global, n: u128) -> Result<Tree, NoMemory>
    requires { n < 2 ^ 127 }
    ensures { IfOk result (λ t. t ≡ lit n) }
{
    Ok(Tree { node: Node::Lit(n) })
}

/// A symbol at type arguments with children. What it keeps of them is computed in time linear in the type arguments and in the
/// number of children.
pub fn make_node(alloc: Global, sym: Sym, types: Tys, children: Trees) -> Result<Tree, NoMemory>
    ensures { IfOk result (λ t. t ≡ node sym types (terms children)) }
{
    let bounds = bounds_of_node(&sym, &types, children.as_slice());
    let app = Shared::new(alloc, App::Of(bounds, sym, types, children))?;
    Ok(Tree {
        node: Node::Sym(app),
    })
}

#[tactic(auto, using(crate::specs::Term::children_rules))]
impl Tree {
    /// The variable that it is, counted from the innermost binder, from 0.
    pub fn var(&self) -> Option<u32>
        ensures { result ≡ var_of self.now }
    {
        match &self.node {
            Node::Var(i) => Some(*i),
            _ => None,
        }
    }

    /// The literal that it is, below 2^127.
    pub fn lit(&self) -> Option<u128>
        ensures is { result ≡ lit_of self.now }
        ensures small { IfSome result (λ n. n < 2 ^ 127) }
    {
        match &self.node {
            Node::Lit(n) => Some(*n),
            _ => None,
        }
    }

    /// The symbol at its root.
    pub fn sym(&self) -> Option<&Sym>
        ensures { option_copied result ≡ sym_of self.now }
    {
        match &self.node {
            Node::Sym(app) => {
                let App::Of(_, sym, _, _) = app.get();
                Some(sym)
            }
            _ => None,
        }
    }

    /// The type arguments of its symbol.
    pub fn types(&self) -> Option<&Tys>
        ensures { option_copied result ≡ types_of self.now }
    {
        match &self.node {
            Node::Sym(app) => {
                let App::Of(_, _, types, _) = app.get();
                Some(types)
            }
            _ => None,
        }
    }

    /// How many children it has: none at a variable or a literal.
    pub fn child_count(&self) -> usize
        ensures { result ≡ length (children self.now) }
    {
        match &self.node {
            Node::Sym(app) => {
                let App::Of(_, _, _, children) = app.get();
                children.len()
            }
            _ => 0,
        }
    }

    /// The children, of which a variable and a literal have none.
    pub fn children(&self) -> &[Tree]
        ensures { result.now ≡ children self.now }
    {
        match &self.node {
            Node::Sym(app) => {
                let App::Of(_, _, _, children) = app.get();
                children.as_slice()
            }
            _ => &[],
        }
    }

    /// A child, counted from 0.
    pub fn child(&self, i: usize) -> &Tree
        requires { i < length (children self.now) }
        ensures { slice_get (children self.now) i ≡ Some result.now }
    {
        match &self.node {
            Node::Sym(app) => {
                let App::Of(_, _, _, children) = app.get();
                &children.as_slice()[i]
            }
            _ => unreachable!(),
        }
    }
}
