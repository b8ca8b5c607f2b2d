//! The weights of the unfolded bodies of an environment's direct operators, each made once. The bodies themselves are not made.
ghost use Rattle.std.specs.Prelude.{◌≡◌, ◌≤◌, ◌<◌, ◌+◌, ◌++◌, ◌∷◌, [], None, ℕ, map, reverse, take, length, IfOk, OnOk};
ghost use Rattle.std.specs.Option.{option_copied};
ghost use Rattle.ev_terms.specs.Symbols.{binds};
ghost use Rattle.ev_terms.specs.Term.{terms};
ghost use Rattle.ev_terms.specs.Types.{type_list};
ghost use Rattle.ev_terms.specs.Measures.{capped, loose, params};
ghost use Rattle.ev_typing.specs.WellFormed.{IsWellFormed};
ghost use Rattle.ev_typing.specs.Env.{Env as TheEnv, look_up};
ghost use Rattle.ev_ops.specs.Unfold.{Bodies, bodies_after, unfold_by, unfold_all_by, unfolded_extent};
ghost use Rattle.ev_ops.specs.UnfoldLaws.{IsTyped};
ghost use Rattle.ev_ops.specs.inner.Fit.{IsFit, AreFit};
ghost use Rattle.ev_ops.specs.inner.Weights.{IsAlike, IsAdded, AreWeightsOf, AreWeighed, weights_of, weigh, weigh_all, zipped, whole};

use crate::weights::{WHOLE, Weight, Weights, below, extent_of, within};
use ev_forms::node_parts;
use ev_terms::{Extent, Name, NoMemory, Sym, Tree, TryCopy, binds};
use ev_typing::{Entry, Env, Signature};
use indexmap::IndexMap;
use std::alloc::Global;

/// The weights of unfolded bodies, by the names of their operators.
#[derive(Drop)]
pub struct OperatorWeights {
    by_name: IndexMap<Name, Weights>,
}

impl OperatorWeights {
    /// Those of the environment in which nothing is declared.
    pub fn new(alloc: Global) -> OperatorWeights
        ensures { result.by_name.entries ≡ [] }
    {
        OperatorWeights {
            by_name: IndexMap::new(alloc),
        }
    }

    /// Those of the environment: linear in the bodies as they are written.
    #[tactic(auto, using(crate::proofs::Weighed::walk))]
    pub fn of(alloc: Global, env: &Env) -> Result<OperatorWeights, NoMemory>
        ensures { IfOk result (λ w. IsWellFormed env.now × AreWeighed (bodies_after [] env.now) w.by_name.entries) }
    {
        let mut weights = OperatorWeights::new(alloc);
        for i in 0..env.count() {
            weights.add_at(alloc, env, i)?;
        }
        Ok(weights)
    }

    /// The entry at the place, where those before it are there.
    fn add_at(&mut self, alloc: Global, env: &Env, i: usize) -> Result<(), NoMemory>
        requires well_formed { IsWellFormed env.now }
        requires known { AreWeighed (bodies_after [] (take i env.now)) self.old.by_name.entries }
        requires within { i < length env.now }
        ensures { OnOk result (AreWeighed (bodies_after [] (take (i + 1) env.now)) self.new.by_name.entries) }
    {
        match env.entry(i) {
            Some(entry) => self.add(alloc, entry),
            None => unreachable!(),
        }
    }

    /// One more entry, which has weights where it is a direct operator.
    fn add(&mut self, alloc: Global, entry: &Entry) -> Result<(), NoMemory>
        ensures { OnOk result ((e r : TheEnv) → IsWellFormed (e ++ entry.now ∷ r) → AreWeighed (bodies_after [] e) self.old.by_name.entries →
            AreWeighed (bodies_after [] (e ++ entry.now ∷ [])) self.new.by_name.entries) }
    {
        match entry {
            Entry::Data(_) => Ok(()),
            Entry::Constant(_, _) => Ok(()),
            Entry::Direct(signature, _, body) => self.add_operator(alloc, signature, body),
            Entry::Recursive(_, _, _, _) => Ok(()),
        }
    }

    /// One more operator.
    fn add_operator(
        &mut self,
        alloc: Global,
        signature: &Signature,
        body: &Tree,
    ) -> Result<(), NoMemory>
        ensures { OnOk result ((bs : Bodies) → AreWeighed bs self.old.by_name.entries → look_up bs signature.now.name ≡ None → IsFit bs body.now →
            loose (unfold_by bs body.now) ≤ length (type_list signature.now.args) → params (unfold_by bs body.now) ≤ signature.now.params →
            AreWeighed (bs ++ (signature.now.name, unfold_by bs body.now) ∷ []) self.new.by_name.entries) }
    {
        let weights = self.weigh(alloc, signature, body)?;
        self.by_name
            .insert(signature.name.try_copy(alloc)?, weights)?;
        Ok(())
    }

    /// The weights of the unfolded body of an operator.
    fn weigh(&self, alloc: Global, signature: &Signature, body: &Tree) -> Result<Weights, NoMemory>
        ensures { IfOk result (λ S. (bs : Bodies) → AreWeighed bs self.now.by_name.entries → IsFit bs body.now →
            loose (unfold_by bs body.now) ≤ length (type_list signature.now.args) → params (unfold_by bs body.now) ≤ signature.now.params →
            AreWeightsOf (unfold_by bs body.now) S) }
    {
        let mut all = Weights::with_places(alloc, &signature.args, signature.params)?;
        self.add_tree(&mut all, body, 0, WHOLE);
        Ok(all)
    }

    #[tactic(auto, using(crate::proofs::Weighed::walk))]
    fn weights(&self, sym: &Sym) -> Option<&Weights>
        ensures { option_copied result ≡ weights_of self.now.by_name.entries sym.now }
    {
        match sym {
            Sym::Base(_) => None,
            Sym::User(name) => self.by_name.get(name),
        }
    }

    /// Adds the nodes of the unfolded term, which stands in a place under so many binders.
    #[cycle(add_tree)]
    #[tactic(auto, using(crate::proofs::Weighed::walk))]
    fn add_tree(&self, all: &mut Weights, tree: &Tree, under: u64, at: Weight)
        ensures { (bs : Bodies) (n : ℕ) → AreWeighed bs self.now.by_name.entries → IsFit bs tree.now → under ≡ capped n →
            IsAdded all.old all.new at (λ τ ω. weigh τ ω n (unfold_by bs tree.now)) }
    {
        match node_parts(tree) {
            Some((sym, types, children)) => match self.weights(sym) {
                Some(body) => {
                    all.add_body(body, types, at);
                    self.add_arguments(all, &body.variables, children, under, at);
                }
                None => {
                    all.add_own(at);
                    let inside = below(at);
                    all.add_types(types, inside);
                    self.add_trees(all, children, inner(sym, under), inside);
                }
            },
            None => all.add_leaf(tree, under, at),
        }
    }

    #[cycle(add_tree)]
    #[tactic(auto, using(crate::proofs::Weighed::walk))]
    fn add_trees(&self, all: &mut Weights, trees: &[Tree], under: u64, at: Weight)
        ensures { (bs : Bodies) (n : ℕ) → AreWeighed bs self.now.by_name.entries → AreFit bs (terms trees.now) → under ≡ capped n →
            IsAdded all.old all.new at (λ τ ω. weigh_all τ ω n (unfold_all_by bs (terms trees.now))) }
    {
        for tree in trees {
            self.add_tree(all, tree, under, at);
        }
    }

    /// Adds arguments, of which the last stands for the innermost variable, as often as these weights say.
    #[cycle(add_tree)]
    #[tactic(auto, using(crate::proofs::Weighed::walk))]
    fn add_arguments(
        &self,
        all: &mut Weights,
        weights: &[Weight],
        arguments: &[Tree],
        under: u64,
        at: Weight,
    )
        ensures { (bs : Bodies) (n : ℕ) → AreWeighed bs self.now.by_name.entries → AreFit bs (terms arguments.now) → under ≡ capped n →
            IsAdded all.old all.new at (λ τ ω. zipped weights.now (map (λ u. weigh τ ω n (unfold_by bs u)) (reverse arguments.now))) }
    {
        let mut left = arguments.len();
        for weight in weights {
            if left == 0 {
                return;
            }
            left -= 1;
            self.add_tree(all, &arguments[left], under, within(at, *weight));
        }
    }

    /// Size and depth of the unfolded term, linear in the term as it is written.
    pub fn extent(&self, alloc: Global, tree: &Tree) -> Extent
        ensures { (env : TheEnv) → IsWellFormed env → AreWeighed (bodies_after [] env) self.now.by_name.entries → IsTyped env tree.now →
            result ≡ unfolded_extent env tree.now }
    {
        let mut all = Weights::new(alloc);
        self.add_tree(&mut all, tree, 0, WHOLE);
        extent_of(all.own)
    }
}

/// How many binders stand around the children of the symbol.
fn inner(sym: &Sym, under: u64) -> u64
    ensures { result ≡ capped (under + binds sym.now) }
{
    under.saturating_add(u64::from(binds(sym)))
}
