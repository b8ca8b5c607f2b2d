//! How often and how deep the parts of a term stand in it.
ghost use Rattle.std.specs.Prelude.{◌≡◌, ◌≢◌, ℕ, length, map, IfOk};
ghost use Rattle.ev_ops.specs.inner.Weights.{IsAlike, IsAdded, ArePlaces, beside, within, deep_within, nothing, whole, child, zipped, weigh_var, weigh, weigh_type, weigh_types};
ghost use Rattle.ev_terms.specs.declared.types.Sym.{Sym as TheSym};
ghost use Rattle.ev_terms.specs.declared.types.Tys.{Tys as TheTys};
ghost use Rattle.ev_terms.specs.Term.{Terms, node};
ghost use Rattle.ev_terms.specs.Types.{type_list};
ghost use Rattle.ev_terms.specs.Measures.{capped};

use ev_terms::{Extent, NoMemory, Tree, Ty, Tys};
use std::alloc::Global;

/// How often something stands in a term, and how deep: the number of nodes on the longest path to it, with itself, or 0 where it does
/// not stand there. Both numbers stand still at the end of their type.
#[derive(Debug, Clone, Copy, PartialEq, Eq)]
pub struct Weight {
    pub often: u64,
    pub deep: u64,
}

/// The weights of a term: of all that is its own, and of each variable, from the innermost on, and each type parameter that has a
/// place. One without a place counts as a node of the term's own.
#[derive(Drop)]
pub struct Weights {
    pub own: Weight,
    pub variables: Vec<Weight>,
    pub types: Vec<Weight>,
}

const NOTHING: Weight = Weight { often: 0, deep: 0 };

pub const WHOLE: Weight = Weight { often: 1, deep: 1 };

fn beside(a: Weight, b: Weight) -> Weight
    ensures { IsAlike result (beside a b) }
{
    Weight {
        often: a.often.saturating_add(b.often),
        deep: a.deep.max(b.deep),
    }
}

fn deep_within(a: u64, b: u64) -> u64
    ensures { result ≡ capped (deep_within a b) }
{
    if a == 0 || b == 0 {
        return 0;
    }
    a.saturating_add(b - 1)
}

/// The weight of a part of what stands in a place.
pub fn within(at: Weight, part: Weight) -> Weight
    ensures { IsAlike result (within at part) }
{
    Weight {
        often: at.often.saturating_mul(part.often),
        deep: deep_within(at.deep, part.deep),
    }
}

/// That of what stands right below the place.
pub fn below(at: Weight) -> Weight
    ensures { IsAlike result (within at child) }
{
    within(at, Weight { often: 1, deep: 2 })
}

#[tactic(auto, using(crate::proofs::WeightLaws::placing))]
fn places(alloc: Global, count: u32) -> Result<Vec<Weight>, NoMemory>
    ensures { IfOk result (λ ws. ArePlaces count ws.items) }
{
    let mut all = Vec::new(alloc);
    for _ in 0..count {
        all.push(NOTHING)?;
    }
    Ok(all)
}

/// A place for each type.
fn places_for(alloc: Global, types: &Tys) -> Result<Vec<Weight>, NoMemory>
    ensures { IfOk result (λ ws. ArePlaces (length (type_list types.now)) ws.items) }
{
    let mut all = Vec::new(alloc);
    let mut left = types;
    while let Tys::More(_, rest) = left {
        all.push(NOTHING)?;
        left = rest.get();
    }
    Ok(all)
}

/// Size and depth of a term by the weight of what is its own.
pub fn extent_of(own: Weight) -> Extent
    ensures { result ≡ record { size = capped own.often; depth = capped own.deep } }
{
    Extent {
        size: own.often,
        depth: own.deep,
    }
}

impl Weights {
    /// Of nothing, with no place.
    pub fn new(alloc: Global) -> Weights
        ensures own { result.own ≡ nothing }
        ensures variables { length result.variables.items ≡ 0 }
        ensures types { length result.types.items ≡ 0 }
    {
        Weights {
            own: NOTHING,
            variables: Vec::new(alloc),
            types: Vec::new(alloc),
        }
    }

    /// Of nothing, with a place for each argument and for so many type parameters.
    pub fn with_places(alloc: Global, arguments: &Tys, params: u32) -> Result<Weights, NoMemory>
        ensures { IfOk result (λ S. (S.own ≡ nothing) × (ArePlaces (length (type_list arguments.now)) S.variables.items × ArePlaces params S.types.items)) }
    {
        Ok(Weights {
            own: NOTHING,
            variables: places_for(alloc, arguments)?,
            types: places(alloc, params)?,
        })
    }

    pub fn add_own(&mut self, at: Weight)
        ensures { IsAdded self.old self.new at (λ τ ω. whole) }
    {
        self.own = beside(self.own, at);
    }

    pub fn add_variable(&mut self, i: usize, at: Weight)
        ensures { IsAdded self.old self.new at (λ τ ω. ω i) }
    {
        if i < self.variables.len() {
            self.variables[i] = beside(self.variables[i], at);
        } else {
            self.add_own(at);
        }
    }

    pub fn add_param(&mut self, i: usize, at: Weight)
        ensures { IsAdded self.old self.new at (λ τ ω. τ i) }
    {
        if i < self.types.len() {
            self.types[i] = beside(self.types[i], at);
        } else {
            self.add_own(at);
        }
    }

    /// The nodes of a type in the place.
    #[cycle(add_type)]
    #[tactic(auto, using(crate::proofs::WeightLaws::types_walk))]
    pub fn add_type(&mut self, ty: &Ty, at: Weight)
        ensures { IsAdded self.old self.new at (λ τ ω. weigh_type τ ty.now) }
    {
        match ty {
            Ty::Int | Ty::Bool | Ty::Prop => self.add_own(at),
            Ty::Param(i) => self.add_param(*i as usize, at),
            Ty::Pow(a) => {
                self.add_own(at);
                self.add_type(a.get(), below(at));
            }
            Ty::Prod(a, b) => {
                self.add_own(at);
                let inside = below(at);
                self.add_type(a.get(), inside);
                self.add_type(b.get(), inside);
            }
            Ty::Data(_, types) => {
                self.add_own(at);
                self.add_types(types, below(at));
            }
        }
    }

    #[cycle(add_type)]
    #[tactic(auto, using(crate::proofs::WeightLaws::types_walk))]
    pub fn add_types(&mut self, types: &Tys, at: Weight)
        ensures { IsAdded self.old self.new at (λ τ ω. weigh_types τ types.now) }
    {
        let mut left = types;
        while let Tys::More(ty, rest) = left {
            self.add_type(ty.get(), at);
            left = rest.get();
        }
    }

    /// A variable under so many binders, or a literal.
    pub fn add_leaf(&mut self, tree: &Tree, under: u64, at: Weight)
        ensures { (n : ℕ) → under ≡ capped n → ((s : TheSym) (As : TheTys) (ts : Terms) → tree.now ≢ node s As ts) → IsAdded self.old self.new at (λ τ ω. weigh τ ω n tree.now) }
    {
        match tree.var() {
            Some(i) => self.add_bound(i, under, at),
            None => self.add_own(at),
        }
    }

    fn add_bound(&mut self, i: u32, under: u64, at: Weight)
        ensures { (n : ℕ) → under ≡ capped n → IsAdded self.old self.new at (λ τ ω. weigh_var ω n i) }
    {
        if u64::from(i) < under {
            self.add_own(at);
        } else {
            self.add_variable((u64::from(i) - under) as usize, at);
        }
    }

    /// What an operator's body has of its own, and its types as often as its weights say.
    pub fn add_body(&mut self, body: &Weights, types: &Tys, at: Weight)
        ensures { IsAdded self.old self.new at (λ τ ω. beside body.now.own (zipped body.now.types.items (map (weigh_type τ) (type_list types.now)))) }
    {
        self.add_own(within(at, body.own));
        self.add_types_by(&body.types, types, at);
    }

    fn add_types_by(&mut self, weights: &[Weight], types: &Tys, at: Weight)
        ensures { IsAdded self.old self.new at (λ τ ω. zipped weights.now (map (weigh_type τ) (type_list types.now))) }
    {
        let mut left = types;
        for weight in weights {
            let Tys::More(ty, rest) = left else {
                return;
            };
            self.add_type(ty.get(), within(at, *weight));
            left = rest.get();
        }
    }
}
