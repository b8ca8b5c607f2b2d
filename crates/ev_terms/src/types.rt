ghost use Rattle.std.specs.Prelude.{◌≡◌, ◌↔◌, ◌≤◌, [], ◌∷◌, ◌++◌, length, slice_get, IsTrue, IfOk, OnOk, OnErr};
ghost use Rattle.std.specs.Option.{option_copied};
ghost use Rattle.ev_terms.specs.declared.types.Tys.{Empty};
ghost use Rattle.ev_terms.specs.Types.{more, type_list};
ghost use Rattle.ev_terms.specs.Substitution.{type_inst, types_inst, type_at};
ghost use Rattle.ev_terms.specs.Symbols.{binds};

use crate::shared::Shared;
use crate::strings::Name;
use crate::symbols::{FOR_ALL, FOR_SOME, SET};
use crate::values::{NoMemory, Same, TryCopy};
use std::alloc::Global;

/// A type: the integers, the truth values, the inner type of predicates, a type parameter by its number, the subsets of a type,
/// the pairs of two types, a datatype at types. `Shared` stands where Rust would have a box, so that copies cost nothing.
#[cycle(ty)]
#[derive(Drop)]
pub enum Ty {
    Int,
    Bool,
    Prop,
    Param(u32),
    Pow(Shared<Ty>),
    Prod(Shared<Ty>, Shared<Ty>),
    Data(Name, Tys),
}

/// A list of types: empty, or a type before further ones. A copy shares everything.
#[cycle(ty)]
pub enum Tys {
    Empty,
    More(Shared<Ty>, Shared<Tys>),
}

/// A loop along the list, up to where it is shared, so that a long one does not run out of stack.
impl Drop for Tys {
    #[cycle(drop_types)]
    fn drop(mut self) {
        loop {
            match self {
                Tys::Empty => return,
                Tys::More(ty, rest) => {
                    if let Some(ty) = Shared::into_inner(ty) {
                        drop(ty);
                    }
                    match Shared::into_inner(rest) {
                        Some(list) => self = list,
                        None => return,
                    }
                }
            }
        }
    }
}

/// A symbol: a row of the table of base symbols, from 0, or a name that an environment declares.
#[derive(Drop)]
pub enum Sym {
    Base(u16),
    User(Name),
}

/// How many variables the symbol binds in each of its children.
#[tactic(auto, unfolding(crate::specs::Symbols::binds))]
pub fn binds(sym: &Sym) -> u32
    ensures { result ≡ binds sym.now }
{
    match sym {
        Sym::Base(row) => {
            if *row == FOR_ALL || *row == FOR_SOME || *row == SET {
                1
            } else {
                0
            }
        }
        Sym::User(_) => 0,
    }
}

impl TryCopy for Sym {
    fn try_copy(&self, alloc: Global) -> Result<Sym, NoMemory> {
        match self {
            Sym::Base(row) => Ok(Sym::Base(*row)),
            Sym::User(name) => Ok(Sym::User(name.try_copy(alloc)?)),
        }
    }
}

impl TryCopy for Ty {
    fn try_copy(&self, alloc: Global) -> Result<Ty, NoMemory> {
        match self {
            Ty::Int => Ok(Ty::Int),
            Ty::Bool => Ok(Ty::Bool),
            Ty::Prop => Ok(Ty::Prop),
            Ty::Param(i) => Ok(Ty::Param(*i)),
            Ty::Pow(a) => Ok(Ty::Pow(a.share()?)),
            Ty::Prod(a, b) => {
                let a = a.share()?;
                let b = b.share()?;
                Ok(Ty::Prod(a, b))
            }
            Ty::Data(name, types) => Ok(Ty::Data(name.try_copy(alloc)?, types.try_copy(alloc)?)),
        }
    }
}

impl TryCopy for Tys {
    fn try_copy(&self, _alloc: Global) -> Result<Tys, NoMemory> {
        match self {
            Tys::Empty => Ok(Tys::Empty),
            Tys::More(a, rest) => {
                let a = a.share()?;
                let rest = rest.share()?;
                Ok(Tys::More(a, rest))
            }
        }
    }
}

#[tactic(auto, using(crate::proofs::TypeSteps::walk))]
impl Tys {
    /// The empty list, which takes no memory.
    pub fn new(_alloc: Global) -> Tys
        ensures { type_list result ≡ [] }
    {
        Tys::Empty
    }

    /// The list of one type.
    pub fn one(alloc: Global, ty: Ty) -> Result<Tys, NoMemory>
        ensures is { IfOk result (λ ts. ts ≡ more ty Empty) }
        ensures list { IfOk result (λ ts. type_list ts ≡ ty ∷ []) }
    {
        Tys::before(alloc, ty, Tys::Empty)
    }

    /// The list with a type before it, in constant time.
    #[tactic(auto, using(crate::proofs::TypeSteps::forms))]
    pub fn before(alloc: Global, first: Ty, rest: Tys) -> Result<Tys, NoMemory>
        ensures is { IfOk result (λ ts. ts ≡ more first rest) }
        ensures list { IfOk result (λ ts. type_list ts ≡ first ∷ type_list rest) }
    {
        let first = Shared::new(alloc, first)?;
        Ok(Tys::More(first, Shared::new(alloc, rest)?))
    }

    /// The list of a vector's types, in linear time.
    pub fn from_vec(alloc: Global, types: Vec<Ty>) -> Result<Tys, NoMemory>
        ensures { IfOk result (λ ts. type_list ts ≡ types.items) }
    {
        let mut left = types;
        let mut list = Tys::Empty;
        while let Some(last) = left.pop() {
            list = Tys::before(alloc, last, list)?;
        }
        Ok(list)
    }

    /// The types in a vector, which share what they consist of with the list. In linear time.
    pub fn to_vec(&self, alloc: Global) -> Result<Vec<Ty>, NoMemory>
        ensures { IfOk result (λ types. types.items ≡ type_list self.now) }
    {
        let mut types = Vec::new(alloc);
        let mut left = self;
        while let Tys::More(ty, rest) = left {
            types.push(ty.get().try_copy(alloc)?)?;
            left = rest.get();
        }
        Ok(types)
    }

    /// How many types there are, in time linear in their number.
    pub fn len(&self) -> usize
        requires { length (type_list self.now) ≤ usize.MAX }
        ensures { result ≡ length (type_list self.now) }
    {
        let mut count = 0;
        let mut left = self;
        while let Tys::More(_, rest) = left {
            count += 1;
            left = rest.get();
        }
        count
    }

    /// A type, from 0, in time linear in its number.
    pub fn get(&self, i: usize) -> Option<&Ty>
        ensures { option_copied result ≡ slice_get (type_list self.now) i }
    {
        let mut at = i;
        let mut left = self;
        while let Tys::More(ty, rest) = left {
            if at == 0 {
                return Some(ty.get());
            }
            at -= 1;
            left = rest.get();
        }
        None
    }

    /// Appends a type. Each call takes time linear in the length, so a long list is made by `from_vec`. After `NoMemory` the list is
    /// as it was.
    pub fn push(&mut self, alloc: Global, item: Ty) -> Result<(), NoMemory>
        ensures ok { OnOk result (type_list self.new ≡ type_list self.old ++ item ∷ []) }
        ensures err { OnErr result (self.new ≡ self.old) }
    {
        let mut types = self.to_vec(alloc)?;
        types.push(item)?;
        *self = Tys::from_vec(alloc, types)?;
        Ok(())
    }
}

/// The type with the i-th type for parameter i, all at once; parameters past the list stay.
#[cycle(instantiate_type)]
#[tactic(auto, using(crate::proofs::Children::instance_walk))]
pub fn instantiate_type(alloc: Global, ty: &Ty, types: &Tys) -> Result<Ty, NoMemory>
    ensures { IfOk result (λ a. a ≡ type_inst (type_at types.now) ty.now) }
{
    match ty {
        Ty::Int => Ok(Ty::Int),
        Ty::Bool => Ok(Ty::Bool),
        Ty::Prop => Ok(Ty::Prop),
        Ty::Param(i) => match types.get(*i as usize) {
            Some(a) => a.try_copy(alloc),
            None => Ok(Ty::Param(*i)),
        },
        Ty::Pow(a) => Ok(Ty::Pow(Shared::new(alloc, instantiate_type(alloc, a.get(), types)?)?)),
        Ty::Prod(a, b) => {
            let a = Shared::new(alloc, instantiate_type(alloc, a.get(), types)?)?;
            let b = Shared::new(alloc, instantiate_type(alloc, b.get(), types)?)?;
            Ok(Ty::Prod(a, b))
        }
        Ty::Data(name, list) => {
            let name = name.try_copy(alloc)?;
            let list = instantiate_list(alloc, list, types)?;
            Ok(Ty::Data(name, list))
        }
    }
}

/// `instantiate_type` on each type of a list.
#[cycle(instantiate_type)]
#[tactic(auto, using(crate::proofs::Children::instance_walk))]
pub fn instantiate_list(alloc: Global, list: &Tys, types: &Tys) -> Result<Tys, NoMemory>
    ensures { IfOk result (λ ts. ts ≡ types_inst (type_at types.now) list.now) }
{
    let mut instances = Vec::new(alloc);
    let mut left = list;
    while let Tys::More(ty, rest) = left {
        instances.push(instantiate_type(alloc, ty.get(), types)?)?;
        left = rest.get();
    }
    Tys::from_vec(alloc, instances)
}

impl Same for Sym {
    fn same(&self, other: &Sym) -> bool {
        match (self, other) {
            (Sym::Base(row), Sym::Base(other)) => *row == *other,
            (Sym::User(name), Sym::User(other)) => name.same(other),
            _ => false,
        }
    }
}

impl Same for Ty {
    #[cycle(same_type)]
    fn same(&self, other: &Ty) -> bool {
        match (self, other) {
            (Ty::Int, Ty::Int) => true,
            (Ty::Bool, Ty::Bool) => true,
            (Ty::Prop, Ty::Prop) => true,
            (Ty::Param(i), Ty::Param(j)) => *i == *j,
            (Ty::Pow(a), Ty::Pow(b)) => a.get().same(b.get()),
            (Ty::Prod(a, b), Ty::Prod(c, d)) => a.get().same(c.get()) && b.get().same(d.get()),
            (Ty::Data(name, types), Ty::Data(other, others)) => name.same(other)
                && types.same(others),
            _ => false,
        }
    }
}

impl Same for Tys {
    #[cycle(same_type)]
    fn same(&self, other: &Tys) -> bool {
        let mut left = self;
        let mut others = other;
        while let Tys::More(a, rest) = left {
            let Tys::More(b, further) = others else {
                return false;
            };
            if !a.get().same(b.get()) {
                return false;
            }
            left = rest.get();
            others = further.get();
        }
        match others {
            Tys::Empty => true,
            Tys::More(_, _) => false,
        }
    }
}
