//! The variables in scope.
ghost use Rattle.std.specs.Prelude.{◌≡◌, ◌≢◌, ◌≤◌, ◌-◌, ◌++◌, ◌∷◌, ℕ, [], List, None, Some, length, take, bytes_eq, if◌then◌else◌, option_and_then, IfSome, IfNone, IfOk, OnOk, OnErr};
ghost use Rattle.indexmap.specs.IndexMap.{get, spare};
ghost use Rattle.ev_resolve.specs.Reading.{Known, option_is, meaning, formula_meaning, variable_of};
ghost use Rattle.ev_resolve.specs.UsedNames.{is_name_among, variable_names};
ghost use Rattle.ev_resolve.specs.declared.scope.ScopeVariable.{ScopeVariable};
ghost use Rattle.ev_resolve.specs.inner.Scopes.{seen, scope_of, meaning_told};

use crate::names::Meant;
use ev_terms::{Name, NoMemory, TryCopy};
use indexmap::IndexMap;
use std::alloc::Global;
use std::marker::Model;

/// A variable in scope: its name, or none where no text can name it, and whether it stands for a predicate.
#[derive(Drop)]
pub struct ScopeVariable {
    pub name: Option<Name>,
    pub is_predicate: bool,
}

/// A variable with the place of the variable of the same name that it hides, where there is one.
#[derive(Drop)]
pub struct Slot {
    variable: ScopeVariable,
    hidden: Option<usize>,
}

/// Variables in scope, which contracts see as a list, the innermost last. The table has the place of the innermost of each name.
#[derive(Drop)]
pub struct Scope {
    slots: Vec<Slot>,
    innermost: IndexMap<Name, usize>,
}

impl Model for Scope {
    ghost use Rattle.std.specs.Prelude.{List};
    ghost use Rattle.std.specs.Coded.{coded_list};
    ghost use Rattle.ev_resolve.specs.declared.scope.ScopeVariable.{ScopeVariable as Shown};
    ghost use Rattle.ev_resolve.specs.contracts.scope.ScopeVariable as variable;

    ghost Value = { List Shown };

    ghost coded = { coded_list variable.the_row.coded };

    ghost use Rattle.ev_resolve.specs.inner.Places.{variables_of, IsScope};

    ghost view = { λ s. variables_of s.slots.items };

    ghost invariant = { λ s. IsScope s.innermost s.slots.items };
}

impl Scope {
    /// No variables.
    pub fn new(alloc: Global) -> Scope
        ensures { result ≡ [] }
    {
        Scope {
            slots: Vec::new(alloc),
            innermost: IndexMap::new(alloc),
        }
    }

    /// A new innermost variable. After `NoMemory` the scope is as it was.
    pub fn push(&mut self, alloc: Global, variable: ScopeVariable) -> Result<(), NoMemory>
        ensures ok { OnOk result (self.new ≡ self.old ++ variable ∷ []) }
        ensures err { OnErr result (self.new ≡ self.old) }
    {
        let name = copy_of(alloc, &variable.name)?;
        let hidden = place_of(&self.innermost, &name);
        let place = self.slots.len();
        self.innermost.reserve(1)?;
        self.slots.push(Slot { variable, hidden })?;
        if let Some(name) = name {
            show(&mut self.innermost, name, place);
        }
        Ok(())
    }

    /// How many variables there are.
    pub fn len(&self) -> usize
        ensures { result ≡ length self.now }
    {
        self.slots.len()
    }

    /// Takes away the innermost variable, where there is one.
    pub fn pop(&mut self)
        ensures { self.new ≡ take (length self.old - 1) self.old }
    {
        if let Some(slot) = self.slots.pop() {
            let Slot { variable, hidden } = slot;
            show_again(&mut self.innermost, variable.name, hidden);
        }
    }

    /// Takes away all but so many variables.
    pub fn truncate(&mut self, count: usize)
        requires { count ≤ length self.old }
        ensures { self.new ≡ take count self.old }
    {
        while self.len() > count {
            self.pop();
        }
    }

    /// What a name means that names a variable.
    pub fn variable(&self, name: &Name) -> Option<Meant>
        ensures found { IfSome result (λ m. (params : List (List ℕ)) → (known : Known) → meaning_told m ≡ meaning params known name.now (scope_of self.now) 0) }
        ensures none { IfNone result ((params : List (List ℕ)) → (known : Known) → formula_meaning params known name.now ≡ meaning params known name.now (scope_of self.now) 0) }
    {
        match self.innermost.get(name) {
            Some(place) => {
                let slot = &self.slots[*place];
                let inside = self.slots.len() - 1 - *place;
                Some(variable_meant(&slot.variable, inside))
            }
            None => None,
        }
    }

    /// Whether a name is that of a variable.
    pub fn has(&self, name: &Name) -> bool
        ensures { result ≡ is_name_among (variable_names (scope_of self.now)) name.now }
    {
        self.innermost.contains_key(name)
    }
}

fn copy_of(alloc: Global, name: &Option<Name>) -> Result<Option<Name>, NoMemory>
    ensures { IfOk result (λ copy. copy ≡ name.now) }
{
    match name {
        Some(name) => Ok(Some(name.try_copy(alloc)?)),
        None => Ok(None),
    }
}

/// Where the variable of a name stands.
fn place_of(innermost: &IndexMap<Name, usize>, name: &Option<Name>) -> Option<usize>
    ensures { result ≡ option_and_then (get bytes_eq innermost.now) name.now }
{
    match name {
        Some(name) => innermost.get(name).copied(),
        None => None,
    }
}

/// Puts a place under a name, for which there is room.
fn show(innermost: &mut IndexMap<Name, usize>, name: Name, place: usize)
    requires { 1 ≤ spare innermost.old }
    ensures { (n : List ℕ) → get bytes_eq innermost.new n ≡ (if bytes_eq name n then Some place else get bytes_eq innermost.old n) }
{
    let Ok(_) = innermost.insert(name, place) else {
        unreachable!()
    };
}

/// Puts the hidden place back under the name of a variable, where it has one.
fn show_again(innermost: &mut IndexMap<Name, usize>, name: Option<Name>, hidden: Option<usize>)
    requires { (k : List ℕ) → name ≡ Some k → get bytes_eq innermost.old k ≢ None }
    ensures { (n : List ℕ) → get bytes_eq innermost.new n ≡ (if option_is n name then hidden else get bytes_eq innermost.old n) }
{
    match name {
        Some(name) => put_back(innermost, name, hidden),
        None => {}
    }
}

fn put_back(innermost: &mut IndexMap<Name, usize>, name: Name, hidden: Option<usize>)
    requires { get bytes_eq innermost.old name ≢ None }
    ensures { (n : List ℕ) → get bytes_eq innermost.new n ≡ (if bytes_eq name n then hidden else get bytes_eq innermost.old n) }
{
    match hidden {
        Some(place) => {
            let Ok(_) = innermost.insert(name, place) else {
                unreachable!()
            };
        }
        None => {
            let _shown = innermost.swap_remove(&name);
        }
    }
}

fn variable_meant(variable: &ScopeVariable, i: usize) -> Meant
    ensures { meaning_told result ≡ variable_of (seen variable.now).type i }
{
    if variable.is_predicate {
        Meant::Predicate(i)
    } else {
        Meant::Variable(i)
    }
}
