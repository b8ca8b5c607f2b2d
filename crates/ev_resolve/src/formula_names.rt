//! Formula names: type parameters, datatypes and symbols.
ghost use Rattle.std.specs.Prelude.{◌≡◌, ◌≤◌, ℕ, List, length, position, bytes_eq, option_map, IfOk};
ghost use Rattle.std.specs.Option.{option_copied};
ghost use Rattle.std.specs.List.{list_any};
ghost use Rattle.indexmap.specs.IndexMap.{get};
ghost use Rattle.ev_typing.specs.Env.{find_data};
ghost use Rattle.ev_typing.specs.WellFormed.{IsWellFormed};
ghost use Rattle.ev_resolve.specs.UsedNames.{is_formula_name};
ghost use Rattle.ev_resolve.specs.Resolve.{known_of};

use ev_terms::{Name, Names, NoMemory, Sym, TryCopy};
use ev_typing::{DataDecl, Env, types_of_symbol};
use indexmap::IndexMap;
use std::alloc::Global;
use std::marker::Model;

/// The names that formulas may use and that name no variable: type parameters by their numbers, and what an environment declares.
/// Contracts see the pair of the two.
#[derive(Drop)]
pub struct FormulaNames<'a> {
    env: &'a Env,
    params: &'a Names,
    numbers: IndexMap<Name, u32>,
}

impl<'a> Model for FormulaNames<'a> {
    ghost use Rattle.std.specs.Prelude.{ℕ, List};
    ghost use Rattle.std.specs.Coded.{coded_list, coded_ℕ, coded×};
    ghost use Rattle.ev_typing.specs.declared.typing.Entry.{Entry};
    ghost use Rattle.ev_typing.specs.contracts.typing.Entry as entry;

    ghost Value = { List (List ℕ) × List Entry };

    ghost coded = { coded× (coded_list (coded_list coded_ℕ)) (coded_list entry.the_row.coded) };

    ghost view = { λ f. (f.params.now, f.env.now) };

    ghost use Rattle.ev_typing.specs.WellFormed.{IsWellFormed};
    ghost use Rattle.ev_resolve.specs.inner.Scopes.{IsNumbering};

    ghost invariant = { λ f. IsNumbering f.numbers f.params.now × IsWellFormed f.env.now };
}

impl<'a> FormulaNames<'a> {
    /// The names of these type parameters and of this environment. Linear in the number of parameters. A list of more than 2^32, whose
    /// numbers no type could hold, is more than the table has memory for.
    pub fn new(alloc: Global, env: &'a Env, params: &'a Names) -> Result<FormulaNames<'a>, NoMemory>
        ensures { IfOk result (λ names. names ≡ (params.now, env.now)) }
    {
        if params.len() > 4294967296 {
            return Err(NoMemory);
        }
        let _well_formed = env.count();
        let numbers = numbers_of(alloc, params.as_slice())?;
        Ok(FormulaNames {
            env,
            params,
            numbers,
        })
    }

    /// The environment.
    pub fn env(&self) -> &Env
        ensures is { result.now ≡ self.now.1 }
        ensures well_formed { IsWellFormed self.now.1 }
    {
        self.env
    }

    /// The number of the type parameter of this name.
    pub fn parameter(&self, name: &Name) -> Option<u32>
        ensures { result ≡ position (bytes_eq name.now) self.now.0 }
    {
        self.numbers.get(name).copied()
    }

    /// The datatype of this name.
    pub fn datatype(&self, name: &Name) -> Option<&DataDecl>
        ensures { option_copied result ≡ find_data self.now.1 name.now }
    {
        self.env.datatype(name)
    }

    /// The number of arguments of the symbol of this name.
    pub fn argument_count(&self, alloc: Global, name: &Name) -> Result<Option<usize>, NoMemory>
        ensures { IfOk result (λ count. count ≡ (known_of self.now.1).argument_count name.now) }
    {
        match types_of_symbol(alloc, self.env, &Sym::User(name.try_copy(alloc)?))? {
            Some(types) => Ok(Some(types.args.len())),
            None => Ok(None),
        }
    }

    /// Whether a name is a type parameter, a datatype, a constructor, a destructor, an operator or a constant. In constant time.
    #[tactic(auto, using(crate::proofs::Declared::walk))]
    pub fn has(&self, name: &Name) -> bool
        ensures { result ≡ is_formula_name self.now.0 (known_of self.now.1) name.now }
    {
        if self.numbers.contains_key(name) {
            return true;
        }
        self.env.symbol(name).is_some()
    }
}

/// The number of each name, that of its first place.
fn numbers_of(alloc: Global, params: &[Name]) -> Result<IndexMap<Name, u32>, NoMemory>
    requires { length params.now ≤ 4294967296 }
    ensures { IfOk result (λ numbers. (n : List ℕ) → get bytes_eq numbers n ≡ position (bytes_eq n) params.now) }
{
    let mut numbers = IndexMap::new(alloc);
    let mut left = params.len();
    'names: while left > 0 {
        left -= 1;
        numbers.insert(params[left].try_copy(alloc)?, left as u32)?;
    }
    Ok(numbers)
}
