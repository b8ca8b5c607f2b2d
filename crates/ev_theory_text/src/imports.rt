//! The imports of a theory text.
ghost use Rattle.std.specs.Prelude.{◌≡◌, IfOk, OnOk};
ghost use Rattle.ev_theory_text.specs.Theories.{with_name, with_import, import_names};

use crate::elements::{RawElement, RawElements};
use crate::forms::ElementForm;
use ev_terms::{Name, Names, NoMemory, TryCopy};
use indexmap::IndexSet;
use std::alloc::Global;

/// Appends a name that is not yet among some.
fn add_name(names: &mut IndexSet<Name>, alloc: Global, name: &Name) -> Result<(), NoMemory>
    ensures { OnOk result (names.new.keys ≡ with_name names.old.keys name.now) }
{
    let _added = names.insert_full(name.try_copy(alloc)?)?;
    Ok(())
}

/// Appends the name that an element imports, if it does and the name is not yet among some.
fn add_import(
    names: &mut IndexSet<Name>,
    alloc: Global,
    element: &RawElement,
) -> Result<(), NoMemory>
    ensures { OnOk result (names.new.keys ≡ with_import names.old.keys element.now) }
{
    match element {
        RawElement::Read(form) => match form {
            ElementForm::Import(name) => add_name(names, alloc, name),
            _ => Ok(()),
        },
        RawElement::Bad(_) => Ok(()),
    }
}

fn imported(alloc: Global, elements: &RawElements) -> Result<IndexSet<Name>, NoMemory>
    ensures { IfOk result (λ names. names.keys ≡ import_names elements.now) }
{
    let mut names = IndexSet::new(alloc);
    for element in elements.as_slice() {
        add_import(&mut names, alloc, element)?;
    }
    Ok(names)
}

/// The names of the imports of a theory text that are read, each once, in order. Linear in the elements.
pub fn import_names(alloc: Global, elements: &RawElements) -> Result<Names, NoMemory>
    ensures { IfOk result (λ names. names ≡ import_names elements.now) }
{
    let imported = imported(alloc, elements)?;
    let mut names = Names::new(alloc);
    for name in imported.iter() {
        names.push(alloc, name.try_copy(alloc)?)?;
    }
    Ok(names)
}
