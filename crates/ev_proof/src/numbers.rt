//! Readers of numbers and places.
ghost use Rattle.std.specs.Prelude.{IfOk};
ghost use Rattle.std.specs.List.{list_any};
ghost use Rattle.ev_parse.specs.Sequences.{Repeated, Number};
ghost use Rattle.ev_proof.specs.Steps.{ReadsPlace};
ghost use Rattle.ev_parse.specs.inner.Taking.{Took, NoNumber, never};

use ev_parse::cursor::Cursor;
use ev_parse::lists::with;
use ev_syntax::mark_names::AT_WORD;
use ev_terms::{NoMemory, Nums};
use std::alloc::Global;

/// Reads all numbers that come next.
pub(crate) fn read_numbers(cursor: &mut Cursor<'_>, alloc: Global) -> Result<Option<Nums>, NoMemory>
    ensures { IfOk result (λ v. Took (Repeated Number) NoNumber (list_any never) cursor.old v cursor.new) }
{
    let mut numbers = Some(Nums::new(alloc));
    'numbers: while cursor.begins_number() {
        let number = cursor.number();
        numbers = with(alloc, numbers, number)?;
    }
    Ok(numbers)
}

/// Reads a place: `at` and child numbers.
pub(crate) fn read_place(cursor: &mut Cursor<'_>, alloc: Global) -> Result<Option<Nums>, NoMemory>
    ensures { IfOk result (λ v. Took ReadsPlace NoNumber (list_any never) cursor.old v cursor.new) }
{
    cursor.mark(AT_WORD);
    read_numbers(cursor, alloc)
}
