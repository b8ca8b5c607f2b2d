//! Where parentheses close.
ghost use Rattle.std.specs.Prelude.{◌≡◌, ◌≤◌, ◌<◌, ◌+◌, length, IfOk, Some};
ghost use Rattle.ev_syntax.specs.declared.kinds.TokenKind.TheVariants.{Mark as AMark};
ghost use Rattle.ev_syntax.specs.inner.TokenAt.{IsTokenAt, IsIndex};
ghost use Rattle.ev_parse.specs.inner.Closings.{IsTable, Closes};

use ev_syntax::TokenKind;
use ev_syntax::mark_names::{CLOSE_PAREN, OPEN_PAREN};
use ev_syntax::read_pieces::push;
use ev_syntax::reader::Reader;
use ev_terms::NoMemory;
use std::alloc::Global;

/// An entry of the table, by its place.
pub(crate) fn entry(reader: &Reader<'_>, table: &[Option<usize>], at: usize) -> Option<usize>
    requires table { IsTable reader.now table.now }
    requires inside { (at ≤ length reader.now) × (length reader.now < length table.now + at) }
    ensures { Closes reader.now at result }
{
    table[reader.len() - at]
}

/// The entry of a place where a mark stands.
fn closing_mark(reader: &Reader<'_>, table: &[Option<usize>], at: usize, mark: u16) -> Option<usize>
    requires table { IsTable reader.now table.now }
    requires all { length table.now + at ≡ length reader.now }
    requires inside { IsIndex reader.now at }
    requires token { IsTokenAt (Some (AMark mark)) reader.now at }
    ensures { Closes reader.now at result }
{
    if mark == CLOSE_PAREN {
        return Some(at + 1);
    }
    let next = entry(reader, table, at + 1);
    if mark != OPEN_PAREN {
        return next;
    }
    match next {
        Some(to) => entry(reader, table, to),
        None => None,
    }
}

/// The entry of a place, by those of the later places.
fn closing(reader: &Reader<'_>, table: &[Option<usize>], at: usize) -> Option<usize>
    requires table { IsTable reader.now table.now }
    requires all { length table.now + at ≡ length reader.now }
    requires inside { at < length reader.now }
    ensures { Closes reader.now at result }
{
    match reader.kind(at) {
        Some(TokenKind::Name) => entry(reader, table, at + 1),
        Some(TokenKind::Number(_)) => entry(reader, table, at + 1),
        Some(TokenKind::Mark(mark)) => closing_mark(reader, table, at, mark),
        None => None,
    }
}

/// Of each place, the last place first: the place behind the parenthesis that closes one that is open before it.
pub fn closings_of(reader: &Reader<'_>, alloc: Global) -> Result<Vec<Option<usize>>, NoMemory>
    ensures { IfOk result (λ t. IsTable reader.now t.items × (length t.items ≡ length reader.now + 1)) }
{
    let mut table = Vec::new(alloc);
    push(&mut table, None)?;
    let mut at = reader.len();
    while at > 0 {
        let place = closing(reader, table.as_slice(), at - 1);
        push(&mut table, place)?;
        at -= 1;
    }
    Ok(table)
}
