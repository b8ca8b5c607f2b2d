//! The tokens that are left to read.
ghost use Rattle.std.specs.Prelude.{◌≡◌, true, [], Option, Some, None, ◌↔◌, IsTrue, IfOk};
ghost use Rattle.ev_syntax.specs.Grammar.{ReadsType};
ghost use Rattle.ev_syntax.specs.Parses.{ReadsAs};
ghost use Rattle.ev_parse.specs.Sequences.{Word, Number};
ghost use Rattle.ev_parse.specs.Depths.{formula_deep, type_deep};
ghost use Rattle.ev_parse.specs.inner.Taking.{next, next_is, begins_number, behind_mark, Took, Anything, EndsType, EndsFormula, never};
ghost use Rattle.ev_parse.specs.inner.Places.{from_place, IsWithin, whole};

use crate::closings::closings_of;
use crate::items::read_item;
use ev_syntax::type_reader::read_type;
use ev_syntax::{Piece, Raw, RawType, Reader, Sort, TokenKind};
use ev_terms::limits::NESTING_LIMIT;
use ev_terms::{Name, NoMemory};
use std::alloc::Global;
use std::marker::Model;

/// The place behind a mark, if that stands at a place.
fn place_behind(reader: &Reader<'_>, at: Option<usize>, mark: u16) -> Option<usize>
    requires { IsWithin reader.now at }
    ensures is { from_place reader.now result ≡ behind_mark mark (from_place reader.now at) }
    ensures within { IsWithin reader.now result }
{
    let at = at?;
    if reader.is_mark(at, mark) {
        Some(at + 1)
    } else {
        None
    }
}

/// The tree of a piece, if it was built.
fn whole<T: Drop>(piece: Piece<T>) -> Option<T>
    ensures { result ≡ whole piece }
{
    match piece {
        Piece::Whole(tree, _) => Some(tree),
        Piece::Deep => None,
    }
}

/// The tokens that are left to read. Once something that must come next does not, nothing is left.
#[derive(Drop)]
pub struct Cursor<'a> {
    reader: &'a Reader<'a>,
    /// Where parentheses close.
    table: Vec<Option<usize>>,
    at: Option<usize>,
}

impl<'a> Model for Cursor<'a> {
    ghost use Rattle.ev_parse.specs.inner.Taking.{State};

    ghost Value = { State };

    ghost use Rattle.ev_parse.specs.inner.Places.{from_place, IsAt};

    ghost view = { λ c. from_place c.reader.now c.at };

    ghost invariant = { λ c. IsAt c.reader.now c.table.items c.at };
}

impl<'a> Cursor<'a> {
    /// Before all the tokens.
    pub fn new(alloc: Global, reader: &'a Reader<'a>) -> Result<Cursor<'a>, NoMemory>
        ensures { IfOk result (λ c. c ≡ Some reader.now) }
    {
        let table = closings_of(reader, alloc)?;
        let at = Some(0);
        Ok(Cursor { reader, table, at })
    }

    /// Whether all tokens are read.
    pub fn is_at_end(&self) -> bool
        ensures { IsTrue result ↔ (self.now ≡ Some []) }
    {
        match self.at {
            Some(at) => at == self.reader.len(),
            None => false,
        }
    }

    /// Whether the mark comes next.
    pub fn begins(&self, mark: u16) -> bool
        ensures { result ≡ next_is mark self.now }
    {
        match self.at {
            Some(at) => self.reader.is_mark(at, mark),
            None => false,
        }
    }

    /// Whether a number comes next.
    pub fn begins_number(&self) -> bool
        ensures { result ≡ next begins_number self.now }
    {
        match self.at {
            Some(at) => matches!(self.reader.kind(at), Some(TokenKind::Number(_))),
            None => false,
        }
    }

    /// Gives up: nothing is left.
    pub fn refuse(&mut self)
        ensures { self.new ≡ None }
    {
        self.at = None;
    }

    /// The mark, which must come next, is read.
    pub fn mark(&mut self, mark: u16)
        ensures { self.new ≡ behind_mark mark self.old }
    {
        self.at = place_behind(self.reader, self.at, mark);
    }

    /// The name that must come next is read.
    pub fn name(&mut self, alloc: Global) -> Result<Option<Name>, NoMemory>
        ensures { IfOk result (λ v. Took Word Anything never self.old v self.new) }
    {
        let Some(at) = self.at else {
            return Ok(None);
        };
        match self.reader.kind(at) {
            Some(TokenKind::Name) => {
                let name = self.reader.name(alloc, at)?;
                self.at = Some(at + 1);
                Ok(Some(name))
            }
            _ => {
                self.at = None;
                Ok(None)
            }
        }
    }

    /// The number that must come next is read.
    pub fn number(&mut self) -> Option<u128>
        ensures { Took Number Anything never self.old result self.new }
    {
        let at = self.at?;
        match self.reader.kind(at) {
            Some(TokenKind::Number(number)) => {
                self.at = Some(at + 1);
                Some(number)
            }
            _ => {
                self.at = None;
                None
            }
        }
    }

    /// The type that must come next is read. It is kept if it is not nested too deeply.
    pub fn written(&mut self, alloc: Global) -> Result<Option<RawType>, NoMemory>
        ensures { IfOk result (λ v. Took (λ a. ReadsType a true) EndsType type_deep self.old v self.new) }
    {
        let Some(at) = self.at else {
            return Ok(None);
        };
        match read_type(self.reader, alloc, NESTING_LIMIT, at)? {
            Some((piece, to)) => {
                self.at = Some(to);
                Ok(whole(piece))
            }
            None => {
                self.at = None;
                Ok(None)
            }
        }
    }

    /// The formula of a sort that must come next is read. It is kept if it is not nested too deeply.
    pub fn formula(&mut self, alloc: Global, sort: Sort) -> Result<Option<Raw>, NoMemory>
        ensures { IfOk result (λ v. Took (ReadsAs sort) EndsFormula formula_deep self.old v self.new) }
    {
        let Some(at) = self.at else {
            return Ok(None);
        };
        match read_item(
            self.reader,
            alloc,
            NESTING_LIMIT,
            self.table.as_slice(),
            sort,
            at,
        )? {
            Some((piece, to)) => {
                self.at = Some(to);
                Ok(whole(piece))
            }
            None => {
                self.at = None;
                Ok(None)
            }
        }
    }
}
