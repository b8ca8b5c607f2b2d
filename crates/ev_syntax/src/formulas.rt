//! Formulas before types are inferred.
ghost use Rattle.std.specs.Prelude.{◌≡◌, IfOk};
ghost use Rattle.ev_syntax.specs.inner.RawView.{raw_of};

use crate::binders::{Binder, Binders, Pattern};
use crate::written::RawType;
use ev_terms::{ListOf, Name, NoMemory};
use std::alloc::Global;
use std::marker::Model;

/// What a formula says before types are inferred. Parentheses leave no trace.
#[cycle(raw)]
#[derive(Drop)]
pub struct Raw {
    form: Box<FormulaForm>,
}

/// The form of a formula. Signs and reserved words are rows of the table of spellings. A name, with arguments or with none, is one
/// form, whether it stands for a predicate or for an expression.
#[cycle(raw)]
#[derive(Drop)]
pub enum FormulaForm {
    /// A reserved word alone: `true false TRUE FALSE INT BOOL NAT NAT1 id prj1 prj2`.
    Word(u16),
    Literal(u128),
    /// `?i`
    Param(u32),
    /// `TYPE(A)`
    TypeSet(RawType),
    Call(Name, ListOf<Raw>),
    /// A reserved word before parentheses: `finite bool POW union inter dom ran card min max`.
    Around(u16, Raw),
    /// `not`, unary `-`
    Unary(u16, Raw),
    /// An infix sign or word.
    Binary(u16, Raw, Raw),
    /// `E~`
    Inverse(Raw),
    /// `E(F)`
    Apply(Raw, Raw),
    /// `E[F]`
    Image(Raw, Raw),
    /// `E oftype A`
    OfType(Raw, RawType),
    /// `!xs. P`, `#xs. P`
    Quantified(u16, Binders, Raw),
    /// `{x | P}`
    SetOf(Binder, Raw),
    /// `{xs . P | E}`, `UNION xs . P | E`, `INTER xs . P | E`, by the mark that begins it.
    Collected(u16, Binders, Raw, Raw),
    /// `%p . P | E`
    Lambda(Pattern, Raw, Raw),
    /// `{e, .., e}`
    Members(ListOf<Raw>),
    /// A type, read as such.
    Written(RawType),
}

pub type Raws = ListOf<Raw>;

impl Model for Raw {
    ghost use Rattle.ev_syntax.specs.Raw.{Raw as RawTree};
    ghost use Rattle.ev_syntax.specs.inner.RawCode.{raw_code};

    ghost Value = { RawTree };

    ghost coded = { raw_code };

    ghost use Rattle.ev_syntax.specs.inner.RawView.{raw_of, height};

    ghost view = { λ a. raw_of a.form.value };

    ghost size = { height };

    ghost use Rattle.ev_syntax.specs.inner.RawFalls.{falls};

    ghost size_decreases = { λ a h. falls a.form.value };
}

impl Raw {
    pub fn new(alloc: Global, form: FormulaForm) -> Result<Raw, NoMemory>
        ensures { IfOk result (λ e. e ≡ raw_of form) }
    {
        match Box::new(alloc, form) {
            Ok(form) => Ok(Raw { form }),
            Err(_) => Err(NoMemory),
        }
    }

    pub fn form(&self) -> &FormulaForm
        ensures { raw_of result.now ≡ self.now }
    {
        &*self.form
    }
}
