//! Names that formulas bind.
ghost use Rattle.std.specs.Prelude.{◌≡◌, IfOk};
ghost use Rattle.ev_syntax.specs.inner.PatternView.{pattern_of};

use crate::written::RawType;
use ev_terms::{ListOf, Name, NoMemory};
use std::alloc::Global;
use std::marker::Model;

/// A bound name, and its type where one is written.
#[derive(Drop)]
pub struct Binder {
    pub name: Name,
    pub written: Option<RawType>,
}

impl Model for Binder {
    ghost use Rattle.ev_syntax.specs.Raw.{Binder as Bound};
    ghost use Rattle.ev_syntax.specs.inner.PatternCode.{binder_code};

    ghost Value = { Bound };

    ghost coded = { binder_code };

    ghost view = { λ b. record { name = b.name; type = b.written } };
}

/// Bound names, from left to right.
pub type Binders = ListOf<Binder>;

/// What a function abstraction binds.
#[cycle(pattern)]
#[derive(Drop)]
pub struct Pattern {
    form: Box<PatternForm>,
}

/// The form of a pattern: a bound name, or `p |-> q`.
#[cycle(pattern)]
#[derive(Drop)]
pub enum PatternForm {
    Bound(Binder),
    Pair(Pattern, Pattern),
}

impl Model for Pattern {
    ghost use Rattle.ev_syntax.specs.Raw.{Pattern as BoundPattern};
    ghost use Rattle.ev_syntax.specs.inner.PatternCode.{pattern_code};

    ghost Value = { BoundPattern };

    ghost coded = { pattern_code };

    ghost use Rattle.ev_syntax.specs.inner.PatternView.{pattern_of, height};

    ghost view = { λ a. pattern_of a.form.value };

    ghost size = { height };

    ghost use Rattle.ev_syntax.specs.inner.PatternFalls.{falls};

    ghost size_decreases = { λ a h. falls a.form.value };
}

impl Pattern {
    pub fn new(alloc: Global, form: PatternForm) -> Result<Pattern, NoMemory>
        ensures { IfOk result (λ p. p ≡ pattern_of form) }
    {
        match Box::new(alloc, form) {
            Ok(form) => Ok(Pattern { form }),
            Err(_) => Err(NoMemory),
        }
    }

    pub fn form(&self) -> &PatternForm
        ensures { pattern_of result.now ≡ self.now }
    {
        &*self.form
    }
}
