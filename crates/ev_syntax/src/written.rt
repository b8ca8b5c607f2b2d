//! Types as they are written.
ghost use Rattle.std.specs.Prelude.{◌≡◌, IfOk};
ghost use Rattle.ev_syntax.specs.inner.TypeView.{raw_type_of};

use ev_terms::{ListOf, Name, NoMemory};
use std::alloc::Global;
use std::marker::Model;

/// A type as it is written. Names are not looked up, and parentheses leave no trace.
#[cycle(written)]
#[derive(Drop)]
pub struct RawType {
    form: Box<RawTypeForm>,
}

/// The form of a written type: `INT`, `BOOL`, `?i`, a name with types or with none, `POW(A)`, `A ** B`.
#[cycle(written)]
#[derive(Drop)]
pub enum RawTypeForm {
    Int,
    Bool,
    Param(u32),
    Named(Name, ListOf<RawType>),
    Pow(RawType),
    Prod(RawType, RawType),
}

pub type RawTypes = ListOf<RawType>;

impl Model for RawType {
    ghost use Rattle.ev_syntax.specs.Raw.{RawType as WrittenType};
    ghost use Rattle.ev_syntax.specs.inner.TypeCode.{type_code};

    ghost Value = { WrittenType };

    ghost coded = { type_code };

    ghost use Rattle.ev_syntax.specs.inner.TypeView.{raw_type_of, height};

    ghost view = { λ a. raw_type_of a.form.value };

    ghost size = { height };

    ghost use Rattle.ev_syntax.specs.inner.TypeFalls.{falls};

    ghost size_decreases = { λ a h. falls a.form.value };
}

impl RawType {
    pub fn new(alloc: Global, form: RawTypeForm) -> Result<RawType, NoMemory>
        ensures { IfOk result (λ a. a ≡ raw_type_of form) }
    {
        match Box::new(alloc, form) {
            Ok(form) => Ok(RawType { form }),
            Err(_) => Err(NoMemory),
        }
    }

    pub fn form(&self) -> &RawTypeForm
        ensures { raw_type_of result.now ≡ self.now }
    {
        &*self.form
    }
}
