ghost use Rattle.std.specs.Prelude.{◌≡◌, IfOk};
ghost use Rattle.ev_resolve.specs.Bare.{bare_var, bare_lit, bare_node, bare_of};
ghost use Rattle.ev_resolve.specs.inner.BareView.{bares, bare_of_form};

use ev_terms::{ListOf, NoMemory, Sym, Ty};
use std::alloc::Global;
use std::marker::Model;

/// A term before its types are inferred: names are resolved, and forms are those of terms.
#[cycle(bare)]
#[derive(Drop)]
pub struct Bare {
    form: BareForm,
}

/// The form of a bare term: a variable by the number of binders between, a literal, a symbol over its children at any types or at
/// the one type that is written, `b oftype A`.
#[cycle(bare)]
#[derive(Drop)]
pub enum BareForm {
    Var(usize),
    Lit(u128),
    Node(Sym, Option<Ty>, ListOf<Bare>),
    Of(Box<Bare>, Ty),
}

pub type BareTerms = ListOf<Bare>;

impl Model for Bare {
    ghost use Rattle.ev_resolve.specs.Bare.{Bare as BareTerm};

    ghost Value = { BareTerm };

    ghost use Rattle.ev_terms.specs.contracts.types.Sym as sym;
    ghost use Rattle.ev_terms.specs.contracts.types.Ty as ty;
    ghost use Rattle.ev_resolve.specs.inner.BareCode.{bare_code};

    ghost coded = { bare_code sym.the_row.coded ty.the_row.coded };

    ghost use Rattle.ev_resolve.specs.inner.BareView.{bare_of_form, height};

    ghost view = { λ a. bare_of_form a.form };

    ghost size = { height };

    ghost use Rattle.ev_resolve.specs.inner.BareFalls.{falls};

    ghost size_decreases = { λ a h. falls a.form };
}

/// The variable i.
pub fn bare_variable(i: usize) -> Bare
    ensures { result ≡ bare_var i }
{
    Bare {
        form: BareForm::Var(i),
    }
}

/// The literal n.
pub fn bare_literal(n: u128) -> Bare
    ensures { result ≡ bare_lit n }
{
    Bare {
        form: BareForm::Lit(n),
    }
}

/// A symbol over its children, at any types or at the one type that is written.
pub fn bare_symbol(sym: Sym, written: Option<Ty>, children: BareTerms) -> Bare
    ensures { result ≡ bare_node sym written (bares children) }
{
    Bare {
        form: BareForm::Node(sym, written, children),
    }
}

/// The bare term with the type that it is said to have.
pub fn bare_typed(alloc: Global, bare: Bare, ty: Ty) -> Result<Bare, NoMemory>
    ensures { IfOk result (λ b. b ≡ bare_of bare ty) }
{
    match Box::new(alloc, bare) {
        Ok(bare) => Ok(Bare {
            form: BareForm::Of(bare, ty),
        }),
        Err(_) => Err(NoMemory),
    }
}

impl Bare {
    pub fn form(&self) -> &BareForm
        ensures { bare_of_form result.now ≡ self.now }
    {
        &self.form
    }
}
