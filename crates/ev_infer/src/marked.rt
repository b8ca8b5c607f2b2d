//! Which variables a bare term uses.
ghost use Rattle.std.specs.Prelude.{◌≡◌, reverse, IfOk, OnOk};
ghost use Rattle.ev_resolve.specs.inner.BareView.{bares};
ghost use Rattle.ev_infer.specs.inner.Marked.{is_marked, uses_marked, use_marked, unmarked};
ghost use Rattle.ev_terms.specs.Symbols.{binds};
ghost use Rattle.std.specs.Prelude.{◌++◌};

use ev_resolve::{Bare, BareForm};
use ev_terms::{NoMemory, Sym, binds};

/// Whether a bare term uses a variable that has a mark, where the outermost variable's mark stands first. Linear in the bare term.
#[cycle(uses)]
#[tactic(auto, using(crate::proofs::Marks::walk))]
pub fn uses_marked(bare: &Bare, marks: &mut Vec<bool>) -> Result<bool, NoMemory>
    ensures used { IfOk result (λ b. b ≡ uses_marked bare.now (reverse marks.old.items)) }
    ensures kept { OnOk result (marks.new.items ≡ marks.old.items) }
{
    match bare.form() {
        BareForm::Var(i) => Ok(is_marked(marks.as_slice(), *i)),
        BareForm::Lit(_) => Ok(false),
        BareForm::Node(sym, _, children) => use_under(sym, children.as_slice(), marks),
        BareForm::Of(bare, _) => uses_marked(&**bare, marks),
    }
}

/// The children of a symbol, under the variable that it may bind.
#[cycle(uses)]
#[tactic(auto, using(crate::proofs::Marks::walk))]
fn use_under(sym: &Sym, children: &[Bare], marks: &mut Vec<bool>) -> Result<bool, NoMemory>
    ensures used { IfOk result (λ b. b ≡ use_marked (bares children.now) (unmarked (binds sym.now) ++ reverse marks.old.items)) }
    ensures kept { OnOk result (marks.new.items ≡ marks.old.items) }
{
    if binds(sym) == 0 {
        return use_marked(children, marks);
    }
    marks.push(false)?;
    let used = use_marked(children, marks)?;
    let _bound = marks.pop();
    Ok(used)
}

#[cycle(uses)]
#[tactic(auto, using(crate::proofs::Marks::walk))]
fn use_marked(children: &[Bare], marks: &mut Vec<bool>) -> Result<bool, NoMemory>
    ensures used { IfOk result (λ b. b ≡ use_marked (bares children.now) (reverse marks.old.items)) }
    ensures kept { OnOk result (marks.new.items ≡ marks.old.items) }
{
    for child in children {
        if uses_marked(child, marks)? {
            return Ok(true);
        }
    }
    Ok(false)
}

#[tactic(auto, using(crate::proofs::Marks::places))]
fn is_marked(marks: &[bool], i: usize) -> bool
    ensures { result ≡ is_marked (reverse marks.now) i }
{
    if i < marks.len() {
        marks[marks.len() - 1 - i]
    } else {
        false
    }
}
