ghost use Rattle.std.specs.Prelude.{◌≡◌, ◌++◌, List, IfOk, OnOk, decimal, length};
ghost use Rattle.theory.specs.Reports.{status_text, theory_line, theorem_line, theorem_lines, IsReportOf};
ghost use Rattle.theory.specs.inner.Reports.{HasPredicates};

use crate::reports::{Status, statuses};
use crate::script::{Script, Theory};
use crate::theorems::Theorem;
use ev_outside::Steps as Counter;
use ev_terms::{Name, NoMemory};
use std::alloc::Global;
use std::sync::ledger::Ledger;

fn append(text: &mut Vec<u8>, bytes: &[u8]) -> Result<(), NoMemory>
    ensures { OnOk result (text.new.items ≡ text.old.items ++ bytes.now) }
{
    text.extend_from_slice(bytes)?;
    Ok(())
}

fn append_number(alloc: Global, text: &mut Vec<u8>, number: u128) -> Result<(), NoMemory>
    ensures { OnOk result (text.new.items ≡ text.old.items ++ decimal number) }
{
    let digits = number.to_string(alloc)?;
    append(text, digits.as_bytes())
}

fn append_status(alloc: Global, text: &mut Vec<u8>, status: Status) -> Result<(), NoMemory>
    ensures { OnOk result (text.new.items ≡ text.old.items ++ status_text status) }
{
    match status {
        Status::NoProof => append(text, b"open"),
        Status::Broken(step) => {
            append(text, b"broken ")?;
            append_number(alloc, text, u128::from(step))
        }
        Status::Partial(left) => {
            append(text, b"partial ")?;
            append_number(alloc, text, left)
        }
        Status::Proved => append(text, b"proved"),
    }
}

fn append_theory(text: &mut Vec<u8>, name: &Name) -> Result<(), NoMemory>
    ensures { OnOk result (text.new.items ≡ text.old.items ++ theory_line name.now) }
{
    append(text, b"theory ")?;
    append(text, name.as_slice())?;
    append(text, b" present ok")?;
    append(text, b"\n")
}

fn append_theorem(
    alloc: Global,
    text: &mut Vec<u8>,
    theory: &Name,
    theorem: &Theorem,
    status: Status,
) -> Result<(), NoMemory>
    ensures { OnOk result (text.new.items ≡ text.old.items ++ theorem_line theory.now theorem.now status) }
{
    append(text, theory.as_slice())?;
    append(text, b"/")?;
    append(text, theorem.label.as_slice())?;
    append(text, b"/THM ")?;
    append_status(alloc, text, status)?;
    append(text, b"\n")
}

/// A line for each theorem with its status.
fn append_theorems(
    alloc: Global,
    text: &mut Vec<u8>,
    theory: &Name,
    theorems: &[Theorem],
    statuses: &[Status],
) -> Result<(), NoMemory>
    requires { length theorems.now ≡ length statuses.now }
    ensures { OnOk result (text.new.items ≡ text.old.items ++ theorem_lines theory.now theorems.now statuses.now) }
{
    for at in 0..theorems.len() {
        append_theorem(alloc, text, theory, &theorems[at], statuses[at])?;
    }
    Ok(())
}

/// The report of a script, whose proofs are replayed.
pub fn report<L: Ledger>(
    alloc: Global,
    script: &Script,
    counter: &mut Counter<L>,
) -> Result<Vec<u8>, NoMemory>
    requires { HasPredicates script.now.theory }
    ensures { IfOk result (λ text. IsReportOf script.now.theory script.now.proofs text.items) }
{
    let mut text = Vec::new(alloc);
    let Some(theory) = &script.theory else {
        return Ok(text);
    };
    let statuses = statuses(alloc, theory, &script.proofs, counter)?;
    append_theory(&mut text, &theory.name)?;
    append_theorems(
        alloc,
        &mut text,
        &theory.name,
        theory.theorems.as_slice(),
        statuses.as_slice(),
    )?;
    Ok(text)
}
