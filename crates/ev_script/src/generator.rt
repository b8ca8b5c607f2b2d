//! A script that is generated.
ghost use Rattle.std.specs.Prelude.{◌≡◌, ◌<◌, ◌≤◌, ◌++◌, length, decimal, string_bytes, IfOk, OnOk};
ghost use Rattle.ev_script.specs.Generator.{generated, numbered_unit};

use ev_terms::{Bytes, NoMemory};
use std::alloc::Global;
use std::fmt::Write;

/// The theory that the others import, and its deployment.
static LIBRARY_UNIT: &str = "PUT g
PARAM T
DATATYPE L(T) = nil | cons(head: T, tail: L(T))
OPERATOR one(x: T) : L(T) IS cons(x, nil)
OPERATOR len(s: L(T)) : INT BY s CASE nil IS 0 CASE cons(x, t) IS 1 + len(t)
END
DEPLOY g
";

/// Appends the theory and the proof of a number.
fn append_unit(text: &mut String, k: u32) -> Result<(), NoMemory>
    ensures { OnOk result (string_bytes text.new ≡ string_bytes text.old ++ numbered_unit (decimal k)) }
{
    write!(
        text,
        "PUT h{k}
IMPORT g
THEOREM t: len(one({k})) = 1
END
PROOF h{k}/t/THM
unfold at 1 1
recur at 1
recur at 1 2
calc
END
"
    )?;
    Ok(())
}

/// The script of a deployed theory of lists, and of n theories that import it, each with a theorem and its proof.
pub fn generate(alloc: Global, n: u32) -> Result<Bytes, NoMemory>
    requires some { 1 ≤ n }
    requires few { n ≤ 100000 }
    ensures is { IfOk result (λ text. text ≡ generated n) }
    ensures short { IfOk result (λ text. length text < 16777216) }
{
    let mut text = String::from_str(alloc, LIBRARY_UNIT)?;
    for k in 0..n {
        append_unit(&mut text, k + 1)?;
    }
    Ok(Bytes::from_vec(text.into_bytes()))
}
