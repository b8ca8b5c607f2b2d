//! Cases of matching. What is found is told by parameter and by variable, the outermost first, with `-` where the pattern tells nothing.
use crate::words::two_numbers;
use cases_notation::fault::Fault;
use cases_notation::reading::read_tree;
use cases_notation::text::Text;
use cases_notation::writing::{write_tree, write_type};
use ev_rewrite::{Inst, match_pattern};
use ev_terms::loose;
use std::alloc::Global;

fn write_types(alloc: Global, out: &mut Text, found: &Inst) {
    for (i, ty) in found.types.as_slice().iter().enumerate() {
        out.label("?");
        out.glue_number(i as u128);
        match ty {
            Some(ty) => write_type(alloc, out, ty),
            None => out.word("-"),
        }
    }
}

fn write_terms(alloc: Global, out: &mut Text, found: &Inst) {
    let terms = found.terms.as_slice();
    for (i, term) in terms.iter().enumerate() {
        out.label("v");
        out.glue_number((terms.len() - 1 - i) as u128);
        match term {
            Some(term) => write_tree(alloc, out, term),
            None => out.word("-"),
        }
    }
}

/// What the matching of a pattern with so many parameters and variables answers.
pub fn match_case(
    alloc: Global,
    out: &mut Text,
    counts: &str,
    pattern: &str,
    tree: &str,
) -> Result<(), Fault> {
    let (params, metas) = two_numbers(counts)?;
    let (pattern, tree) = (read_tree(alloc, pattern)?, read_tree(alloc, tree)?);
    if loose(&pattern) > u64::from(metas) {
        return Err(Fault::NoCase);
    }
    match match_pattern(alloc, &pattern, params, metas, &tree)? {
        Some(found) => {
            out.word("instance");
            write_types(alloc, out, &found);
            write_terms(alloc, out, &found);
        }
        None => out.word("none"),
    }
    Ok(())
}
