//! Formulas of texts, and the texts of conditions.
use crate::refusals::Refusal;
use crate::samples::Setting;
use ev_infer::infer;
use ev_parse::{Sort, parse_formula};
use ev_print::print;
use ev_syntax::lex;
use ev_terms::{Extent, Names, Tree, Ty, extent};
use ev_wd::well_defined;
use std::alloc::Global;

/// How deep a formula may nest.
const NESTING: u32 = 2048;

/// Annotations are as large as they come, so that conditions are what is refused.
const LIMIT: Extent = Extent {
    size: u64::MAX,
    depth: u64::MAX,
};

/// The predicate that a text is.
pub fn formula(alloc: Global, setting: &Setting, text: &[u8]) -> Result<Tree, Refusal> {
    if text.len() > u32::MAX as usize {
        return Err(Refusal::Text);
    }
    let tokens = lex(alloc, text)?;
    let raw = parse_formula(alloc, text, &tokens, Sort::Pred, NESTING)?;
    Ok(infer(
        alloc,
        &setting.env,
        &Names::new(alloc),
        &setting.vars,
        &raw,
        Some(&Ty::Prop),
        &LIMIT,
    )?)
}

/// The canonical text of the condition of a predicate.
pub fn condition_text(alloc: Global, setting: &Setting, tree: &Tree) -> Result<Vec<u8>, Refusal> {
    let condition = well_defined(alloc, &setting.env, tree)?;
    let depth = u32::try_from(setting.vars.len()).unwrap_or(u32::MAX);
    let text = print(alloc, &setting.env, depth, &condition)?;
    Ok(text.as_slice().to_vec(alloc)?)
}

/// The size and the depth of the condition of a predicate.
pub fn condition_extent(alloc: Global, setting: &Setting, tree: &Tree) -> Result<Vec<u8>, Refusal> {
    let condition = well_defined(alloc, &setting.env, tree)?;
    let Extent { size, depth } = extent(&condition);
    let text = format!(in alloc; "size {size} depth {depth}")?;
    Ok(text.as_bytes().to_vec(alloc)?)
}
