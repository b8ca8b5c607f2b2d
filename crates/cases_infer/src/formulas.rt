//! Formulas of texts: read, annotated, printed, and read back.
use crate::refusals::Refusal;
use crate::settings::Setting;
use ev_infer::infer;
use ev_parse::parse_formula;
use ev_print::print;
use ev_resolve::{FormulaNames, has_taken_binder, has_unknown_name};
use ev_syntax::{Raw, Sort, lex};
use ev_terms::{Extent, Name, NoMemory, Tree, TryCopy, Ty, extent, same};
use ev_typing::{Var, Vars};
use std::alloc::Global;

/// How deep canonical texts may nest.
const BACK: u32 = 2048;

/// The formula of a sort that a text is.
pub fn raw_of(alloc: Global, text: &[u8], sort: Sort, nesting: u32) -> Result<Raw, Refusal> {
    if text.len() > u32::MAX as usize {
        return Err(Refusal::Text);
    }
    let tokens = lex(alloc, text)?;
    Ok(parse_formula(alloc, text, &tokens, sort, nesting)?)
}

/// The formula names of a setting.
pub fn formula_names(alloc: Global, setting: &Setting) -> Result<FormulaNames<'_>, Refusal> {
    if setting.params.len() > u32::MAX as usize {
        return Err(Refusal::Case);
    }
    Ok(FormulaNames::new(alloc, &setting.env, &setting.params)?)
}

/// The only annotation of a text, at the type that is asked, where one is.
fn tree_of(
    alloc: Global,
    setting: &Setting,
    sort: Sort,
    asked: Option<&Ty>,
    text: &[u8],
) -> Result<Tree, Refusal> {
    let raw = raw_of(alloc, text, sort, setting.nesting)?;
    if setting.params.len() > u32::MAX as usize {
        return Err(Refusal::Case);
    }
    Ok(infer(
        alloc,
        &setting.env,
        &setting.params,
        &setting.vars,
        &raw,
        asked,
        &setting.limit,
    )?)
}

/// Its name is `v` and its position. A predicate variable stands in the context with BOOL.
fn printed_var(alloc: Global, position: usize, var: &Var) -> Result<Var, NoMemory> {
    let name = format!(in alloc; "v{position}")?;
    let ty = match &var.ty {
        Ty::Prop => Ty::Bool,
        ty => ty.try_copy(alloc)?,
    };
    Ok(Var {
        name: Name::from_slice(alloc, name.as_bytes())?,
        ty,
    })
}

/// The variables as canonical texts name them.
fn printed_vars(alloc: Global, vars: &Vars) -> Result<Vars, NoMemory> {
    let mut printed = Vars::new(alloc);
    for (position, var) in vars.as_slice().iter().enumerate() {
        printed.push(alloc, printed_var(alloc, position, var)?)?;
    }
    Ok(printed)
}

/// What a canonical text says.
fn read_back(alloc: Global, setting: &Setting, sort: Sort, text: &[u8]) -> Result<Tree, Refusal> {
    let raw = raw_of(alloc, text, sort, BACK)?;
    let vars = printed_vars(alloc, &setting.vars)?;
    if setting.params.len() > u32::MAX as usize {
        return Err(Refusal::Case);
    }
    Ok(infer(
        alloc,
        &setting.env,
        &setting.params,
        &vars,
        &raw,
        None,
        &setting.limit,
    )?)
}

/// Whether a canonical text says the term and no other.
fn reads_back(
    alloc: Global,
    setting: &Setting,
    sort: Sort,
    text: &[u8],
    tree: &Tree,
) -> Result<bool, NoMemory> {
    match read_back(alloc, setting, sort, text) {
        Ok(read) => Ok(same(&read, tree)),
        Err(Refusal::NoMemory) => Err(NoMemory),
        Err(_) => Ok(false),
    }
}

/// The canonical text of a term in the context of the variables.
pub fn printed(alloc: Global, setting: &Setting, tree: &Tree) -> Result<Vec<u8>, Refusal> {
    let depth = u32::try_from(setting.vars.len()).unwrap_or(u32::MAX);
    let text = print(alloc, &setting.env, depth, tree)?;
    Ok(text.as_slice().to_vec(alloc)?)
}

/// The canonical text of the annotation, with a remark where it does not read back.
pub fn canonical(
    alloc: Global,
    setting: &Setting,
    sort: Sort,
    asked: Option<&Ty>,
    text: &[u8],
) -> Result<Vec<u8>, Refusal> {
    let tree = tree_of(alloc, setting, sort, asked, text)?;
    let mut line = printed(alloc, setting, &tree)?;
    if !reads_back(alloc, setting, sort, line.as_slice(), &tree)? {
        line.extend_from_slice(b" -- and does not read back")?;
    }
    Ok(line)
}

/// The size and the depth of a term.
pub fn extent_text(alloc: Global, tree: &Tree) -> Result<Vec<u8>, Refusal> {
    let Extent { size, depth } = extent(tree);
    let text = format!(in alloc; "size {size} depth {depth}")?;
    Ok(text.as_bytes().to_vec(alloc)?)
}

/// The size and the depth of the annotation.
pub fn extent_of(
    alloc: Global,
    setting: &Setting,
    sort: Sort,
    asked: Option<&Ty>,
    text: &[u8],
) -> Result<Vec<u8>, Refusal> {
    let tree = tree_of(alloc, setting, sort, asked, text)?;
    extent_text(alloc, &tree)
}

/// The names of the variables, the innermost last.
fn names_of(alloc: Global, vars: &Vars) -> Result<Vec<Name>, NoMemory> {
    let mut names = Vec::new(alloc);
    for var in vars.as_slice() {
        names.push(var.name.try_copy(alloc)?)?;
    }
    Ok(names)
}

/// Whether some name is not in scope, and whether some bound name is a formula name.
pub fn names_in(
    alloc: Global,
    setting: &Setting,
    sort: Sort,
    text: &[u8],
) -> Result<Vec<u8>, Refusal> {
    let raw = raw_of(alloc, text, sort, setting.nesting)?;
    let variables = names_of(alloc, &setting.vars)?;
    let known = formula_names(alloc, setting)?;
    let is_unknown = has_unknown_name(alloc, &known, variables.as_slice(), &raw)?;
    let first = if is_unknown { "unknown" } else { "known" };
    let is_taken = has_taken_binder(&known, &raw);
    let second = if is_taken { "taken" } else { "free" };
    let text = format!(in alloc; "{first} {second}")?;
    Ok(text.as_bytes().to_vec(alloc)?)
}

/// Whether a name is a formula name.
pub fn name_kind(alloc: Global, setting: &Setting, text: &[u8]) -> Result<Vec<u8>, Refusal> {
    let name = Name::from_slice(alloc, text)?;
    let known = formula_names(alloc, setting)?;
    let kind: &[u8] = if known.has(&name) {
        b"formula name"
    } else {
        b"no formula name"
    };
    Ok(kind.to_vec(alloc)?)
}
