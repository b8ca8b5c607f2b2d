//! The canonical texts of terms.
ghost use Rattle.std.specs.Prelude.{◌≡◌, ◌++◌, ◌+◌, ◌-◌, [], IfOk, OnOk};
ghost use Rattle.ev_terms.specs.Types.{type_list};
ghost use Rattle.ev_terms.specs.Term.{node, terms};
ghost use Rattle.ev_terms.specs.Symbols.{binds};
ghost use Rattle.ev_typing.specs.Env.{profile};
ghost use Rattle.ev_print.specs.declared.styles.Style.TheVariants.{Infix, Not, Minus, Inverse, Around, Quantifier, SetFormer, Image, Application};
ghost use Rattle.ev_print.specs.Styles.{spelled};
ghost use Rattle.ev_print.specs.Canon.{in_parens, with_commas, called_text, operand_text, function_text, texts, variable_text, first_type, bound_text, whole_text, written, written_symbol, piece, pieces, canon};
ghost use Rattle.ev_print.specs.inner.Nesting.{IsNested, under};
ghost use Rattle.ev_print.specs.inner.Lists.{after_commas};
ghost use Rattle.ev_print.specs.inner.OpenTypes.{closed_term, function_term, type_word_text};

use crate::annotations::{annotation, open_type};
use crate::buffer::{append, append_number};
use crate::styles::{Style, base_style, is_closed};
use crate::type_texts::{push_enclosed, push_param, push_type};
use ev_syntax::all_spellings;
use ev_terms::{Bytes, Name, NoMemory, Sym, Tree, Ty, Tys};
use ev_typing::Env;
use std::alloc::Global;

/// The canonical text of a term under so many variables, of which the outermost is `v0`. It is written into one buffer, and no tree is
/// copied. Each operator and constructor is looked up in the environment, and each of its type parameters in its argument types. Where
/// the term is typed, the text reads back.
pub fn print(alloc: Global, env: &Env, depth: u32, tree: &Tree) -> Result<Bytes, NoMemory>
    ensures { IfOk result (λ text. text ≡ canon env.now depth tree.now) }
{
    let mut text = Vec::new(alloc);
    push_term(alloc, &mut text, env, u64::from(depth), tree)?;
    Ok(Bytes::from_vec(text))
}

fn push_mark(text: &mut Vec<u8>, mark: u16) -> Result<(), NoMemory>
    ensures { OnOk result (text.new.items ≡ text.old.items ++ spelled mark) }
{
    let spellings = all_spellings();
    match spellings.get(mark) {
        Some(bytes) => append(text, bytes),
        None => Ok(()),
    }
}

fn push_variable(alloc: Global, text: &mut Vec<u8>, position: u64) -> Result<(), NoMemory>
    ensures { OnOk result (text.new.items ≡ text.old.items ++ variable_text position) }
{
    append(text, b"v")?;
    append_number(alloc, text, u128::from(position))
}

/// The number of variables outside the variable `i` of n.
fn position(n: u64, i: u32) -> u64
    ensures { result ≡ n - (i + 1) }
{
    n.saturating_sub(u64::from(i) + 1)
}

#[tactic(auto, using(crate::proofs::TermSteps::firsts))]
fn push_bound(alloc: Global, text: &mut Vec<u8>, n: u64, types: &Tys) -> Result<(), NoMemory>
    ensures { OnOk result (text.new.items ≡ text.old.items ++ bound_text n (first_type (type_list types.now))) }
{
    push_variable(alloc, text, n)?;
    append(text, b" oftype ")?;
    match types {
        Tys::Empty => append(text, b"INT"),
        Tys::More(ty, _) => push_type(alloc, text, ty.get()),
    }
}

#[tactic(auto, using(crate::proofs::TermSteps::firsts))]
fn push_whole(alloc: Global, text: &mut Vec<u8>, types: &Tys) -> Result<(), NoMemory>
    ensures { OnOk result (text.new.items ≡ text.old.items ++ whole_text (first_type (type_list types.now))) }
{
    match types {
        Tys::Empty => append(text, b"INT"),
        Tys::More(ty, _) => push_whole_of(alloc, text, ty.get()),
    }
}

#[tactic(auto, using(crate::proofs::TermSteps::wholes))]
fn push_whole_of(alloc: Global, text: &mut Vec<u8>, ty: &Ty) -> Result<(), NoMemory>
    ensures { OnOk result (text.new.items ≡ text.old.items ++ whole_text ty.now) }
{
    match ty {
        Ty::Int => append(text, b"INT"),
        Ty::Bool => append(text, b"BOOL"),
        Ty::Param(i) => push_param(alloc, text, *i),
        Ty::Prop => push_type_word(alloc, text, ty),
        Ty::Pow(_) => push_type_word(alloc, text, ty),
        Ty::Prod(_, _) => push_type_word(alloc, text, ty),
        Ty::Data(_, _) => push_type_word(alloc, text, ty),
    }
}

fn push_type_word(alloc: Global, text: &mut Vec<u8>, ty: &Ty) -> Result<(), NoMemory>
    ensures { OnOk result (text.new.items ≡ text.old.items ++ type_word_text ty.now) }
{
    append(text, b"TYPE")?;
    push_enclosed(alloc, text, ty)
}

/// Whether a term may be an operand without parentheses.
fn is_operand(tree: &Tree) -> bool
    ensures { result ≡ closed_term tree.now }
{
    match tree.sym() {
        None => true,
        Some(Sym::Base(row)) => is_closed(base_style(*row)),
        Some(Sym::User(_)) => true,
    }
}

/// Whether a term may be the function of an application without parentheses.
#[tactic(auto, using(crate::proofs::TermSteps::functions))]
fn is_function(alloc: Global, env: &Env, tree: &Tree) -> Result<bool, NoMemory>
    ensures { IfOk result (λ b. b ≡ function_term env.now tree.now) }
{
    match tree.sym() {
        None => Ok(tree.var().is_some()),
        Some(sym) => Ok(open_type(alloc, env, sym)?.is_some()),
    }
}

#[cycle(push_term)]
#[tactic(auto, using(crate::proofs::TermSteps::leaves))]
fn push_term(
    alloc: Global,
    text: &mut Vec<u8>,
    env: &Env,
    n: u64,
    tree: &Tree,
) -> Result<(), NoMemory>
    requires { IsNested n text.old.items }
    ensures { OnOk result (text.new.items ≡ text.old.items ++ (piece env.now n tree.now).text) }
{
    if let Some(i) = tree.var() {
        return push_variable(alloc, text, position(n, i));
    }
    if let Some(k) = tree.lit() {
        return append_number(alloc, text, k);
    }
    match tree.sym() {
        None => Ok(()),
        Some(sym) => match tree.types() {
            None => Ok(()),
            Some(types) => push_node(alloc, text, env, n, sym, types, tree.children()),
        },
    }
}

/// A symbol over its children, and its type where it is annotated.
#[cycle(push_term)]
#[tactic(auto, using(crate::proofs::TermSteps::nesting))]
fn push_node(
    alloc: Global,
    text: &mut Vec<u8>,
    env: &Env,
    n: u64,
    sym: &Sym,
    types: &Tys,
    children: &[Tree],
) -> Result<(), NoMemory>
    requires { IsNested n text.old.items }
    ensures { OnOk result (text.new.items ≡ text.old.items ++ (piece env.now n (node sym.now types.now (terms children.now))).text) }
{
    match annotation(alloc, env, sym, types)? {
        Some(ty) => {
            append(text, b"(")?;
            push_symbol(alloc, text, env, n, sym, types, children)?;
            append(text, b" oftype ")?;
            push_type(alloc, text, &ty)?;
            append(text, b")")
        }
        None => push_symbol(alloc, text, env, n, sym, types, children),
    }
}

#[cycle(push_term)]
#[tactic(auto, using(crate::proofs::TermSteps::nesting))]
fn push_symbol(
    alloc: Global,
    text: &mut Vec<u8>,
    env: &Env,
    n: u64,
    sym: &Sym,
    types: &Tys,
    children: &[Tree],
) -> Result<(), NoMemory>
    requires { IsNested n text.old.items }
    ensures { OnOk result (text.new.items ≡ text.old.items ++ written_symbol sym.now n (type_list types.now) (pieces env.now (n + binds sym.now) (terms children.now))) }
{
    match sym {
        Sym::Base(row) => { push_base(alloc, text, env, base_style(*row), n, types, children) }
        Sym::User(name) => push_call(alloc, text, env, n, name, children),
    }
}

/// A base symbol over its children.
#[cycle(push_term)]
#[tactic(auto, using(crate::proofs::TermSteps::nesting))]
fn push_base(
    alloc: Global,
    text: &mut Vec<u8>,
    env: &Env,
    style: Style,
    n: u64,
    types: &Tys,
    children: &[Tree],
) -> Result<(), NoMemory>
    requires { IsNested n text.old.items }
    ensures { OnOk result (text.new.items ≡ text.old.items ++ written style n (type_list types.now) (pieces env.now (under style n) (terms children.now))) }
{
    match style {
        Style::Word(mark) => push_mark(text, mark),
        Style::Braces => append(text, b"{}"),
        Style::Whole => push_whole(alloc, text, types),
        Style::Infix(mark) => push_infix(alloc, text, env, mark, n, children),
        Style::Not => push_not(alloc, text, env, n, children),
        Style::Minus => push_minus(alloc, text, env, n, children),
        Style::Inverse => push_inverse(alloc, text, env, n, children),
        Style::Around(mark) => push_around(alloc, text, env, mark, n, children),
        Style::Quantifier(mark) => { push_quantifier(alloc, text, env, mark, n, types, children) }
        Style::SetFormer => push_set(alloc, text, env, n, types, children),
        Style::Image => push_image(alloc, text, env, n, children),
        Style::Application => push_application(alloc, text, env, n, children),
    }
}

/// A term as an operand: in parentheses where it needs them.
#[cycle(push_term)]
#[tactic(auto, using(crate::proofs::TermSteps::operands))]
fn push_operand(
    alloc: Global,
    text: &mut Vec<u8>,
    env: &Env,
    n: u64,
    tree: &Tree,
) -> Result<(), NoMemory>
    requires { IsNested n text.old.items }
    ensures { OnOk result (text.new.items ≡ text.old.items ++ operand_text (piece env.now n tree.now)) }
{
    if is_operand(tree) {
        return push_term(alloc, text, env, n, tree);
    }
    push_in_parens(alloc, text, env, n, tree)
}

#[cycle(push_term)]
#[tactic(auto, using(crate::proofs::TermSteps::nesting))]
fn push_in_parens(
    alloc: Global,
    text: &mut Vec<u8>,
    env: &Env,
    n: u64,
    tree: &Tree,
) -> Result<(), NoMemory>
    requires { IsNested n text.old.items }
    ensures { OnOk result (text.new.items ≡ text.old.items ++ in_parens (piece env.now n tree.now).text) }
{
    append(text, b"(")?;
    push_term(alloc, text, env, n, tree)?;
    append(text, b")")
}

#[cycle(push_term)]
#[tactic(auto, using(crate::proofs::TermSteps::children))]
fn push_infix(
    alloc: Global,
    text: &mut Vec<u8>,
    env: &Env,
    mark: u16,
    n: u64,
    children: &[Tree],
) -> Result<(), NoMemory>
    requires { IsNested n text.old.items }
    ensures { OnOk result (text.new.items ≡ text.old.items ++ written (Infix mark) 0 [] (pieces env.now n (terms children.now))) }
{
    match children {
        [left, right, ..] => {
            push_operand(alloc, text, env, n, left)?;
            append(text, b" ")?;
            push_mark(text, mark)?;
            append(text, b" ")?;
            push_operand(alloc, text, env, n, right)
        }
        _ => Ok(()),
    }
}

#[cycle(push_term)]
#[tactic(auto, using(crate::proofs::TermSteps::children))]
fn push_not(
    alloc: Global,
    text: &mut Vec<u8>,
    env: &Env,
    n: u64,
    children: &[Tree],
) -> Result<(), NoMemory>
    requires { IsNested n text.old.items }
    ensures { OnOk result (text.new.items ≡ text.old.items ++ written Not 0 [] (pieces env.now n (terms children.now))) }
{
    match children {
        [child, ..] => {
            append(text, b"not ")?;
            push_operand(alloc, text, env, n, child)
        }
        _ => Ok(()),
    }
}

#[cycle(push_term)]
#[tactic(auto, using(crate::proofs::TermSteps::children))]
fn push_minus(
    alloc: Global,
    text: &mut Vec<u8>,
    env: &Env,
    n: u64,
    children: &[Tree],
) -> Result<(), NoMemory>
    requires { IsNested n text.old.items }
    ensures { OnOk result (text.new.items ≡ text.old.items ++ written Minus 0 [] (pieces env.now n (terms children.now))) }
{
    match children {
        [child, ..] => {
            append(text, b"-")?;
            push_operand(alloc, text, env, n, child)
        }
        _ => Ok(()),
    }
}

#[cycle(push_term)]
#[tactic(auto, using(crate::proofs::TermSteps::children))]
fn push_inverse(
    alloc: Global,
    text: &mut Vec<u8>,
    env: &Env,
    n: u64,
    children: &[Tree],
) -> Result<(), NoMemory>
    requires { IsNested n text.old.items }
    ensures { OnOk result (text.new.items ≡ text.old.items ++ written Inverse 0 [] (pieces env.now n (terms children.now))) }
{
    match children {
        [child, ..] => {
            push_operand(alloc, text, env, n, child)?;
            append(text, b"~")
        }
        _ => Ok(()),
    }
}

#[cycle(push_term)]
#[tactic(auto, using(crate::proofs::TermSteps::children))]
fn push_around(
    alloc: Global,
    text: &mut Vec<u8>,
    env: &Env,
    mark: u16,
    n: u64,
    children: &[Tree],
) -> Result<(), NoMemory>
    requires { IsNested n text.old.items }
    ensures { OnOk result (text.new.items ≡ text.old.items ++ written (Around mark) 0 [] (pieces env.now n (terms children.now))) }
{
    match children {
        [child, ..] => {
            push_mark(text, mark)?;
            push_in_parens(alloc, text, env, n, child)
        }
        _ => Ok(()),
    }
}

#[cycle(push_term)]
#[tactic(auto, using(crate::proofs::TermSteps::children))]
fn push_quantifier(
    alloc: Global,
    text: &mut Vec<u8>,
    env: &Env,
    mark: u16,
    n: u64,
    types: &Tys,
    children: &[Tree],
) -> Result<(), NoMemory>
    requires { IsNested n text.old.items }
    ensures { OnOk result (text.new.items ≡ text.old.items ++ written (Quantifier mark) n (type_list types.now) (pieces env.now (n + 1) (terms children.now))) }
{
    match children {
        [child, ..] => {
            let inner = n + 1;
            push_mark(text, mark)?;
            push_bound(alloc, text, n, types)?;
            append(text, b". ")?;
            push_term(alloc, text, env, inner, child)
        }
        _ => Ok(()),
    }
}

#[cycle(push_term)]
#[tactic(auto, using(crate::proofs::TermSteps::children))]
fn push_set(
    alloc: Global,
    text: &mut Vec<u8>,
    env: &Env,
    n: u64,
    types: &Tys,
    children: &[Tree],
) -> Result<(), NoMemory>
    requires { IsNested n text.old.items }
    ensures { OnOk result (text.new.items ≡ text.old.items ++ written SetFormer n (type_list types.now) (pieces env.now (n + 1) (terms children.now))) }
{
    match children {
        [child, ..] => {
            let inner = n + 1;
            append(text, b"{")?;
            push_bound(alloc, text, n, types)?;
            append(text, b" | ")?;
            push_term(alloc, text, env, inner, child)?;
            append(text, b"}")
        }
        _ => Ok(()),
    }
}

#[cycle(push_term)]
#[tactic(auto, using(crate::proofs::TermSteps::children))]
fn push_image(
    alloc: Global,
    text: &mut Vec<u8>,
    env: &Env,
    n: u64,
    children: &[Tree],
) -> Result<(), NoMemory>
    requires { IsNested n text.old.items }
    ensures { OnOk result (text.new.items ≡ text.old.items ++ written Image 0 [] (pieces env.now n (terms children.now))) }
{
    match children {
        [relation, set, ..] => {
            push_operand(alloc, text, env, n, relation)?;
            append(text, b"[")?;
            push_term(alloc, text, env, n, set)?;
            append(text, b"]")
        }
        _ => Ok(()),
    }
}

#[cycle(push_term)]
#[tactic(auto, using(crate::proofs::TermSteps::children))]
fn push_application(
    alloc: Global,
    text: &mut Vec<u8>,
    env: &Env,
    n: u64,
    children: &[Tree],
) -> Result<(), NoMemory>
    requires { IsNested n text.old.items }
    ensures { OnOk result (text.new.items ≡ text.old.items ++ written Application 0 [] (pieces env.now n (terms children.now))) }
{
    match children {
        [function, argument, ..] => {
            push_function(alloc, text, env, n, function)?;
            push_in_parens(alloc, text, env, n, argument)
        }
        _ => Ok(()),
    }
}

/// A term as the function of an application: in parentheses unless it is a variable or has its type behind it.
#[cycle(push_term)]
#[tactic(auto, using(crate::proofs::TermSteps::operands))]
fn push_function(
    alloc: Global,
    text: &mut Vec<u8>,
    env: &Env,
    n: u64,
    tree: &Tree,
) -> Result<(), NoMemory>
    requires { IsNested n text.old.items }
    ensures { OnOk result (text.new.items ≡ text.old.items ++ function_text (piece env.now n tree.now)) }
{
    if is_function(alloc, env, tree)? {
        return push_term(alloc, text, env, n, tree);
    }
    push_in_parens(alloc, text, env, n, tree)
}

/// A name with its arguments.
#[cycle(push_term)]
#[tactic(auto, using(crate::proofs::TermSteps::children))]
fn push_call(
    alloc: Global,
    text: &mut Vec<u8>,
    env: &Env,
    n: u64,
    name: &Name,
    children: &[Tree],
) -> Result<(), NoMemory>
    requires { IsNested n text.old.items }
    ensures { OnOk result (text.new.items ≡ text.old.items ++ called_text name.now (texts (pieces env.now n (terms children.now)))) }
{
    append(text, name.as_slice())?;
    match children {
        [first, rest @ ..] => {
            append(text, b"(")?;
            push_term(alloc, text, env, n, first)?;
            push_rest(alloc, text, env, n, rest)?;
            append(text, b")")
        }
        _ => Ok(()),
    }
}

/// Further arguments, each after a comma.
#[cycle(push_term)]
#[tactic(auto, using(crate::proofs::TermSteps::rests))]
fn push_rest(
    alloc: Global,
    text: &mut Vec<u8>,
    env: &Env,
    n: u64,
    children: &[Tree],
) -> Result<(), NoMemory>
    requires { IsNested n text.old.items }
    ensures { OnOk result (text.new.items ≡ text.old.items ++ after_commas (texts (pieces env.now n (terms children.now)))) }
{
    for child in children {
        append(text, b", ")?;
        push_term(alloc, text, env, n, child)?;
    }
    Ok(())
}
