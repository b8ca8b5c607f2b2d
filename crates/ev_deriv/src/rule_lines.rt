//! Lines of derivations as text.
ghost use Rattle.std.specs.Prelude.{◌≡◌, ◌∷◌, [], codes, IfOk};
ghost use Rattle.ev_deriv.specs.Fields.{joined, ended, terms_field};
ghost use Rattle.ev_deriv.specs.RuleLines.{rule_name, in_brackets, instance_field, rule_field, line_under, rule_line};

use crate::fields::{
    append, bytes_of, decimal, ended_line, joined, numbers_field, terms_field, type_texts,
    types_field,
};
use ev_kernel::{BaseRule, Line};
use ev_print::print;
use ev_terms::{Bytes, NoMemory, Tree, Tys};
use ev_typing::Env;
use std::alloc::Global;

fn rule_name(rule: &BaseRule) -> &'static str
    ensures { result.now ≡ rule_name rule.now }
{
    match rule {
        BaseRule::Hyp => "Hyp",
        BaseRule::Weak => "Weak",
        BaseRule::Cut => "Cut",
        BaseRule::Inst(_, _) => "Inst",
        BaseRule::TrueI => "TrueI",
        BaseRule::FalseE => "FalseE",
        BaseRule::NotI => "NotI",
        BaseRule::NotE => "NotE",
        BaseRule::AndI => "AndI",
        BaseRule::AndE1 => "AndE1",
        BaseRule::AndE2 => "AndE2",
        BaseRule::OrI1 => "OrI1",
        BaseRule::OrI2 => "OrI2",
        BaseRule::OrE => "OrE",
        BaseRule::ImpI => "ImpI",
        BaseRule::ImpE => "ImpE",
        BaseRule::IffI => "IffI",
        BaseRule::IffE1 => "IffE1",
        BaseRule::IffE2 => "IffE2",
        BaseRule::AllI => "AllI",
        BaseRule::AllE(_) => "AllE",
        BaseRule::ExI(_) => "ExI",
        BaseRule::ExE => "ExE",
        BaseRule::Em => "Em",
        BaseRule::Refl => "Refl",
        BaseRule::Sym => "Sym",
        BaseRule::Trans => "Trans",
        BaseRule::Cong => "Cong",
        BaseRule::SetMem => "SetMem",
        BaseRule::BoolMem => "BoolMem",
        BaseRule::Calc => "Calc",
        BaseRule::Axiom(_) => "Axiom",
        BaseRule::Des(_, _) => "Des",
        BaseRule::Dis(_, _) => "Dis",
        BaseRule::Ind => "Ind",
        BaseRule::Rec(_, _) => "Rec",
    }
}

/// `[TYPES]`
fn in_brackets(alloc: Global, text: &[u8]) -> Result<Bytes, NoMemory>
    ensures { IfOk result (λ whole. whole ≡ in_brackets text.now) }
{
    let mut whole = b"[".to_vec(alloc)?;
    append(&mut whole, text)?;
    append(&mut whole, b"]")?;
    Ok(Bytes::from_vec(whole))
}

/// `[TYPES] TERMS`
fn instance_field(
    alloc: Global,
    env: &Env,
    n: u32,
    types: &Tys,
    terms: &[Tree],
) -> Result<Bytes, NoMemory>
    ensures { IfOk result (λ text. text ≡ instance_field env.now n types.now (terms_field env.now n terms.now)) }
{
    let types = type_texts(alloc, types)?;
    let list = joined(alloc, b", ", types.as_slice())?;
    let types = in_brackets(alloc, list.as_slice())?;
    let terms = terms_field(alloc, env, n, terms)?;
    words(alloc, types.as_slice(), terms.as_slice())
}

/// Two words with a space between them.
fn words(alloc: Global, left: &[u8], right: &[u8]) -> Result<Bytes, NoMemory>
    ensures { IfOk result (λ text. text ≡ joined (codes " ") (left.now ∷ right.now ∷ [])) }
{
    let mut text = left.to_vec(alloc)?;
    append(&mut text, b" ")?;
    append(&mut text, right)?;
    Ok(Bytes::from_vec(text))
}

/// The fields of a rule, whose terms stand under n variables.
fn rule_field(alloc: Global, env: &Env, n: u32, rule: &BaseRule) -> Result<Bytes, NoMemory>
    ensures { IfOk result (λ text. text ≡ rule_field env.now n rule.now) }
{
    match rule {
        BaseRule::Inst(types, terms) => instance_field(alloc, env, n, types, terms.as_slice()),
        BaseRule::AllE(term) => print(alloc, env, n, term),
        BaseRule::ExI(term) => print(alloc, env, n, term),
        BaseRule::Axiom(number) => decimal(alloc, u128::from(*number)),
        BaseRule::Des(con, place) => {
            let place = decimal(alloc, u128::from(*place))?;
            words(alloc, con.as_slice(), place.as_slice())
        }
        BaseRule::Dis(left, right) => words(alloc, left.as_slice(), right.as_slice()),
        BaseRule::Rec(op, con) => words(alloc, op.as_slice(), con.as_slice()),
        _ => bytes_of(alloc, b"-"),
    }
}

/// A line whose terms stand under n variables, with its LF.
fn line_under(alloc: Global, env: &Env, n: u32, line: &Line) -> Result<Bytes, NoMemory>
    ensures { IfOk result (λ text. text ≡ ended (line_under env.now n line.now)) }
{
    let fields = [
        bytes_of(alloc, rule_name(&line.rule).as_bytes())?,
        rule_field(alloc, env, n, &line.rule)?,
        numbers_field(alloc, line.premises.as_slice())?,
        types_field(alloc, &line.sequent.context)?,
        terms_field(alloc, env, n, line.sequent.hyps.as_slice())?,
        print(alloc, env, n, &line.sequent.goal)?,
    ];
    ended_line(alloc, &fields)
}

/// A line of a derivation as text, with its LF. A context of more types than 32 bits count has no room, and is answered as want of
/// memory.
pub fn line_text(alloc: Global, env: &Env, line: &Line) -> Result<Bytes, NoMemory>
    ensures { IfOk result (λ text. text ≡ ended (rule_line env.now line.now)) }
{
    let context = line.sequent.context.to_vec(alloc)?;
    let Ok(n) = u32::try_from(context.len()) else {
        return Err(NoMemory);
    };
    line_under(alloc, env, n, line)
}
