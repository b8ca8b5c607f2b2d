use cases_notation::fault::Fault;
use cases_notation::reading::{read_tree, read_trees, read_types};
use cases_notation::words::number;
use ev_kernel::BaseRule;
use ev_terms::{Name, NoMemory};
use std::alloc::Global;

/// The rules without fields for the connectives, and those on hypotheses.
fn plain_rule(name: &str) -> Option<BaseRule> {
    match name {
        "Hyp" => Some(BaseRule::Hyp),
        "Weak" => Some(BaseRule::Weak),
        "Cut" => Some(BaseRule::Cut),
        "TrueI" => Some(BaseRule::TrueI),
        "FalseE" => Some(BaseRule::FalseE),
        "NotI" => Some(BaseRule::NotI),
        "NotE" => Some(BaseRule::NotE),
        "AndI" => Some(BaseRule::AndI),
        "AndE1" => Some(BaseRule::AndE1),
        "AndE2" => Some(BaseRule::AndE2),
        "OrI1" => Some(BaseRule::OrI1),
        "OrI2" => Some(BaseRule::OrI2),
        "OrE" => Some(BaseRule::OrE),
        _ => later_rule(name),
    }
}

/// And the other ones.
fn later_rule(name: &str) -> Option<BaseRule> {
    match name {
        "ImpI" => Some(BaseRule::ImpI),
        "ImpE" => Some(BaseRule::ImpE),
        "IffI" => Some(BaseRule::IffI),
        "IffE1" => Some(BaseRule::IffE1),
        "IffE2" => Some(BaseRule::IffE2),
        "AllI" => Some(BaseRule::AllI),
        "ExE" => Some(BaseRule::ExE),
        "Em" => Some(BaseRule::Em),
        "Refl" => Some(BaseRule::Refl),
        "Sym" => Some(BaseRule::Sym),
        "Trans" => Some(BaseRule::Trans),
        "Cong" => Some(BaseRule::Cong),
        "SetMem" => Some(BaseRule::SetMem),
        "BoolMem" => Some(BaseRule::BoolMem),
        "Calc" => Some(BaseRule::Calc),
        "Ind" => Some(BaseRule::Ind),
        _ => None,
    }
}

fn name_of(alloc: Global, text: &str) -> Result<Name, NoMemory> {
    Name::from_slice(alloc, text.as_bytes())
}

/// The rules with one field.
fn rule_with_one(alloc: Global, name: &str, field: &str) -> Result<BaseRule, Fault> {
    match name {
        "AllE" => Ok(BaseRule::AllE(read_tree(alloc, field)?)),
        "ExI" => Ok(BaseRule::ExI(read_tree(alloc, field)?)),
        "Axiom" => Ok(BaseRule::Axiom(number(field)?)),
        _ => Err(Fault::NoCase),
    }
}

/// The rules with two fields.
fn rule_with_two(alloc: Global, name: &str, first: &str, second: &str) -> Result<BaseRule, Fault> {
    match name {
        "Inst" => {
            let types = read_types(alloc, first)?;
            Ok(BaseRule::Inst(types, read_trees(alloc, second)?))
        }
        "Des" => Ok(BaseRule::Des(name_of(alloc, first)?, number(second)?)),
        "Dis" => {
            let left = name_of(alloc, first)?;
            Ok(BaseRule::Dis(left, name_of(alloc, second)?))
        }
        "Rec" => {
            let op = name_of(alloc, first)?;
            Ok(BaseRule::Rec(op, name_of(alloc, second)?))
        }
        _ => Err(Fault::NoCase),
    }
}

/// The rule of a name and the texts of its fields.
pub fn read_rule(alloc: Global, name: &str, fields: &[&str]) -> Result<BaseRule, Fault> {
    match fields {
        [] => plain_rule(name).ok_or(Fault::NoCase),
        [only] => rule_with_one(alloc, name, *only),
        [first, second] => rule_with_two(alloc, name, *first, *second),
        _ => Err(Fault::NoCase),
    }
}
