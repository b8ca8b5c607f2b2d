//! Cases of the table of base symbols.
use cases_notation::fault::Fault;
use cases_notation::symbols::{row_at, row_of_sign};
use cases_notation::text::Text;
use cases_notation::words::number;
use ev_terms::{Sym, binds};
use ev_typing::{Children, Form, Row};

fn plain_form(form: Form) -> Option<&'static str> {
    match form {
        Form::Prop => Some("Prop"),
        Form::Int => Some("INT"),
        Form::Bool => Some("BOOL"),
        Form::A => Some("A"),
        Form::B => Some("B"),
        Form::Pair => Some("A ** B"),
        Form::SetInt => Some("POW(INT)"),
        Form::SetA => Some("POW(A)"),
        Form::SetB => Some("POW(B)"),
        _ => None,
    }
}

fn relation_form(form: Form) -> &'static str {
    match form {
        Form::SetSetA => "POW(POW(A))",
        Form::RelationAB => "POW(A ** B)",
        Form::RelationBA => "POW(B ** A)",
        Form::RelationBC => "POW(B ** C)",
        Form::RelationAC => "POW(A ** C)",
        Form::RelationAA => "POW(A ** A)",
        Form::SetRelation => "POW(POW(A ** B))",
        Form::FirstOf => "POW((A ** B) ** A)",
        Form::SecondOf => "POW((A ** B) ** B)",
        _ => "other",
    }
}

fn form_text(form: Form) -> &'static str {
    match plain_form(form) {
        Some(text) => text,
        None => relation_form(form),
    }
}

fn params_text(params: u32) -> &'static str {
    match params {
        0 => "",
        1 => "A",
        2 => "A, B",
        3 => "A, B, C",
        _ => "more",
    }
}

fn write_children(out: &mut Text, children: Children) {
    match children {
        Children::None => {}
        Children::One(form) => out.glue(form_text(form)),
        Children::Two(left, right) => {
            out.glue(form_text(left));
            out.glue(", ");
            out.glue(form_text(right));
        }
    }
}

/// Symbol, type parameters, types of the children with what is bound, type.
fn write_row(out: &mut Text, sign: &str, row: Row, bound: u32) {
    out.word(sign);
    out.glue(" | ");
    out.glue(params_text(row.params));
    out.glue(" | ");
    write_children(out, row.children);
    if bound == 1 {
        out.glue(", binding A");
    }
    out.glue(" | ");
    out.glue(form_text(row.result));
}

fn row(out: &mut Text, sign: &str) -> Result<(), Fault> {
    let i = row_of_sign(sign).ok_or(Fault::NoCase)?;
    let row = row_at(i).ok_or(Fault::NoCase)?;
    write_row(out, sign, row, binds(&Sym::Base(i)));
    Ok(())
}

/// Whether the table has a row of a number, from 0.
fn known(out: &mut Text, place: &str) -> Result<(), Fault> {
    match u16::try_from(number(place)?) {
        Ok(i) => {
            out.test("row", row_at(i).is_some());
            Ok(())
        }
        Err(_) => Err(Fault::NoCase),
    }
}

/// The answer of a case of symbols.
pub fn answer(out: &mut Text, case: &str, fields: &[&str]) -> Result<(), Fault> {
    match fields {
        [only] => match case {
            "row" => row(out, only.trim()),
            "known" => known(out, *only),
            _ => Err(Fault::NoCase),
        },
        _ => Err(Fault::NoCase),
    }
}
