//! Cases of forms: each form that a term has, with its parts.
use cases_notation::fault::Fault;
use cases_notation::reading::read_tree;
use cases_notation::text::Text;
use cases_notation::writing::{write_tree, write_trees, write_type, write_types};
use ev_forms::{
    Binder, Connective, Relation, bool_part, bound_parts, equation_parts, is_falsity,
    is_true_value, is_truth, joined_parts, negated_part, node_parts, related_parts,
};
use ev_terms::Tree;
use std::alloc::Global;

fn write_leaves(out: &mut Text, tree: &Tree) {
    if is_truth(tree) {
        out.label("Truth");
    }
    if is_falsity(tree) {
        out.label("Falsity");
    }
    if is_true_value(tree) {
        out.label("TrueValue");
    }
}

fn write_only(alloc: Global, out: &mut Text, form: &str, part: Option<&Tree>) {
    if let Some(part) = part {
        out.label(form);
        write_tree(alloc, out, part);
    }
}

fn write_joined(alloc: Global, out: &mut Text, tree: &Tree, form: &str, connective: Connective) {
    if let Some((left, right)) = joined_parts(tree, connective) {
        out.label(form);
        write_tree(alloc, out, left);
        write_tree(alloc, out, right);
    }
}

fn write_bound(alloc: Global, out: &mut Text, tree: &Tree, form: &str, binder: Binder) {
    if let Some((ty, body)) = bound_parts(tree, binder) {
        out.label(form);
        write_type(alloc, out, ty);
        write_tree(alloc, out, body);
    }
}

fn write_related(alloc: Global, out: &mut Text, tree: &Tree, form: &str, relation: Relation) {
    if let Some((ty, left, right)) = related_parts(tree, relation) {
        out.label(form);
        write_type(alloc, out, ty);
        write_tree(alloc, out, left);
        write_tree(alloc, out, right);
    }
}

fn write_equation(alloc: Global, out: &mut Text, tree: &Tree) {
    if let Some((types, left, right)) = equation_parts(tree) {
        out.label("equation");
        write_types(alloc, out, types);
        write_tree(alloc, out, left);
        write_tree(alloc, out, right);
    }
}

fn write_node(alloc: Global, out: &mut Text, tree: &Tree) {
    match node_parts(tree) {
        Some((_, types, children)) => {
            out.label("node");
            write_types(alloc, out, types);
            write_trees(alloc, out, children);
        }
        None => out.label("leaf"),
    }
}

fn write_connectives(alloc: Global, out: &mut Text, tree: &Tree) {
    write_joined(alloc, out, tree, "And", Connective::And);
    write_joined(alloc, out, tree, "Or", Connective::Or);
    write_joined(alloc, out, tree, "Implies", Connective::Implies);
    write_joined(alloc, out, tree, "Iff", Connective::Iff);
}

fn write_typed_forms(alloc: Global, out: &mut Text, tree: &Tree) {
    write_bound(alloc, out, tree, "ForAll", Binder::ForAll);
    write_bound(alloc, out, tree, "ForSome", Binder::ForSome);
    write_bound(alloc, out, tree, "SetOf", Binder::SetOf);
    write_related(alloc, out, tree, "Equal", Relation::Equal);
    write_related(alloc, out, tree, "In", Relation::In);
}

/// The forms of a term, the node first.
fn write_forms(alloc: Global, out: &mut Text, tree: &Tree) {
    write_node(alloc, out, tree);
    write_leaves(out, tree);
    write_only(alloc, out, "Not", negated_part(tree));
    write_only(alloc, out, "Bool", bool_part(tree));
    write_connectives(alloc, out, tree);
    write_typed_forms(alloc, out, tree);
    write_equation(alloc, out, tree);
}

/// The answer of a case of forms.
pub fn answer(alloc: Global, out: &mut Text, case: &str, fields: &[&str]) -> Result<(), Fault> {
    match (case, fields) {
        ("parts", [text]) => {
            let tree = read_tree(alloc, *text)?;
            write_forms(alloc, out, &tree);
            Ok(())
        }
        _ => Err(Fault::NoCase),
    }
}
