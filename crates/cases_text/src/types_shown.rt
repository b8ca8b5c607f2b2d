//! Types, bound names and patterns as texts.
use crate::texts::{put, put_number};
use ev_syntax::{Binder, Pattern, PatternForm, RawType, RawTypeForm};
use ev_terms::NoMemory;
use std::alloc::Global;

/// What is nested deeper is not told: `..` stands for it.
pub(crate) const DEPTH: u32 = 1000;

pub(crate) fn put_param(alloc: Global, out: &mut Vec<u8>, number: u32) -> Result<(), NoMemory> {
    put(out, b"?")?;
    put_number(alloc, out, u128::from(number))
}

/// What stands before an item of a list in parentheses.
fn put_before(out: &mut Vec<u8>, i: usize) -> Result<(), NoMemory> {
    if i == 0 {
        put(out, b"(")
    } else {
        put(out, b", ")
    }
}

/// `INT`, `?0`, `T`, `T(A, B)`, `POW(A)`, `(A ** B)`
fn put_nested(alloc: Global, out: &mut Vec<u8>, ty: &RawType, depth: u32) -> Result<(), NoMemory> {
    if depth == 0 {
        return put(out, b"..");
    }
    match ty.form() {
        RawTypeForm::Int => put(out, b"INT"),
        RawTypeForm::Bool => put(out, b"BOOL"),
        RawTypeForm::Param(number) => put_param(alloc, out, *number),
        RawTypeForm::Named(name, types) => {
            put(out, name.as_slice())?;
            if types.is_empty() {
                return Ok(());
            }
            for (i, ty) in types.as_slice().iter().enumerate() {
                put_before(out, i)?;
                put_nested(alloc, out, ty, depth - 1)?;
            }
            put(out, b")")
        }
        RawTypeForm::Pow(ty) => {
            put(out, b"POW(")?;
            put_nested(alloc, out, ty, depth - 1)?;
            put(out, b")")
        }
        RawTypeForm::Prod(left, right) => {
            put(out, b"(")?;
            put_nested(alloc, out, left, depth - 1)?;
            put(out, b" ** ")?;
            put_nested(alloc, out, right, depth - 1)?;
            put(out, b")")
        }
    }
}

/// How many arguments a type has.
pub(crate) fn put_type_size(
    alloc: Global,
    out: &mut Vec<u8>,
    ty: &RawType,
) -> Result<(), NoMemory> {
    let count = match ty.form() {
        RawTypeForm::Named(_, types) => types.len(),
        _ => 0,
    };
    put_number(alloc, out, count as u128)
}

pub(crate) fn put_type(alloc: Global, out: &mut Vec<u8>, ty: &RawType) -> Result<(), NoMemory> {
    put_nested(alloc, out, ty, DEPTH)
}

/// `x`, `x:T`
pub(crate) fn put_binder(
    alloc: Global,
    out: &mut Vec<u8>,
    binder: &Binder,
) -> Result<(), NoMemory> {
    put(out, binder.name.as_slice())?;
    match &binder.written {
        Some(ty) => {
            put(out, b":")?;
            put_type(alloc, out, ty)
        }
        None => Ok(()),
    }
}

/// ` x y:T`
pub(crate) fn put_binders(
    alloc: Global,
    out: &mut Vec<u8>,
    binders: &[Binder],
) -> Result<(), NoMemory> {
    for binder in binders {
        put(out, b" ")?;
        put_binder(alloc, out, binder)?;
    }
    Ok(())
}

/// `x`, `x:T`, `[x y:T]`
fn put_nested_pattern(
    alloc: Global,
    out: &mut Vec<u8>,
    pattern: &Pattern,
    depth: u32,
) -> Result<(), NoMemory> {
    if depth == 0 {
        return put(out, b"..");
    }
    match pattern.form() {
        PatternForm::Bound(binder) => put_binder(alloc, out, binder),
        PatternForm::Pair(first, second) => {
            put(out, b"[")?;
            put_nested_pattern(alloc, out, first, depth - 1)?;
            put(out, b" ")?;
            put_nested_pattern(alloc, out, second, depth - 1)?;
            put(out, b"]")
        }
    }
}

pub(crate) fn put_pattern(
    alloc: Global,
    out: &mut Vec<u8>,
    pattern: &Pattern,
) -> Result<(), NoMemory> {
    put_nested_pattern(alloc, out, pattern, DEPTH)
}
