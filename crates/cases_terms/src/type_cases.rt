//! Cases of types.
ghost use Rattle.std.specs.Prelude.{◌≤◌, length, IfOk};
ghost use Rattle.ev_terms.specs.Types.{type_list};

use cases_notation::fault::Fault;
use cases_notation::reading::{read_type, read_types};
use cases_notation::text::Text;
use cases_notation::words::{number, place};
use cases_notation::writing::{write_extent, write_optional, write_type, write_types};
use ev_terms::{
    NoMemory, Same, TryCopy, Ty, Tys, instantiate_list, type_extent, type_params, types_extent,
    types_params,
};
use std::alloc::Global;

fn copied(alloc: Global, out: &mut Text, text: &str) -> Result<(), Fault> {
    let ty = read_type(alloc, text)?.try_copy(alloc)?;
    write_type(alloc, out, &ty);
    Ok(())
}

fn copied_list(alloc: Global, out: &mut Text, text: &str) -> Result<(), Fault> {
    let types = read_types(alloc, text)?.try_copy(alloc)?;
    write_types(alloc, out, &types);
    Ok(())
}

fn write_measures(out: &mut Text, ty: &Ty) {
    write_extent(out, type_extent(ty));
    out.named("parameters", type_params(ty));
}

fn extent(alloc: Global, out: &mut Text, text: &str) -> Result<(), Fault> {
    let ty = read_type(alloc, text)?;
    write_measures(out, &ty);
    Ok(())
}

fn write_measures_of_all(out: &mut Text, types: &Tys) {
    write_extent(out, types_extent(types));
    out.named("parameters", types_params(types));
}

fn extent_of_all(alloc: Global, out: &mut Text, text: &str) -> Result<(), Fault> {
    let types = read_types(alloc, text)?;
    write_measures_of_all(out, &types);
    Ok(())
}

/// The length of a list of two types.
fn write_length(alloc: Global, out: &mut Text, first: Ty, second: Ty) -> Result<(), NoMemory> {
    let mut types = Tys::new(alloc);
    types.push(alloc, first)?;
    types.push(alloc, second)?;
    out.named("length", types.len() as u64);
    Ok(())
}

fn length(alloc: Global, out: &mut Text, first: &str, second: &str) -> Result<(), Fault> {
    let (first, second) = (read_type(alloc, first)?, read_type(alloc, second)?);
    Ok(write_length(alloc, out, first, second)?)
}

/// The type at a place from 0.
fn at_place(alloc: Global, out: &mut Text, at: &str, types: &str) -> Result<(), Fault> {
    let at = place(at)?;
    let types = read_types(alloc, types)?;
    write_optional(alloc, out, types.get(at));
    Ok(())
}

/// A list of types with types put in for their parameters.
fn instances(alloc: Global, out: &mut Text, list: &str, types: &str) -> Result<(), Fault> {
    let (list, types) = (read_types(alloc, list)?, read_types(alloc, types)?);
    write_types(alloc, out, &instantiate_list(alloc, &list, &types)?);
    Ok(())
}

fn same(alloc: Global, out: &mut Text, first: &str, second: &str) -> Result<(), Fault> {
    let (first, second) = (read_type(alloc, first)?, read_type(alloc, second)?);
    out.test("same", first.same(&second));
    Ok(())
}

fn all_same(alloc: Global, out: &mut Text, first: &str, second: &str) -> Result<(), Fault> {
    let (first, second) = (read_types(alloc, first)?, read_types(alloc, second)?);
    out.test("same", first.same(&second));
    Ok(())
}

/// So many parameters in a vector, of which the last is another one.
fn many_params(alloc: Global, count: u32, last: u32) -> Result<Vec<Ty>, NoMemory> {
    let mut types = Vec::new(alloc);
    for i in 1..count {
        types.push(Ty::Param(i))?;
    }
    types.push(Ty::Param(last))?;
    Ok(types)
}

fn many_types(alloc: Global, count: u32, last: u32) -> Result<Tys, NoMemory>
    ensures { IfOk result (λ types. length (type_list types) ≤ usize.MAX) }
{
    Tys::from_vec(alloc, many_params(alloc, count, last)?)
}

/// A list of so many types, the last one of which is ?0, and the same list with INT for ?0.
fn many(alloc: Global, out: &mut Text, count: &str) -> Result<(), Fault> {
    let count = number(count)?;
    let last = (count as usize).saturating_sub(1);
    let mut types = many_types(alloc, count, 0)?;
    out.named("length", types.len() as u64);
    write_optional(alloc, out, types.get(last));
    write_optional(alloc, out, types.get(count as usize));
    write_measures_of_all(out, &types);
    out.test("same", types.same(&many_types(alloc, count, 0)?));
    out.test("same", types.same(&many_types(alloc, count, 1)?));
    let instances = instantiate_list(alloc, &types, &Tys::one(alloc, Ty::Int)?)?;
    write_optional(alloc, out, instances.get(last));
    out.test("same", types.same(&instances));
    types.push(alloc, Ty::Bool)?;
    write_optional(alloc, out, types.get(count as usize));
    Ok(())
}

fn answer_one(alloc: Global, out: &mut Text, case: &str, text: &str) -> Result<(), Fault> {
    match case {
        "copied" => copied(alloc, out, text),
        "list" => copied_list(alloc, out, text),
        "extent" => extent(alloc, out, text),
        "extents" => extent_of_all(alloc, out, text),
        "many" => many(alloc, out, text),
        _ => Err(Fault::NoCase),
    }
}

fn answer_two(
    alloc: Global,
    out: &mut Text,
    case: &str,
    first: &str,
    second: &str,
) -> Result<(), Fault> {
    match case {
        "length" => length(alloc, out, first, second),
        "at" => at_place(alloc, out, first, second),
        "instance" => instances(alloc, out, first, second),
        "same" => same(alloc, out, first, second),
        "all-same" => all_same(alloc, out, first, second),
        _ => Err(Fault::NoCase),
    }
}

/// The answer of a case of types.
pub fn answer(alloc: Global, out: &mut Text, case: &str, fields: &[&str]) -> Result<(), Fault> {
    match fields {
        [only] => answer_one(alloc, out, case, *only),
        [first, second] => answer_two(alloc, out, case, *first, *second),
        _ => Err(Fault::NoCase),
    }
}
