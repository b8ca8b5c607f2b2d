//! The elements of a theory text.
ghost use Rattle.std.specs.Prelude.{◌≡◌, ◌<◌, ◌^◌, length, IfOk};
ghost use Rattle.std.specs.List.{All};
ghost use Rattle.ev_theory_text.specs.Theories.{IsTheory, FrontElements, FurtherElements};

use crate::cutting::cut;
use crate::elements::{RawElements, read_element, read_front};
use ev_parse::blanks::are_blanks;
use ev_terms::NoMemory;
use std::alloc::Global;

/// What stands before the first element keyword: nothing where it is blank, else one part that is no element.
fn front_elements(alloc: Global, front: &[u8]) -> Result<RawElements, NoMemory>
    requires { length front.now < 2 ^ 32 }
    ensures { IfOk result (FrontElements front.now) }
{
    let mut elements = RawElements::new(alloc);
    if are_blanks(front) {
        return Ok(elements);
    }
    let element = read_front(alloc, front)?;
    elements.push(alloc, element)?;
    Ok(elements)
}

/// The elements that the parts are, behind some.
fn further_elements(
    alloc: Global,
    first: RawElements,
    parts: &[&[u8]],
) -> Result<RawElements, NoMemory>
    requires { All (λ part. length part.now < 2 ^ 32) parts.now }
    ensures { IfOk result (FurtherElements first parts.now) }
{
    let mut elements = first;
    for part in parts {
        let element = read_element(alloc, part)?;
        elements.push(alloc, element)?;
    }
    Ok(elements)
}

/// The elements of a theory text, in order. Each is its form, or the first of the kinds text, syntax and deep that holds of it. Of a
/// text that does not begin with an element keyword, what stands before the first is element 1 and is none, unless it is blank.
pub fn read_theory(alloc: Global, body: &[u8]) -> Result<RawElements, NoMemory>
    requires { length body.now < 2 ^ 32 }
    ensures { IfOk result (IsTheory body.now) }
{
    let pieces = cut(alloc, body)?;
    let first = front_elements(alloc, pieces.front)?;
    further_elements(alloc, first, pieces.parts.as_slice())
}
