use cases_notation::fault::Fault;
use cases_notation::words::number;
use ev_terms::Place;
use std::alloc::Global;

/// Two numbers with a blank between them.
pub fn two_numbers(text: &str) -> Result<(u32, u32), Fault> {
    match text.trim().split_once(' ') {
        Some((first, second)) => Ok((number(first)?, number(second)?)),
        None => Err(Fault::NoCase),
    }
}

/// A place, which is `root` or child numbers from 1.
pub fn place_of(alloc: Global, text: &str) -> Result<Place, Fault> {
    let mut place = Place::new(alloc);
    if text.trim() == "root" {
        return Ok(place);
    }
    for word in text.split_whitespace() {
        place.push(alloc, number(word)?)?;
    }
    Ok(place)
}
