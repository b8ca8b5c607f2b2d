//! Cases of lists.
use cases_notation::fault::Fault;
use cases_notation::text::Text;
use cases_notation::words::{byte, number, place};
use ev_terms::{Bytes, Ids, Nums, Same, TryCopy};
use std::alloc::Global;

/// Appends the numbers of a text, one by one.
fn push_bytes(alloc: Global, list: &mut Bytes, text: &str) -> Result<(), Fault> {
    for word in text.split_whitespace() {
        list.push(alloc, byte(word)?)?;
    }
    Ok(())
}

fn bytes(alloc: Global, text: &str) -> Result<Bytes, Fault> {
    let mut list = Bytes::new(alloc);
    push_bytes(alloc, &mut list, text)?;
    Ok(list)
}

fn write_bytes(out: &mut Text, bytes: &[u8]) {
    for byte in bytes {
        out.number(u64::from(*byte));
    }
}

/// A byte, or that there is none.
pub fn write_byte(out: &mut Text, byte: Option<&u8>) {
    match byte {
        Some(byte) => out.number(u64::from(*byte)),
        None => out.word("none"),
    }
}

/// The length of a list, whether it is empty, and its item at a place from 0.
fn item(alloc: Global, out: &mut Text, text: &str, at: &str) -> Result<(), Fault> {
    let at = place(at)?;
    let list = bytes(alloc, text)?;
    out.named("length", list.len() as u64);
    out.test("empty", list.is_empty());
    out.label("item");
    write_byte(out, list.get(at));
    Ok(())
}

/// A list that is copied and then grows, and what becomes of the copy.
fn copied(alloc: Global, out: &mut Text, first: &str, more: &str) -> Result<(), Fault> {
    let mut list = bytes(alloc, first)?;
    let copy = list.try_copy(alloc)?;
    out.test("same", copy.same(&list));
    push_bytes(alloc, &mut list, more)?;
    out.test("then", copy.same(&list));
    out.label("list");
    write_bytes(out, list.as_slice());
    out.label("copy");
    write_bytes(out, copy.into_vec().as_slice());
    Ok(())
}

/// Whether two lists are the same, each made of a vector.
fn same(alloc: Global, out: &mut Text, first: &str, second: &str) -> Result<(), Fault> {
    let first = Bytes::from_vec(bytes(alloc, first)?.into_vec());
    let second = Bytes::from_vec(bytes(alloc, second)?.into_vec());
    out.test("same", first.same(&second));
    Ok(())
}

fn read_ids(alloc: Global, text: &str) -> Result<Ids, Fault> {
    let mut ids = Ids::new(alloc);
    for word in text.split_whitespace() {
        ids.push(alloc, number(word)?)?;
    }
    Ok(ids)
}

/// Numbers of 32 bits in a list that is copied.
fn ids(alloc: Global, out: &mut Text, text: &str) -> Result<(), Fault> {
    let ids = read_ids(alloc, text)?.try_copy(alloc)?;
    for id in ids.as_slice() {
        out.number(u64::from(*id));
    }
    Ok(())
}

fn large_number(word: &str) -> Result<u128, Fault> {
    match word.parse::<u128>() {
        Ok(n) => Ok(n),
        Err(_) => Err(Fault::NoCase),
    }
}

fn read_nums(alloc: Global, text: &str) -> Result<Nums, Fault> {
    let mut nums = Nums::new(alloc);
    for word in text.split_whitespace() {
        nums.push(alloc, large_number(word)?)?;
    }
    Ok(nums)
}

/// Numbers of 128 bits in a list that is copied.
fn nums(alloc: Global, out: &mut Text, text: &str) -> Result<(), Fault> {
    let nums = read_nums(alloc, text)?.try_copy(alloc)?;
    for num in nums.as_slice() {
        out.digits(*num);
    }
    Ok(())
}

fn answer_two(
    alloc: Global,
    out: &mut Text,
    case: &str,
    first: &str,
    second: &str,
) -> Result<(), Fault> {
    match case {
        "item" => item(alloc, out, first, second),
        "copied" => copied(alloc, out, first, second),
        "same" => same(alloc, out, first, second),
        _ => Err(Fault::NoCase),
    }
}

/// The answer of a case of lists.
pub fn answer(alloc: Global, out: &mut Text, case: &str, fields: &[&str]) -> Result<(), Fault> {
    match fields {
        [first, second] => answer_two(alloc, out, case, *first, *second),
        [only] => match case {
            "ids" => ids(alloc, out, *only),
            "nums" => nums(alloc, out, *only),
            _ => Err(Fault::NoCase),
        },
        _ => Err(Fault::NoCase),
    }
}
