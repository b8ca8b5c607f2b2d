//! The fields of lines.
ghost use Rattle.std.specs.Prelude.{◌≡◌, ◌++◌, map, decimal, IfOk, OnOk};
ghost use Rattle.ev_print.specs.Canon.{canon, type_texts};
ghost use Rattle.ev_deriv.specs.Fields.{joined, line_of, ended, comma_list, types_field, numbers_field, terms_field};
ghost use Rattle.ev_deriv.specs.inner.Joined.{after};

use ev_print::{print, print_type};
use ev_terms::{Bytes, ListOf, NoMemory, Tree, Tys};
use ev_typing::Env;
use std::alloc::Global;

pub(crate) type Texts = ListOf<Bytes>;

pub(crate) fn append(text: &mut Vec<u8>, bytes: &[u8]) -> Result<(), NoMemory>
    ensures { OnOk result (text.new.items ≡ text.old.items ++ bytes.now) }
{
    text.extend_from_slice(bytes)?;
    Ok(())
}

pub(crate) fn bytes_of(alloc: Global, bytes: &[u8]) -> Result<Bytes, NoMemory>
    ensures { IfOk result (λ text. text ≡ bytes.now) }
{
    Ok(Bytes::from_vec(bytes.to_vec(alloc)?))
}

pub(crate) fn decimal(alloc: Global, number: u128) -> Result<Bytes, NoMemory>
    ensures { IfOk result (λ text. text ≡ decimal number) }
{
    let digits = number.to_string(alloc)?;
    bytes_of(alloc, digits.as_bytes())
}

/// Texts with another between them.
pub(crate) fn joined(alloc: Global, between: &[u8], texts: &[Bytes]) -> Result<Bytes, NoMemory>
    ensures { IfOk result (λ text. text ≡ joined between.now texts.now) }
{
    let Some((first, rest)) = texts.split_first() else {
        return Ok(Bytes::new(alloc));
    };
    let mut whole = first.as_slice().to_vec(alloc)?;
    append_more(&mut whole, between, rest)?;
    Ok(Bytes::from_vec(whole))
}

/// Each of the texts behind the one that stands between them.
fn append_more(text: &mut Vec<u8>, between: &[u8], texts: &[Bytes]) -> Result<(), NoMemory>
    ensures { OnOk result (text.new.items ≡ text.old.items ++ after between.now texts.now) }
{
    for more in texts {
        append(text, between)?;
        append(text, more.as_slice())?;
    }
    Ok(())
}

/// A list with commas between its texts.
pub(crate) fn comma_list(alloc: Global, texts: &[Bytes]) -> Result<Bytes, NoMemory>
    ensures { IfOk result (λ text. text ≡ comma_list texts.now) }
{
    if texts.is_empty() {
        return bytes_of(alloc, b"-");
    }
    joined(alloc, b", ", texts)
}

/// A line of these fields, with its LF.
pub(crate) fn ended_line(alloc: Global, fields: &[Bytes]) -> Result<Bytes, NoMemory>
    ensures { IfOk result (λ text. text ≡ ended (line_of fields.now)) }
{
    let mut line = joined(alloc, b" @ ", fields)?.into_vec();
    line.push(b'\n')?;
    Ok(Bytes::from_vec(line))
}

pub(crate) fn type_texts(alloc: Global, types: &Tys) -> Result<Texts, NoMemory>
    ensures { IfOk result (λ texts. texts ≡ type_texts types.now) }
{
    let mut texts = Texts::new(alloc);
    let mut left = types;
    while let Tys::More(ty, rest) = left {
        texts.push(alloc, print_type(alloc, ty.get())?)?;
        left = rest.get();
    }
    Ok(texts)
}

pub(crate) fn types_field(alloc: Global, types: &Tys) -> Result<Bytes, NoMemory>
    ensures { IfOk result (λ text. text ≡ types_field types.now) }
{
    let texts = type_texts(alloc, types)?;
    comma_list(alloc, texts.as_slice())
}

fn number_texts(alloc: Global, numbers: &[u128]) -> Result<Texts, NoMemory>
    ensures { IfOk result (λ texts. texts ≡ map decimal numbers.now) }
{
    let mut texts = Texts::new(alloc);
    for number in numbers {
        texts.push(alloc, decimal(alloc, *number)?)?;
    }
    Ok(texts)
}

pub(crate) fn numbers_field(alloc: Global, numbers: &[u128]) -> Result<Bytes, NoMemory>
    ensures { IfOk result (λ text. text ≡ numbers_field numbers.now) }
{
    if numbers.is_empty() {
        return bytes_of(alloc, b"-");
    }
    let texts = number_texts(alloc, numbers)?;
    joined(alloc, b" ", texts.as_slice())
}

fn term_texts(alloc: Global, env: &Env, n: u32, terms: &[Tree]) -> Result<Texts, NoMemory>
    ensures { IfOk result (λ texts. texts ≡ map (canon env.now n) terms.now) }
{
    let mut texts = Texts::new(alloc);
    for term in terms {
        texts.push(alloc, print(alloc, env, n, term)?)?;
    }
    Ok(texts)
}

/// Terms under n variables.
pub(crate) fn terms_field(
    alloc: Global,
    env: &Env,
    n: u32,
    terms: &[Tree],
) -> Result<Bytes, NoMemory>
    ensures { IfOk result (λ text. text ≡ terms_field env.now n terms.now) }
{
    let texts = term_texts(alloc, env, n, terms)?;
    comma_list(alloc, texts.as_slice())
}
