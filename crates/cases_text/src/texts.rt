//! Texts of cases, in which a line holds any bytes.
ghost use Rattle.std.specs.Prelude.{◌<◌, IfSome};

use ev_syntax::read_pieces::push;
use ev_terms::NoMemory;
use std::alloc::Global;

pub(crate) fn put(out: &mut Vec<u8>, bytes: &[u8]) -> Result<(), NoMemory> {
    out.extend_from_slice(bytes)?;
    Ok(())
}

pub(crate) fn put_number(alloc: Global, out: &mut Vec<u8>, number: u128) -> Result<(), NoMemory> {
    let digits = number.to_string(alloc)?;
    put(out, digits.as_bytes())
}

/// Puts a blank between items of a list.
pub(crate) fn separate(out: &mut Vec<u8>) -> Result<(), NoMemory> {
    if out.is_empty() {
        return Ok(());
    }
    put(out, b" ")
}

/// The value of a hexadecimal digit.
fn nibble(digit: u8) -> Option<u8>
    ensures { IfSome result (λ value. value < 16) }
{
    match digit {
        b'0'..=b'9' => Some(digit - b'0'),
        b'a'..=b'f' => Some(digit - b'a' + 10),
        _ => None,
    }
}

/// Puts the byte that two digits are.
fn put_byte(out: &mut Vec<u8>, high: u8, low: u8) -> Result<bool, NoMemory> {
    let (Some(high), Some(low)) = (nibble(high), nibble(low)) else {
        return Ok(false);
    };
    push(out, high * 16 + low)?;
    Ok(true)
}

/// Puts a piece many times: `N'PIECE'`, and what stands behind it.
fn put_repeated(out: &mut Vec<u8>, part: &str) -> Result<bool, NoMemory> {
    let Some((number, quoted)) = part.split_once('\'') else {
        return Ok(false);
    };
    let Some((piece, plain)) = quoted.split_once('\'') else {
        return Ok(false);
    };
    let Ok(times) = number.parse::<u32>() else {
        return Ok(false);
    };
    for _ in 0..times {
        put(out, piece.as_bytes())?;
    }
    put(out, plain.as_bytes())?;
    Ok(true)
}

/// Puts what stands behind `$`.
fn put_escape(out: &mut Vec<u8>, part: &str) -> Result<bool, NoMemory> {
    match part.as_bytes() {
        [b'x', high, low, plain @ ..] => {
            if !put_byte(out, *high, *low)? {
                return Ok(false);
            }
            put(out, plain)?;
            Ok(true)
        }
        _ => put_repeated(out, part),
    }
}

/// The bytes of a text: `$xHH` stands for a byte, and `$N'PIECE'` for a piece N times.
pub(crate) fn bytes_of(alloc: Global, text: &str) -> Result<Option<Vec<u8>>, NoMemory> {
    let mut out = Vec::new(alloc);
    for (i, part) in text.split('$').enumerate() {
        if i == 0 {
            put(&mut out, part.as_bytes())?;
        } else if !put_escape(&mut out, part)? {
            return Ok(None);
        }
    }
    Ok(Some(out))
}
