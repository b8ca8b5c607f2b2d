//! Bytes by their numbers.
use crate::repeats::without_repetitions;
use std::alloc::{AllocError, Global};

fn digit_of(byte: u8) -> Option<u8> {
    match byte {
        b'0'..=b'9' => Some(byte - b'0'),
        b'a'..=b'f' => Some(byte - b'a' + 10),
        _ => None,
    }
}

/// The byte that `xHH` is.
fn byte_of(part: &[u8]) -> Option<u8> {
    if part.len() < 3 || part[0] != b'x' {
        return None;
    }
    let high = digit_of(part[1])?;
    let low = digit_of(part[2])?;
    Some(high.wrapping_mul(16).wrapping_add(low))
}

/// What stands behind it.
fn behind_byte(part: &[u8]) -> &[u8] {
    part.get(3..).unwrap_or(&[])
}

/// Appends what stands behind a backslash.
fn push_part(bytes: &mut Vec<u8>, part: &[u8]) -> Result<(), AllocError> {
    if let Some(byte) = byte_of(part) {
        bytes.push(byte)?;
        return bytes.extend_from_slice(behind_byte(part));
    }
    if let Some(rest) = part.strip_prefix(b"n") {
        bytes.push(b'\n')?;
        return bytes.extend_from_slice(rest);
    }
    bytes.push(b'\\')?;
    bytes.extend_from_slice(part)
}

/// The bytes that a line stands for: `\n` is LF, `\xHH` a byte by its number, and `\{N:PIECE}` N times the piece, which may hold such
/// escapes. Any other backslash stands for itself.
pub fn unescaped(alloc: Global, line: &str) -> Result<Vec<u8>, AllocError> {
    let text = without_repetitions(alloc, line)?;
    let mut bytes = Vec::new(alloc);
    let mut is_first = true;
    for part in text.as_bytes().split(|byte| *byte == b'\\') {
        if is_first {
            bytes.extend_from_slice(part)?;
        } else {
            push_part(&mut bytes, part)?;
        }
        is_first = false;
    }
    Ok(bytes)
}
