//! What a line answers.
use crate::formulas::{condition_extent, condition_text, formula};
use crate::made::{doubled, is_far_kept};
use crate::refusals::Refusal;
use crate::samples::Setting;
use ev_terms::NoMemory;
use std::alloc::{AllocError, Global};

/// How many repetitions a case may have.
const MOST: u32 = 4096;

fn number(text: &str) -> Result<u32, Refusal> {
    match text.trim().parse::<u32>() {
        Ok(number) => Ok(number),
        Err(_) => Err(Refusal::Case),
    }
}

fn count_of(text: &str) -> Result<u32, Refusal> {
    let count = number(text)?;
    if count > MOST {
        return Err(Refusal::Case);
    }
    Ok(count)
}

/// The pieces of a case, of which each further one begins behind ` @ `.
fn pieces<'a>(alloc: Global, text: &'a str) -> Result<Vec<&'a str>, AllocError> {
    let mut pieces = Vec::new(alloc);
    for piece in text.split(" @ ") {
        pieces.push(piece)?;
    }
    Ok(pieces)
}

fn push_often(text: &mut String, count: u32, piece: &str) -> Result<(), AllocError> {
    for _ in 0..count {
        text.push_str(piece)?;
    }
    Ok(())
}

/// The text of a nested formula.
fn nested(alloc: Global, text: &str) -> Result<String, Refusal> {
    let pieces = pieces(alloc, text)?;
    let [count, before, middle, behind, rest @ ..] = pieces.as_slice() else {
        return Err(Refusal::Case);
    };
    let count = count_of(count)?;
    let mut whole = String::new(alloc);
    push_often(&mut whole, count, before)?;
    whole.push_str(middle)?;
    push_often(&mut whole, count, behind)?;
    for piece in rest {
        whole.push_str(piece)?;
    }
    Ok(whole)
}

fn nest_case(alloc: Global, setting: &Setting, text: &str) -> Result<Vec<u8>, Refusal> {
    let text = nested(alloc, text)?;
    let tree = formula(alloc, setting, text.as_bytes())?;
    condition_extent(alloc, setting, &tree)
}

fn double_case(alloc: Global, setting: &Setting, text: &str) -> Result<Vec<u8>, Refusal> {
    let pieces = pieces(alloc, text)?;
    let [count, first, text] = pieces.as_slice() else {
        return Err(Refusal::Case);
    };
    let count = count_of(count)?;
    let first = formula(alloc, setting, first.as_bytes())?;
    let tree = formula(alloc, setting, text.as_bytes())?;
    let tree = doubled(alloc, count, first, tree)?;
    condition_extent(alloc, setting, &tree)
}

fn far_case(alloc: Global, setting: &Setting, text: &str) -> Result<Vec<u8>, Refusal> {
    let answer: &[u8] = if is_far_kept(alloc, setting, number(text)?)? {
        b"kept"
    } else {
        b"another"
    };
    Ok(answer.to_vec(alloc)?)
}

fn line_of(alloc: Global, setting: &mut Setting, line: &str) -> Result<Vec<u8>, Refusal> {
    let (word, text) = line.split_once(' ').unwrap_or((line, ""));
    match word {
        "wd" => {
            let tree = formula(alloc, setting, text.as_bytes())?;
            condition_text(alloc, setting, &tree)
        }
        "nest" => nest_case(alloc, setting, text),
        "double" => double_case(alloc, setting, text),
        "far" => far_case(alloc, setting, text),
        "env" => {
            setting.set(alloc, text)?;
            Ok(line.as_bytes().to_vec(alloc)?)
        }
        _ => Ok(line.as_bytes().to_vec(alloc)?),
    }
}

fn text_of(alloc: Global, bytes: &[u8]) -> Result<String, NoMemory> {
    let text = std::str::from_utf8(bytes).unwrap_or("no UTF-8");
    Ok(String::from_str(alloc, text)?)
}

/// What a line answers.
pub fn answer(alloc: Global, setting: &mut Setting, line: &str) -> Result<String, NoMemory> {
    match line_of(alloc, setting, line) {
        Ok(bytes) => text_of(alloc, bytes.as_slice()),
        Err(refusal) => text_of(alloc, refusal.word().as_bytes()),
    }
}
