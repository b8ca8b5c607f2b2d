//! Cases of unification. A pair of patterns is `P = Q`: `ui` is the unknown i, and the rest is as in types. `chain:f:l`, `backward:f:l`
//! and `steep:f:l` are pairs for each unknown from f to before l: that it is twice the next one, the same with the last pair first,
//! that it is four times the next one.
use cases_notation::fault::Fault;
use cases_notation::text::Text;
use cases_notation::words::{number, number_behind, text_of, words_from_last};
use ev_terms::{Name, NoMemory, Shared, TryCopy};
use ev_unify::{Bind, Pat, PatPair, PatPairs, Pats, Solution, UnifyFault, unify};
use std::alloc::Global;

/// The most parts that are written of a pattern. One with more ends in `..`.
const PART_LIMIT: u32 = 10_000;

/// The last unknown of a chain.
const CHAIN_LIMIT: u32 = 10_000;

#[derive(Clone, Copy)]
enum Part<'a> {
    Pat(&'a Pat),
    Pats(&'a Pats),
}

/// What is left to be written, the next part last.
#[derive(Drop)]
struct Left<'a> {
    parts: Vec<Part<'a>>,
    is_cut: bool,
}

impl<'a> Left<'a> {
    fn push(&mut self, part: Part<'a>) {
        if self.parts.push(part).is_err() {
            self.is_cut = true;
        }
    }
}

fn plain_pattern(word: &str) -> Option<Pat> {
    match word {
        "INT" => Some(Pat::Int),
        "BOOL" => Some(Pat::Bool),
        _ => match number_behind(word, '?') {
            Some(i) => Some(Pat::Param(i)),
            None => Some(Pat::Unknown(u128::from(number_behind(word, 'u')?))),
        },
    }
}

fn next(stack: &mut Vec<Pat>) -> Result<Pat, Fault> {
    stack.pop().ok_or(Fault::NoCase)
}

fn pair_pattern(alloc: Global, stack: &mut Vec<Pat>) -> Result<Pat, Fault> {
    let first = Shared::new(alloc, next(stack)?)?;
    let second = Shared::new(alloc, next(stack)?)?;
    Ok(Pat::Prod(first, second))
}

fn before(alloc: Global, first: Pat, rest: Pats) -> Result<Pats, NoMemory> {
    let first = Shared::new(alloc, first)?;
    Ok(Pats::More(first, Shared::new(alloc, rest)?))
}

/// The list of a vector's patterns, the last one first.
fn list_of(alloc: Global, patterns: Vec<Pat>) -> Result<Pats, NoMemory> {
    let mut list = Pats::Empty;
    for pat in patterns {
        list = before(alloc, pat, list)?;
    }
    Ok(list)
}

/// The patterns from the stack, the next one first.
fn patterns(alloc: Global, stack: &mut Vec<Pat>, count: u32) -> Result<Pats, Fault> {
    let mut patterns = Vec::new(alloc);
    for _ in 0..count {
        patterns.push(next(stack)?)?;
    }
    patterns.reverse();
    Ok(list_of(alloc, patterns)?)
}

fn data_pattern(alloc: Global, stack: &mut Vec<Pat>, word: &str) -> Result<Pat, Fault> {
    let Some((name, count)) = word.split_once('/') else {
        return Err(Fault::NoCase);
    };
    let name = Name::from_slice(alloc, name.as_bytes())?;
    Ok(Pat::Data(name, patterns(alloc, stack, number(count)?)?))
}

fn read_word(alloc: Global, stack: &mut Vec<Pat>, word: &str) -> Result<(), Fault> {
    let pat = match plain_pattern(word) {
        Some(pat) => pat,
        None => match word {
            "=" => return Ok(()),
            "Set" => Pat::Pow(Shared::new(alloc, next(stack)?)?),
            "Pair" => pair_pattern(alloc, stack)?,
            _ => data_pattern(alloc, stack, word)?,
        },
    };
    stack.push(pat)?;
    Ok(())
}

/// The two patterns of a text, copied.
fn read_pair(alloc: Global, text: &str) -> Result<PatPair, Fault> {
    let words = words_from_last(alloc, text)?;
    let mut stack = Vec::new(alloc);
    for word in words.as_slice() {
        read_word(alloc, &mut stack, *word)?;
    }
    let left = next(&mut stack)?.try_copy(alloc)?;
    let right = next(&mut stack)?;
    if !stack.is_empty() {
        return Err(Fault::NoCase);
    }
    Ok(PatPair { left, right })
}

/// A pattern twice, shared.
fn double(alloc: Global, half: Pat) -> Result<Pat, NoMemory> {
    let half = Shared::new(alloc, half)?;
    let other = half.share()?;
    Ok(Pat::Prod(half, other))
}

fn push_link(alloc: Global, pairs: &mut PatPairs, u: u32, steep: bool) -> Result<(), Fault> {
    let half = double(alloc, Pat::Unknown(u128::from(u) + 1))?;
    let right = if steep { double(alloc, half)? } else { half };
    let left = Pat::Unknown(u128::from(u));
    pairs.push(alloc, PatPair { left, right })?;
    Ok(())
}

fn push_chain(
    alloc: Global,
    pairs: &mut PatPairs,
    kind: &str,
    first: u32,
    last: u32,
) -> Result<(), Fault> {
    let last = last.min(CHAIN_LIMIT);
    match kind {
        "chain" | "steep" => for u in first..last {
            push_link(alloc, pairs, u, kind == "steep")?;
        },
        "backward" => for u in (first..last).rev() {
            push_link(alloc, pairs, u, false)?;
        },
        _ => return Err(Fault::NoCase),
    }
    Ok(())
}

fn push_pairs(alloc: Global, pairs: &mut PatPairs, field: &str) -> Result<(), Fault> {
    let Some((kind, numbers)) = field.trim().split_once(':') else {
        pairs.push(alloc, read_pair(alloc, field)?)?;
        return Ok(());
    };
    match numbers.split_once(':') {
        Some((first, last)) => push_chain(alloc, pairs, kind, number(first)?, number(last)?),
        None => Err(Fault::NoCase),
    }
}

fn write_numbered(out: &mut Text, mark: &str, n: u128) {
    out.word(mark);
    out.glue_number(n);
}

/// How many patterns there are.
fn count_of(pats: &Pats) -> u32 {
    let mut count = 0u32;
    let mut left = pats;
    while let Pats::More(_, rest) = left {
        count = count.saturating_add(1);
        left = rest.get();
    }
    count
}

fn write_data(out: &mut Text, name: &Name, pats: &Pats) {
    out.word(text_of(name.as_slice()));
    out.glue("/");
    out.glue_number(u128::from(count_of(pats)));
}

/// Writes a pattern's head, and leaves its parts.
fn write_head<'a>(out: &mut Text, left: &mut Left<'a>, pat: &'a Pat) {
    match pat {
        Pat::Int => out.word("INT"),
        Pat::Bool => out.word("BOOL"),
        Pat::Param(i) => write_numbered(out, "?", u128::from(*i)),
        Pat::Unknown(u) => write_numbered(out, "u", *u),
        Pat::Pow(a) => {
            out.word("Set");
            left.push(Part::Pat(a.get()));
        }
        Pat::Prod(a, b) => {
            out.word("Pair");
            left.push(Part::Pat(b.get()));
            left.push(Part::Pat(a.get()));
        }
        Pat::Data(name, pats) => {
            write_data(out, name, pats);
            left.push(Part::Pats(pats));
        }
    }
}

fn write_part<'a>(out: &mut Text, left: &mut Left<'a>, part: Part<'a>) {
    match part {
        Part::Pat(pat) => write_head(out, left, pat),
        Part::Pats(pats) => {
            if let Pats::More(first, rest) = pats {
                left.push(Part::Pats(rest.get()));
                left.push(Part::Pat(first.get()));
            }
        }
    }
}

fn write_left<'a>(out: &mut Text, left: &mut Left<'a>) {
    for _ in 0..PART_LIMIT {
        match left.parts.pop() {
            Some(part) => write_part(out, left, part),
            None => return,
        }
    }
    out.word("..");
}

fn write_pattern(alloc: Global, out: &mut Text, pat: &Pat) {
    let mut left = Left {
        parts: Vec::new(alloc),
        is_cut: false,
    };
    left.push(Part::Pat(pat));
    write_left(out, &mut left);
    if left.is_cut {
        out.cut();
    }
}

fn write_bind(alloc: Global, out: &mut Text, bind: &Bind) {
    out.label("u");
    out.glue_number(bind.unknown);
    out.word("=");
    write_pattern(alloc, out, &bind.value);
}

/// The binds of a solution, each unknown before its pattern.
fn write_binds(alloc: Global, out: &mut Text, solution: &Solution) {
    if solution.is_empty() {
        out.word("no binds");
    }
    for bind in solution.as_slice() {
        write_bind(alloc, out, bind);
    }
}

fn write_solution(
    alloc: Global,
    out: &mut Text,
    case: &str,
    solution: &Solution,
) -> Result<(), Fault> {
    match case {
        "binds" => write_binds(alloc, out, solution),
        "count" => out.named("binds", solution.len() as u64),
        _ => return Err(Fault::NoCase),
    }
    Ok(())
}

fn solve(alloc: Global, out: &mut Text, case: &str, pairs: &PatPairs) -> Result<(), Fault> {
    match unify(alloc, pairs) {
        Ok(solution) => write_solution(alloc, out, case, &solution),
        Err(UnifyFault::Clash) => {
            out.word("clash");
            Ok(())
        }
        Err(UnifyFault::NoMemory) => Err(Fault::NoMemory),
    }
}

fn read_pairs(alloc: Global, fields: &[&str]) -> Result<PatPairs, Fault> {
    let mut pairs = PatPairs::new(alloc);
    for field in fields {
        push_pairs(alloc, &mut pairs, *field)?;
    }
    Ok(pairs)
}

/// The answer of a case of unification.
pub fn answer(alloc: Global, out: &mut Text, case: &str, fields: &[&str]) -> Result<(), Fault> {
    let pairs = read_pairs(alloc, fields)?;
    solve(alloc, out, case, &pairs)
}
