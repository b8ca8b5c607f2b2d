//! Reading of proofs.
ghost use Rattle.std.specs.Prelude.{◌≡◌, ◌<◌, ◌^◌, length, None, IfOk, if◌then◌else◌};
ghost use Rattle.std.specs.List.{All};
ghost use Rattle.ev_syntax.specs.Chars.{are_blanks};
ghost use Rattle.ev_syntax.specs.Tokens.{tokens_of};
ghost use Rattle.ev_syntax.specs.Views.{LiesIn, all_seen_in};
ghost use Rattle.ev_proof.specs.Lines.{IsStepLine, AreSteps};
ghost use Rattle.ev_proof.specs.inner.StepAnswers.{StepOf};

use crate::step_reader::read_step;
use crate::steps::{Step, StepLines};
use bstr::ByteSlice;
use ev_parse::blanks::are_blanks;
use ev_parse::cursor::Cursor;
use ev_syntax::{LexFault, Reader, Tokens, lex};
use ev_terms::NoMemory;
use std::alloc::Global;

/// What an answer is, by whether it took all the tokens.
fn whole_step(is_at_end: bool, step: Option<Step>) -> Option<Step>
    ensures { result ≡ (if is_at_end then step else None) }
{
    if is_at_end { step } else { None }
}

/// The step that the tokens are, if they are one.
fn step_of(alloc: Global, reader: &Reader<'_>) -> Result<Option<Step>, NoMemory>
    ensures { IfOk result (StepOf reader.now) }
{
    let mut cursor = Cursor::new(alloc, reader)?;
    let step = read_step(&mut cursor, alloc)?;
    Ok(whole_step(cursor.is_at_end(), step))
}

fn step_in(alloc: Global, line: &[u8], tokens: &Tokens) -> Result<Option<Step>, NoMemory>
    requires { All (LiesIn line.now) tokens.now }
    ensures { IfOk result (StepOf (tokens_of (all_seen_in line.now tokens.now))) }
{
    let reader = Reader::new(line, tokens.as_slice());
    step_of(alloc, &reader)
}

/// The step that a line is, if it is one.
fn read_line(alloc: Global, line: &[u8]) -> Result<Option<Step>, NoMemory>
    requires { length line.now < 2 ^ 32 }
    ensures { IfOk result (IsStepLine line.now) }
{
    match lex(alloc, line) {
        Ok(tokens) => step_in(alloc, line, &tokens),
        Err(LexFault::NoMemory) => Err(NoMemory),
        Err(LexFault::BadText) => Ok(None),
        Err(LexFault::NumberTooLarge) => Ok(None),
    }
}

/// The steps of a proof: one entry for each of its lines that is not blank. Linear in the text.
pub fn read_steps(alloc: Global, body: &[u8]) -> Result<StepLines, NoMemory>
    requires { length body.now < 2 ^ 32 }
    ensures { IfOk result (AreSteps body.now) }
{
    let mut steps = StepLines::new(alloc);
    for line in body.lines_with_terminator() {
        if !are_blanks(line) {
            let step = read_line(alloc, line)?;
            steps.push(alloc, step)?;
        }
    }
    Ok(steps)
}
