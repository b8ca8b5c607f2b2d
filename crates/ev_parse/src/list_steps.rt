//! What the frames of lists and of forms that collect values do with a formula that was found.
ghost use Rattle.std.specs.Prelude.{◌≡◌, ◌<◌, ◌≤◌, ◌+◌, ◌*◌, ◌-◌, ◌++◌, ℕ, List, Option, Some, length, drop, IfOk};
ghost use Rattle.ev_syntax.specs.Raw.{Raw as RawTree};
ghost use Rattle.ev_syntax.specs.inner.Finding.{Found};
ghost use Rattle.ev_syntax.specs.inner.Resuming.{Behind, Reach};
ghost use Rattle.ev_parse.specs.inner.Forms.{IsRaw};
ghost use Rattle.ev_syntax.specs.inner.Machines.{Falls, Resumes, weight_at};
ghost use Rattle.ev_parse.specs.inner.Frames.{meaning};

use crate::expression_reader::close;
use crate::raw_pieces::{args_with, call_piece, collected_piece, members_piece, members_with};
use crate::states::{FormulaStep, Frame, Goal, RawPiece, Source, State};
use ev_syntax::binders::Binders;
use ev_syntax::formulas::Raws;
use ev_syntax::machines::Step;
use ev_syntax::mark_names::{CLOSE_BRACE, CLOSE_PAREN, COMMA, OPEN_BRACE};
use ev_syntax::read_pieces::Piece;
use ev_terms::{Name, NoMemory};

/// After a name, `(` and some arguments.
pub(crate) fn after_args(
    source: &Source<'_>,
    name: Name,
    args: Piece<Raws>,
    k: u8,
    piece: RawPiece,
    at: usize,
) -> Result<FormulaStep, NoMemory>
    ensures holds { Resumes (meaning source.now.limit source.now.reader.now) (Frame.Args name args k) piece at result }
    ensures falls { Falls (meaning source.now.limit source.now.reader.now) (weight_at source.now.reader.now at 6) result }
{
    let args = args_with(source.alloc, source.limit, args, piece)?;
    if source.reader.is_mark(at, COMMA) {
        let inner = State::Call(Goal::Level(0), at + 1);
        return Ok(Step::Push(Frame::Args(name, args, k), inner));
    }
    let piece = call_piece(source.alloc, source.limit, name, args)?;
    close(source.reader, source.limit, piece, k, at, CLOSE_PAREN)
}

/// After `{` and some members.
pub(crate) fn after_members(
    source: &Source<'_>,
    members: Piece<Raws>,
    k: u8,
    piece: RawPiece,
    at: usize,
) -> Result<FormulaStep, NoMemory>
    ensures holds { Resumes (meaning source.now.limit source.now.reader.now) (Frame.Members members k) piece at result }
    ensures falls { Falls (meaning source.now.limit source.now.reader.now) (weight_at source.now.reader.now at 6) result }
{
    let members = members_with(source.alloc, source.limit, members, piece)?;
    if source.reader.is_mark(at, COMMA) {
        let inner = State::Call(Goal::Level(0), at + 1);
        return Ok(Step::Push(Frame::Members(members, k), inner));
    }
    let piece = members_piece(source.alloc, source.limit, members)?;
    close(source.reader, source.limit, piece, k, at, CLOSE_BRACE)
}

/// After `{xs . P |`, `UNION xs . P |` or `INTER xs . P |`.
pub(crate) fn after_collected(
    source: &Source<'_>,
    mark: u16,
    binders: Piece<Binders>,
    body: RawPiece,
    k: u8,
    piece: RawPiece,
    at: usize,
) -> Result<FormulaStep, NoMemory>
    ensures holds { Resumes (meaning source.now.limit source.now.reader.now) (Frame.Value mark binders body k) piece at result }
    ensures falls { Falls (meaning source.now.limit source.now.reader.now) (weight_at source.now.reader.now at 6) result }
{
    let piece = collected_piece(source.alloc, source.limit, mark, binders, body, piece)?;
    if mark == OPEN_BRACE {
        return close(source.reader, source.limit, piece, k, at, CLOSE_BRACE);
    }
    Ok(Step::Found(piece, at))
}
