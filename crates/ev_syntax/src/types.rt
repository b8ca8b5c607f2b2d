//! Types of a text.
ghost use Rattle.std.specs.Prelude.{◌≡◌, ◌≢◌, ◌↔◌, ◌≤◌, ◌<◌, [], true, Some, Err, IfOk};
ghost use Rattle.std.specs.List.{All};
ghost use Rattle.ev_syntax.specs.Views.{LiesIn, all_seen_in};
ghost use Rattle.ev_syntax.specs.Tokens.{tokens_of};
ghost use Rattle.ev_syntax.specs.Raw.{RawType as WrittenType, type_nesting};
ghost use Rattle.ev_syntax.specs.Grammar.{ReadsType};
ghost use Rattle.ev_syntax.specs.inner.TypeFrames.{TypeAnswer};
ghost use Rattle.ev_syntax.specs.Answers.{IsTypeResult};

use crate::Tokens;
use crate::parse_faults::ParseFault;
use crate::read_pieces::Piece;
use crate::reader::Reader;
use crate::type_reader::read_type;
use crate::written::RawType;
use std::alloc::Global;

/// The type that was found, if no token is left behind it.
fn whole_type(
    reader: &Reader<'_>,
    limit: u32,
    piece: Piece<RawType>,
    at: usize,
) -> Result<RawType, ParseFault>
    requires { TypeAnswer limit reader.now 0 (Some (piece, at)) }
    ensures { IsTypeResult reader.now limit result }
{
    if at < reader.len() {
        return Err(ParseFault::Syntax);
    }
    match piece {
        Piece::Whole(a, _) => Ok(a),
        Piece::Deep => Err(ParseFault::TooDeep),
    }
}

fn all_type(reader: &Reader<'_>, alloc: Global, limit: u32) -> Result<RawType, ParseFault>
    ensures { IsTypeResult reader.now limit result }
{
    match read_type(reader, alloc, limit, 0)? {
        Some((piece, at)) => whole_type(reader, limit, piece, at),
        None => Err(ParseFault::Syntax),
    }
}

/// The type that all the tokens are. `Syntax` where they are none, `TooDeep` where it nests deeper than the limit.
pub fn parse_type(
    alloc: Global,
    text: &[u8],
    tokens: &Tokens,
    limit: u32,
) -> Result<RawType, ParseFault>
    requires { All (LiesIn text.now) tokens.now }
    ensures ok { IfOk result (λ a. ReadsType a true (tokens_of (all_seen_in text.now tokens.now)) [] × (type_nesting a ≤ limit)) }
    ensures syntax { result ≢ Err ParseFault.NoMemory → (result ≡ Err ParseFault.Syntax) ↔ ((a : WrittenType) → ReadsType a true (tokens_of (all_seen_in text.now tokens.now)) [] → ⊥) }
    ensures too_deep { result ≢ Err ParseFault.NoMemory → (result ≡ Err ParseFault.TooDeep) ↔ ((a : WrittenType) × ReadsType a true (tokens_of (all_seen_in text.now tokens.now)) [] × (limit < type_nesting a)) }
{
    let reader = Reader::new(text, tokens.as_slice());
    all_type(&reader, alloc, limit)
}
