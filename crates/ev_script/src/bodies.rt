//! The bodies of units.
ghost use Rattle.std.specs.Prelude.{◌≡◌, ◌≤◌, take, drop, length, IfOk, IfSome, option_map};
ghost use Rattle.bstr.specs.Text.{lines_of};
ghost use Rattle.ev_script.specs.Scripts.{Body, body_of};
ghost use Rattle.ev_script.specs.inner.Spans.{body_at, body_between};

use crate::lines::{is_end, line_length};
use ev_terms::{Bytes, NoMemory};
use std::alloc::Global;

/// A body, and how many bytes it takes with the line that closes it.
#[derive(Drop)]
pub struct BodySpan {
    pub bytes: Bytes,
    pub length: usize,
}

/// Where the line stands that closes a body: from `start` up to `end`.
#[derive(Clone, Copy)]
struct Closing {
    start: usize,
    end: usize,
}

/// The first line that closes a body, or none.
fn find_closing(text: &[u8]) -> Option<Closing>
    ensures body { option_map (body_between text.now) result ≡ body_of (lines_of text.now) }
    ensures ordered { IfSome result (λ closing. closing.start ≤ closing.end) }
    ensures within { IfSome result (λ closing. closing.end ≤ length text.now) }
{
    let mut at = 0;
    'lines: while at < text.len() {
        let rest = &text[at..];
        let length = line_length(rest);
        if is_end(&rest[..length]) {
            return Some(Closing {
                start: at,
                end: at + length,
            });
        }
        at += length;
    }
    None
}

/// The body with which a text begins, or none where no line closes it.
pub fn read_body(alloc: Global, text: &[u8]) -> Result<Option<BodySpan>, NoMemory>
    ensures body { IfOk result (λ body. option_map (body_at text.now) body ≡ body_of (lines_of text.now)) }
    ensures within { IfOk result (λ body. IfSome body (λ b. b.length ≤ length text.now)) }
{
    let Some(closing) = find_closing(text) else {
        return Ok(None);
    };
    let bytes = Bytes::from_vec(text[..closing.start].to_vec(alloc)?);
    Ok(Some(BodySpan {
        bytes,
        length: closing.end,
    }))
}
