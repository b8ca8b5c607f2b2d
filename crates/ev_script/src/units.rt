//! The units of a script.
ghost use Rattle.std.specs.Prelude.{◌≡◌, ◌≢◌, ◌↔◌, ◌<◌, ◌≤◌, ℕ, List, length, IfOk, IfSome, IsOkUnless, option_map};
ghost use Rattle.bstr.specs.Text.{lines_of};
ghost use Rattle.ev_script.specs.declared.events.Event.{Event};
ghost use Rattle.ev_script.specs.Scripts.{IsScript, IsBadAt, unit_of, unit_with};
ghost use Rattle.ev_script.specs.Laws.{AtMostOneScript, BadIsNoScript};
ghost use Rattle.ev_script.specs.inner.Spans.{head_told, unit_at};

use crate::bodies::{BodySpan, read_body};
use crate::events::{Event, Events};
use crate::faults::ScriptFault;
use crate::heads::{Head, read_head};
use crate::lines::{blanks_end, line_length};
use ev_terms::NoMemory;
use std::alloc::Global;

/// A unit's event, and how many bytes the unit takes.
#[derive(Drop)]
pub struct UnitSpan {
    pub event: Event,
    pub length: usize,
}

/// The unit of a head and the text after it, or none. Its length is counted from that text on.
fn unit_with(alloc: Global, head: Head, text: &[u8]) -> Result<Option<UnitSpan>, NoMemory>
    ensures unit { IfOk result (λ unit. option_map (unit_at text.now) unit ≡ unit_with (lines_of text.now) (head_told head)) }
    ensures within { IfOk result (λ unit. IfSome unit (λ u. u.length ≤ length text.now)) }
{
    match head {
        Head::Whole(event) => Ok(Some(UnitSpan { event, length: 0 })),
        Head::Put(name) => {
            let Some(body) = read_body(alloc, text)? else {
                return Ok(None);
            };
            let BodySpan { bytes, length } = body;
            Ok(Some(UnitSpan {
                event: Event::Put(name, bytes),
                length,
            }))
        }
        Head::Proof(name) => {
            let Some(body) = read_body(alloc, text)? else {
                return Ok(None);
            };
            let BodySpan { bytes, length } = body;
            Ok(Some(UnitSpan {
                event: Event::Proof(name, bytes),
                length,
            }))
        }
    }
}

/// The unit with which a text begins, or none.
fn read_unit(alloc: Global, text: &[u8]) -> Result<Option<UnitSpan>, NoMemory>
    requires { 0 < length text.now }
    ensures unit { IfOk result (λ unit. option_map (unit_at text.now) unit ≡ unit_of text.now) }
    ensures some { IfOk result (λ unit. IfSome unit (λ u. 0 < u.length)) }
    ensures within { IfOk result (λ unit. IfSome unit (λ u. u.length ≤ length text.now)) }
{
    let first = line_length(text);
    let Some(head) = read_head(alloc, &text[..first])? else {
        return Ok(None);
    };
    let Some(unit) = unit_with(alloc, head, &text[first..])? else {
        return Ok(None);
    };
    let UnitSpan { event, length } = unit;
    Ok(Some(UnitSpan {
        event,
        length: first + length,
    }))
}

/// The events of a script, in order. `BadScript` where the bytes are none, with the offset of the first byte, that is no blank, of the
/// first unit that is none.
pub fn read_script(alloc: Global, bytes: &[u8]) -> Result<Events, ScriptFault>
    ensures ok { IfOk result (IsScript bytes.now) }
    ensures succeeds { (events : List Event) → IsScript bytes.now events → IsOkUnless result ScriptFault.NoMemory }
    ensures bad { (offset : ℕ) → result ≢ Err ScriptFault.NoMemory → ((result ≡ Err (ScriptFault.BadScript offset)) ↔ IsBadAt bytes.now offset) }
{
    let mut events = Events::new(alloc);
    let mut at = blanks_end(bytes, 0);
    'units: while at < bytes.len() {
        let Some(unit) = read_unit(alloc, &bytes[at..])? else {
            return Err(ScriptFault::BadScript(at as u64));
        };
        let UnitSpan { event, length } = unit;
        events.push(alloc, event)?;
        at = blanks_end(bytes, at + length);
    }
    Ok(events)
}

/// Bytes are one script at most, and where a first unit is none, they are no script, and no other one is the first.
pub fn script_laws()
    ensures one { AtMostOneScript }
    ensures bad { BadIsNoScript }
{}
