//! Events as texts.
use ev_script::{Event, Events, ScriptFault, SeqName};
use ev_terms::{Bytes, Name, NoMemory, ObKind};
use std::alloc::Global;

pub fn put(text: &mut String, more: &str) -> Result<(), NoMemory> {
    text.push_str(more)?;
    Ok(())
}

pub fn put_number(text: &mut String, alloc: Global, number: u64) -> Result<(), NoMemory> {
    let digits = number.to_string(alloc)?;
    put(text, digits.as_str())
}

fn put_byte(text: &mut String, alloc: Global, byte: u8) -> Result<(), NoMemory> {
    if byte == b'\n' {
        return put(text, "\\n");
    }
    if byte < b' ' || byte > b'~' {
        let shown = format!(in alloc; "\\x{byte:02x}")?;
        return put(text, shown.as_str());
    }
    Ok(text.push(char::from(byte))?)
}

/// Bytes, with escapes for those that a line cannot show.
fn put_bytes(text: &mut String, alloc: Global, bytes: &[u8]) -> Result<(), NoMemory> {
    for byte in bytes {
        put_byte(text, alloc, *byte)?;
    }
    Ok(())
}

fn put_kind(text: &mut String, alloc: Global, kind: ObKind) -> Result<(), NoMemory> {
    match kind {
        ObKind::Thm => put(text, "THM"),
        ObKind::Wd => put(text, "WD"),
        ObKind::WdOf(n) => {
            put(text, "WD ")?;
            put_number(text, alloc, u64::from(n))
        }
        ObKind::Sound => put(text, "SOUND"),
        ObKind::SoundOf(n) => {
            put(text, "SOUND ")?;
            put_number(text, alloc, u64::from(n))
        }
        ObKind::Complete => put(text, "COMPLETE"),
    }
}

/// A sequent's name: the theory, the label, the kind.
pub fn put_sequent(text: &mut String, alloc: Global, name: &SeqName) -> Result<(), NoMemory> {
    put_bytes(text, alloc, name.theory.as_slice())?;
    put(text, " ")?;
    put_bytes(text, alloc, name.label.as_slice())?;
    put(text, " ")?;
    put_kind(text, alloc, name.kind)
}

fn put_theory(text: &mut String, alloc: Global, word: &str, name: &Name) -> Result<(), NoMemory> {
    put(text, word)?;
    put_bytes(text, alloc, name.as_slice())
}

fn put_body(text: &mut String, alloc: Global, body: &Bytes) -> Result<(), NoMemory> {
    put(text, " [")?;
    put_bytes(text, alloc, body.as_slice())?;
    put(text, "]")
}

fn put_event(text: &mut String, alloc: Global, event: &Event) -> Result<(), NoMemory> {
    match event {
        Event::Put(name, body) => {
            put_theory(text, alloc, "put ", name)?;
            put_body(text, alloc, body)
        }
        Event::Remove(name) => put_theory(text, alloc, "remove ", name),
        Event::Proof(name, body) => {
            put(text, "proof ")?;
            put_sequent(text, alloc, name)?;
            put_body(text, alloc, body)
        }
        Event::Deploy(name) => put_theory(text, alloc, "deploy ", name),
        Event::Withdraw(name) => put_theory(text, alloc, "withdraw ", name),
        Event::Status => put(text, "status"),
        Event::Show(name) => {
            put(text, "show ")?;
            put_sequent(text, alloc, name)
        }
    }
}

/// Events, each behind a `|`.
pub fn put_events(text: &mut String, alloc: Global, events: &Events) -> Result<(), NoMemory> {
    for event in events.as_slice() {
        put(text, "|")?;
        put_event(text, alloc, event)?;
    }
    Ok(())
}

pub fn put_fault(text: &mut String, alloc: Global, fault: ScriptFault) -> Result<(), NoMemory> {
    match fault {
        ScriptFault::BadScript(offset) => {
            put(text, "bad ")?;
            put_number(text, alloc, offset)
        }
        ScriptFault::NoMemory => Err(NoMemory),
    }
}
