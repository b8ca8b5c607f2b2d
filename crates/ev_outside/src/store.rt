ghost use Rattle.std.specs.Prelude.{◌≡◌, ◌≤◌, ◌++◌, [], if◌then◌else◌, is_ok, IfErr, OnErr, OnOk};
ghost use Rattle.ev_outside.specs.Ends.{counted};

use crate::writing::SinkStop;
use std::alloc::Global;

/// Bytes that are kept, and how many more were refused for want of memory. The count stands still at its type's end.
#[derive(Debug, Drop)]
pub struct Store {
    pub bytes: Vec<u8>,
    pub shortages: u64,
}

impl Store {
    /// No bytes yet.
    pub fn new(alloc: Global) -> Store
        ensures bytes { result.bytes.items ≡ [] }
        ensures shortages { result.shortages ≡ 0 }
    {
        Store {
            bytes: Vec::new(alloc),
            shortages: 0,
        }
    }

    /// Keeps the piece too.
    pub fn append(&mut self, piece: &[u8]) -> Result<(), SinkStop>
        ensures appended { OnOk result (self.new.bytes.items ≡ self.old.bytes.items ++ piece.now) }
        ensures kept { OnErr result (self.new.bytes.items ≡ self.old.bytes.items) }
        ensures stop { IfErr result (λ e. e ≡ SinkStop.NoMemory) }
        ensures counted { self.new.shortages ≡ (if is_ok result then self.old.shortages else counted self.old.shortages) }
        ensures count { self.old.shortages ≤ self.new.shortages }
    {
        match self.bytes.extend_from_slice(piece) {
            Ok(()) => Ok(()),
            Err(_) => {
                self.shortages = self.shortages.saturating_add(1);
                Err(SinkStop::NoMemory)
            }
        }
    }
}
