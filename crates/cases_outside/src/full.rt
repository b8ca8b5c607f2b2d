ghost use Rattle.std.specs.Prelude.{◌≡◌, ◌≤◌, IfErr, IsErr, OnErr, is_ok};
ghost use Rattle.ev_outside.specs.Ends.{Rose};

use ev_outside::{Sink, SinkStop};

/// A sink that has no memory for anything.
#[derive(Drop)]
pub struct FullSink {
    shortages: u64,
}

impl FullSink {
    pub fn new() -> FullSink {
        FullSink { shortages: 0 }
    }
}

impl Sink for FullSink {
    ghost use Rattle.std.specs.Prelude.{Some, []};

    ghost written = { λ _. Some [] };

    ghost faults = { λ _. 0 };

    ghost shortages = { λ s. s.shortages };

    fn write(&mut self, _piece: &[u8]) -> Result<usize, SinkStop>
        ensures stop { result ≡ Err SinkStop.NoMemory }
        ensures short { Rose self.old.shortages self.new.shortages }
        ensures short_count { self.old.shortages ≤ self.new.shortages }
    {
        self.shortages = self.shortages.saturating_add(1);
        Err(SinkStop::NoMemory)
    }
}
