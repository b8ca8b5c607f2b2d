ghost use Rattle.std.specs.Prelude.{◌≡◌, ◌<◌, ◌≤◌, [], ℕ, List, Option, length, take, IfOk, OnOk, OnErr, IsErrOf};
ghost use Rattle.std.specs.Io.KnownBytes.{Appends, Keeps};
ghost use Rattle.ev_outside.specs.Ends.{AppendsFront, Rose};

use ev_terms::NoMemory;
use std::alloc::AllocError;

/// Why a write was refused.
#[derive(Debug, Clone, Copy, PartialEq, Eq)]
pub enum SinkStop {
    Failed,
    NoMemory,
}

impl From<AllocError> for SinkStop {
    ghost use Rattle.std.specs.Prelude.{◌≡◌};
    ghost use Rattle.ev_outside.specs.declared.writing.SinkStop.TheVariants.{NoMemory as OutOfMemory};

    ghost from_gives = { λ _ e. e ≡ OutOfMemory };

    fn from(_error: AllocError) -> SinkStop {
        SinkStop::NoMemory
    }
}

impl From<NoMemory> for SinkStop {
    ghost use Rattle.std.specs.Prelude.{◌≡◌};
    ghost use Rattle.ev_outside.specs.declared.writing.SinkStop.TheVariants.{NoMemory as OutOfMemory};

    ghost from_gives = { λ _ e. e ≡ OutOfMemory };

    fn from(_error: NoMemory) -> SinkStop {
        SinkStop::NoMemory
    }
}

/// What bytes are written to, in pieces.
pub trait Sink {
    /// The bytes that were written, where the sink tells them.
    ghost written: { Self → Option (List ℕ) };

    /// How many writes have failed. A count that is kept in 64 bits stands still at their end.
    ghost faults: { Self → ℕ };

    /// How many writes were refused for want of memory. A count that is kept in 64 bits stands still at their end.
    ghost shortages: { Self → ℕ };

    /// Appends a front of the piece, and answers its length, which is 0 only for an empty piece. A write that is refused appends
    /// nothing.
    fn write(&mut self, piece: &[u8]) -> Result<usize, SinkStop>
        ensures within { IfOk result (λ n. n ≤ length piece.now) }
        ensures some { IfOk result (λ n. n ≡ 0 → piece.now ≡ []) }
        ensures appended { IfOk result (λ n. Appends (written self.old) (written self.new) (take n piece.now)) }
        ensures kept { OnErr result (Keeps (written self.old) (written self.new)) }
        ensures failed { IsErrOf result SinkStop.Failed → Rose (faults self.old) (faults self.new) }
        ensures short { IsErrOf result SinkStop.NoMemory → Rose (shortages self.old) (shortages self.new) }
        ensures count { faults self.old ≤ faults self.new }
        ensures short_count { shortages self.old ≤ shortages self.new };
}

/// Writes all of the bytes. Where a write is refused, so is this, and a front of the bytes was written. It takes no memory of its own,
/// so want of memory has its cause in a write.
#[tactic(auto, using(crate::proofs::Pieces::appends_next))]
pub fn write_all<K: Sink>(sink: &mut K, bytes: &[u8]) -> Result<(), SinkStop>
    ensures all { OnOk result (Appends (K.written sink.old) (K.written sink.new) bytes.now) }
    ensures front { OnErr result (AppendsFront (K.written sink.old) (K.written sink.new) bytes.now) }
    ensures failed { IsErrOf result SinkStop.Failed → Rose (K.faults sink.old) (K.faults sink.new) }
    ensures short { IsErrOf result SinkStop.NoMemory → Rose (K.shortages sink.old) (K.shortages sink.new) }
    ensures count { K.faults sink.old ≤ K.faults sink.new }
    ensures short_count { K.shortages sink.old ≤ K.shortages sink.new }
{
    let mut at = 0;
    while at < bytes.len() {
        let n = sink.write(&bytes[at..])?;
        at += n;
    }
    Ok(())
}
