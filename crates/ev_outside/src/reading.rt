ghost use Rattle.std.specs.Prelude.{◌≡◌, ◌<◌, ◌≤◌, ℕ, List, Option, length, take, vec_len, IfOk, IfErr, IfSome, OnErr, IsErrOf};
ghost use Rattle.std.specs.Io.KnownBytes.{Consumes, Keeps};
ghost use Rattle.ev_outside.specs.Ends.{ConsumesAll, ConsumesFront, EndsExactly, Rose};
ghost use Rattle.ev_outside.specs.Reading.{IsTaken};

use ev_terms::{Bytes, NoMemory};
use std::alloc::{AllocError, Global};
use thiserror::Error;

/// How many bytes are asked for at a time.
const PIECE: usize = 65536;

/// A read failed.
#[derive(Debug, Clone, Copy, PartialEq, Eq)]
pub struct Failed;

/// Why a source was not read to its end.
#[derive(Debug, Clone, Copy, PartialEq, Eq, Error)]
pub enum ReadFault {
    #[error("more bytes came than the limit")]
    TooLong,
    #[error("a read failed")]
    Failed,
    #[error("out of memory")]
    NoMemory,
}

impl From<Failed> for ReadFault {
    ghost use Rattle.std.specs.Prelude.{◌≡◌};
    ghost use Rattle.ev_outside.specs.declared.reading.ReadFault.TheVariants.{Failed as ReadFailed};

    ghost from_gives = { λ _ e. e ≡ ReadFailed };

    fn from(_failed: Failed) -> ReadFault {
        ReadFault::Failed
    }
}

impl From<AllocError> for ReadFault {
    ghost use Rattle.std.specs.Prelude.{◌≡◌};
    ghost use Rattle.ev_outside.specs.declared.reading.ReadFault.TheVariants.{NoMemory as OutOfMemory};

    ghost from_gives = { λ _ e. e ≡ OutOfMemory };

    fn from(_error: AllocError) -> ReadFault {
        ReadFault::NoMemory
    }
}

impl From<NoMemory> for ReadFault {
    ghost use Rattle.std.specs.Prelude.{◌≡◌};
    ghost use Rattle.ev_outside.specs.declared.reading.ReadFault.TheVariants.{NoMemory as OutOfMemory};

    ghost from_gives = { λ _ e. e ≡ OutOfMemory };

    fn from(_error: NoMemory) -> ReadFault {
        ReadFault::NoMemory
    }
}

/// What bytes are read from, in pieces.
pub trait Source {
    /// The bytes that are left to read, where the source tells them.
    ghost left: { Self → Option (List ℕ) };

    /// How many reads have failed. A count that is kept in 64 bits stands still at their end.
    ghost faults: { Self → ℕ };

    /// Takes bytes from what is left to the front of the buffer, and answers how many. None are taken at the end, and only there. What
    /// stands behind them in the buffer is not said. A read that fails takes nothing.
    fn read(&mut self, buf: &mut [u8]) -> Result<usize, Failed>
        requires { 0 < length buf.old }
        ensures within { IfOk result (λ n. n ≤ length buf.new) }
        ensures taken { IfOk result (λ n. Consumes (left self.old) (left self.new) (take n buf.new)) }
        ensures end { IfOk result (λ n. EndsExactly (left self.old) n) }
        ensures kept { OnErr result (Keeps (left self.old) (left self.new)) }
        ensures failed { OnErr result (Rose (faults self.old) (faults self.new)) }
        ensures count { faults self.old ≤ faults self.new };
}

/// Reads a source to its end, where at most `limit` bytes come. It reads on only while at most `limit` bytes have come, so a source that
/// goes on without end is left after one read past the limit. Memory is for the bytes that are kept: no source refuses it.
pub fn read_all<S: Source>(alloc: Global, source: &mut S, limit: u64) -> Result<Bytes, ReadFault>
    ensures all { IfOk result (λ bytes. ConsumesAll (S.left source.old) (S.left source.new) bytes) }
    ensures within { IfOk result (λ bytes. length bytes ≤ limit) }
    ensures too_long { IsErrOf result ReadFault.TooLong → IfSome (S.left source.old) (λ left. limit < length left) }
    ensures failed { IsErrOf result ReadFault.Failed → Rose (S.faults source.old) (S.faults source.new) }
    ensures count { S.faults source.old ≤ S.faults source.new }
    ensures taken { IfErr result (λ e. ConsumesFront (S.left source.old) (S.left source.new) (IsTaken e limit)) }
{
    let mut buf = zeros(alloc, PIECE)?;
    let mut bytes = Vec::new(alloc);
    loop {
        let n = source.read(&mut buf)?;
        if n == 0 {
            return Ok(Bytes::from_vec(bytes));
        }
        if n as u64 > limit - bytes.len() as u64 {
            return Err(ReadFault::TooLong);
        }
        bytes.extend_from_slice(&buf[..n])?;
    }
}

/// So many bytes, each 0.
fn zeros(alloc: Global, len: usize) -> Result<Vec<u8>, AllocError>
    ensures { IfOk result (λ bytes. vec_len bytes ≡ len) }
{
    vec![in alloc; 0u8; len]
}
