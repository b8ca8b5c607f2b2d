ghost use Rattle.std.specs.Prelude.{◌≡◌, ◌≤◌, ◌<◌, ◌↔◌, ◌++◌, [], length, min, take, vec_len, IfOk, IfErr, OnOk, OnErr, IsErr, IsErrOf, IsTrue};
ghost use Rattle.ev_outside.specs.Ends.{Rose};

use crate::numbered::{Calls, copy_piece};
use crate::reading::{Failed, Source};
use crate::store::Store;
use crate::writing::{Sink, SinkStop};
use std::alloc::Global;

/// Bytes in memory, read as many as there is room for. Its reads never fail.
#[derive(Debug, Drop)]
pub struct SureSource {
    bytes: Vec<u8>,
    at: usize,
    ghost within: { at ≤ vec_len bytes },
}

impl SureSource {
    ghost use Rattle.ev_outside.specs.inner.Memory.{sure_left};

    pub fn new(bytes: Vec<u8>) -> SureSource
        ensures { sure_left result ≡ bytes.items }
    {
        SureSource { bytes, at: 0 }
    }
}

impl Source for SureSource {
    ghost use Rattle.std.specs.Prelude.{Some};
    ghost use Rattle.ev_outside.specs.inner.Memory.{sure_left};

    ghost left = { λ s. Some (sure_left s) };

    ghost faults = { λ _. 0 };

    #[tactic(auto, using(crate::proofs::Pieces::piece_taken))]
    fn read(&mut self, buf: &mut [u8]) -> Result<usize, Failed>
        requires { 0 < length buf.old }
        ensures all { result ≡ Ok (min (length (sure_left self.old)) (length buf.old)) }
        ensures within { IfOk result (λ n. n ≤ length buf.new) }
        ensures taken { IfOk result (λ n. sure_left self.old ≡ take n buf.new ++ sure_left self.new) }
    {
        let count = copy_piece(&self.bytes, self.at, buf.len(), buf);
        self.at += count;
        Ok(count)
    }
}

/// Memory that takes each piece whole. Its writes never fail, but memory may run out.
#[derive(Debug, Drop)]
pub struct SureSink {
    store: Store,
}

impl SureSink {
    ghost use Rattle.ev_outside.specs.inner.Memory.{sure_written};

    pub fn new(alloc: Global) -> SureSink
        ensures written { sure_written result ≡ [] }
        ensures shortages { result.store.shortages ≡ 0 }
    {
        SureSink {
            store: Store::new(alloc),
        }
    }

    /// What was written.
    pub fn bytes(&self) -> &[u8]
        ensures { result.now ≡ sure_written self.now }
    {
        self.store.bytes.as_slice()
    }
}

impl Sink for SureSink {
    ghost use Rattle.std.specs.Prelude.{Some};
    ghost use Rattle.ev_outside.specs.inner.Memory.{sure_written};

    ghost written = { λ s. Some (sure_written s) };

    ghost faults = { λ _. 0 };

    ghost shortages = { λ s. s.store.shortages };

    fn write(&mut self, piece: &[u8]) -> Result<usize, SinkStop>
        ensures whole { IfOk result (λ n. n ≡ length piece.now) }
        ensures stop { IfErr result (λ e. e ≡ SinkStop.NoMemory) }
        ensures appended { OnOk result (sure_written self.new ≡ sure_written self.old ++ piece.now) }
        ensures kept { OnErr result (sure_written self.new ≡ sure_written self.old) }
        ensures short { OnErr result (Rose self.old.store.shortages self.new.store.shortages) }
        ensures short_count { self.old.store.shortages ≤ self.new.store.shortages }
    {
        self.store.append(piece)?;
        Ok(piece.len())
    }
}

/// Bytes in memory, read in pieces of at most so many. Its reads are numbered from 1, and those whose number stands in a list fail.
#[derive(Debug, Drop)]
pub struct MemSource {
    bytes: Vec<u8>,
    at: usize,
    piece: usize,
    calls: Calls,
    ghost within: { at ≤ vec_len bytes },
    ghost some: { 0 < piece },
}

impl MemSource {
    ghost use Rattle.ev_outside.specs.inner.Memory.{source_left};

    /// At most `piece` bytes come per read, and the reads with the numbers `failing` fail.
    pub fn new(bytes: Vec<u8>, piece: usize, failing: Vec<u64>) -> MemSource
        requires { 0 < piece }
        ensures left { source_left result ≡ bytes.items }
        ensures piece { result.piece ≡ piece }
        ensures calls { result.calls ≡ record { failing = failing; made = 0; faults = 0 } }
    {
        MemSource {
            bytes,
            at: 0,
            piece,
            calls: Calls::new(failing),
        }
    }
}

impl Source for MemSource {
    ghost use Rattle.std.specs.Prelude.{Some};
    ghost use Rattle.ev_outside.specs.inner.Calls.{after_call, next_fails};
    ghost use Rattle.ev_outside.specs.inner.Memory.{source_left};

    ghost left = { λ s. Some (source_left s) };

    ghost faults = { λ s. s.calls.faults };

    #[tactic(auto, using(crate::proofs::Pieces::piece_taken))]
    fn read(&mut self, buf: &mut [u8]) -> Result<usize, Failed>
        requires { 0 < length buf.old }
        ensures fails { IsErr result ↔ IsTrue (next_fails self.old.calls) }
        ensures calls { self.new.calls ≡ after_call self.old.calls }
        ensures failed { OnErr result (Rose self.old.calls.faults self.new.calls.faults) }
        ensures count { self.old.calls.faults ≤ self.new.calls.faults }
        ensures piece { IfOk result (λ n.
            n ≡ min self.old.piece (min (length (source_left self.old)) (length buf.old))) }
        ensures within { IfOk result (λ n. n ≤ length buf.new) }
        ensures taken { IfOk result (λ n.
            source_left self.old ≡ take n buf.new ++ source_left self.new) }
        ensures kept { OnErr result (source_left self.new ≡ source_left self.old) }
        ensures same { self.new.piece ≡ self.old.piece }
    {
        if self.calls.next() {
            return Err(Failed);
        }
        let n = copy_piece(&self.bytes, self.at, self.piece, buf);
        self.at += n;
        Ok(n)
    }
}

/// Memory that takes at most so many bytes of a piece. Its writes are numbered from 1, and those whose number stands in a list fail.
#[derive(Debug, Drop)]
pub struct MemSink {
    store: Store,
    piece: usize,
    calls: Calls,
    ghost some: { 0 < piece },
}

impl MemSink {
    ghost use Rattle.ev_outside.specs.inner.Memory.{sink_written};

    /// At most `piece` bytes are taken per write, and the writes with the numbers `failing` fail.
    pub fn new(alloc: Global, piece: usize, failing: Vec<u64>) -> MemSink
        requires { 0 < piece }
        ensures written { sink_written result ≡ [] }
        ensures shortages { result.store.shortages ≡ 0 }
        ensures piece { result.piece ≡ piece }
        ensures calls { result.calls ≡ record { failing = failing; made = 0; faults = 0 } }
    {
        MemSink {
            store: Store::new(alloc),
            piece,
            calls: Calls::new(failing),
        }
    }

    /// What was written.
    pub fn bytes(&self) -> &[u8]
        ensures { result.now ≡ sink_written self.now }
    {
        self.store.bytes.as_slice()
    }
}

impl Sink for MemSink {
    ghost use Rattle.std.specs.Prelude.{Some};
    ghost use Rattle.ev_outside.specs.inner.Calls.{after_call, next_fails};
    ghost use Rattle.ev_outside.specs.inner.Memory.{sink_written};

    ghost written = { λ s. Some (sink_written s) };

    ghost faults = { λ s. s.calls.faults };

    ghost shortages = { λ s. s.store.shortages };

    fn write(&mut self, piece: &[u8]) -> Result<usize, SinkStop>
        ensures fails { IsErrOf result SinkStop.Failed ↔ IsTrue (next_fails self.old.calls) }
        ensures calls { self.new.calls ≡ after_call self.old.calls }
        ensures failed { IsErrOf result SinkStop.Failed →
            Rose self.old.calls.faults self.new.calls.faults }
        ensures short { IsErrOf result SinkStop.NoMemory →
            Rose self.old.store.shortages self.new.store.shortages }
        ensures count { self.old.calls.faults ≤ self.new.calls.faults }
        ensures short_count { self.old.store.shortages ≤ self.new.store.shortages }
        ensures piece { IfOk result (λ n. n ≡ min self.old.piece (length piece.now)) }
        ensures appended { IfOk result (λ n.
            sink_written self.new ≡ sink_written self.old ++ take n piece.now) }
        ensures kept { OnErr result (sink_written self.new ≡ sink_written self.old) }
        ensures same { self.new.piece ≡ self.old.piece }
    {
        if self.calls.next() {
            return Err(SinkStop::Failed);
        }
        let n = self.piece.min(piece.len());
        self.store.append(&piece[..n])?;
        Ok(n)
    }
}
