//! Cases of reading and writing: bytes in memory where a call fails or too many come, and a sink that has no memory. A line says what
//! is done, and what comes of it.
#![tactic(auto)]

mod full;

use ev_outside::{MemSink, MemSource, Sink, Source, SureSink, SureSource, read_all, write_all};
use full::FullSink;
use std::alloc::{AllocError, Global};
use std::io;

/// The bytes that a source gives.
fn given(alloc: Global) -> Result<Vec<u8>, AllocError> {
    b"abcde".to_vec(alloc)
}

/// Tells what a source gives, of which at most so many bytes may come.
fn tell_read<S: Source>(
    rt: &impl Print,
    alloc: Global,
    case: &str,
    source: &mut S,
    limit: u64,
) -> io::Result<()> {
    match read_all(alloc, source, limit) {
        Ok(bytes) => println!(rt; "{case}: {:?}", bytes.as_slice()),
        Err(fault) => println!(rt; "{case}: {fault}"),
    }
}

/// Tells how five bytes are written.
fn tell_write<K: Sink>(rt: &impl Print, case: &str, sink: &mut K) -> io::Result<()> {
    match write_all(sink, b"vwxyz") {
        Ok(()) => println!(rt; "{case}: all"),
        Err(stop) => println!(rt; "{case}: {stop:?}"),
    }
}

fn tell_written(rt: &impl Print, bytes: &[u8]) -> io::Result<()> {
    println!(rt; "written: {bytes:?}")
}

fn tell_sources(rt: &impl Print, alloc: Global) -> io::Result<()> {
    let mut source = SureSource::new(given(alloc)?);
    tell_read(rt, alloc, "five bytes, limit 5", &mut source, 5)?;
    let mut source = MemSource::new(given(alloc)?, 2, Vec::new(alloc));
    tell_read(rt, alloc, "five bytes, limit 4", &mut source, 4)?;
    let mut source = MemSource::new(given(alloc)?, 2, vec![in alloc; 2]?);
    tell_read(rt, alloc, "the second read fails", &mut source, 5)?;
    tell_read(rt, alloc, "and the next ones do not", &mut source, 5)
}

fn tell_sinks(rt: &impl Print, alloc: Global) -> io::Result<()> {
    let mut sink = SureSink::new(alloc);
    tell_write(rt, "a sink that takes all", &mut sink)?;
    tell_written(rt, sink.bytes())?;
    let mut sink = MemSink::new(alloc, 2, vec![in alloc; 3]?);
    tell_write(rt, "the third write fails", &mut sink)?;
    tell_written(rt, sink.bytes())?;
    tell_write(rt, "and the next ones do not", &mut sink)?;
    tell_written(rt, sink.bytes())?;
    tell_write(rt, "a sink without memory", &mut FullSink::new())
}

fn main(rt: HostRuntime) -> io::Result<()> {
    let alloc = rt.alloc();
    tell_sources(&rt, alloc)?;
    tell_sinks(&rt, alloc)
}
