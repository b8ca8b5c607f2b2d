ghost use Rattle.std.specs.Prelude.{◌≡◌, ◌≤◌, ◌<◌, [], if◌then◌else◌, is_ok, length, IfOk, IfErr};
ghost use Rattle.ev_outside.specs.Ends.{counted};

use crate::reading::{Failed, Source};
use crate::writing::{Sink, SinkStop};
use std::io;
use std::io::{Read, Stdin, Stdout, Write};

/// Standard input. It tells no bytes, and counts each read that the system refuses.
#[derive(Debug, Drop)]
pub struct StdSource {
    stdin: Stdin,
    faults: u64,
}

/// Standard output. It tells no bytes, and counts each write that the system refuses, or of which it takes nothing.
#[derive(Debug, Drop)]
pub struct StdSink {
    stdout: Stdout,
    faults: u64,
}

impl StdSource {
    /// The handle is the one that `main` can get: `rt.stdin()`.
    pub fn new(stdin: Stdin) -> StdSource
        ensures { result.faults ≡ 0 }
    {
        StdSource { stdin, faults: 0 }
    }
}

impl Source for StdSource {
    ghost use Rattle.std.specs.Prelude.{None};

    ghost left = { λ _. None };

    ghost faults = { λ s. s.faults };

    fn read(&mut self, buf: &mut [u8]) -> Result<usize, Failed>
        ensures within { IfOk result (λ n. n ≤ length buf.new) }
        ensures counted { self.new.faults ≡ (if is_ok result then self.old.faults else counted self.old.faults) }
        ensures count { self.old.faults ≤ self.new.faults }
    {
        match self.stdin.read(buf) {
            Ok(n) => Ok(n),
            Err(_) => {
                self.faults = self.faults.saturating_add(1);
                Err(Failed)
            }
        }
    }
}

impl StdSink {
    /// The handle is the one that `main` can get: `rt.stdout()`.
    pub fn new(stdout: Stdout) -> StdSink
        ensures { result.faults ≡ 0 }
    {
        StdSink { stdout, faults: 0 }
    }
}

impl Sink for StdSink {
    ghost use Rattle.std.specs.Prelude.{None};

    ghost written = { λ _. None };

    ghost faults = { λ s. s.faults };

    ghost shortages = { λ _. 0 };

    fn write(&mut self, piece: &[u8]) -> Result<usize, SinkStop>
        ensures within { IfOk result (λ n. n ≤ length piece.now) }
        ensures some { IfOk result (λ n. n ≡ 0 → piece.now ≡ []) }
        ensures stop { IfErr result (λ e. e ≡ SinkStop.Failed) }
        ensures counted { self.new.faults ≡ (if is_ok result then self.old.faults else counted self.old.faults) }
        ensures count { self.old.faults ≤ self.new.faults }
    {
        match self.stdout.write(piece) {
            Ok(n) if n > 0 || piece.is_empty() => Ok(n),
            _ => {
                self.faults = self.faults.saturating_add(1);
                Err(SinkStop::Failed)
            }
        }
    }
}
