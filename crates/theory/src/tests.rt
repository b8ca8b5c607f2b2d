//! That each exit but the one for want of memory comes, with ample memory, and that a script with each status and each connective is
//! read. What is written with an exit is proved.
ghost use Rattle.std.specs.Prelude.{◌≡◌, ◌<◌};

use crate::answers::{Exit, run};
use ev_outside::{MemSink, MemSource, Steps};
use std::alloc::{AllocError, Global};
use std::marker::Brand;
use std::sync::ledger::{Blank, Ledger};
use std::test::Fail;

/// The ends of a run.
#[derive(Drop)]
struct Ends {
    source: MemSource,
    sink: MemSink,
}

fn run_counted<L: Ledger>(alloc: Global, words: &Vec<String>, ends: &mut Ends, blank: Blank) -> Exit
    requires name { blank.name ≡ L.name }
    requires parts { blank.parts ≡ L.parts }
    requires some { 0 < blank.parts }
{
    let mut steps = Steps::<L>::open(blank);
    run(alloc, words, &mut ends.source, &mut ends.sink, &mut steps)
}

/// How a run ends whose only word this is, on this input. The read and the write of these numbers fail.
fn exit_of(
    alloc: Global,
    word: &str,
    input: Vec<u8>,
    read: u64,
    write: u64,
) -> Result<Exit, AllocError> {
    let words = vec![in alloc; word.to_string(alloc)?]?;
    let mut ends = Ends {
        source: MemSource::new(input, 65_536, vec![in alloc; read]?),
        sink: MemSink::new(alloc, 1, vec![in alloc; write]?),
    };
    Ok(run_counted::<Brand>(alloc, &words, &mut ends, Blank::new(1)))
}

#[test]
fn each_exit_comes(rt: HostRuntime) -> Result<(), Fail> {
    let alloc = rt.alloc();
    let none = Vec::new(alloc);
    assert_eq!(rt; exit_of(alloc, "session", none, 0, 0)?, Exit::Usage);
    let some = vec![in alloc; b'P']?;
    assert_eq!(rt; exit_of(alloc, "check", some, 0, 0)?, Exit::BadScript);
    let many = vec![in alloc; b' '; 16_777_217]?;
    assert_eq!(rt; exit_of(alloc, "check", many, 0, 0)?, Exit::TooLong);
    let none = Vec::new(alloc);
    assert_eq!(rt; exit_of(alloc, "check", none, 1, 0)?, Exit::SourceFault);
    let some = vec![in alloc; b'P']?;
    assert_eq!(rt; exit_of(alloc, "check", some, 0, 3)?, Exit::SinkFault);
    Ok(())
}

/// How `check` ends on a script that is read in pieces of 3 bytes, and what it wrote.
fn checked(alloc: Global, script: &[u8]) -> Result<(Exit, Ends), AllocError> {
    let words = vec![in alloc; "check".to_string(alloc)?]?;
    let mut ends = Ends {
        source: MemSource::new(script.to_vec(alloc)?, 3, Vec::new(alloc)),
        sink: MemSink::new(alloc, 1, Vec::new(alloc)),
    };
    let exit = run_counted::<Brand>(alloc, &words, &mut ends, Blank::new(1));
    Ok((exit, ends))
}

#[test]
fn each_status_is_printed(rt: HostRuntime) -> Result<(), Fail> {
    let script =
        b"PUT a\nTHEOREM o: false or true\nTHEOREM b: false or true\nTHEOREM p: false or true\nTHEOREM q: false or true\nTHEOREM i: not (true or false) => not (true or false)\nTHEOREM e: true & not not true <=> false\nTHEOREM t: true\nTHEOREM u: true\nEND\nPROOF a/b/THM\nori1\ntruei\nEND\nPROOF a/p/THM\nori2\nEND\nPROOF a/q/THM\nori2\ntruei\nEND\nPROOF a/i/THM\nimpi\nhyp\nEND\nPROOF a/e/THM\nopen\nEND\nPROOF a/t/THM\nhyp\nEND\nPROOF a/t/THM\ntruei\nEND\nPROOF a/u/THM\ntruei\nEND\nPROOF a/u/THM\nEND\nPROOF b/x/THM\nhyp\nEND\n";
    let report =
        b"theory a present ok\na/o/THM open\na/b/THM broken 2\na/p/THM partial 1\na/q/THM proved\na/i/THM proved\na/e/THM partial 1\na/t/THM proved\na/u/THM open\n";
    let (exit, ends) = checked(rt.alloc(), script)?;
    assert_eq!(rt; exit, Exit::Ok);
    assert_eq!(rt; ends.sink.bytes(), report.as_slice());
    Ok(())
}
