ghost use Rattle.std.specs.Prelude.{◌≡◌, ◌≢◌, ◌≤◌, ◌⊎◌, [], IfOk, IfSome, IsTrue, ◌↔◌, length, map, string_bytes};
ghost use Rattle.std.specs.Io.KnownBytes.{Appends};
ghost use Rattle.ev_outside.specs.Ends.{AppendsFront, Rose};
ghost use Rattle.theory.specs.declared.script.Script.{Script};
ghost use Rattle.theory.specs.Scripts.{IsScript};
ghost use Rattle.theory.specs.Answers.{check_words, input_limit, Answers, EndsWith, IsCheck, IsCut, ReadsToEnd, number_of};
ghost use Rattle.theory.specs.inner.Answers.{exit_of, text_of};

use crate::script::read_script;
use crate::texts::report;
use ev_outside::{ReadFault, Sink, SinkStop, Source, Steps as Counter, read_all, write_all};
use ev_terms::limits::INPUT_LIMIT;
use ev_terms::{Bytes, NoMemory};
use std::alloc::Global;
use std::sync::ledger::Ledger;

/// How the program ends.
#[derive(Debug, Clone, Copy, PartialEq, Eq)]
pub enum Exit {
    Ok,
    BadScript,
    Usage,
    SourceFault,
    SinkFault,
    NoMemory,
    TooLong,
}

impl Exit {
    /// The status with which the process ends.
    pub fn number(&self) -> u8
        ensures { result ≡ number_of self.now }
    {
        match self {
            Exit::Ok => 0,
            Exit::BadScript => 1,
            Exit::Usage => 2,
            Exit::SourceFault => 3,
            Exit::SinkFault => 4,
            Exit::NoMemory => 5,
            Exit::TooLong => 6,
        }
    }
}

/// What is to be written, and how the program then ends.
#[derive(Drop)]
pub enum Answer {
    Report(Bytes),
    BadScript,
    Usage,
    TooLong,
    SourceFault,
    NoMemory,
}

impl Answer {
    fn exit(&self) -> Exit
        ensures is { result ≡ exit_of self.now }
        ensures not_cut { result ≢ Exit.SinkFault }
    {
        match self {
            Answer::Report(_) => Exit::Ok,
            Answer::BadScript => Exit::BadScript,
            Answer::Usage => Exit::Usage,
            Answer::TooLong => Exit::TooLong,
            Answer::SourceFault => Exit::SourceFault,
            Answer::NoMemory => Exit::NoMemory,
        }
    }

    fn text(&self) -> &[u8]
        ensures { result.now ≡ text_of self.now }
    {
        match self {
            Answer::Report(text) => text.as_slice(),
            Answer::BadScript => b"bad-script 0\n",
            Answer::Usage => b"usage\n",
            Answer::TooLong => b"too-long\n",
            Answer::SourceFault => b"",
            Answer::NoMemory => b"",
        }
    }
}

/// The report of a script that some bytes are.
#[tactic(auto, using(crate::proofs::TypedLaws::script_base))]
fn report_of<L: Ledger>(
    alloc: Global,
    bytes: &[u8],
    counter: &mut Counter<L>,
) -> Result<Answer, NoMemory>
    ensures is { IfOk result (λ a. length bytes.now ≤ input_limit → Answers check_words bytes.now (exit_of a) (text_of a)) }
    ensures reads_well { IfOk result (λ a. (a ≢ Answer.Usage) × (a ≢ Answer.SourceFault)) }
{
    match read_script(alloc, bytes)? {
        Some(script) => Ok(Answer::Report(Bytes::from_vec(report(alloc, &script, counter)?))),
        None => Ok(Answer::BadScript),
    }
}

/// What `check` answers.
fn check<S: Source, L: Ledger>(alloc: Global, source: &mut S, counter: &mut Counter<L>) -> Answer
    ensures told { IfSome (S.left source.old) (λ bytes. Answers check_words bytes (exit_of result) (text_of result)) }
    ensures read { ReadsToEnd (exit_of result) → IfSome (S.left source.old) (λ bytes. S.left source.new ≡ Some []) }
    ensures not_usage { result ≢ Answer.Usage }
    ensures failed { result ≡ Answer.SourceFault → Rose (S.faults source.old) (S.faults source.new) }
    ensures count { S.faults source.old ≤ S.faults source.new }
{
    match read_all(alloc, source, INPUT_LIMIT) {
        Ok(bytes) => match report_of(alloc, bytes.as_slice(), counter) {
            Ok(answer) => answer,
            Err(_) => Answer::NoMemory,
        },
        Err(ReadFault::TooLong) => Answer::TooLong,
        Err(ReadFault::Failed) => Answer::SourceFault,
        Err(ReadFault::NoMemory) => Answer::NoMemory,
    }
}

/// Whether the words are `check` alone.
fn is_check(words: &Vec<String>) -> bool
    ensures { IsTrue result ↔ IsCheck (map string_bytes words.now.items) }
{
    match words.as_slice() {
        [word] => word.as_str() == "check",
        _ => false,
    }
}

/// What the words and the source are answered.
fn find_answer<S: Source, L: Ledger>(
    alloc: Global,
    words: &Vec<String>,
    source: &mut S,
    counter: &mut Counter<L>,
) -> Answer
    ensures told { IfSome (S.left source.old) (λ bytes. Answers (map string_bytes words.now.items) bytes (exit_of result) (text_of result)) }
    ensures read { ReadsToEnd (exit_of result) → IfSome (S.left source.old) (λ bytes. S.left source.new ≡ Some []) }
    ensures unread { (IsCheck (map string_bytes words.now.items) → ⊥) → source.new ≡ source.old }
    ensures usage { (result ≡ Answer.Usage) ↔ (IsCheck (map string_bytes words.now.items) → ⊥) }
    ensures failed { result ≡ Answer.SourceFault → Rose (S.faults source.old) (S.faults source.new) }
    ensures count { S.faults source.old ≤ S.faults source.new }
{
    if is_check(words) {
        check(alloc, source, counter)
    } else {
        Answer::Usage
    }
}

/// Writes an answer, and gives the exit.
fn deliver<K: Sink>(sink: &mut K, answer: &Answer) -> Exit
    ensures whole { (result ≡ exit_of answer.now) × Appends (K.written sink.old) (K.written sink.new) (text_of answer.now) ⊎ (IsCut result × AppendsFront (K.written sink.old) (K.written sink.new) (text_of answer.now)) }
    ensures failed { result ≡ Exit.SinkFault → Rose (K.faults sink.old) (K.faults sink.new) }
    ensures count { K.faults sink.old ≤ K.faults sink.new }
{
    match write_all(sink, answer.text()) {
        Ok(()) => answer.exit(),
        Err(SinkStop::Failed) => Exit::SinkFault,
        Err(SinkStop::NoMemory) => Exit::NoMemory,
    }
}

/// Runs the program: what the words say over the source's bytes, all text of which goes to the sink.
pub fn run<S: Source, K: Sink, L: Ledger>(
    alloc: Global,
    words: &Vec<String>,
    source: &mut S,
    sink: &mut K,
    steps: &mut Counter<L>,
) -> Exit
    ensures answer { IfSome (S.left source.old) (λ bytes. EndsWith (map string_bytes words.now.items) bytes result (K.written sink.old) (K.written sink.new)) }
    ensures read { ReadsToEnd result → IfSome (S.left source.old) (λ bytes. S.left source.new ≡ Some []) }
    ensures unread { (IsCheck (map string_bytes words.now.items) → ⊥) → source.new ≡ source.old }
    ensures usage { IsCheck (map string_bytes words.now.items) → result ≢ Exit.Usage }
    ensures no_words { (IsCheck (map string_bytes words.now.items) → ⊥) → (result ≡ Exit.Usage) ⊎ IsCut result }
    ensures source_fault { result ≡ Exit.SourceFault → Rose (S.faults source.old) (S.faults source.new) }
    ensures sink_fault { result ≡ Exit.SinkFault → Rose (K.faults sink.old) (K.faults sink.new) }
    ensures source_count { S.faults source.old ≤ S.faults source.new }
    ensures sink_count { K.faults sink.old ≤ K.faults sink.new }
    ensures complete { IfSome (S.left source.old) (λ bytes. IsCheck (map string_bytes words.now.items) → (length bytes ≤ input_limit) → (s : Script) → IsScript bytes s
        → (Rose (S.faults source.old) (S.faults source.new) → ⊥) → (Rose (K.faults sink.old) (K.faults sink.new) → ⊥) → (result ≡ Exit.Ok) ⊎ (result ≡ Exit.NoMemory)) }
{
    let answer = find_answer(alloc, words, source, steps);
    deliver(sink, &answer)
}
