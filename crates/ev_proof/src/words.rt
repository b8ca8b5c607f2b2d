//! The words that steps begin with.
ghost use Rattle.std.specs.Prelude.{◌≡◌, bytes_eq, map};
ghost use Rattle.ev_proof.specs.inner.Words.{row_told, word_in, word_of};

/// The words that are whole steps.
#[derive(Clone, Copy, Drop)]
pub enum LoneWord {
    Hyp,
    TrueI,
    Em,
    Refl,
    SetMem,
    BoolMem,
    Calc,
    FalseE,
    NotI,
    AndI,
    OrI1,
    OrI2,
    ImpI,
    IffI,
    AllI,
    Sym,
    Cong,
    Induct,
    Open,
}

/// The words before a predicate.
#[derive(Clone, Copy, Drop)]
pub enum PredicateWord {
    Cut,
    Note,
    AndE1,
    AndE2,
    OrE,
    ImpE,
    IffE1,
    IffE2,
    ExE,
}

/// The words before a label of a theory and a citation.
#[derive(Clone, Copy, Drop)]
pub enum CitedWord {
    Theorem,
    Assume,
    Infer,
}

/// The words before a place alone.
#[derive(Clone, Copy, Drop)]
pub enum PlacedWord {
    Unfold,
    Recur,
    Con,
}

/// A word that a step begins with, by what stands behind it.
#[derive(Clone, Copy, Drop)]
pub enum StepWord {
    Lone(LoneWord),
    Weak,
    Predicate(PredicateWord),
    AllE,
    ExI,
    Trans,
    Axiom,
    Cited(CitedWord),
    Dis,
    Rewrite,
    Cases,
    Placed(PlacedWord),
    Fold,
}

/// The words, each with its bytes.
static WORDS: [(&str, StepWord); 43] = [
    ("hyp", StepWord::Lone(LoneWord::Hyp)),
    ("truei", StepWord::Lone(LoneWord::TrueI)),
    ("em", StepWord::Lone(LoneWord::Em)),
    ("refl", StepWord::Lone(LoneWord::Refl)),
    ("setmem", StepWord::Lone(LoneWord::SetMem)),
    ("boolmem", StepWord::Lone(LoneWord::BoolMem)),
    ("calc", StepWord::Lone(LoneWord::Calc)),
    ("weak", StepWord::Weak),
    ("cut", StepWord::Predicate(PredicateWord::Cut)),
    ("falsee", StepWord::Lone(LoneWord::FalseE)),
    ("noti", StepWord::Lone(LoneWord::NotI)),
    ("andi", StepWord::Lone(LoneWord::AndI)),
    ("ori1", StepWord::Lone(LoneWord::OrI1)),
    ("ori2", StepWord::Lone(LoneWord::OrI2)),
    ("impi", StepWord::Lone(LoneWord::ImpI)),
    ("iffi", StepWord::Lone(LoneWord::IffI)),
    ("alli", StepWord::Lone(LoneWord::AllI)),
    ("sym", StepWord::Lone(LoneWord::Sym)),
    ("cong", StepWord::Lone(LoneWord::Cong)),
    ("note", StepWord::Predicate(PredicateWord::Note)),
    ("ande1", StepWord::Predicate(PredicateWord::AndE1)),
    ("ande2", StepWord::Predicate(PredicateWord::AndE2)),
    ("ore", StepWord::Predicate(PredicateWord::OrE)),
    ("impe", StepWord::Predicate(PredicateWord::ImpE)),
    ("iffe1", StepWord::Predicate(PredicateWord::IffE1)),
    ("iffe2", StepWord::Predicate(PredicateWord::IffE2)),
    ("alle", StepWord::AllE),
    ("exi", StepWord::ExI),
    ("exe", StepWord::Predicate(PredicateWord::ExE)),
    ("trans", StepWord::Trans),
    ("axiom", StepWord::Axiom),
    ("theorem", StepWord::Cited(CitedWord::Theorem)),
    ("assume", StepWord::Cited(CitedWord::Assume)),
    ("dis", StepWord::Dis),
    ("infer", StepWord::Cited(CitedWord::Infer)),
    ("rewrite", StepWord::Rewrite),
    ("cases", StepWord::Cases),
    ("unfold", StepWord::Placed(PlacedWord::Unfold)),
    ("fold", StepWord::Fold),
    ("recur", StepWord::Placed(PlacedWord::Recur)),
    ("con", StepWord::Placed(PlacedWord::Con)),
    ("induct", StepWord::Lone(LoneWord::Induct)),
    ("open", StepWord::Lone(LoneWord::Open)),
];

fn same_text(bytes: &[u8], text: &str) -> bool
    ensures { result ≡ bytes_eq bytes.now text.now }
{
    bytes == text.as_bytes()
}

/// The word of a row that has these bytes.
fn word_in(table: &[(&str, StepWord)], bytes: &[u8]) -> Option<StepWord>
    ensures { result ≡ word_in (map row_told table.now) bytes.now }
{
    match table {
        [] => None,
        [(text, word), rest @ ..] => {
            if same_text(bytes, text) {
                Some(*word)
            } else {
                word_in(rest, bytes)
            }
        }
    }
}

/// The word that has these bytes.
pub fn word_of(bytes: &[u8]) -> Option<StepWord>
    ensures { result ≡ word_of bytes.now }
{
    word_in(&WORDS, bytes)
}
