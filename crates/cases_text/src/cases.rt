//! Cases: what is called, and with what.
use ev_syntax::Sort;

/// What is called: a function by its name, the sort, the limit of nesting and the place that it is handed, and the text. Of a tree that
/// is answered all is told, or only how many parts it has.
#[derive(Clone, Copy, Drop)]
pub(crate) struct Case<'a> {
    pub call: &'a str,
    pub sort: Sort,
    pub limit: u32,
    pub from: u32,
    pub counts: bool,
    pub text: &'a str,
}

fn sort_of(word: &str) -> Option<Sort> {
    match word {
        "pred" => Some(Sort::Pred),
        "expr" => Some(Sort::Expr),
        "either" => Some(Sort::Either),
        "type" => Some(Sort::TypeText),
        _ => None,
    }
}

/// The case with what a word of its head says: a sort, `count`, `limit=N` or `from=N`.
fn with_word<'a>(case: Case<'a>, word: &str) -> Option<Case<'a>> {
    if word == "count" {
        return Some(Case {
            counts: true,
            ..case
        });
    }
    let Some((key, number)) = word.split_once('=') else {
        let sort = sort_of(word)?;
        return Some(Case { sort, ..case });
    };
    let number = number.parse::<u32>().ok()?;
    match key {
        "limit" => Some(Case {
            limit: number,
            ..case
        }),
        "from" => Some(Case {
            from: number,
            ..case
        }),
        _ => None,
    }
}

/// The case of a line `CALL WORD .. WORD: TEXT`. The limit is 200 and the place 0 where no word says another.
pub(crate) fn case_of(line: &str) -> Option<Case<'_>> {
    let (head, text) = line.split_once(':')?;
    let mut case = Case {
        call: head,
        sort: Sort::Pred,
        limit: 200,
        from: 0,
        counts: false,
        text: text.strip_prefix(' ').unwrap_or(text),
    };
    for (i, word) in head.split(' ').enumerate() {
        if i == 0 {
            case.call = word;
        } else {
            case = with_word(case, word)?;
        }
    }
    Some(case)
}
