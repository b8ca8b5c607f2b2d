//! The marks: the signs and the reserved words, each a row of one table.
ghost use Rattle.std.specs.Prelude.{◌≡◌, ◌<◌, ◌≤◌, IsTrue, length, slice_get};
ghost use Rattle.std.specs.Option.{option_copied};
ghost use Rattle.ev_syntax.specs.inner.Spelled.{texts, have_their_bytes, are_different, candidate};
ghost use Rattle.ev_syntax.specs.Marks.{spellings};
ghost use Rattle.ev_syntax.specs.Tokens.{row_of};

use crate::rows::{COUNT, ROWS, Spelling};
use crate::slots::SLOTS;

/// A table of spellings, no two of them equal.
#[derive(Clone, Copy)]
pub struct Spellings<const N: usize> {
    pub rows: &'static [Spelling; N],
    ghost different: { IsTrue (are_different (texts rows.now)) },
    ghost in_bounds: { IsTrue (have_their_bytes rows.now) },
}

impl Spellings<COUNT> {
    /// The bytes of a mark.
    pub fn get(&self, mark: u16) -> Option<&'static [u8]>
        ensures { option_copied result ≡ slice_get (texts self.now.rows.now) mark }
    {
        let rows = self.rows;
        text_at(rows, mark as usize)
    }
}

fn text_at(rows: &'static [Spelling], row: usize) -> Option<&'static [u8]>
    requires { IsTrue (have_their_bytes rows.now) }
    ensures { option_copied result ≡ slice_get (texts rows.now) row }
{
    if row < rows.len() {
        let spelling = &rows[row];
        Some(&spelling.bytes[..spelling.length as usize])
    } else {
        None
    }
}

/// All signs and reserved words.
pub fn all_spellings() -> Spellings<COUNT>
    ensures rows { texts result.rows.now ≡ spellings }
    ensures different { IsTrue (are_different spellings) }
{
    Spellings { rows: &ROWS }
}

/// The row that a spelling of these bytes can have.
#[tactic(auto, unfolding(crate::specs::inner::Spelled::candidate))]
fn candidate(word: &[u8]) -> u16
    requires { (0 < length word.now) × (length word.now ≤ 9) }
    ensures { result ≡ candidate word.now }
{
    let length = word.len();
    let (first, middle, last) = (word[0], word[length / 2], word[length - 1]);
    let place = first as usize + 35 * (middle as usize) + 9 * (last as usize) + 7 * length;
    SLOTS[place % 512] as u16
}

/// The mark that the bytes spell. One row at most can spell them, and it is looked at alone.
pub fn mark_of(word: &[u8]) -> Option<u16>
    ensures { result ≡ row_of spellings word.now }
{
    if word.is_empty() || word.len() > 9 {
        return None;
    }
    let mark = candidate(word);
    let Some(spelling) = all_spellings().get(mark) else {
        return None;
    };
    if spelling == word { Some(mark) } else { None }
}
