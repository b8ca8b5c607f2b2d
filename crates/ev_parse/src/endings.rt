//! Where no formula goes on.
ghost use Rattle.std.specs.Prelude.{◌≡◌, drop};
ghost use Rattle.ev_parse.specs.Items.{ends};

use crate::literal_steps::connects;
use crate::predicate_reader::goes_on;
use ev_syntax::Reader;

/// Whether no formula goes on with what stands at a place.
pub(crate) fn ends_at(reader: &Reader<'_>, at: usize) -> bool
    ensures { result ≡ ends (drop at reader.now) }
{
    if goes_on(reader, at) {
        return false;
    }
    !connects(reader, at)
}
