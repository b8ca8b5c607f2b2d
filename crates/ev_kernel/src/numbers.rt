//! Sequents by their numbers.
ghost use Rattle.std.specs.Prelude.{◌≡◌, ◌≤◌, Some, length};
ghost use Rattle.ev_kernel.specs.Derivable.{numbered};

use ev_typing::{Sequent, Sequents};

/// The sequent with a number, from 1.
pub(crate) fn premise_of(earlier: &Sequents, number: u128) -> &Sequent
    requires first { 1 ≤ number }
    requires last { number ≤ length earlier.now }
    ensures { numbered earlier.now number ≡ Some result.now }
{
    &earlier.as_slice()[(number - 1) as usize]
}
