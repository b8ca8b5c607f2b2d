//! The rows of the table, by their numbers from 0.
ghost use Rattle.std.specs.Prelude.{◌≡◌, slice_get};
ghost use Rattle.std.specs.Option.{option_copied};
ghost use Rattle.ev_axioms.specs.inner.Rows.{joined, all_steps};

use crate::finite_rows::{EXTREMES, FINITE_SETS};
use crate::logic_rows::{MORE_SETS, SETS, VALUES};
use crate::number_rows::{NUMBERS, ORDER, PRODUCTS, QUOTIENTS, SUMS};
use crate::relation_rows::{DOMAINS, FUNCTIONS, IMAGES, MORE_FUNCTIONS, PAIRS, RESTRICTIONS};
use crate::steps::Step;

/// All rows, in groups.
fn groups() -> [&'static [&'static [Step]]; 16]
    ensures { joined result ≡ all_steps }
{
    [
        &VALUES,
        &SETS,
        &MORE_SETS,
        &PAIRS,
        &DOMAINS,
        &RESTRICTIONS,
        &IMAGES,
        &FUNCTIONS,
        &MORE_FUNCTIONS,
        &SUMS,
        &PRODUCTS,
        &ORDER,
        &NUMBERS,
        &QUOTIENTS,
        &FINITE_SETS,
        &EXTREMES,
    ]
}

/// The row at a place of the groups, one after the other.
#[tactic(auto, using(crate::proofs::Groups::rows_of_groups))]
fn row_in(groups: &[&'static [&'static [Step]]], place: usize) -> Option<&'static [Step]>
    ensures { option_copied result ≡ slice_get (joined groups.now) place }
{
    let mut left = place;
    for group in groups {
        if left < group.len() {
            return Some(group[left]);
        }
        left -= group.len();
    }
    None
}

/// The steps of a row.
pub(crate) fn steps_of(place: usize) -> Option<&'static [Step]>
    ensures { option_copied result ≡ slice_get all_steps place }
{
    let all = groups();
    row_in(&all, place)
}
