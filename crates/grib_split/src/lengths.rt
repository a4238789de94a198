//! The lengths that choices give.

ghost use Rattle.std.specs.Prelude.{◌≡◌, ℕ, ◌+◌, ◌<◌, ◌≤◌, length, IfOk};
ghost use Rattle.grib_split.specs.Least.{Follows, AreChoices};

use std::alloc::{AllocError, Global};

/// The lengths of groups that follow the choices: the first choice, the choice at the place after as
/// many codes, and so on to the end.
///
/// # Errors
///
/// There is no memory for the lengths.
pub fn lengths_of(alloc: Global, choices: &[u8]) -> Result<Vec<u32>, AllocError>
    requires some { 1 ≤ length choices.now }
    requires most { length choices.now ≤ 33554432 }
    requires each { AreChoices choices.now }
    ensures { IfOk result (λ lengths. Follows choices.now lengths.items) }
{
    let mut lengths = Vec::with_capacity(alloc, count_of(choices))?;
    let mut at = 0;
    while at < choices.len() {
        lengths.push(u32::from(choices[at]))?;
        at += usize::from(choices[at]);
    }
    Ok(lengths)
}

/// How many lengths follow the choices.
fn count_of(choices: &[u8]) -> usize
    requires { AreChoices choices.now }
{
    let mut count = 0;
    let mut at = 0;
    while at < choices.len() {
        at += usize::from(choices[at]);
        count += 1;
    }
    count
}
