//! Differences that are undone whole.

ghost use Rattle.std.specs.Prelude.{◌≡◌, ◌^◌, ◌<◌, ◌≤◌, nat_abs, length, All, MatchResult};
ghost use Rattle.grib_packing.specs.Differences.{undone};
ghost use Rattle.grib_spatial.specs.Undoing.{read_with, first_beyond, Names};
ghost use Rattle.grib_complex_reading.specs.Order.{IsOrder};

use crate::differences::Differences;
use grib_complex_reading::Running;
use std::alloc::Global;
use thiserror::Error;

/// Why differences were not undone.
#[derive(Clone, Copy, Debug, PartialEq, Eq, Error)]
pub enum UndoFault {
    /// A number is outside plus and minus 2^60: the place, from 1, of the first that is.
    #[error("number {0} is out of range")]
    ScaledRange(u32),
    /// There is no memory.
    #[error("out of memory")]
    Memory,
}

/// The numbers that these differences of order 1 or 2 tell (WMO-No. 306, Volume I.2, FM 92 GRIB edition
/// 2, data template 7.3).
///
/// # Errors
///
/// A number is outside plus and minus 2^60, or there is no memory for the numbers.
pub fn undo(alloc: Global, differences: &Differences, order: u8) -> Result<Vec<i64>, UndoFault>
    requires order { IsOrder order }
    requires count { length differences.now.codes ≤ 33554432 }
    requires codes { All (λ code. code < 2 ^ 33) differences.now.codes }
    requires first { nat_abs differences.now.first ≤ 2 ^ 31 }
    requires second { nat_abs differences.now.second ≤ 2 ^ 31 }
    requires minimum { nat_abs differences.now.minimum ≤ 2 ^ 31 }
    ensures { let all = undone (read_with order differences.now) differences.now.codes in MatchResult result
        (λ numbers. (numbers.items ≡ all) × (first_beyond all ≡ 0))
        (λ fault. Names fault (first_beyond all)) }
{
    let codes = differences.codes.as_slice();
    let Ok(mut numbers) = Vec::with_capacity(alloc, codes.len()) else {
        return Err(UndoFault::Memory);
    };
    let mut running = Running::new(
        order,
        differences.first,
        differences.second,
        differences.minimum,
    );
    for code in codes {
        match running.push(*code) {
            Ok(number) => {
                let Ok(()) = numbers.push(number) else {
                    return Err(UndoFault::Memory);
                };
            }
            Err(_) => return Err(UndoFault::ScaledRange(numbers.len() as u32 + 1)),
        }
    }
    Ok(numbers)
}
