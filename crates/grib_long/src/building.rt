//! Numbers from their parts.

ghost use Rattle.std.specs.Prelude.{◌≡◌, ◌≢◌, length, ◌+◌, ◌*◌, ◌/◌, ◌^◌, ◌<◌, ◌≤◌, ◌+ℤ◌, ◌*ℤ◌, ◌<ℤ◌, ◌≤ℤ◌, pos, nat_abs, true, false, IfOk, OnOk};
ghost use Rattle.grib_long.specs.Digits.{big, value, size};

use crate::long::Long;
use std::alloc::{AllocError, Global};

/// The greatest digit.
const LAST: u32 = u32::MAX;

impl Long {
    /// The number.
    ///
    /// # Errors
    ///
    /// There is no memory.
    pub fn of(alloc: Global, number: u128) -> Result<Long, AllocError>
        ensures value { IfOk result (λ n. value n ≡ number) }
        ensures size { IfOk result (λ n. size n ≡ 4) }
    {
        let mut digits = Vec::with_capacity(alloc, 4)?;
        push_two(&mut digits, (number >> 64) as u64)?;
        push_two(&mut digits, (number % (1 << 64)) as u64)?;
        Ok(Long { digits })
    }
}

/// Appends the two digits of a number.
fn push_two(digits: &mut Vec<u32>, number: u64) -> Result<(), AllocError>
    ensures value { OnOk result (big digits.new.items ≡ big digits.old.items * 2 ^ 64 + number) }
    ensures size { OnOk result (length digits.new.items ≡ length digits.old.items + 2) }
{
    digits.push((number >> 32) as u32)?;
    digits.push((number % (1 << 32)) as u32)?;
    Ok(())
}

/// The magnitude of `high * 2 ^ shift + low`, where the first part counts more than any second one.
///
/// # Errors
///
/// There is no memory.
pub fn long_sum(alloc: Global, high: i64, shift: u32, low: i64) -> Result<Long, AllocError>
    requires some { high ≢ pos 0 }
    requires far { 64 ≤ shift }
    ensures value { IfOk result (λ n. value n ≡ nat_abs ((high *ℤ pos (2 ^ shift)) +ℤ low)) }
    ensures size { IfOk result (λ n. size n ≤ shift + 6) }
{
    let top = u128::from(high.unsigned_abs()) << (shift % 32);
    let fills = shift / 32 - 2;
    if opposes(high, low) {
        lowered(alloc, top, fills, low.unsigned_abs())
    } else {
        raised(alloc, top, fills, low.unsigned_abs())
    }
}

/// Whether the second number takes away from the first one.
fn opposes(high: i64, low: i64) -> bool
    ensures up { result ≡ false → pos 0 ≤ℤ high → pos 0 ≤ℤ low }
    ensures down { result ≡ false → high <ℤ pos 0 → low ≤ℤ pos 0 }
    ensures lowers { result ≡ true → pos 0 ≤ℤ high → low <ℤ pos 0 }
    ensures raises { result ≡ true → high <ℤ pos 0 → pos 0 <ℤ low }
{
    if high < 0 { low > 0 } else { low < 0 }
}

/// The number `top * 2 ^ (32 * fills + 64) + low`.
fn raised(alloc: Global, top: u128, fills: u32, low: u64) -> Result<Long, AllocError>
    ensures value { IfOk result (λ n. value n ≡ top * 2 ^ (32 * fills) * 2 ^ 64 + low) }
    ensures size { IfOk result (λ n. size n ≡ fills + 6) }
{
    let mut number = filled(alloc, top, 0, fills)?;
    push_two(&mut number.digits, low)?;
    Ok(number)
}

/// The number `top * 2 ^ (32 * fills + 64) - low`.
fn lowered(alloc: Global, top: u128, fills: u32, low: u64) -> Result<Long, AllocError>
    requires top { 0 < top }
    requires low { 0 < low }
    ensures value { IfOk result (λ n. value n + low ≡ top * 2 ^ (32 * fills) * 2 ^ 64) }
    ensures size { IfOk result (λ n. size n ≡ fills + 6) }
{
    let mut number = filled(alloc, top - 1, LAST, fills)?;
    push_two(&mut number.digits, u64::MAX - (low - 1))?;
    Ok(number)
}

/// A number with so many digits of one kind behind it.
fn filled(alloc: Global, top: u128, fill: u32, fills: u32) -> Result<Long, AllocError>
    ensures zeros { fill ≡ 0 → IfOk result (λ n. value n ≡ top * 2 ^ (32 * fills)) }
    ensures last { fill + 1 ≡ 2 ^ 32 → IfOk result (λ n. value n + 1 ≡ (top + 1) * 2 ^ (32 * fills)) }
    ensures size { IfOk result (λ n. size n ≡ fills + 4) }
{
    let mut number = Long::of(alloc, top)?;
    for _ in 0..fills {
        number.digits.push(fill)?;
    }
    Ok(number)
}
