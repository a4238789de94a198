//! One item.

ghost use Rattle.std.specs.Prelude.{◌≡◌, ℕ, suc, ◌+◌, ◌*◌, ◌≤◌, List, length, MatchOption, IfSome};
ghost use Rattle.grib_coding.specs.Coding.{Fits};
ghost use Rattle.grib_coding.specs.Reading.{front_reference, front_zero, front_plain, front_split, front_item, skipped, Ended};
ghost use Rattle.grib_block_reading.specs.Fronts.{front_of};
ghost use Rattle.grib_block_reading.specs.ItemRead.{ItemRead, HasReference, IsSpread};

use crate::bits_left::BitsLeft;
use crate::lists::{read_low_bits, read_numbers, read_sequences};
use crate::pairs::{has_long, spread_behind_reference, spread_pairs};
use grib_coding::Coding;

/// What an item is, but for its codes.
#[derive(Clone, Copy, Debug)]
pub enum Kind {
    /// A run of zero blocks, and the number that counts them.
    Zeros(u64),
    /// A block of codes.
    Codes,
    /// A block that has a sequence of a second extension over 90.
    Long,
}

/// The reference of an item, if it has one, and what it is.
#[derive(Clone, Copy, Debug)]
pub struct Head {
    /// The number that the first code of the block is left out for.
    pub reference: Option<u32>,
    /// What the item is.
    pub kind: Kind,
}

/// Reads an item whose codes, but for the one that a reference stands for, go to `codes`.
pub fn read_item(
    bits: &mut BitsLeft<'_>,
    coding: Coding,
    with_reference: bool,
    codes: &mut [u64],
) -> Option<Head>
    requires fits { Fits coding }
    requires room { length codes.old + skipped with_reference ≡ coding.block }
    ensures { let front = front_item coding with_reference bits.old in
        MatchOption result (front ≡ Ended) (λ head. ItemRead coding with_reference front head codes.new bits.new) }
{
    let width = coding.identifier_width();
    let identifier = bits.number(width)?;
    if identifier == 0 {
        let bit = bits.number(1)?;
        return read_zero(bits, coding, with_reference, bit, codes);
    }
    if identifier + 1 == 1 << width {
        return read_plain(bits, coding, with_reference, codes);
    }
    read_split(bits, coding, with_reference, identifier as u32 - 1, codes)
}

/// Reads what follows the identifier 0 and the bit after it.
fn read_zero(
    bits: &mut BitsLeft<'_>,
    coding: Coding,
    with_reference: bool,
    bit: u64,
    codes: &mut [u64],
) -> Option<Head>
    requires fits { Fits coding }
    requires room { length codes.old + skipped with_reference ≡ coding.block }
    ensures { let front = front_zero coding with_reference bit bits.old in
        MatchOption result (front ≡ Ended) (λ head. ItemRead coding with_reference front head codes.new bits.new) }
{
    if bit == 0 {
        read_run(bits, coding, with_reference)
    } else {
        read_second(bits, coding, with_reference, codes)
    }
}

/// Reads a run of zero blocks.
fn read_run(bits: &mut BitsLeft<'_>, coding: Coding, with_reference: bool) -> Option<Head>
    requires { Fits coding }
    ensures { let front = front_zero coding with_reference 0 bits.old in
        MatchOption result (front ≡ Ended) (λ head. (codes : List ℕ) → ItemRead coding with_reference front head codes bits.new) }
{
    let reference = read_reference(bits, coding, with_reference)?;
    let number = bits.sequence()?;
    Some(Head {
        reference,
        kind: Kind::Zeros(number),
    })
}

/// Reads a second extension.
fn read_second(
    bits: &mut BitsLeft<'_>,
    coding: Coding,
    with_reference: bool,
    codes: &mut [u64],
) -> Option<Head>
    requires fits { Fits coding }
    requires room { length codes.old + skipped with_reference ≡ coding.block }
    ensures { (other : ℕ) → let front = front_zero coding with_reference (suc other) bits.old in
        MatchOption result (front ≡ Ended) (λ head. ItemRead coding with_reference front head codes.new bits.new) }
{
    let reference = read_reference(bits, coding, with_reference)?;
    let mut numbers = [0; 32];
    let numbers = &mut numbers[..usize::from(coding.block / 2)];
    read_sequences(bits, numbers)?;
    let kind = spread_second(numbers, with_reference, codes);
    Some(Head { reference, kind })
}

/// The codes of a second extension with these numbers, but for the one that a reference stands for, unless a number is
/// over 90: then they may be any.
pub fn spread_second(numbers: &[u64], with_reference: bool, codes: &mut [u64]) -> Kind
    requires some { 1 ≤ length numbers.now }
    requires room { length codes.old + skipped with_reference ≡ 2 * length numbers.now }
    ensures { IsSpread (skipped with_reference) numbers.now result codes.new }
{
    if has_long(numbers) {
        return Kind::Long;
    }
    if with_reference {
        spread_behind_reference(numbers, codes);
    } else {
        spread_pairs(numbers, codes);
    }
    Kind::Codes
}

/// Reads what follows the greatest identifier.
fn read_plain(
    bits: &mut BitsLeft<'_>,
    coding: Coding,
    with_reference: bool,
    codes: &mut [u64],
) -> Option<Head>
    requires fits { Fits coding }
    requires room { length codes.old + skipped with_reference ≡ coding.block }
    ensures { let front = front_plain coding with_reference bits.old in
        MatchOption result (front ≡ Ended) (λ head. ItemRead coding with_reference front head codes.new bits.new) }
{
    let reference = read_reference(bits, coding, with_reference)?;
    read_numbers(bits, u32::from(coding.bits), codes)?;
    Some(Head {
        reference,
        kind: Kind::Codes,
    })
}

/// Reads what follows the identifier k + 1.
fn read_split(
    bits: &mut BitsLeft<'_>,
    coding: Coding,
    with_reference: bool,
    k: u32,
    codes: &mut [u64],
) -> Option<Head>
    requires fits { Fits coding }
    requires k { k ≤ 29 }
    requires room { length codes.old + skipped with_reference ≡ coding.block }
    ensures { let front = front_split coding with_reference k bits.old in
        MatchOption result (front ≡ Ended) (λ head. ItemRead coding with_reference front head codes.new bits.new) }
{
    let reference = read_reference(bits, coding, with_reference)?;
    read_sequences(bits, codes)?;
    read_low_bits(bits, k, codes)?;
    Some(Head {
        reference,
        kind: Kind::Codes,
    })
}

/// Reads a reference, where there is one.
#[inline]
fn read_reference(
    bits: &mut BitsLeft<'_>,
    coding: Coding,
    with_reference: bool,
) -> Option<Option<u32>>
    requires { Fits coding }
    ensures found { front_reference coding with_reference bits.old ≡ front_of result bits.new }
    ensures within { IfSome result (λ reference. HasReference coding with_reference reference) }
{
    if !with_reference {
        return Some(None);
    }
    let number = bits.number(u32::from(coding.bits))?;
    Some(Some(number as u32))
}
