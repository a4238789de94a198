//! Simple packing of numbers where they stand in simple packing.

ghost use Rattle.std.specs.Prelude.{◌≡◌, ◌+◌, ◌-◌, ◌*◌, ◌/◌, ◌%◌, ◌^◌, ◌<◌, ◌≤◌, ◌++◌, List, length, take, drop, map, pos, replicate, false, All, Ok, IfOk, OnOk};
ghost use Rattle.grib_bits.specs.Bits.{bits as bits_in, bits_of};
ghost use Rattle.grib_bits.specs.Plain.{plain};
ghost use Rattle.grib_bitmap.specs.Mask.{present_count};
ghost use Rattle.grib_packing.specs.Groupings.{digits, greatest as greatest_of};
ghost use Rattle.grib_packing.specs.Packed.{HasContents, fields};
ghost use Rattle.grib_packing.specs.declared.column.Point.TheVariants.{Scaled};
ghost use Rattle.grib_packing.specs.declared.column.Column as column_packing;
ghost use Rattle.grib_packing.specs.Column.{points_with_mask};
ghost use Rattle.grib_packing.specs.Misfits.{ToSimple};
ghost use Rattle.grib_packing.specs.Written.{IsPacked};

use crate::bitmap::mask_section;
use crate::sections::representation_with;
use grib_base::List;
use grib_bitmap::Mask;
use grib_bits::{BitWriter, get_bits};
use grib_packing::{Packed, Simple, are_octets, bit_length, octets_written, room_for, write_head};
use grib_simple_reading::number_at;
use std::alloc::{AllocError, Global};

/// Sections 5, 6 and 7 of a field in simple packing, packed simply from its numbers where they stand. Its Section 5
/// has these numbers, its Section 7 these octets from octet 6 on, and its points are those of the mask. No column is
/// made.
///
/// # Errors
///
/// There is no memory.
pub fn pack_numbers(
    alloc: Global,
    simple: &Simple,
    octets: &[u8],
    mask: &Mask,
) -> Result<Packed, AllocError>
    requires bits { simple.now.bits ≤ 48 }
    requires within { simple.now.bits * simple.now.values ≤ 8 * length octets.now }
    requires few { length mask.now ≤ 33554432 }
    requires present { present_count mask.now ≡ simple.now.values }
    ensures { IfOk result (λ packed. (column : column_packing.Column)
        → column.reference ≡ simple.now.reference → column.e ≡ simple.now.e → column.d ≡ simple.now.d
        → column.points ≡ points_with_mask mask.now (map (λ x. Scaled (pos x)) (plain (bits_in octets.now) simple.now.bits simple.now.values))
        → IsPacked ToSimple column simple.now.kind (Ok packed)) }
{
    let bits = u32::from(simple.bits);
    let width = least_width(octets, bits, simple.values);
    let section5 = representation_with(alloc, simple, simple.values, width as u8)?;
    let section6 = mask_section(alloc, mask, simple.values)?;
    let section7 = numbers_section(alloc, octets, bits, simple.values, width)?;
    Ok(Packed {
        section5,
        section6,
        section7,
    })
}

/// Section 7 of simple packing with the numbers of another one, in the width of the greatest (WMO-No. 306, Volume
/// I.2, FM 92 GRIB edition 2, data template 7.0).
fn numbers_section(
    alloc: Global,
    octets: &[u8],
    bits: u32,
    count: u32,
    width: u32,
) -> Result<List<u8>, AllocError>
    requires bits { bits ≤ 48 }
    requires count { count ≤ 33554432 }
    requires within { bits * count ≤ 8 * length octets.now }
    requires width { width ≡ digits (greatest_of (plain (bits_in octets.now) bits count)) }
    requires most { width ≤ bits }
    ensures { IfOk result (λ section.
        HasContents 7 section (fields width (plain (bits_in octets.now) bits count))) }
{
    if width == bits {
        copied_numbers(alloc, octets, u64::from(bits) * u64::from(count))
    } else {
        narrowed_numbers(alloc, octets, bits, count, width)
    }
}

/// Section 7 with the first bits of these octets, as many as `count`, and zero bits up to a whole octet.
fn copied_numbers(alloc: Global, octets: &[u8], count: u64) -> Result<List<u8>, AllocError>
    requires few { count ≤ 1610612736 }
    requires within { count ≤ 8 * length octets.now }
    ensures { IfOk result (λ section. HasContents 7 section (take count (bits_in octets.now))) }
{
    let length = 5 + count.div_ceil(8) as u32;
    let mut section = Vec::with_capacity(alloc, length as usize)?;
    section.extend_from_slice(&length.to_be_bytes())?;
    section.extend_from_slice(&[7])?;
    section.extend_from_slice(&octets[..(count / 8) as usize])?;
    push_rest(octets, count, &mut section)?;
    are_octets(&section);
    Ok(List::of(section))
}

/// Adds the last of the first `count` bits, those after the whole octets, and zero bits: no octet, where there are none.
fn push_rest(octets: &[u8], count: u64, out: &mut Vec<u8>) -> Result<(), AllocError>
    requires few { count ≤ 1610612736 }
    requires within { count ≤ 8 * length octets.now }
    ensures { OnOk result (bits_in out.new.items ≡ bits_in out.old.items
        ++ (take (count % 8) (drop (8 * (count / 8)) (bits_in octets.now)) ++ replicate ((8 - count % 8) % 8) false)) }
{
    let rest = (count % 8) as u32;
    if rest == 0 {
        return Ok(());
    }
    out.push(first_bits(octets, 8 * (count / 8), rest))?;
    Ok(())
}

/// The `count` bits after the first `at` bits, and zero bits up to a whole octet.
fn first_bits(octets: &[u8], at: u64, count: u32) -> u8
    requires some { 1 ≤ count }
    requires few { count ≤ 8 }
    requires within { at + count ≤ 8 * length octets.now }
    ensures { bits_of 8 result ≡ take count (drop at (bits_in octets.now)) ++ replicate (8 - count) false }
{
    let first = get_bits(octets, at, count);
    (first as u8) << (8 - count)
}

/// Section 7 with these numbers in fewer bits each.
fn narrowed_numbers(
    alloc: Global,
    octets: &[u8],
    bits: u32,
    count: u32,
    width: u32,
) -> Result<List<u8>, AllocError>
    requires some { 1 ≤ bits }
    requires bits { bits ≤ 48 }
    requires count { count ≤ 33554432 }
    requires within { bits * count ≤ 8 * length octets.now }
    requires width { width ≤ 48 }
    requires fits { All (λ number. number < 2 ^ width) (plain (bits_in octets.now) bits count) }
    ensures { IfOk result (λ section.
        HasContents 7 section (fields width (plain (bits_in octets.now) bits count))) }
{
    let length = 5 + (u64::from(count) * u64::from(width)).div_ceil(8) as u32;
    let mut room = room_for(alloc, length)?;
    write_head(length, 7, &mut room);
    put_numbers(octets, bits, count, width, &mut room);
    room.align();
    Ok(octets_written(room))
}

/// Writes these numbers of `bits` bits in `width` bits each.
fn put_numbers(octets: &[u8], bits: u32, count: u32, width: u32, out: &mut BitWriter)
    requires some { 1 ≤ bits }
    requires bits { bits ≤ 48 }
    requires within { bits * count ≤ 8 * length octets.now }
    requires width { width ≤ 48 }
    requires fits { All (λ number. number < 2 ^ width) (plain (bits_in octets.now) bits count) }
    requires room { count * width ≤ out.old.spare }
    ensures bits { out.new.bits ≡ out.old.bits ++ fields width (plain (bits_in octets.now) bits count) }
    ensures spare { out.new.spare + count * width ≡ out.old.spare }
{
    for index in 0..count {
        out.put(number_at(octets, bits, index), width);
    }
}

/// The bits of the greatest of these numbers, none for 0. It looks no further than the first number that needs all bits.
fn least_width(octets: &[u8], bits: u32, count: u32) -> u32
    requires bits { bits ≤ 48 }
    requires within { bits * count ≤ 8 * length octets.now }
    ensures width { result ≡ digits (greatest_of (plain (bits_in octets.now) bits count)) }
    ensures most { result ≤ bits }
{
    if bits == 0 {
        return 0;
    }
    let mut greatest = 0;
    for index in 0..count {
        let number = number_at(octets, bits, index);
        if number >> (bits - 1) == 1 {
            return bits;
        }
        greatest = number.max(greatest);
    }
    bit_length(greatest)
}
