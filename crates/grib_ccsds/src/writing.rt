//! CCSDS packing as it is written.

ghost use Rattle.std.specs.Prelude.{◌≡◌, ◌+◌, ◌*◌, ◌/◌, ◌≤◌, ◌++◌, [], false, length, All};
ghost use Rattle.grib_coding.specs.Coding.{Fits, greatest, is_padded};
ghost use Rattle.grib_packing.specs.Packed.{HasCoding, HasContents, HasNumbers, blocks_written};

use grib_base::List;
use grib_bits::{BitWriter, write_u8, write_u16};
use grib_block_writing::{bits_of_blocks, write_blocks};
use grib_coding::Coding;
use grib_packing::{Column, octets_written, write_head, write_numbers};

/// Section 5 of CCSDS packing, in a writer that has room for its 25 octets (WMO-No. 306, Volume I.2, FM 92 GRIB edition
/// 2, data representation template 5.42).
pub fn coded_representation(
    column: &Column,
    values: u32,
    kind: u8,
    coding: &Coding,
    mut room: BitWriter,
) -> List<u8>
    requires none { room.bits ≡ [] }
    requires room { 200 ≤ room.spare }
    ensures length { length result ≡ 25 }
    ensures numbers { HasNumbers result column.now values 42 coding.now.bits kind }
    ensures coding { HasCoding result coding.now }
{
    write_head(25, 5, &mut room);
    write_numbers(column, values, 42, coding.bits, kind, &mut room);
    write_u8(coding.flags, &mut room);
    write_u8(coding.block, &mut room);
    write_u16(coding.interval, &mut room);
    octets_written(room)
}

/// The octets of a Section 7 with the blocks of these numbers. Numbers of no bits have none.
pub fn octets_of_blocks(numbers: &[u32], coding: &Coding) -> u32
    requires fits { 1 ≤ coding.now.bits → Fits coding.now }
    requires few { length numbers.now ≤ 33554432 }
    requires within { All (λ number. number ≤ greatest coding.now) numbers.now }
    ensures { result ≡ 5 + (length (blocks_written coding.now numbers.now) + 7) / 8 }
{
    if coding.bits == 0 {
        return 5;
    }
    5 + bits_of_blocks(numbers, coding).div_ceil(8) as u32
}

/// Section 7 of CCSDS packing, in a writer that has room for this many octets: the blocks of the numbers (WMO-No. 306,
/// Volume I.2, FM 92 GRIB edition 2, data template 7.42).
pub fn blocks_section(
    numbers: &[u32],
    coding: &Coding,
    octets: u32,
    mut room: BitWriter,
) -> List<u8>
    requires fits { 1 ≤ coding.now.bits → Fits coding.now }
    requires unpadded { is_padded coding.now ≡ false }
    requires few { length numbers.now ≤ 33554432 }
    requires within { All (λ number. number ≤ greatest coding.now) numbers.now }
    requires octets { octets ≡ 5 + (length (blocks_written coding.now numbers.now) + 7) / 8 }
    requires none { room.bits ≡ [] }
    requires room { 8 * octets ≤ room.spare }
    ensures { HasContents 7 result (blocks_written coding.now numbers.now) }
{
    write_head(octets, 7, &mut room);
    put_blocks(numbers, coding, &mut room);
    room.align();
    octets_written(room)
}

/// Writes the blocks of numbers: nothing, where these have no bits.
fn put_blocks(numbers: &[u32], coding: &Coding, out: &mut BitWriter)
    requires fits { 1 ≤ coding.now.bits → Fits coding.now }
    requires unpadded { is_padded coding.now ≡ false }
    requires few { length numbers.now ≤ 33554432 }
    requires within { All (λ number. number ≤ greatest coding.now) numbers.now }
    requires room { length (blocks_written coding.now numbers.now) ≤ out.old.spare }
    ensures bits { out.new.bits ≡ out.old.bits ++ blocks_written coding.now numbers.now }
    ensures spare { out.new.spare + length (blocks_written coding.now numbers.now) ≡ out.old.spare }
{
    if coding.bits > 0 {
        write_blocks(numbers, coding, out);
    }
}
