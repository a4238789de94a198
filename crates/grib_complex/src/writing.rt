//! Sections 5 and 7 of complex packing as they are written.

ghost use Rattle.std.specs.Prelude.{◌≡◌, ℕ, ◌+◌, ◌*◌, ◌%◌, ◌^◌, ◌<◌, ◌≤◌, ◌++◌, ◌∷◌, [], List as Octets, Bool, length, All};
ghost use Rattle.grib_bits.specs.Bits.{bits as bits_in};
ghost use Rattle.grib_bits.specs.Octets.{octets};
ghost use Rattle.grib_packing.specs.declared.column.Column as column_packing;
ghost use Rattle.grib_bits.specs.Encoding.{octets_of, AddsOctets};
ghost use Rattle.grib_packing.specs.Groupings.{runs};
ghost use Rattle.grib_packing.specs.Packed.{HasContents, HasNumbers, group_parts};
ghost use Rattle.grib_groups.specs.Encoding.{AreMeasures, LaysOut};
ghost use Rattle.grib_packing.specs.Sections.{number_octets};
ghost use Rattle.grib_codes.specs.FieldCodes.{codes_in};
ghost use Rattle.grib_complex.specs.Written.{HasLayoutOf, layout_octets};

use grib_base::List;
use grib_bits::{BitWriter, write_u8, write_u32};
use grib_codes::FieldCodes;
use grib_groups::{Measure, encode_measured_groups, encode_same};
use grib_packing::{Column, Layout, octets_written, write_head, write_numbers};

/// What Section 5 says of differences: their order (code table 5.6), and the octets of each extra descriptor.
#[derive(Clone, Copy, Debug)]
pub struct Differencing {
    pub order: u8,
    pub size: u8,
}

/// Section 5 of template 5.2, in a writer that has room for its 47 octets (WMO-No. 306, Volume I.2, FM 92
/// GRIB edition 2, data representation template 5.2).
pub fn complex_representation(
    column: &Column,
    values: u32,
    layout: &Layout,
    kind: u8,
    mut room: BitWriter,
) -> List<u8>
    requires none { room.bits ≡ [] }
    requires room { 376 ≤ room.spare }
    ensures length { length result ≡ 47 }
    ensures numbers { HasNumbers result column.now values 2 layout.now.reference_bits kind }
    ensures layout { HasLayoutOf result layout.now }
{
    write_head(47, 5, &mut room);
    write_numbers(column, values, 2, layout.reference_bits, kind, &mut room);
    write_layout(layout, &mut room);
    octets_written(room)
}

/// Section 5 of template 5.3, in a writer that has room for its 49 octets (WMO-No. 306, Volume I.2, FM 92
/// GRIB edition 2, data representation template 5.3).
pub fn spatial_representation(
    column: &Column,
    values: u32,
    layout: &Layout,
    differencing: Differencing,
    kind: u8,
    mut room: BitWriter,
) -> List<u8>
    requires none { room.bits ≡ [] }
    requires room { 392 ≤ room.spare }
    ensures length { length result ≡ 49 }
    ensures numbers { HasNumbers result column.now values 3 layout.now.reference_bits kind }
    ensures layout { HasLayoutOf result layout.now }
    ensures order { octets result 48 48 ≡ differencing.order }
    ensures size { octets result 49 49 ≡ differencing.size }
{
    write_head(49, 5, &mut room);
    write_numbers(column, values, 3, layout.reference_bits, kind, &mut room);
    write_layout(layout, &mut room);
    write_u8(differencing.order, &mut room);
    write_u8(differencing.size, &mut room);
    octets_written(room)
}

/// Writes octets 22 to 47 of a Section 5: general group splitting, no substitutes for missing values, and
/// how the groups are laid out.
fn write_layout(layout: &Layout, out: &mut BitWriter)
    requires { 208 ≤ out.old.spare }
    ensures octets { AddsOctets out.old out.new (layout_octets layout.now) }
    ensures layout { (section rest : Octets ℕ) (column : column_packing.Column) (length values template kind : ℕ)
        → section ≡ (octets_of 4 length ++ 5 ∷ number_octets column values template layout.now.reference_bits kind)
        ++ layout_octets layout.now ++ rest
        → octets section 20 20 ≡ layout.now.reference_bits → HasLayoutOf section layout.now }
{
    write_u8(1, out);
    write_u8(layout.management, out);
    write_u32(u32::MAX, out);
    write_u32(u32::MAX, out);
    write_u32(layout.groups, out);
    write_u8(layout.width_reference, out);
    write_u8(layout.width_bits, out);
    write_u32(layout.length_reference, out);
    write_u8(layout.length_increment, out);
    write_u32(layout.last_length, out);
    write_u8(layout.length_bits, out);
}

/// Section 7 of the groups of these codes, where octets 1 to 5 and the extra descriptors stand in a writer
/// that has room for the groups.
pub fn groups_section(
    codes: &FieldCodes,
    lengths: &[u32],
    known: &[Measure],
    layout: &Layout,
    mut begun: BitWriter,
) -> List<u8>
    requires lays_out { LaysOut layout.now (codes_in codes.now) lengths.now }
    requires known { AreMeasures layout.now.management layout.now.reference_bits known.now (runs lengths.now (codes_in codes.now)) }
    requires some { 1 ≤ length (codes_in codes.now) }
    requires most { length (codes_in codes.now) ≤ 33554432 }
    requires whole { length begun.bits % 8 ≡ 0 }
    requires room { length (group_parts layout.now.management (codes_in codes.now) lengths.now) ≤ begun.spare }
    ensures bits { bits_in result ≡ begun.bits ++ group_parts layout.now.management (codes_in codes.now) lengths.now }
    ensures octets { All (λ octet. octet < 256) result }
{
    put_groups(codes, lengths, known, layout, &mut begun);
    octets_written(begun)
}

/// Writes the groups of these codes.
fn put_groups(
    codes: &FieldCodes,
    lengths: &[u32],
    known: &[Measure],
    layout: &Layout,
    out: &mut BitWriter,
)
    requires lays_out { LaysOut layout.now (codes_in codes.now) lengths.now }
    requires known { AreMeasures layout.now.management layout.now.reference_bits known.now (runs lengths.now (codes_in codes.now)) }
    requires some { 1 ≤ length (codes_in codes.now) }
    requires most { length (codes_in codes.now) ≤ 33554432 }
    requires whole { length out.old.bits % 8 ≡ 0 }
    requires room { length (group_parts layout.now.management (codes_in codes.now) lengths.now) ≤ out.old.spare }
    ensures { out.new.bits ≡ out.old.bits ++ group_parts layout.now.management (codes_in codes.now) lengths.now }
{
    match codes {
        FieldCodes::Each(words) => {
            encode_measured_groups(&words.codes(), lengths, known, layout, out)
        }
        FieldCodes::Same(code, count) => encode_same(*code, *count, lengths, layout, out),
    }
}
