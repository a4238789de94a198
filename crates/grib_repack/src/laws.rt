//! Laws over the definitions.

ghost use Rattle.std.specs.Prelude.{◌≡◌, ℕ, ◌≤◌, List, Bool, Option, Ok, Result, MatchResult, length};
ghost use Rattle.grib_base.specs.declared.fault.ReadFault as read_fault;
ghost use Rattle.grib_base.specs.declared.fault.ReadFault.TheVariants.{Memory};
ghost use Rattle.grib_base.specs.declared.profile.Profile.{Profile};
ghost use Rattle.grib_bitmap.specs.Mask.{mask_of};
ghost use Rattle.grib_packing.specs.declared.column.Column as column_packing;
ghost use Rattle.grib_packing.specs.declared.written.Packed as packed_packing;
ghost use Rattle.grib_packing.specs.Misfits.{Target};
ghost use Rattle.grib_packing.specs.Unpacked.{IsUnpacked, MayBeUnpacked};
ghost use Rattle.grib_packing.specs.Written.{IsPacked, MayBePacked};
ghost use Rattle.grib2_message.specs.Fields.{field_count, part_octets, column_of, meaning_of};
ghost use Rattle.grib2_message.specs.Message.{IsMessageUnder};
ghost use Rattle.grib_repack.specs.Repacked.{repacked, MayBeRepacked};

use grib_ccsds::laws::what_is_packed_in_blocks_reads_back;
use grib_complex::laws::{
    what_is_packed_by_differences_reads_back, what_is_packed_in_groups_reads_back,
};
use grib_packed::laws::a_packing_is_written;
use grib_packing::Packing;
use grib_simple::laws::what_is_packed_simply_reads_back;
use grib2_message::laws::{field_holds, what_is_assembled_is_accepted};

/// What is repacked keeps each value: where nothing of a message that a profile accepts fails to fit, its values can be
/// read, and the profile has the packing, the repacked message is accepted by that profile and has as many fields. Each
/// field has the same column, so that each of its points means the same, and its Sections 1 to 4 as they were.
pub fn what_is_repacked_keeps_each_value()
    ensures accepted { (profile : Profile) (target : Target) (message : List ℕ) → MayBeRepacked profile target message
        → IsMessageUnder profile (repacked target message) }
    ensures fields { (profile : Profile) (target : Target) (message : List ℕ) → MayBeRepacked profile target message
        → field_count (repacked target message) ≡ field_count message }
    ensures columns { (profile : Profile) (target : Target) (message : List ℕ) → MayBeRepacked profile target message
        → (i : ℕ) → 1 ≤ i → i ≤ field_count message
        → column_of (repacked target message) i ≡ column_of message i }
    ensures meanings { (profile : Profile) (target : Target) (message : List ℕ) → MayBeRepacked profile target message
        → (i : ℕ) → 1 ≤ i → i ≤ field_count message
        → meaning_of (repacked target message) i ≡ meaning_of message i }
    ensures kept { (profile : Profile) (target : Target) (message : List ℕ) → MayBeRepacked profile target message
        → (i k : ℕ) → k ≤ 4
        → part_octets (repacked target message) i k ≡ part_octets message i k }
{
    a_packing_is_written();
    what_is_packed_simply_reads_back();
    what_is_packed_in_groups_reads_back();
    what_is_packed_by_differences_reads_back();
    what_is_packed_in_blocks_reads_back();
    field_holds();
    what_is_assembled_is_accepted();
}

/// What a packing packs it unpacks: the sections that `pack` gives can be handed to `unpack` with the mask of
/// their Section 6, and it gives the column that was packed, unless there is no memory.
pub fn what_is_packed_unpacks<P: Packing>(packing: &P)
    ensures { (column : column_packing.Column) (kind start : ℕ) (earlier : Option (List Bool)) (packed : packed_packing.Packed)
        → MayBePacked column → IsPacked (P.target packing.now) column kind (Ok packed)
        → let mask = mask_of packed.section6 (length column.points) earlier in
        MayBeUnpacked (P.template packing.now) packed.section5 mask
        × ((answer : Result column_packing.Column read_fault.ReadFault)
        → IsUnpacked packed.section5 mask start packed.section7 answer
        → MatchResult answer (λ again. again ≡ column) (λ fault. fault ≡ Memory)) }
{
    what_is_packed_simply_reads_back();
    what_is_packed_in_groups_reads_back();
    what_is_packed_by_differences_reads_back();
    what_is_packed_in_blocks_reads_back();
}
