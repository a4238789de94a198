//! Laws over the definitions.

ghost use Rattle.std.specs.Prelude.{◌≡◌, ℕ, ◌≤◌, ◌<◌, List, None, length, All};
ghost use Rattle.grib_base.specs.declared.profile.Profile.{Profile};
ghost use Rattle.grib_packing.specs.Misfits.{first_misfit};
ghost use Rattle.grib2_message.specs.Fields.{field_count, part_octets, column_of, meaning_of};
ghost use Rattle.grib2_message.specs.Message.{IsMessageUnder, IsReadable};
ghost use Rattle.grib_repack.specs.Repacked.{packed_field};
ghost use Rattle.grib_least.specs.Least.{least, least_form, own_form, size_of, targets};

use grib_ccsds::laws::what_is_packed_in_blocks_reads_back;
use grib_complex::laws::{
    what_is_packed_by_differences_reads_back, what_is_packed_in_groups_reads_back,
};
use grib_packed::laws::a_packing_is_written;
use grib_simple::laws::what_is_packed_simply_reads_back;
use grib2_message::laws::{field_holds, what_is_assembled_is_accepted};

/// In the fewest octets a message that a profile accepts, and whose values can be read, keeps each value: it is accepted by
/// that profile and has as many fields. Each field has the same column, so that each of its points means the same, and its
/// Sections 1 to 4 as they were.
pub fn what_is_least_is_kept()
    ensures accepted { (profile : Profile) (message : List ℕ) → IsMessageUnder profile message → IsReadable message
        → All (λ octet. octet < 256) message
        → IsMessageUnder profile (least profile message) }
    ensures fields { (profile : Profile) (message : List ℕ) → IsMessageUnder profile message → IsReadable message
        → All (λ octet. octet < 256) message
        → field_count (least profile message) ≡ field_count message }
    ensures columns { (profile : Profile) (message : List ℕ) → IsMessageUnder profile message → IsReadable message
        → All (λ octet. octet < 256) message
        → (i : ℕ) → 1 ≤ i → i ≤ field_count message
        → column_of (least profile message) i ≡ column_of message i }
    ensures meanings { (profile : Profile) (message : List ℕ) → IsMessageUnder profile message → IsReadable message
        → All (λ octet. octet < 256) message
        → (i : ℕ) → 1 ≤ i → i ≤ field_count message
        → meaning_of (least profile message) i ≡ meaning_of message i }
    ensures kept { (profile : Profile) (message : List ℕ) → IsMessageUnder profile message → IsReadable message
        → All (λ octet. octet < 256) message
        → (i k : ℕ) → k ≤ 4 → part_octets (least profile message) i k ≡ part_octets message i k }
{
    a_packing_is_written();
    what_is_packed_simply_reads_back();
    what_is_packed_in_groups_reads_back();
    what_is_packed_by_differences_reads_back();
    what_is_packed_in_blocks_reads_back();
    field_holds();
    what_is_assembled_is_accepted();
}

/// No message grows.
pub fn nothing_grows()
    ensures { (profile : Profile) (message : List ℕ) → length (least profile message) ≤ length message }
{}

/// No form of a field has fewer octets than the one in which it is written: not its own, and none of a packing that the
/// profile has.
pub fn no_form_is_smaller()
    ensures own { (profile : Profile) (message : List ℕ) (i : ℕ)
        → size_of (least_form profile message i) ≤ size_of (own_form message i) }
    ensures packed { (profile : Profile) (message : List ℕ) (i : ℕ)
        → All (λ target. first_misfit target (column_of message i).points ≡ None
        → size_of (least_form profile message i) ≤ size_of (packed_field target message i)) (targets profile) }
{}

/// A message in the fewest octets stays as it is.
pub fn least_of_least()
    ensures { (profile : Profile) (message : List ℕ) → IsMessageUnder profile message → IsReadable message
        → All (λ octet. octet < 256) message
        → least profile (least profile message) ≡ least profile message }
{
    a_packing_is_written();
    what_is_packed_simply_reads_back();
    what_is_packed_in_groups_reads_back();
    what_is_packed_by_differences_reads_back();
    what_is_packed_in_blocks_reads_back();
    field_holds();
    what_is_assembled_is_accepted();
}
