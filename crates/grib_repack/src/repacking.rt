//! Repacking a message.

ghost use Rattle.std.specs.Prelude.{◌≡◌, ◌≤◌, ◌<◌, None, length, MatchResult, All};
ghost use Rattle.grib_base.specs.Rules.{first_among};
ghost use Rattle.grib_packing.specs.Written.{IsTarget};
ghost use Rattle.grib2_message.specs.Assembled.{IsShort};
ghost use Rattle.grib2_message.specs.Fields.{field_count};
ghost use Rattle.grib_repack.specs.Repacked.{packed_field, packed_fields, repacked, field_misfit, repack_misfit};
ghost use Rattle.grib_packing.specs.Targets.{target_of};
ghost use Rattle.grib_repack.specs.Faults.{IsRepackFault};
ghost use Rattle.grib_repack.specs.Lengths.{length_with};

use crate::field::pack_field;
use crate::lengths::{kept_length, packed_length};
use crate::{RepackFault, RepackTarget};
use grib_base::MOST_OCTETS;
use grib_packed::laws::one_packing_is_written;
use grib_packing::Packed;
use grib2_message::ReadableMessage;
use std::alloc::Global;

/// The message with the same fields, packed to the target: Sections 5, 6 and 7 of each field are written
/// anew, and all other octets but the total length are as before. It holds the message, the new sections, and one
/// column at a time; none where a field is packed simply, unless the first misfit is named or values are missing of a
/// field with a bitmap in another packing; and 4 octets for each point in place of a column where a field is packed in
/// groups without differences. The new sections that it holds have
/// 268,435,456 octets at most, besides those of the last field: once the message is too long, the later fields are
/// packed one at a time, for their misfits and lengths alone.
///
/// # Errors
///
/// A field does not fit the packing, the first misfit being named; or the new message would have more than
/// 268,435,456 octets; or there is no memory.
pub fn repack(
    alloc: Global,
    message: &ReadableMessage<'_>,
    target: RepackTarget,
) -> Result<Vec<u8>, RepackFault>
    requires { IsTarget (target_of target) }
    ensures { MatchResult result
        (λ octets. (repack_misfit (target_of target) message.now ≡ None)
        × (octets.items ≡ repacked (target_of target) message.now))
        (IsRepackFault (repack_misfit (target_of target) message.now)) }
{
    let packed = pack_fields(alloc, message, target)?;
    Ok(message.assemble(alloc, &packed)?)
}

/// Sections 5, 6 and 7 of each field of the message, or why it is not repacked.
fn pack_fields(
    alloc: Global,
    message: &ReadableMessage<'_>,
    target: RepackTarget,
) -> Result<Vec<Packed>, RepackFault>
    requires { IsTarget (target_of target) }
    ensures { MatchResult result
        (λ packed. (first_among (field_misfit (target_of target) message.now) (field_count message.now) 1 ≡ None)
        × (packed.items ≡ packed_fields (target_of target) message.now)
        × All IsShort packed.items)
        (IsRepackFault (repack_misfit (target_of target) message.now)) }
{
    let fields = message.fields();
    let mut packed = Vec::with_capacity(alloc, fields as usize)?;
    let mut total = kept_length(message);
    for before in 0..fields {
        let field = repack_field(alloc, message, before + 1, target)?;
        total += packed_length(&field);
        let Ok(()) = packed.push(field) else {
            return Err(RepackFault::Memory);
        };
        if total > MOST_OCTETS {
            drop(packed);
            return Err(too_long(alloc, message, target, before + 1, total));
        }
    }
    Ok(packed)
}

/// Why a message is not repacked that is too long with the new sections of its first fields: the first misfit of a later
/// field, or how many octets it would have. `total` are those that stay and those of the first `done` fields. The
/// sections of one field are held at a time.
fn too_long(
    alloc: Global,
    message: &ReadableMessage<'_>,
    target: RepackTarget,
    done: u32,
    total: u64,
) -> RepackFault
    requires target { IsTarget (target_of target) }
    requires done { done ≤ field_count message.now }
    requires whole { length (repacked (target_of target) message.now)
        ≡ length_with (target_of target) message.now (field_count message.now) }
    requires fit { first_among (field_misfit (target_of target) message.now) done 1 ≡ None }
    requires total { total ≡ length_with (target_of target) message.now done }
    requires long { 268435456 < total }
    requires few { total ≤ 17179869184 }
    ensures { IsRepackFault (repack_misfit (target_of target) message.now) result }
{
    let mut whole = total;
    for before in done..message.fields() {
        match repack_field(alloc, message, before + 1, target) {
            Ok(field) => whole += packed_length(&field),
            Err(fault) => return fault,
        }
    }
    RepackFault::OutputTooLong(whole)
}

/// Sections 5, 6 and 7 of one field, counted from 1.
fn repack_field(
    alloc: Global,
    message: &ReadableMessage<'_>,
    field: u32,
    target: RepackTarget,
) -> Result<Packed, RepackFault>
    requires target { IsTarget (target_of target) }
    requires first { 1 ≤ field }
    requires last { field ≤ field_count message.now }
    ensures { MatchResult result
        (λ packed. (field_misfit (target_of target) message.now field ≡ None)
        × (packed ≡ packed_field (target_of target) message.now field)
        × IsShort packed)
        (IsRepackFault (field_misfit (target_of target) message.now field)) }
{
    one_packing_is_written();
    match pack_field(alloc, message, field, None, target, None) {
        Ok(Some(packed)) => Ok(packed),
        Ok(None) => unreachable!(),
        Err(fault) => Err(RepackFault::in_field(field, fault)),
    }
}
