//! Writing a message in the fewest octets.

ghost use Rattle.std.specs.Prelude.{◌≡◌, ◌+◌, ◌≤◌, ◌<◌, length, All, IfOk, MatchOption};
ghost use Rattle.grib_packing.specs.Written.{IsTarget, MayBePacked};
ghost use Rattle.grib2_message.specs.Assembled.{assembled, IsShort};
ghost use Rattle.grib2_message.specs.Fields.{field_count, column_of};
ghost use Rattle.grib2_message.specs.Message.{IsAnyMessage};
ghost use Rattle.grib_packing.specs.Targets.{target_of};
ghost use Rattle.grib_repack.specs.Repacked.{kind_of};
ghost use Rattle.grib_least.specs.Earlier as earlier;
ghost use Rattle.grib_least.specs.Earlier.{or_form};
ghost use Rattle.grib_least.specs.Least as definitions;
ghost use Rattle.grib_least.specs.Least.{form_of, least, size_of};

use grib_base::{List, Profile};
use grib_packed::laws::{a_packing_is_written, one_packing_is_written};
use grib_packing::{Column, PackFault, Packed, are_octets};
use grib_repack::{RepackTarget, kept_length, pack_field};
use grib2_message::{AssembleFault, ReadableMessage};
use std::alloc::{AllocError, Global};

/// All packings, from the last to the first. The stated profile has those from the fifth on.
const TRIALS: [RepackTarget; 8] = [
    RepackTarget::Coded {
        block: 64,
        interval: 128,
    },
    RepackTarget::Coded {
        block: 32,
        interval: 128,
    },
    RepackTarget::Coded {
        block: 16,
        interval: 128,
    },
    RepackTarget::Coded {
        block: 8,
        interval: 128,
    },
    RepackTarget::Spatial(2),
    RepackTarget::Spatial(1),
    RepackTarget::Complex,
    RepackTarget::Simple,
];

/// The message with each field in the one of these forms that has the fewest octets in Sections 5, 6 and 7,
/// the earlier of equal ones: its own sections, simple packing, complex packing, complex packing of the spatial
/// differences of order 1, and of order 2, and CCSDS packing in blocks of 8, 16, 32 and 64 values with 128 blocks from
/// one reference to the next. A packing that the profile does not have, or that cannot represent the values of the
/// field, is left out. Where that message is not shorter, it is the message itself, octet for octet.
///
/// It holds the message, the chosen forms, which have fewer octets than the message, and the forms and the column of one
/// field at a time.
///
/// # Errors
///
/// There is no memory.
pub fn repack_least(
    alloc: Global,
    message: &ReadableMessage<'_>,
    profile: Profile,
) -> Result<Vec<u8>, AllocError>
    ensures { IfOk result (λ octets. octets.items ≡ least profile message.now) }
{
    let octets = message.octets();
    let Some(forms) = least_forms(alloc, message, profile)? else {
        return octets.to_vec(alloc);
    };
    match message.assemble(alloc, &forms) {
        Ok(other) => Ok(other),
        Err(AssembleFault::TooLong(_)) => unreachable!(),
        Err(AssembleFault::Memory) => Err(AllocError),
    }
}

/// The form in which each field of the message is written; none where the message with these forms is not shorter.
/// Then no form is held from the field on that shows it.
fn least_forms(
    alloc: Global,
    message: &ReadableMessage<'_>,
    profile: Profile,
) -> Result<Option<Vec<Packed>>, AllocError>
    ensures { IfOk result (λ found. MatchOption found
        (length message.now ≤ length (assembled message.now (definitions.least_forms profile message.now)))
        (λ forms. (forms.items ≡ definitions.least_forms profile message.now) × All IsShort forms.items
        × (length (assembled message.now (definitions.least_forms profile message.now)) < length message.now))) }
{
    let fields = message.fields();
    let limit = message.octets().len() as u64;
    let mut forms = Vec::with_capacity(alloc, fields as usize)?;
    let mut total = kept_length(message);
    for before in 0..fields {
        let form = least_form(alloc, message, before + 1, profile)?;
        total += size(&form);
        if limit <= total {
            return Ok(None);
        }
        forms.push(form)?;
    }
    Ok(Some(forms))
}

/// The form in which one field is written, counted from 1.
fn least_form(
    alloc: Global,
    message: &ReadableMessage<'_>,
    field: u32,
    profile: Profile,
) -> Result<Packed, AllocError>
    requires message { IsAnyMessage message.now }
    requires first { 1 ≤ field }
    requires last { field ≤ field_count message.now }
    ensures form { IfOk result (λ form. form ≡ definitions.least_form profile message.now field) }
    ensures short { IfOk result IsShort }
{
    let column = message.column(alloc, field)?;
    let own = own_form(alloc, message, field)?;
    let limit = size(&own);
    let mut best = own;
    for target in trials(profile) {
        best = or_packed(alloc, message, field, &column, *target, limit, best)?;
    }
    Ok(best)
}

/// The packings that the profile has, from the last to the first.
fn trials(profile: Profile) -> &'static [RepackTarget]
    ensures { result.now ≡ earlier.trials profile }
{
    match profile {
        Profile::Stated => &TRIALS[4..],
        Profile::Open => &TRIALS,
    }
}

/// The Sections 5, 6 and 7 that a field has, counted from 1.
fn own_form(alloc: Global, message: &ReadableMessage<'_>, field: u32) -> Result<Packed, AllocError>
    requires first { 1 ≤ field }
    requires last { field ≤ field_count message.now }
    ensures { IfOk result (λ form. form ≡ definitions.own_form message.now field) }
{
    let (Some(section5), Some(section7)) = (message.part(field, 5), message.part(field, 7)) else {
        unreachable!();
    };
    Ok(Packed {
        section5: List::of(section5.octets.to_vec(alloc)?),
        section6: List::of(message.bitmap(field).octets.to_vec(alloc)?),
        section7: List::of(section7.octets.to_vec(alloc)?),
    })
}

/// The form of a field, counted from 1, that this packing writes, or the best of its own form and the packings after this
/// one. It is the packing where nothing fails to fit, and it has fewer octets than `limit`, those of the own form,
/// and no more than the best. Sections that a quick look shows to have more are not written at all.
///
/// # Errors
///
/// There is no memory.
fn or_packed(
    alloc: Global,
    message: &ReadableMessage<'_>,
    field: u32,
    column: &Column,
    target: RepackTarget,
    limit: u64,
    best: Packed,
) -> Result<Packed, AllocError>
    requires first { 1 ≤ field }
    requires last { field ≤ field_count message.now }
    requires is { column.now ≡ column_of message.now field }
    requires column { MayBePacked column.now }
    requires target { IsTarget (target_of target) }
    requires short { IsShort best }
    ensures form { IfOk result (λ form.
        form ≡ or_form limit (form_of (column_of message.now field) (kind_of message.now field) (target_of target)) best) }
    ensures short { IfOk result IsShort }
{
    a_packing_is_written();
    one_packing_is_written();
    are_octets(message.octets());
    let most = limit.min(size(&best) + 1);
    match pack_field(alloc, message, field, Some(column), target, Some(most)) {
        Ok(Some(form)) => Ok(or_earlier(limit, form, best)),
        Ok(None) => Ok(best),
        Err(PackFault::Memory) => Err(AllocError),
        Err(_) => Ok(best),
    }
}

/// A form where it has fewer octets than `limit` and no more than the best of those after it; else that best.
fn or_earlier(limit: u64, form: Packed, best: Packed) -> Packed
    requires form { IsShort form }
    requires best { IsShort best }
    ensures earlier { result ≡ earlier.or_earlier limit form best }
    ensures short { IsShort result }
{
    if size(&form) < limit {
        smaller(form, best)
    } else {
        best
    }
}

/// The smaller of two forms, the first of equal ones.
fn smaller(best: Packed, form: Packed) -> Packed
    requires best { IsShort best }
    requires form { IsShort form }
    ensures smaller { result ≡ definitions.smaller best form }
    ensures short { IsShort result }
{
    if size(&form) < size(&best) {
        form
    } else {
        best
    }
}

/// How many octets the sections of a form have.
fn size(form: &Packed) -> u64
    requires { IsShort form.now }
    ensures { result ≡ size_of form.now }
{
    form.section5.as_slice().len() as u64
        + form.section6.as_slice().len() as u64
        + form.section7.as_slice().len() as u64
}
