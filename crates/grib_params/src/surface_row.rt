//! What a record of a table of surfaces says.

ghost use Rattle.std.specs.Prelude.{◌≡◌};
ghost use Rattle.std.specs.Option.{option_and_then};
ghost use Rattle.csv.specs.Records.{field_at, fields_of};
ghost use Rattle.grib_params.specs.Fields as fields;
ghost use Rattle.grib_params.specs.SurfaceRows as rows;

use crate::number::{long_number_in, number_in, short_number_in};
use crate::row::{Key, Target, centre_of, number_at};
use csv::ByteRecord;

/// What a target is kept under: centre, version and parameter; the type of level; the level, `None` for
/// every level.
pub(crate) type SurfaceKey = (Key, u8, Option<u16>);

/// What a parameter of edition 1 whose name says its level is in edition 2: the parameter, and the first
/// fixed surface (Section 4, octets 23 to 28): its type, how many decimal places the scaled value has, 255
/// where that is missing, and the scaled value, all ones where it is missing.
#[derive(Clone, Copy, Debug, PartialEq, Eq)]
pub struct SurfaceTarget {
    pub target: Target,
    pub kind: u8,
    pub scale_factor: u8,
    pub scaled_value: u32,
}

/// The level of a record, `None` for every level.
fn level_of(given: &ByteRecord) -> Option<Option<u16>>
    ensures { result ≡ option_and_then rows.level_in (field_at (fields_of given.now) 4) }
{
    let field = given.get(4)?;
    if field == b"*".as_slice() {
        return Some(None);
    }
    Some(Some(short_number_in(field)?))
}

/// The scale factor of a record, 255 where it is missing.
fn scale_of(given: &ByteRecord) -> Option<u8>
    ensures { result ≡ option_and_then rows.scale_in (field_at (fields_of given.now) 11) }
{
    let field = given.get(11)?;
    if field == b"-".as_slice() {
        return Some(u8::MAX);
    }
    number_in(field)
}

/// The scaled value of a record, all ones where it is missing.
fn value_of(given: &ByteRecord) -> Option<u32>
    ensures { result ≡ option_and_then rows.value_in (field_at (fields_of given.now) 12) }
{
    let field = given.get(12)?;
    if field == b"-".as_slice() {
        return Some(u32::MAX);
    }
    long_number_in(field)
}

/// The key of a record of thirteen fields.
fn key_of(given: &ByteRecord) -> Option<SurfaceKey>
    ensures { result ≡ rows.surface_key_from
        (option_and_then fields.centre_in (field_at (fields_of given.now) 0))
        (option_and_then fields.number_in (field_at (fields_of given.now) 1))
        (option_and_then fields.number_in (field_at (fields_of given.now) 2))
        (option_and_then fields.number_in (field_at (fields_of given.now) 3))
        (option_and_then rows.level_in (field_at (fields_of given.now) 4)) }
{
    let key = (
        centre_of(given)?,
        number_at(given, 1)?,
        number_at(given, 2)?,
    );
    Some((key, number_at(given, 3)?, level_of(given)?))
}

/// The parameter of edition 2 of a record of thirteen fields.
fn target_of(given: &ByteRecord) -> Option<Target>
    ensures { result ≡ rows.target_from
        (option_and_then fields.number_in (field_at (fields_of given.now) 5))
        (option_and_then fields.number_in (field_at (fields_of given.now) 6))
        (option_and_then fields.number_in (field_at (fields_of given.now) 7))
        (option_and_then fields.number_in (field_at (fields_of given.now) 8))
        (option_and_then fields.number_in (field_at (fields_of given.now) 9)) }
{
    Some(Target {
        discipline: number_at(given, 5)?,
        category: number_at(given, 6)?,
        number: number_at(given, 7)?,
        master: number_at(given, 8)?,
        local: number_at(given, 9)?,
    })
}

/// The row of a record; `None` where it does not have thirteen fields, as they are listed at `SurfaceTable::read`.
#[tactic(auto, using(crate::proofs::SurfaceRows::of_thirteen, crate::proofs::SurfaceRows::of_others))]
pub(crate) fn surface_row_of(given: &ByteRecord) -> Option<(SurfaceKey, SurfaceTarget)>
    ensures { result ≡ rows.surface_row_in (fields_of given.now) }
{
    if given.len() != 13 {
        return None;
    }
    let key = key_of(given)?;
    let target = SurfaceTarget {
        target: target_of(given)?,
        kind: number_at(given, 10)?,
        scale_factor: scale_of(given)?,
        scaled_value: value_of(given)?,
    };
    Some((key, target))
}
