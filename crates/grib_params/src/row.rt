//! What a record of the table says.

ghost use Rattle.std.specs.Prelude.{◌≡◌};
ghost use Rattle.std.specs.Option.{option_and_then};
ghost use Rattle.csv.specs.Records.{field_at, fields_of};
ghost use Rattle.grib_params.specs.Fields as fields;

use crate::number::number_in;
use csv::ByteRecord;

/// What a target is kept under: the centre, `None` for every centre; the version; the parameter.
pub(crate) type Key = (Option<u8>, u8, u8);

/// What a parameter of edition 1 is in edition 2: the discipline (Section 0, octet 7), the category and
/// the number (Section 4, octets 10 and 11), and the versions of the master and the local tables
/// (Section 1, octets 10 and 11).
#[derive(Clone, Copy, Debug, PartialEq, Eq)]
pub struct Target {
    pub discipline: u8,
    pub category: u8,
    pub number: u8,
    pub master: u8,
    pub local: u8,
}

/// The number from 0 to 255 of the field at a place, counted from 0; `None` where it spells none, or there is no such field.
pub fn number_at(given: &ByteRecord, place: usize) -> Option<u8>
    ensures { result ≡ option_and_then fields.number_in (field_at (fields_of given.now) place) }
{
    number_in(given.get(place)?)
}

/// The centre of a record, `None` for every centre.
pub(crate) fn centre_of(given: &ByteRecord) -> Option<Option<u8>>
    ensures { result ≡ option_and_then fields.centre_in (field_at (fields_of given.now) 0) }
{
    let field = given.get(0)?;
    if field == b"*".as_slice() {
        return Some(None);
    }
    Some(Some(number_in(field)?))
}

/// The row of a record; `None` where it does not have eight fields, the first a centre or `*` and each other a
/// number.
#[tactic(auto, using(crate::proofs::Rows::of_eight, crate::proofs::Rows::of_others))]
pub(crate) fn row_of(given: &ByteRecord) -> Option<(Key, Target)>
    ensures { result ≡ fields.row_in (fields_of given.now) }
{
    if given.len() != 8 {
        return None;
    }
    let key = (
        centre_of(given)?,
        number_at(given, 1)?,
        number_at(given, 2)?,
    );
    let target = Target {
        discipline: number_at(given, 3)?,
        category: number_at(given, 4)?,
        number: number_at(given, 5)?,
        master: number_at(given, 6)?,
        local: number_at(given, 7)?,
    };
    Some((key, target))
}
