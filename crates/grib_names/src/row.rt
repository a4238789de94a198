//! What a record of the table says.

ghost use Rattle.std.specs.Prelude.{◌≡◌, option_map, string_bytes};
ghost use Rattle.std.specs.List.{list_all};
ghost use Rattle.std.specs.Option.{option_and_then};
ghost use Rattle.csv.specs.Records.{field_at, fields_of};
ghost use Rattle.grib_names.specs.Rows as rows;

use csv::ByteRecord;
use grib_params::number_at;
use std::marker::Model;

/// The most octets of a name.
const MOST: usize = 32;

/// What a name is kept under: discipline, category and number.
pub(crate) type Numbers = (u8, u8, u8);

/// A name that contracts see as its octets.
#[derive(Debug, Drop)]
pub(crate) struct ShortName {
    text: String,
}

impl Model for ShortName {
    ghost use Rattle.std.specs.Prelude.{ℕ, List, string_bytes};

    ghost Value = { List ℕ };

    ghost view = { λ name. string_bytes name.text };
}

impl ShortName {
    /// This text as a name. It takes no memory.
    pub(crate) fn of(text: String) -> ShortName
        ensures { result ≡ string_bytes text }
    {
        ShortName { text }
    }

    /// The text.
    pub(crate) fn as_str(&self) -> &str
        ensures { result.now ≡ self.now }
    {
        self.text.as_str()
    }
}

/// Whether all octets are letters, digits, `_` or `-`.
fn are_name_octets(field: &[u8]) -> bool
    ensures { result ≡ list_all rows.is_name_octet field.now }
{
    field.iter().all(|octet| octet.is_ascii_alphanumeric() || *octet == b'_' || *octet == b'-')
}

/// Whether the octets are a name: 1 to 32 letters, digits, `_` and `-`.
pub fn is_name(field: &[u8]) -> bool
    ensures { result ≡ rows.is_name field.now }
{
    1 <= field.len() && field.len() <= MOST && are_name_octets(field)
}

/// The name of a field; `None` where it is none.
#[tactic(auto, using(crate::proofs::Names::is_text))]
fn name_in(field: &[u8]) -> Option<&str>
    ensures { option_map (λ name. name.now) result ≡ rows.name_in field.now }
{
    if !is_name(field) {
        return None;
    }
    match str::from_utf8(field) {
        Ok(name) => Some(name),
        Err(_) => unreachable!(),
    }
}

/// The numbers and the name of a record; `None` where it does not have four fields, the first three numbers from 0 to
/// 255 and the last a name.
#[tactic(auto, using(crate::proofs::Records::of_four, crate::proofs::Records::of_others))]
pub(crate) fn row_of(given: &ByteRecord) -> Option<(Numbers, &str)>
    ensures { option_map (λ row. (row.0, row.1.now)) result ≡ rows.name_row_in (fields_of given.now) }
{
    if given.len() != 4 {
        return None;
    }
    let numbers = (
        number_at(given, 0)?,
        number_at(given, 1)?,
        number_at(given, 2)?,
    );
    Some((numbers, name_in(given.get(3)?)?))
}
