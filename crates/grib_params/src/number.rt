//! Numbers as fields spell them.

ghost use Rattle.std.specs.Prelude.{◌≡◌};
ghost use Rattle.std.specs.Char.{is_ascii_digit};
ghost use Rattle.std.specs.List.{list_all};
ghost use Rattle.grib_params.specs.Fields as fields;

/// Whether all octets are digits.
fn are_digits(field: &[u8]) -> bool
    ensures { result ≡ list_all is_ascii_digit field.now }
{
    field.iter().all(|octet| octet.is_ascii_digit())
}

/// Whether the octets are digits, one at least, the first of them `0` only where it is the only one.
fn is_number(field: &[u8]) -> bool
    ensures { result ≡ fields.is_number field.now }
{
    if field.is_empty() || !are_digits(field) {
        return false;
    }
    field[0] != b'0' || field.len() == 1
}

/// The number from 0 to 4,294,967,295 that a field spells; `None` where it spells none.
pub(crate) fn long_number_in(field: &[u8]) -> Option<u32>
    ensures { result ≡ fields.long_number_in field.now }
{
    if !is_number(field) {
        return None;
    }
    let mut number: u32 = 0;
    for octet in field {
        number = number
            .checked_mul(10)?
            .checked_add(u32::from(octet - b'0'))?;
    }
    Some(number)
}

/// The number from 0 to 255 that a field spells; `None` where it spells none.
#[tactic(auto, using(crate::proofs::Numbers::none_shorter, crate::proofs::Numbers::shorter, crate::proofs::Numbers::not_shorter))]
pub(crate) fn number_in(field: &[u8]) -> Option<u8>
    ensures { result ≡ fields.number_in field.now }
{
    u8::try_from(long_number_in(field)?).ok()
}

/// The number from 0 to 65,535 that a field spells; `None` where it spells none.
#[tactic(auto, using(crate::proofs::Numbers::none_shorter, crate::proofs::Numbers::shorter, crate::proofs::Numbers::not_shorter))]
pub(crate) fn short_number_in(field: &[u8]) -> Option<u16>
    ensures { result ≡ fields.short_number_in field.now }
{
    u16::try_from(long_number_in(field)?).ok()
}
