//! The numbers that the octets of keys make.

ghost use Rattle.std.specs.Prelude.{◌≡◌, ◌*◌, ◌^◌, ◌<◌, ◌≤◌, ◌==◌, IfSome};
ghost use Rattle.grib_select.specs.Values.{is_all_ones as all_ones};
ghost use Rattle.grib_select.specs.Changed as definitions;
ghost use Rattle.grib_select.specs.Changed.{key_octets};

use grib_bits::raw_of;
use grib_keys::{Change, Key, Kind, Layout, Value};

/// The number that the octets of the key are to make, `None` where the value does not fit.
pub(crate) fn new_number(change: &Change) -> Option<u64>
    ensures number { result ≡ definitions.new_number change.now }
    ensures fits { IfSome result (λ raw. raw < 256 ^ key_octets change.now.key) }
{
    let key = change.key;
    let kind = key.row().kind;
    let octets = octets_of(key);
    match change.value {
        Value::Number(x) => unless_missing(kind, octets, number_of(x, kind.is_signed, octets)),
        Value::Missing => missing(kind, octets),
    }
}

/// How many octets the number of the key has, in each layout that has the key.
fn octets_of(key: Key) -> u32
    ensures count { result ≡ key_octets key }
    ensures some { 1 ≤ result }
    ensures few { result ≤ 4 }
{
    let row = key.row();
    let Some(place) = row.place.octets(Layout::full(row.section)) else {
        unreachable!();
    };
    place.count() as u32
}

/// The number of all ones, where it means that a number of this kind is missing.
fn missing(kind: Kind, octets: u32) -> Option<u64>
    requires some { 1 ≤ octets }
    requires few { octets ≤ 4 }
    ensures number { result ≡ definitions.missing_number kind octets }
    ensures fits { IfSome result (λ raw. raw < 256 ^ octets) }
{
    if kind.may_be_missing {
        Some((1 << (8 * octets)) - 1)
    } else {
        None
    }
}

/// The number, unless it means that a number of this kind is missing.
fn unless_missing(kind: Kind, octets: u32, number: Option<u64>) -> Option<u64>
    requires some { 1 ≤ octets }
    requires few { octets ≤ 4 }
    requires fits { IfSome number (λ raw. raw < 256 ^ octets) }
    ensures number { result ≡ definitions.unless_missing kind.may_be_missing octets number }
    ensures fits { IfSome result (λ raw. raw < 256 ^ octets) }
{
    let raw = number?;
    if kind.may_be_missing && is_all_ones(raw, octets) {
        return None;
    }
    Some(raw)
}

/// Whether all bits of a number of this many octets are 1.
pub(crate) fn is_all_ones(number: u64, octets: u32) -> bool
    requires few { octets ≤ 4 }
    requires fits { number < 256 ^ octets }
    ensures { result ≡ all_ones octets number }
{
    number + 1 == 1 << (8 * octets)
}

/// The number that this many octets make where they hold `x`, with a sign or without.
fn number_of(x: i64, is_signed: bool, octets: u32) -> Option<u64>
    requires some { 1 ≤ octets }
    requires few { octets ≤ 4 }
    ensures number { result ≡ definitions.number_of is_signed octets x }
    ensures fits { IfSome result (λ raw. raw < 256 ^ octets) }
{
    let width = 8 * octets;
    if is_signed {
        return raw_of(x, width);
    }
    let magnitude = x.unsigned_abs();
    if x < 0 || magnitude >= 1 << width {
        return None;
    }
    Some(magnitude)
}
