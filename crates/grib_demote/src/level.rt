//! Fixed surfaces as levels.

ghost use Rattle.std.specs.Prelude.{◌≡◌, ◌+◌, ◌*◌, ◌^◌, ◌≤◌, ◌<◌, length, IfSome};
ghost use Rattle.grib_demote.specs.Levels as levels;
ghost use Rattle.grib_demote.specs.Held.{IsOne, AreOnes};

use grib_bits::{u8_at, u32_at};
use grib_migrate::{Surface, Surfaces, surfaces_at};

/// A level of edition 1.
#[derive(Clone, Copy, Debug)]
pub struct Level {
    /// The type of level: octet 10 of Section 1 (code table 3).
    pub level_type: u8,
    /// Its number: octets 11 and 12.
    pub number: u16,
}

/// The types of level that are migrated.
const LEVEL_TYPES: [u8; 23] = [
    1, 2, 3, 4, 5, 6, 7, 8, 9, 100, 101, 102, 103, 104, 105, 106, 107, 108, 109, 110, 111, 112, 113,
];

/// The level of this Section 4, if its fixed surfaces are those of one.
pub(crate) fn level_of(section4: &[u8]) -> Option<Level>
    requires { 34 ≤ length section4.now }
    ensures { result ≡ levels.level_of section4.now }
{
    let first = surface_at(section4, 23);
    let second = surface_at(section4, 29);
    level_among(&first, &second, &LEVEL_TYPES)
}

/// The fixed surface in the six octets from `first` on.
fn surface_at(section4: &[u8], first: usize) -> Surface
    requires counted { 1 ≤ first }
    requires near { first < 2 ^ 32 }
    requires within { first + 5 ≤ length section4.now }
    ensures { result ≡ levels.surface_at section4.now first }
{
    Surface {
        kind: u8_at(section4, first),
        scale_factor: u8_at(section4, first + 1),
        scaled_value: u32_at(section4, first + 2),
    }
}

/// The first level of these types with these fixed surfaces.
fn level_among(first: &Surface, second: &Surface, types: &[u8]) -> Option<Level>
    ensures { result ≡ levels.level_among first.now second.now types.now }
{
    for level_type in types {
        if let Some(level) = level_with(first, second, *level_type) {
            return Some(level);
        }
    }
    None
}

/// The level of this type with these fixed surfaces.
fn level_with(first: &Surface, second: &Surface, level_type: u8) -> Option<Level>
    ensures { result ≡ levels.level_with first.now second.now level_type }
{
    let one = surfaces_at(level_type, 1, 1, 1)?;
    let number = number_by(first, second, &one)?;
    Some(Level { level_type, number })
}

/// The number of a level with these fixed surfaces, where those of number 1, or of top 1 and bottom 1, are given.
fn number_by(first: &Surface, second: &Surface, one: &Surfaces) -> Option<u16>
    requires { AreOnes one.now }
    ensures { result ≡ levels.number_by first.now second.now one.now }
{
    if one.first.kind != first.kind || one.second.kind != second.kind {
        return None;
    }
    if one.first.scale_factor == u8::MAX {
        return is_bare(first).then_some(0);
    }
    if one.second.kind == u8::MAX {
        return number_below(65536, &one.first, first);
    }
    let top = number_below(256, &one.first, first)?;
    let bottom = number_below(256, &one.second, second)?;
    Some(256 * top + bottom)
}

/// Whether a fixed surface has no value.
fn is_bare(found: &Surface) -> bool
    ensures { result ≡ levels.is_bare found.now }
{
    (found.scale_factor == u8::MAX || found.scale_factor == 0)
        && (found.scaled_value == u32::MAX || found.scaled_value == 0)
}

/// The number below a limit that a fixed surface has, where that of number 1 is given.
fn number_below(limit: u32, one: &Surface, found: &Surface) -> Option<u16>
    requires one { IsOne one.now }
    requires limit { limit ≤ 65536 }
    ensures number { result ≡ levels.number_below limit one.now found.now }
    ensures below { IfSome result (λ number. number < limit) }
{
    let number = number_in(one, found)?;
    if number >= u128::from(limit) {
        return None;
    }
    Some(number as u16)
}

/// How often the value of a fixed surface has that of number 1.
fn number_in(one: &Surface, found: &Surface) -> Option<u128>
    requires { IsOne one.now }
    ensures { result ≡ levels.number_in one.now found.now }
{
    let places = found.scale_factor % 128;
    if found.scaled_value == u32::MAX || places > 9 {
        return None;
    }
    let is_negative = found.scale_factor > 127;
    let whole = u128::from(scaled(found.scaled_value, is_negative, places))
        * u128::from(ten_to(one.scale_factor));
    let part = u128::from(scaled(one.scaled_value, !is_negative, places));
    if whole % part != 0 {
        return None;
    }
    Some(whole / part)
}

/// A number, times 10 to this power where that applies.
fn scaled(number: u32, applies: bool, places: u8) -> u64
    requires { places ≤ 9 }
    ensures number { result ≡ number * levels.ten_to applies places }
    ensures some { 1 ≤ number → 1 ≤ result }
{
    if applies {
        u64::from(number) * u64::from(ten_to(places))
    } else {
        u64::from(number)
    }
}

/// 10 to this power.
fn ten_to(places: u8) -> u32
    requires { places ≤ 9 }
    ensures power { result ≡ 10 ^ places }
    ensures some { 1 ≤ result }
    ensures few { result ≤ 1000000000 }
{
    match places {
        0 => 1,
        1 => 10,
        2 => 100,
        3 => 1000,
        4 => 10_000,
        5 => 100_000,
        6 => 1_000_000,
        7 => 10_000_000,
        8 => 100_000_000,
        _ => 1_000_000_000,
    }
}
