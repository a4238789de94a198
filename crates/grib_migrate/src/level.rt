//! Levels as fixed surfaces.

ghost use Rattle.std.specs.Prelude.{◌≡◌, ◌≤◌, ◌<◌, ◌^◌, length};
ghost use Rattle.grib_migrate.specs.Chosen as chosen;
ghost use Rattle.grib_migrate.specs.Levels as levels;

use grib_bits::{u8_at, u16_at};
use grib_params::SurfaceTarget;

/// A fixed surface: its type (code table 4.5), and its value by a scale factor and a scaled value.
#[derive(Clone, Copy, Debug)]
pub struct Surface {
    /// The type, 255 where there is no fixed surface.
    pub kind: u8,
    /// How many decimal places the scaled value has, 255 where it is missing.
    pub scale_factor: u8,
    /// The value without its decimal point, all ones where it is missing.
    pub scaled_value: u32,
}

/// The first and the second fixed surface of a product.
#[derive(Clone, Copy, Debug)]
pub struct Surfaces {
    /// The fixed surface, or the top of a layer.
    pub first: Surface,
    /// The bottom of a layer.
    pub second: Surface,
}

/// The fixed surface of this kind at `scaled_value / 10^scale_factor`.
fn valued(kind: u8, scale_factor: u8, scaled_value: u32) -> Surface
    ensures { result ≡ levels.surface kind scale_factor scaled_value }
{
    Surface {
        kind,
        scale_factor,
        scaled_value,
    }
}

/// The fixed surface of a kind that has no value.
fn bare(kind: u8) -> Surface
    ensures { result ≡ levels.bare kind }
{
    valued(kind, u8::MAX, u32::MAX)
}

/// A first fixed surface without a second.
fn one(first: Surface) -> Surfaces
    ensures { result ≡ levels.one_surface first }
{
    Surfaces {
        first,
        second: bare(u8::MAX),
    }
}

/// The two fixed surfaces of a layer.
fn layer(kind: u8, scale_factor: u8, top: u32, bottom: u32) -> Surfaces
    ensures { result ≡ levels.surfaces (levels.surface kind scale_factor top)
        (levels.surface kind scale_factor bottom) }
{
    Surfaces {
        first: valued(kind, scale_factor, top),
        second: valued(kind, scale_factor, bottom),
    }
}

/// The fixed surfaces of a type of level with this number, or with this top and bottom, if it has
/// any.
pub fn surfaces_at(level_type: u8, level: u32, top: u32, bottom: u32) -> Option<Surfaces>
    requires level { level < 2 ^ 16 }
    requires top { top < 2 ^ 8 }
    requires bottom { bottom < 2 ^ 8 }
    ensures { result ≡ levels.surfaces_at level_type level top bottom }
{
    Some(match level_type {
        1 | 2 | 3 | 4 | 5 | 6 | 7 | 8 | 9 => one(bare(level_type)),
        100 => one(valued(100, 0, 100 * level)),
        101 => layer(100, 0, 1000 * top, 1000 * bottom),
        102 => one(bare(101)),
        103 => one(valued(102, 0, level)),
        104 => layer(102, 0, 100 * top, 100 * bottom),
        105 => one(valued(103, 0, level)),
        106 => layer(103, 0, 100 * top, 100 * bottom),
        107 => one(valued(104, 4, level)),
        108 => layer(104, 2, top, bottom),
        109 => one(valued(105, 0, level)),
        110 => layer(105, 0, top, bottom),
        111 => one(valued(106, 2, level)),
        112 => layer(106, 2, top, bottom),
        113 => one(valued(107, 0, level)),
        _ => return None,
    })
}

/// The fixed surfaces of this Section 1, if nothing of its level is lost.
pub(crate) fn surfaces_of(section1: &[u8]) -> Option<Surfaces>
    requires { 28 ≤ length section1.now }
    ensures { result ≡ levels.surfaces_of section1.now }
{
    let level_type = u8_at(section1, 10);
    let level = u16_at(section1, 11);
    let lacks_number = matches!(level_type, 1..=9 | 102);
    if lacks_number && level != 0 {
        return None;
    }
    let top = u8_at(section1, 11);
    let bottom = u8_at(section1, 12);
    surfaces_at(
        level_type,
        u32::from(level),
        u32::from(top),
        u32::from(bottom),
    )
}

/// The fixed surface that a record of a table of surfaces has, without a second.
pub(crate) fn surfaces_named(named: &SurfaceTarget) -> Surfaces
    ensures { result ≡ chosen.named_surfaces named.now }
{
    one(valued(named.kind, named.scale_factor, named.scaled_value))
}
