//! The losses of Section 1 and of the flags of Section 2.

ghost use Rattle.std.specs.Prelude.{◌≡◌, ◌≤◌, true, false, Some, None, length, MatchResult};
ghost use Rattle.grib1_sections.specs.Keys.{key_in};
ghost use Rattle.grib_keys.specs.declared.key1.Key1.TheVariants.{P1, P2, TimeRange};
ghost use Rattle.grib_migrate.specs.Losses as losses;
ghost use Rattle.grib_migrate.specs.Losses.{chosen_losses, first_of, loses_date};
ghost use Rattle.grib_migrate.specs.Chosen as chosen;
ghost use Rattle.grib_migrate.specs.Source as source;
ghost use Rattle.grib_migrate.specs.Times as times;
ghost use Rattle.grib_migrate.specs.Grids as grids;
ghost use Rattle.grib_migrate.specs.Checked.{IsProduct, end_in};

use crate::Loss;
use crate::date::{Moment, is_civil, later, reference_time};
use crate::labels::{Local, Member, loses_local, member_of};
use crate::level::{Surfaces, surfaces_named, surfaces_of};
use crate::time::{Unit, is_instant, is_interval, loses_range, unit_of};
use grib_bits::{u8_at, u16_at};
use grib_params::{SurfaceTable, SurfaceTarget, Table, Target};

/// What Section 1 gives a product of edition 2.
#[derive(Clone, Copy, Debug)]
pub(crate) struct Product {
    pub target: Target,
    pub surfaces: Surfaces,
    /// The member of an ensemble, where labels say so.
    pub member: Option<Member>,
    pub unit: Unit,
    /// The end of the interval, for a time range from P1 to P2.
    pub end: Option<Moment>,
}

/// What Section 1 gives, or the first thing of it, or of the flags of Section 2, that would be lost.
pub(crate) fn check(
    section1: &[u8],
    section2: &[u8],
    table: &Table,
    surfaces: &SurfaceTable,
    local: Local,
) -> Result<Product, Loss>
    requires identification { 28 ≤ length section1.now }
    requires grid { 32 ≤ length section2.now }
    ensures { MatchResult result
        (λ product. (first_of (chosen_losses table.now surfaces.now local section1.now section2.now) ≡ None)
        × IsProduct table.now surfaces.now local section1.now product)
        (λ loss. first_of (chosen_losses table.now surfaces.now local section1.now section2.now)
        ≡ Some loss) }
{
    let named = named_in(section1, surfaces);
    let Some(target) = target_by(section1, table, &named) else {
        return Err(Loss::Parameter);
    };
    let Some(surfaces) = surfaces_by(section1, &named) else {
        return Err(Loss::LevelType);
    };
    let Some(unit) = unit_of(section1) else {
        return Err(Loss::TimeUnit);
    };
    if loses_range(section1) {
        return Err(Loss::TimeRange);
    }
    let end = end_of(section1, &unit)?;
    if loses_average(section1) {
        return Err(Loss::AverageCount);
    }
    if loses_local(section1, local) {
        return Err(Loss::LocalUse);
    }
    if has_other_flags(section2) {
        return Err(Loss::GridFlags);
    }
    let member = member_of(section1, local);
    Ok(Product {
        target,
        surfaces,
        member,
        unit,
        end,
    })
}

/// What the table of surfaces has for this Section 1.
fn named_in(section1: &[u8], surfaces: &SurfaceTable) -> Option<SurfaceTarget>
    requires { 28 ≤ length section1.now }
    ensures { result ≡ chosen.named_in surfaces.now section1.now }
{
    surfaces.lookup(
        u8_at(section1, 5),
        u8_at(section1, 4),
        u8_at(section1, 9),
        u8_at(section1, 10),
        u16_at(section1, 11),
    )
}

/// The parameter of edition 2, by what the table of surfaces has, else by the parameter table.
fn target_by(section1: &[u8], table: &Table, named: &Option<SurfaceTarget>) -> Option<Target>
    requires { 28 ≤ length section1.now }
    ensures { result ≡ chosen.target_by table.now named.now section1.now }
{
    match named {
        Some(named) => Some(named.target),
        None => target_in(section1, table),
    }
}

/// What the parameter table has for this Section 1.
fn target_in(section1: &[u8], table: &Table) -> Option<Target>
    requires { 28 ≤ length section1.now }
    ensures { result ≡ source.target_in table.now section1.now }
{
    table.lookup(u8_at(section1, 5), u8_at(section1, 4), u8_at(section1, 9))
}

/// The fixed surfaces, by what the table of surfaces has, else by the type of level, if nothing of
/// it is lost.
fn surfaces_by(section1: &[u8], named: &Option<SurfaceTarget>) -> Option<Surfaces>
    requires { 28 ≤ length section1.now }
    ensures { result ≡ chosen.surfaces_by named.now section1.now }
{
    match named {
        Some(named) => Some(surfaces_named(named)),
        None => surfaces_of(section1),
    }
}

/// The end of the interval, for a time range from P1 to P2, or the loss where a date is none of years 1 to
/// 9999.
fn end_of(section1: &[u8], unit: &Unit) -> Result<Option<Moment>, Loss>
    requires long { 28 ≤ length section1.now }
    requires unit { times.unit_of section1.now ≡ Some unit.now }
    requires few { unit.now.seconds ≤ 86400 }
    ensures { MatchResult result
        (λ end. (loses_date section1.now ≡ false) × (end ≡ end_in section1.now unit.now.seconds))
        (λ loss. (loses_date section1.now ≡ true) × (loss ≡ Loss.Date)) }
{
    let start = reference_time(section1);
    if !is_civil(start) {
        return Err(Loss::Date);
    }
    if !is_interval(u8_at(section1, 21)) {
        return Ok(None);
    }
    let seconds = u32::from(u8_at(section1, 20)) * unit.seconds;
    let end = later(start, seconds).ok_or(Loss::Date)?;
    Ok(Some(end))
}

/// Whether the field is an average of several, or fields are missing at a point in time.
fn loses_average(section1: &[u8]) -> bool
    requires { 28 ≤ length section1.now }
    ensures { result ≡ losses.loses_average section1.now }
{
    u16_at(section1, 22) > 1 || (u8_at(section1, 24) != 0 && is_instant(u8_at(section1, 21)))
}

/// Whether a flag of the grid, or of its scanning mode, has no place.
fn has_other_flags(section2: &[u8]) -> bool
    requires { 32 ≤ length section2.now }
    ensures { result ≡ grids.has_other_flags section2.now }
{
    let flags = u8_at(section2, 17);
    flags / 16 % 4 != 0 || flags % 8 != 0 || u8_at(section2, 28) % 32 != 0
}
