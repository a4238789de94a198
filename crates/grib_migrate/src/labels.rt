//! Octets for local use: what becomes of them, and the labels that ECMWF has there.

ghost use Rattle.std.specs.Prelude.{◌≡◌, ◌≤◌, ◌++◌, true, length, OnOk};
ghost use Rattle.grib_bits.specs.Encoding.{section_of, all_octets};
ghost use Rattle.grib1_sections.specs.Frame.{section_length};
ghost use Rattle.grib_migrate.specs.Source as source;
ghost use Rattle.grib_migrate.specs.declared.labels.Local.TheVariants as chosen;
ghost use Rattle.grib_migrate.specs.Labels as labels;

use grib_bits::Number::{Four, Two};
use grib_bits::{add_numbers, add_section, add_section_head, u8_at, u16_at, u32_at};
use std::alloc::AllocError;

/// What becomes of octets 41 and further of Section 1, which are for local use.
#[derive(Clone, Copy, Debug, PartialEq, Eq)]
pub enum Local {
    /// They are a loss.
    Refuse,
    /// Section 2 has them as they stand.
    Keep,
    /// Labels of ECMWF's archive (its local definition 1) are written as edition 2 has them: class, type,
    /// stream and the experiment's version in Section 2, and the member of an ensemble in the product. All
    /// others are a loss.
    Ecmwf,
}

/// A member of an ensemble.
#[derive(Clone, Copy, Debug)]
pub struct Member {
    /// The number of the member.
    pub number: u8,
    /// How many members the ensemble has.
    pub size: u8,
}

/// How many octets a Section 1 with these labels has.
const LABELLED_LENGTH: usize = 52;

/// ECMWF among the centres.
const ECMWF: u8 = 98;

/// The types of the mean and of the standard deviation of an ensemble.
const MEAN: u8 = 17;

const DEVIATION: u8 = 18;

/// What is chosen by whether octets for local use are preserved.
pub(crate) fn kept_where(keep_local: bool) -> Local
    ensures { result ≡ labels.kept_where keep_local }
{
    if keep_local {
        Local::Keep
    } else {
        Local::Refuse
    }
}

/// Whether Section 1 has octets for local use.
fn has_local(section1: &[u8]) -> bool
    ensures { result ≡ source.has_local section1.now }
{
    section1.len() > 40
}

/// Whether these are labels of ECMWF's archive, and edition 2 has a place for each.
fn has_labels(section1: &[u8]) -> bool
    ensures labels { result ≡ labels.has_labels section1.now }
    ensures long { result ≡ true → length section1.now ≡ 52 }
{
    section1.len() == LABELLED_LENGTH
        && u8_at(section1, 5) == ECMWF
        && u8_at(section1, 41) == 1
        && !is_derived(u8_at(section1, 43))
}

/// Whether a type of field is the mean or the standard deviation of an ensemble.
fn is_derived(type_of_field: u8) -> bool
    ensures { result ≡ labels.is_derived type_of_field }
{
    type_of_field == MEAN || type_of_field == DEVIATION
}

/// Whether Section 2 is written.
fn writes_local(section1: &[u8], local: Local) -> bool
    ensures { result ≡ labels.writes_local local section1.now }
{
    match local {
        Local::Refuse => false,
        Local::Keep => has_local(section1),
        Local::Ecmwf => has_labels(section1),
    }
}

/// Whether octets for local use are there, and not written.
pub(crate) fn loses_local(section1: &[u8], local: Local) -> bool
    ensures { result ≡ labels.loses_local local section1.now }
{
    has_local(section1) && !writes_local(section1, local)
}

/// The member of an ensemble, where labels are written and it is one.
pub(crate) fn member_of(section1: &[u8], local: Local) -> Option<Member>
    ensures { result ≡ labels.member_by local section1.now }
{
    match local {
        Local::Ecmwf if has_labels(section1) => member_in(section1),
        _ => None,
    }
}

/// The member of an ensemble that the labels have, if they have one.
fn member_in(section1: &[u8]) -> Option<Member>
    requires { length section1.now ≡ 52 }
    ensures { result ≡ labels.member_in section1.now }
{
    let number = u8_at(section1, 50);
    let size = u8_at(section1, 51);
    if number == 0 && size == 0 {
        return None;
    }
    Some(Member { number, size })
}

/// Adds Section 2, where octets for local use are written.
pub(crate) fn add_local(section1: &[u8], local: Local, out: &mut Vec<u8>) -> Result<(), AllocError>
    requires long { 28 ≤ length section1.now }
    requires stands { section_length section1.now ≡ length section1.now }
    ensures { OnOk result (out.new.items ≡ out.old.items ++ labels.local_section_by local section1.now) }
{
    match local {
        Local::Refuse => Ok(()),
        Local::Keep => add_kept(section1, out),
        Local::Ecmwf => add_labels(section1, out),
    }
}

/// Adds Section 2 with the octets for local use as they stand, if there are any.
fn add_kept(section1: &[u8], out: &mut Vec<u8>) -> Result<(), AllocError>
    requires long { 28 ≤ length section1.now }
    requires stands { section_length section1.now ≡ length section1.now }
    ensures { OnOk result (out.new.items ≡ out.old.items ++ labels.local_section_by chosen.Keep section1.now) }
{
    if !has_local(section1) {
        return Ok(());
    }
    add_section(2, &section1[40..], out)
}

/// Adds Section 2 with the labels of ECMWF's archive, if they are there.
fn add_labels(section1: &[u8], out: &mut Vec<u8>) -> Result<(), AllocError>
    ensures { OnOk result (out.new.items ≡ out.old.items ++ labels.local_section_by chosen.Ecmwf section1.now) }
{
    if !has_labels(section1) {
        return Ok(());
    }
    add_section_head(2, 12, out)?;
    add_numbers(
        &[
            Two(1),
            Two(u32::from(u8_at(section1, 42))),
            Two(u32::from(u8_at(section1, 43))),
            Two(u32::from(u16_at(section1, 44))),
            Four(u32_at(section1, 46)),
        ],
        out,
    )
}
