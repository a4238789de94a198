//! Why a message that is accepted is not changed as asked.

ghost use Rattle.std.specs.Prelude.{Some};
ghost use Rattle.grib_reasons.specs.Causes.{cause_text};

use crate::demotion::Demotion;
use crate::loss::Loss;
use grib_keys::{Key, Key1};
use std::fmt;

/// Why a message that is accepted is not changed or printed as asked: what of it would be lost first. Fields
/// are counted from 1 in their message, and grid points from 1 in their field.
#[derive(Clone, Copy, Debug, PartialEq, Eq)]
pub enum Cause {
    /// It is of edition 1, and the command changes messages of edition 2.
    EditionOne,
    /// It is of edition 2, and the command changes numbers of messages of edition 1.
    EditionTwo,
    /// The packing has no code for a secondary missing value.
    SecondaryMissing { field: u32, point: u32 },
    /// The packing has no room for a scaled integer.
    OutOfRange { field: u32, point: u32 },
    /// The packing has no room for the spatial differences.
    DifferenceRange { field: u32 },
    /// The new message would have this many octets, more than a message may have.
    OutputTooLong(u64),
    /// The new value of a key does not fit the octets of its place.
    KeyRange { key: Key },
    /// The same of a key of edition 1.
    KeyRange1 { key: Key1 },
    /// A field has no such key.
    KeyAbsent { field: u32, key: Key },
    /// Something of a message of edition 1 has no place in edition 2.
    Lost(Loss),
    /// Something of a field of edition 2 has no place in edition 1.
    Demoted { field: u32, loss: Demotion },
    /// The grid is not of template 3.0, or has a list of numbers of points.
    GridKind { field: u32 },
    /// The scanning mode is one that the command does not take.
    ScanMode { field: u32 },
    /// The subarea reaches beyond the last column or row of the grid.
    OutsideBox { field: u32 },
    /// The corners of the grid are not told by its increments.
    Increments { field: u32 },
    /// A value is too large, or too small, to be printed as a decimal.
    DecimalRange { field: u32, point: u32 },
    /// The values of a field cannot be read: its packing, by this data representation template (code table
    /// 5.0), is opaque.
    Packing { template: u16, field: u32 },
    /// The reference time would be no date and time.
    Date,
}

impl fmt::Display for Cause {
    ghost output = { λ cause. Some (cause_text cause) };

    fn fmt<W: fmt::Write>(&self, f: &mut fmt::Formatter<W>) -> fmt::Result {
        match *self {
            Cause::EditionOne => f.write_str("EditionOne"),
            Cause::EditionTwo => f.write_str("EditionTwo"),
            Cause::SecondaryMissing { field, point } => {
                write!(f, "SecondaryMissing field {field} point {point}")
            }
            Cause::OutOfRange { field, point } => {
                write!(f, "OutOfRange field {field} point {point}")
            }
            Cause::DifferenceRange { field } => write!(f, "DifferenceRange field {field}"),
            Cause::OutputTooLong(length) => write!(f, "OutputTooLong {length}"),
            Cause::KeyRange { key } => write!(f, "KeyRange {key}"),
            Cause::KeyRange1 { key } => write!(f, "KeyRange {key}"),
            Cause::KeyAbsent { field, key } => write!(f, "KeyAbsent {key} field {field}"),
            Cause::Lost(loss) => write!(f, "Loss {loss}"),
            Cause::Demoted { field, loss } => write!(f, "Demotion {loss} field {field}"),
            Cause::GridKind { field } => write!(f, "GridKind field {field}"),
            Cause::ScanMode { field } => write!(f, "ScanMode field {field}"),
            Cause::OutsideBox { field } => write!(f, "OutsideBox field {field}"),
            Cause::Increments { field } => write!(f, "Increments field {field}"),
            Cause::DecimalRange { field, point } => {
                write!(f, "DecimalRange field {field} point {point}")
            }
            Cause::Packing { template, field } => write!(f, "Packing {template} field {field}"),
            Cause::Date => f.write_str("Date"),
        }
    }
}

/// A message that is accepted and cannot be changed or printed as asked.
#[derive(Clone, Copy, Debug, PartialEq, Eq)]
pub struct Kept {
    /// The message's number in the input, from 1.
    pub message: u64,
    /// Why.
    pub cause: Cause,
}
