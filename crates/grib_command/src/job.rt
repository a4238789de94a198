//! What is to be done with an input.

use crate::name::Name;
use crate::page::Page;
use grib_base::{List, Profile};
use grib_dates::Dates;
use grib_migrate::Local;
use grib_nearest::Format;
use grib_packing::RepackTarget;
use grib_params::TableMatch;
use grib_rescan::{Area, Bounds};
use grib_select::{Change, Wanted};
use grib_text::{Columns, LineForm};
use grib1_select::{Change1, Wanted1};

/// Keys with what is asked of their values.
pub type Conditions = List<Wanted>;

/// Keys with the values that they are to have.
pub type Changes = List<Change>;

/// The same of keys of edition 1.
pub type Conditions1 = List<Wanted1>;

/// The same of keys of edition 1.
pub type Changes1 = List<Change1>;

/// What is to be done with the messages of an input, or without one.
#[derive(Debug, Drop)]
pub enum Job {
    /// A line for each message, and at the end a line on the whole input.
    Check,
    /// A line for each field.
    List,
    /// A line for each field with each key that the field has.
    Keys,
    /// A line for each field, of this form, with these columns and, where a table of names stands on the shelf under
    /// this name, with the name of the field's parameter.
    Lines {
        form: LineForm,
        columns: Columns,
        names: Option<Name>,
    },
    /// For each field how many of its points are present and missing, its least and its greatest
    /// scaled integer, and its reference line.
    Stats,
    /// For each field its list line, its reference line, and a line for each grid point, with its
    /// scaled integer or with its value as a decimal of this many places.
    Dump {
        decimals: Option<u32>,
        /// Whether the latitude and the longitude of a point stand after its number.
        placed: bool,
    },
    /// For each field an array of its values, each the nearest number of this format, in the form .npy of NumPy.
    Values(Format),
    /// For each field two arrays, of the latitudes and of the longitudes of its points, in the form .npy of NumPy.
    Coordinates,
    /// For each field a line that says whether it is the same as its counterpart in the file that stands on the shelf
    /// under this name, and at the end a line on all fields of both.
    Compare {
        file: Name,
        /// Whether Sections 1 to 4 have to be the same octets too.
        sections: bool,
        /// Whether fields that are the same have no line.
        quiet: bool,
    },
    /// Each message whose fields all fulfil the conditions, and of another one each field that does, as a
    /// message of its own.
    Filter(Conditions),
    /// The same of messages whose fields fulfil the conditions and have a parameter of one of these names, by the table
    /// of names that stands on the shelf under this name.
    FilterNamed {
        conditions: Conditions,
        names: Name,
        wanted: List<Name>,
    },
    /// Each message of edition 1 that fulfils the conditions.
    Filter1(Conditions1),
    /// Each field as a message of its own, on the shelf under this name with its number behind a `.`; those of
    /// edition 1 too where they are asked for.
    Split {
        name: Name,
        edition_1: bool,
    },
    /// Each message of edition 2 with new values of some keys.
    Set {
        changes: Changes,
        dates: Dates,
    },
    /// Each message of edition 1 with new values of some keys.
    Set1 {
        changes: Changes1,
        dates: Dates,
    },
    /// Each message with its fields packed anew.
    Repack(RepackTarget),
    /// Each message with each of its fields in the packing of this profile that takes the fewest octets, or as it is.
    RepackLeast(Profile),
    /// Each message with the points of its grids in the order of scanning octet 0.
    Rescan,
    /// Each message with a subarea of its grids alone.
    Crop(Area),
    /// Each message with the points of its grids alone that lie within these bounds.
    Within(Bounds),
    /// Each message of edition 1 as one of edition 2, by the tables that stand on the shelf under these names, and
    /// each message of edition 2 as it is.
    Migrate {
        params: Name,
        /// The table of surfaces, where one is asked for.
        surfaces: Option<Name>,
        /// What becomes of the octets for the centre's own use.
        local: Local,
    },
    /// Each field of a message of edition 2 as a message of edition 1, by the table that stands on the shelf under
    /// this name, and each message of edition 1 as it is.
    Demote {
        params: Name,
        /// Whether octets for the centre's own use are preserved.
        keep_local: bool,
        /// Whether the shape of the earth is not told where edition 1 has no place for it.
        any_earth: bool,
        /// Whether a record of the table needs to have the versions of the message's own tables.
        matching: TableMatch,
    },
    /// A message of `nj` rows of `ni` points, made from the number `seed`, with its field packed anew. No
    /// input is read.
    Make {
        seed: u32,
        ni: u32,
        nj: u32,
        target: RepackTarget,
    },
    /// This page. No input is read.
    Print(Page),
}
