//! Groups of complex packing.
#![tactic(auto)]

mod decoding;
mod encoding;
pub mod laws;
mod measuring;

pub use decoding::decode_groups;
pub use encoding::{encode_groups, encode_measured_groups, encode_same};
pub use grib_group_reading::{
    CodeRun, Fed, FedLists, Lengths, Lists, References, RunTaker, Table, Taker, Widths, lists_fit,
    octets_of, octets_of_lists, part_of, plain_layout, rest_of, take_each,
};
pub use grib_packing::{Group, Layout};
pub use measuring::{Measure, later_measures, measures_of, next_measure};
