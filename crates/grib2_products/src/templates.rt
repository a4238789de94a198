//! The parts of the product definition templates (WMO-No. 306, Volume I.2, FM 92 GRIB edition 2,
//! templates 4.0, 4.1, 4.8 and 4.11).
//!
//! Each field has the number of its octets as they stand. A field of all ones is missing.

use grib_base::List;

/// What all four templates share, and all that template 4.0 has: a product at a point in time.
#[derive(Clone, Copy, Debug, PartialEq, Eq)]
pub struct Instant {
    /// The parameter's category (code table 4.1): octet 10.
    pub category: u8,
    /// The parameter's number (code table 4.2): octet 11.
    pub number: u8,
    /// The type of generating process (code table 4.3): octet 12.
    pub process: u8,
    /// The background process, as the centre defines it: octet 13.
    pub background: u8,
    /// The generating process, as the centre defines it: octet 14.
    pub generator: u8,
    /// The hours after the reference time at which data were cut off: octets 15-16.
    pub cutoff_hours: u16,
    /// The minutes after those hours: octet 17.
    pub cutoff_minutes: u8,
    /// The unit of the forecast time (code table 4.4): octet 18.
    pub unit: u8,
    /// The forecast time in that unit, with its sign in the first bit: octets 19-22.
    pub time: u32,
    /// The type of the first fixed surface (code table 4.5): octet 23.
    pub surface1: u8,
    /// The scale factor of the first fixed surface, with its sign in the first bit: octet 24.
    pub scale1: u8,
    /// The scaled value of the first fixed surface: octets 25-28.
    pub value1: u32,
    /// The type of the second fixed surface (code table 4.5): octet 29.
    pub surface2: u8,
    /// The scale factor of the second fixed surface, with its sign in the first bit: octet 30.
    pub scale2: u8,
    /// The scaled value of the second fixed surface: octets 31-34.
    pub value2: u32,
}

/// What templates 4.1 and 4.11 have of an ensemble.
#[derive(Clone, Copy, Debug, PartialEq, Eq)]
pub struct Ensemble {
    /// The type of ensemble forecast (code table 4.6): octet 35.
    pub kind: u8,
    /// The number of the perturbation: octet 36.
    pub perturbation: u8,
    /// The number of forecasts in the ensemble: octet 37.
    pub size: u8,
}

/// What templates 4.8 and 4.11 have of a time interval: its end, and the time ranges over which a
/// process was carried out, the outermost first. In template 4.11 each octet is three further on.
#[derive(Debug, Drop)]
pub struct Interval {
    /// The year of the end of the interval: octets 35-36.
    pub year: u16,
    /// Its month: octet 37.
    pub month: u8,
    /// Its day: octet 38.
    pub day: u8,
    /// Its hour: octet 39.
    pub hour: u8,
    /// Its minute: octet 40.
    pub minute: u8,
    /// Its second: octet 41.
    pub second: u8,
    /// The number of time ranges: octet 42.
    pub n: u8,
    /// The number of missing values in the process: octets 43-46.
    pub missing: u32,
    /// The time ranges: 12 octets each from octet 47 on.
    pub specs: List<Spec>,
}

/// A time range, by its 12 octets.
#[derive(Clone, Copy, Debug, PartialEq, Eq)]
pub struct Spec {
    /// The statistical process (code table 4.10): octet 1.
    pub process: u8,
    /// The type of time increment between the fields of the process (code table 4.11): octet 2.
    pub increment_type: u8,
    /// The unit of the time range (code table 4.4): octet 3.
    pub unit: u8,
    /// The length of the time range in that unit: octets 4-7.
    pub length: u32,
    /// The unit of the increment between fields (code table 4.4): octet 8.
    pub increment_unit: u8,
    /// The increment in that unit, 0 for a continuous process: octets 9-12.
    pub increment: u32,
}
