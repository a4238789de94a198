//! Reference values as exact numbers: an integer times a power of two, read from and written as
//! the two forms of GRIB (WMO-No. 306, Volume I.2, FM 92 GRIB): IEEE 754 binary32 (edition 2,
//! Section 5, octets 12-15) and the IBM single form (edition 1, Section 4, octets 7-10). Beside them the
//! scale factors that a reference value stands with.
#![tactic(auto)]

mod dyadic;
mod factor;
mod ibm;
mod ieee;
pub mod laws;
mod word;

pub use dyadic::Dyadic;
pub use factor::scale_factor;
pub use ieee::NotFinite;
