//! What is asked of the numbers of Section 1, and what they are to be.

use grib_keys::Test;
use grib1_sections::Key1;

/// A number of Section 1 with what is asked of its value, as `Level=500,850`.
#[derive(Debug, Drop)]
pub struct Wanted1 {
    pub key: Key1,
    pub test: Test,
}

/// A number of Section 1 with the value that it is to have, as `Centre=98`.
#[derive(Clone, Copy, Debug, PartialEq, Eq)]
pub struct Change1 {
    pub key: Key1,
    pub value: i64,
}
