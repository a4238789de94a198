//! The sizes of the binary formats.

ghost use Rattle.std.specs.Prelude.{◌≡◌, ◌≤◌, true};
ghost use Rattle.std.specs.Float.Ieee.{prec, low};
ghost use Rattle.grib_nearest.specs.Formats.{format_of};
ghost use Rattle.grib_nearest.specs.Nearest as definitions;
ghost use Rattle.grib_nearest.specs.Values.{signed_word};

/// A binary interchange format (IEEE 754-2019, table 3.5).
#[derive(Clone, Copy, Debug, PartialEq, Eq)]
pub enum Format {
    Binary32,
    Binary64,
}

impl Format {
    /// How many digits a significand has.
    #[inline]
    pub(crate) fn digits(self) -> u32
        ensures value { result ≡ prec (format_of self) }
        ensures least { 24 ≤ result }
        ensures most { result ≤ 53 }
    {
        match self {
            Format::Binary32 => 24,
            Format::Binary64 => 53,
        }
    }

    /// The least number above 0 is 2 to the power of minus this.
    #[inline]
    pub(crate) fn lowest(self) -> u32
        ensures value { result ≡ low (format_of self) }
        ensures most { result ≤ 1074 }
    {
        match self {
            Format::Binary32 => 149,
            Format::Binary64 => 1074,
        }
    }

    /// The word of infinity, with no sign.
    #[inline]
    pub(crate) fn infinity(self) -> u64
        ensures { result ≡ definitions.infinity (format_of self) }
    {
        match self {
            Format::Binary32 => 0x7f80_0000,
            Format::Binary64 => 0x7ff0_0000_0000_0000,
        }
    }

    /// The sign bit.
    #[inline]
    pub(crate) fn sign(self) -> u64
        ensures { result ≡ signed_word (format_of self) true 0 }
    {
        match self {
            Format::Binary32 => 0x8000_0000,
            Format::Binary64 => 0x8000_0000_0000_0000,
        }
    }
}
