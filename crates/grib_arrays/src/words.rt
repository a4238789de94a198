//! The words of points.

ghost use Rattle.std.specs.Prelude.{◌≡◌, ℤ, ◌++◌, OnOk, IfOk};
ghost use Rattle.grib_dyadic.specs.Reference.{Binary};
ghost use Rattle.grib_dyadic.specs.Value.{value_of};
ghost use Rattle.grib_nearest.specs.declared.format.Format.{Format as formats};
ghost use Rattle.grib_arrays.specs.Scale.{IsScaleOf};
ghost use Rattle.grib_arrays.specs.Values.{value_word, point_word, point_octets, word_octets};
ghost use Rattle.grib_arrays.specs.Values as definitions;

use crate::scale::ArrayScale;
use grib_nearest::{Format, Number, exact_word};
use grib_packing::Point;
use std::alloc::{AllocError, Global};

impl ArrayScale {
    /// Appends the octets of a point: those of the number of the format that is nearest to its exact value, ties to even, or
    /// of a quiet NaN.
    ///
    /// # Errors
    ///
    /// There is no memory.
    #[inline]
    pub fn append(
        &self,
        alloc: Global,
        octets: &mut Vec<u8>,
        point: &Point,
    ) -> Result<(), AllocError>
        ensures { (f : formats) (r : Binary) (e d : ℤ) → IsScaleOf self.now f r e d
            → OnOk result (octets.new.items ≡ octets.old.items ++ point_octets f r e d point.now) }
    {
        let word = self.point_word(alloc, point)?;
        append_word(octets, self.format, word)
    }

    /// The word of a point.
    #[inline]
    fn point_word(&self, alloc: Global, point: &Point) -> Result<u64, AllocError>
        ensures { (f : formats) (r : Binary) (e d : ℤ) → IsScaleOf self.now f r e d
            → IfOk result (λ w. w ≡ point_word f r e d point.now) }
    {
        match *point {
            Point::Scaled(x) => self.value_word(alloc, x),
            Point::Missing | Point::Missing2 => Ok(nan_word(self.format)),
        }
    }

    /// The word of the point with the scaled number X.
    #[inline]
    pub(crate) fn value_word(&self, alloc: Global, x: i64) -> Result<u64, AllocError>
        ensures { (f : formats) (r : Binary) (e d : ℤ) → IsScaleOf self.now f r e d
            → IfOk result (λ w. w ≡ value_word f (value_of r e d x)) }
    {
        let gap = self.exponent.abs_diff(self.e);
        if self.exponent >= self.e {
            let number = Number::of(self.mantissa, gap, x);
            exact_word(alloc, self.format, number, self.e, self.up, self.down)
        } else {
            let number = Number::of(x, gap, self.mantissa);
            exact_word(
                alloc,
                self.format,
                number,
                self.exponent,
                self.up,
                self.down,
            )
        }
    }
}

/// The word of a quiet NaN.
#[inline]
fn nan_word(format: Format) -> u64
    ensures { result ≡ definitions.nan_word format }
{
    match format {
        Format::Binary32 => 0x7fc0_0000,
        Format::Binary64 => 0x7ff8_0000_0000_0000,
    }
}

/// Appends the octets of a word, the least one first.
#[inline]
fn append_word(octets: &mut Vec<u8>, format: Format, word: u64) -> Result<(), AllocError>
    ensures { OnOk result (octets.new.items ≡ octets.old.items ++ word_octets format word) }
{
    match format {
        Format::Binary32 => octets.extend_from_slice(&word.to_le_bytes()[..4]),
        Format::Binary64 => octets.extend_from_slice(&word.to_le_bytes()),
    }
}
