//! Binary32 words as words of the IBM single form.

ghost use Rattle.std.specs.Prelude.{◌≡◌};
ghost use Rattle.grib_demote.specs.Words as words;

use grib_dyadic::Dyadic;

/// The IBM word that stands for the same number with the least exponent, if there is one.
pub(crate) fn ibm_of(word: u32) -> Option<u32>
    ensures { result ≡ words.ibm_of word }
{
    let Ok(number) = Dyadic::from_ieee(word) else {
        return None;
    };
    number.to_ibm()
}
