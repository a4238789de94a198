//! Words of the IBM single form as binary32 words.

ghost use Rattle.std.specs.Prelude.{◌≡◌};
ghost use Rattle.grib_migrate.specs.References as references;

use grib_dyadic::Dyadic;

/// The binary32 word that stands for the same number, if there is one.
pub(crate) fn binary32_of(word: u32) -> Option<u32>
    ensures { result ≡ references.binary32_of word }
{
    Dyadic::from_ibm(word).to_ieee()
}
