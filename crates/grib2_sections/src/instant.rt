//! What product templates other than 4.0 have of it.

ghost use Rattle.std.specs.Prelude.{◌≡◌};
ghost use Rattle.grib2_sections.specs.Instant as instant;

/// By how many octets what template 4.0 has in octets 12-34 of Section 4 is shifted in a section with this template: 0
/// where it stands as there, 2 where a constituent type precedes it. None where the template does not have
/// it, or is not known (WMO-No. 306, Volume I.2, FM 92 GRIB edition 2, product definition templates).
pub fn instant_shift(template: u16) -> Option<usize>
    ensures { result ≡ instant.instant_shift template }
{
    match template {
        40..=43 => Some(2),
        0..=15 | 51 | 60 | 61 | 91 => Some(0),
        _ => None,
    }
}
