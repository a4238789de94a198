//! What stands where the next section or the End Section is to come.

ghost use Rattle.std.specs.Prelude.{◌≡◌, ◌≢◌, ℕ, ◌≤◌, ◌++◌, List, length as length_of, MatchResult};
ghost use Rattle.grib_base.specs.declared.fault.Reason.TheVariants.{Truncated};
ghost use Rattle.grib_base.specs.declared.profile.Profile.{Profile};
ghost use Rattle.grib2_sections.specs.Frame.{Placed, Fails};
ghost use Rattle.grib2_arrival.specs.Standing.{Stands};
ghost use Rattle.grib2_arrival.specs.Heard.{pending, step_of, IsOne, IsUnfinished, Looks};

use crate::kept::Kept;
use grib_base::Fault;
use grib_bits::{u8_at, u32_at};

/// What was gathered of the next section or of the End Section.
#[derive(Clone, Copy, Debug, PartialEq, Eq)]
pub(crate) enum Look {
    /// It is not whole.
    More,
    /// It is the End Section.
    Ends,
    /// It is a whole section, of a number from 1 to 6.
    Section,
    /// It is the length and the number of a Section 7 of this many octets.
    Values(u32),
}

impl Kept {
    /// What was gathered of the next section or of the End Section.
    ///
    /// # Errors
    ///
    /// The first rule of the profile that fails: a section may not stand there, or a length disagrees with the total.
    pub fn look(&self, gathered: &[u8]) -> Result<Look, Fault>
        ensures { (profile : Profile) (octets : List ℕ) (before : List Placed) → Stands profile octets before self.now
            → gathered.now ≡ pending octets self.now → IsOne gathered.now
            → MatchResult result (Looks octets self.now gathered.now)
            (λ fault. (step_of octets self.now ≡ Fails fault) × (fault.reason ≢ Truncated)) }
    {
        if gathered.len() < 4 {
            return Ok(Look::More);
        }
        let length = u32_at(gathered, 1);
        if self.frame.ends(length)? {
            return Ok(Look::Ends);
        }
        if gathered.len() < 5 {
            return Ok(Look::More);
        }
        let number = u8_at(gathered, 5);
        self.frame.opens(length, number)?;
        if number == 7 {
            return Ok(Look::Values(length));
        }
        if gathered.len() < length as usize {
            return Ok(Look::More);
        }
        Ok(Look::Section)
    }
}

/// How many octets may be gathered next, before there is another look.
pub(crate) fn wanted(gathered: &[u8]) -> usize
    requires { IsUnfinished gathered.now }
    ensures some { 1 ≤ result }
    ensures one { (piece : List ℕ) → length_of piece ≤ result → IsOne (gathered.now ++ piece) }
{
    let came = gathered.len();
    if came < 4 {
        return 4 - came;
    }
    if came < 5 {
        return 1;
    }
    u32_at(gathered, 1) as usize - came
}
