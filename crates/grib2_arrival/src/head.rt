//! Section 0 of a message, as its octets come.

ghost use Rattle.std.specs.Prelude.{◌≡◌, ℕ, ◌+◌, ◌≤◌, ◌++◌, [], List, length as length_of, take, MatchResult, Some};
ghost use Rattle.grib_base.specs.declared.profile.Profile.{Profile};
ghost use Rattle.grib2_arrival.specs.Heard.{BeginsHeard, BeginsLikeTwo, StateHeard, StopsUnder};

use crate::kept::Kept;
use crate::state::State;
use grib_base::{Profile, ReadFault};
use grib2_sections::read_head;
use std::alloc::Global;

/// The octets of Section 0 that came, fewer than 16.
#[derive(Clone, Copy, Debug)]
pub(crate) struct Beginning {
    /// Which sections are to be accepted.
    pub profile: Profile,
    pub first: [u8; 16],
    pub count: usize,
}

impl Beginning {
    /// Nothing came of a message that is judged by this profile.
    pub fn new(profile: Profile) -> Beginning
        ensures { BeginsHeard profile result [] }
    {
        Beginning {
            profile,
            first: [0; 16],
            count: 0,
        }
    }

    /// Takes the next octets, as many as Section 0 still needs, and says how many.
    ///
    /// # Errors
    ///
    /// The total length is no length of a message.
    pub fn push(self, alloc: Global, piece: &[u8]) -> Result<(State, usize), ReadFault>
        requires some { 1 ≤ length_of piece.now }
        requires heard { (profile : Profile) × (octets : List ℕ) × BeginsHeard profile self octets × BeginsLikeTwo (octets ++ piece.now) }
        ensures { (profile : Profile) (octets : List ℕ) → BeginsHeard profile self octets
            → MatchResult result (λ next. (1 ≤ next.1) × (next.1 ≤ length_of piece.now)
            × StateHeard profile (Some next.0) (octets ++ take next.1 piece.now))
            (StopsUnder profile (octets ++ piece.now)) }
    {
        let Beginning {
            profile,
            first,
            count,
        } = self;
        let taken = (16 - count).min(piece.len());
        let first = noted(first, count, &piece[..taken]);
        if count + taken < 16 {
            let count = count + taken;
            let begun = Beginning {
                profile,
                first,
                count,
            };
            return Ok((State::Begins(begun), taken));
        }
        let head = read_head(&first)?;
        let kept = Kept::new(alloc, profile, head.total, head.discipline);
        let gathered = Vec::new(alloc);
        Ok((State::Gathers(kept, gathered), taken))
    }
}

/// Notes the next octets of Section 0, where this many came before.
fn noted(mut first: [u8; 16], before: usize, octets: &[u8]) -> [u8; 16]
    requires { before + length_of octets.now ≤ 16 }
    ensures long { length_of result ≡ 16 }
    ensures noted { take (before + length_of octets.now) result ≡ take before first ++ octets.now }
{
    first[before..before + octets.len()].copy_from_slice(octets);
    first
}
