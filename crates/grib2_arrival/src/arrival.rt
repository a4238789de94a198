//! A message that arrives.

ghost use Rattle.std.specs.Prelude.{◌≡◌, ◌≢◌, ◌↔◌, ℕ, ◌+◌, ◌-◌, ◌≤◌, ◌<◌, ◌++◌, [], false, IsTrue, List, None, length, take, MatchResult, OnOk, OnErr, Some};
ghost use Rattle.grib_base.specs.declared.profile.Profile.{Profile};
ghost use Rattle.grib2_sections.specs.Verdict.{Accepted, Refused as refused_as};
ghost use Rattle.grib2_message.specs.Acceptance.{verdict_under};
ghost use Rattle.grib2_message.specs.Fields.{field_count};
ghost use Rattle.grib2_message.specs.Summary.{summary_of};
ghost use Rattle.grib2_arrival.specs.Heard.{cut_off, BeginsLikeTwo, IsListening, HeardUnder, IsOpen, IsUndecided, MayFollow, StopsUnder};

use crate::head::Beginning;
use crate::state::State;
use grib_base::{Fault, Profile, ReadFault, Reason};
use grib2_message::FieldSummary;
use std::alloc::Global;

/// Why no more of a message is taken: it is refused, whatever follows, or there is no memory.
pub type ArrivalStop = ReadFault;

/// A message of edition 2 that is judged as its octets come (WMO-No. 306, Volume I.2, FM 92 GRIB edition 2). It
/// keeps numbers of the sections that are whole, the section that comes, where it is none with values, and what
/// describes the fields that have ended.
#[derive(Debug, Drop)]
pub struct Arrival {
    alloc: Global,
    /// How far it was judged. It is there while the arrival is live.
    state: Option<State>,
}

impl Arrival {
    /// Nothing was heard of a message that is judged by this profile. No memory is taken.
    pub fn new(alloc: Global, profile: Profile) -> Arrival
        ensures { HeardUnder profile result [] }
    {
        Arrival {
            alloc,
            state: Some(State::Begins(Beginning::new(profile))),
        }
    }

    /// Hears the next octets, up to the end of the message, and says how many. After a refusal, or where there is no
    /// memory, it has taken nothing, and takes no more.
    ///
    /// # Errors
    ///
    /// The octets taken and this piece are refused, whatever follows them, or there is no memory.
    pub fn push(&mut self, piece: &[u8]) -> Result<usize, ArrivalStop>
        requires live { (profile : Profile) × (octets : List ℕ) × HeardUnder profile self.old octets × MayFollow profile octets piece.now }
        ensures heard { (profile : Profile) (octets : List ℕ) → HeardUnder profile self.old octets → MatchResult result
            (λ count. (count ≤ length piece.now) × HeardUnder profile self.new (octets ++ take count piece.now)
            × (count < length piece.now → verdict_under profile (octets ++ take count piece.now) ≡ Accepted (length (octets ++ take count piece.now))))
            (StopsUnder profile (octets ++ piece.now)) }
        ensures undecided { (profile : Profile) (octets : List ℕ) → HeardUnder profile self.old octets
            → OnOk result (IsUndecided (verdict_under profile (octets ++ piece.now))) }
        ensures ended { OnErr result ((profile : Profile) (octets : List ℕ) → HeardUnder profile self.new octets → ⊥) }
    {
        let mut count = 0;
        while count < piece.len() && !self.is_ended() {
            count += self.take(&piece[count..])?;
        }
        Ok(count)
    }

    /// Takes some of the next octets, and says how many.
    fn take(&mut self, piece: &[u8]) -> Result<usize, ReadFault>
        requires some { 1 ≤ length piece.now }
        requires listens { IsListening self.old.state }
        requires live { (profile : Profile) × (octets : List ℕ) × HeardUnder profile self.old octets × BeginsLikeTwo (octets ++ piece.now) }
        ensures heard { (profile : Profile) (octets : List ℕ) → HeardUnder profile self.old octets → MatchResult result
            (λ count. (1 ≤ count) × (count ≤ length piece.now) × HeardUnder profile self.new (octets ++ take count piece.now))
            (StopsUnder profile (octets ++ piece.now)) }
        ensures ended { OnErr result (self.new.state ≡ None) }
    {
        let Some(state) = self.state.take() else {
            unreachable!();
        };
        let (state, count) = state.push(self.alloc, piece)?;
        self.state = Some(state);
        Ok(count)
    }

    /// Whether the End Section came, or nothing is taken any more.
    fn is_ended(&self) -> bool
        ensures listens { result ≡ false → IsListening self.now.state }
        ensures ended { IsTrue result → IsListening self.now.state → ⊥ }
    {
        !matches!(
            self.state,
            Some(State::Begins(_) | State::Gathers(..) | State::Feeds(..))
        )
    }

    /// Whether the octets taken are a whole message, which is accepted.
    pub fn whole(&self) -> bool
        requires live { (profile : Profile) × (octets : List ℕ) × HeardUnder profile self.now octets }
        ensures { (profile : Profile) (octets : List ℕ) → HeardUnder profile self.now octets
            → IsTrue result ↔ (verdict_under profile octets ≡ Accepted (length octets)) }
    {
        self.is_ended()
    }

    /// How many octets were taken.
    pub fn octets(&self) -> u64
        requires live { (profile : Profile) × (octets : List ℕ) × HeardUnder profile self.now octets }
        ensures count { (profile : Profile) (octets : List ℕ) → HeardUnder profile self.now octets → result ≡ length octets }
        ensures few { result ≤ 268435456 }
    {
        match &self.state {
            Some(state) => state.octets(),
            None => unreachable!(),
        }
    }

    /// Why the octets taken are refused, where they are all that there is.
    pub fn cut(&self) -> Fault
        requires live { (profile : Profile) × (octets : List ℕ) × HeardUnder profile self.now octets × (verdict_under profile octets ≢ Accepted (length octets)) }
        ensures { (profile : Profile) (octets : List ℕ) → HeardUnder profile self.now octets → verdict_under profile octets ≢ Accepted (length octets)
            → (verdict_under profile octets ≡ refused_as result) × (result ≡ cut_off octets) }
    {
        let octets = self.octets();
        Fault::at(octets + 1, Reason::Truncated, octets)
    }

    /// How many fields the message has, which is whole.
    pub fn fields(&self) -> u32
        requires whole { (profile : Profile) × (octets : List ℕ) × HeardUnder profile self.now octets × (verdict_under profile octets ≡ Accepted (length octets)) }
        ensures { (profile : Profile) (octets : List ℕ) → HeardUnder profile self.now octets → verdict_under profile octets ≡ Accepted (length octets)
            → result ≡ field_count octets }
    {
        match &self.state {
            Some(state) => state.summaries().len() as u32,
            None => unreachable!(),
        }
    }

    /// What describes a field of the message, which is whole, from 1 to their number.
    pub fn summary(&self, field: u32) -> FieldSummary
        requires whole { (profile : Profile) × (octets : List ℕ) × HeardUnder profile self.now octets × (verdict_under profile octets ≡ Accepted (length octets))
            × (field ≤ field_count octets) }
        requires first { 1 ≤ field }
        ensures { (profile : Profile) (octets : List ℕ) → HeardUnder profile self.now octets → verdict_under profile octets ≡ Accepted (length octets)
            → field ≤ field_count octets → result ≡ summary_of octets field }
    {
        match &self.state {
            Some(state) => state.summaries()[field as usize - 1],
            None => unreachable!(),
        }
    }
}
