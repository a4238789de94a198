//! How far a message was judged, and its next octets.

ghost use Rattle.std.specs.Prelude.{◌≡◌, ◌≢◌, ℕ, ◌+◌, ◌-◌, ◌≤◌, ◌<◌, ◌^◌, ◌++◌, ◌∷◌, [], List, Some, Err, length as length_of, take, drop, MatchResult, IfOk, OnErr};
ghost use Rattle.grib_bits.specs.Octets.{octets as number_at, StatesItself};
ghost use Rattle.grib_base.specs.declared.profile.Profile.{Profile};
ghost use Rattle.grib2_sections.specs.Frame.{Placed, Next, placed_at};
ghost use Rattle.grib2_message.specs.Acceptance.{section_fault_under};
ghost use Rattle.grib2_message.specs.View.{octets_in_force};
ghost use Rattle.grib2_arrival.specs.declared.kept.Kept.{Kept};
ghost use Rattle.grib2_arrival.specs.declared.state.State.TheVariants.{Ended};
ghost use Rattle.grib2_arrival.specs.Standing.{Stands};
ghost use Rattle.grib2_arrival.specs.Fed.{DataAgrees};
ghost use Rattle.grib2_arrival.specs.Heard.{pending, step_of, BeginsLikeTwo, FeedsHeard, GathersHeard, IsOne, IsOpen, IsValues, StateHeard, StopsUnder};

use crate::data::Data;
use crate::head::Beginning;
use crate::kept::{Kept, after_section, after_values};
use crate::look::{Look, wanted};
use grib_base::{ReadFault, Section};
use grib_bits::u8_at;
use grib2_message::FieldSummary;
use std::alloc::Global;

/// How far a message was judged.
#[derive(Debug, Drop)]
pub(crate) enum State {
    /// Section 0 is not whole.
    Begins(Beginning),
    /// What came of the next section or of the End Section, which is not whole, is gathered.
    Gathers(Kept, Vec<u8>),
    /// The rules of a Section 7 of this many octets are tried as they come; nothing is gathered.
    Feeds(Kept, Vec<u8>, u32, Data),
    /// The End Section came.
    Ended(Kept),
}

impl State {
    /// Takes some of the next octets, and says how many.
    ///
    /// # Errors
    ///
    /// The message is refused, whatever follows, or there is no memory.
    pub fn push(self, alloc: Global, piece: &[u8]) -> Result<(State, usize), ReadFault>
        requires some { 1 ≤ length_of piece.now }
        requires listens { IsOpen self }
        requires heard { (profile : Profile) × (octets : List ℕ) × StateHeard profile (Some self) octets × BeginsLikeTwo (octets ++ piece.now) }
        ensures { (profile : Profile) (octets : List ℕ) → StateHeard profile (Some self) octets
            → MatchResult result (λ next. (1 ≤ next.1) × (next.1 ≤ length_of piece.now)
            × StateHeard profile (Some next.0) (octets ++ take next.1 piece.now))
            (StopsUnder profile (octets ++ piece.now)) }
    {
        match self {
            State::Begins(beginning) => beginning.push(alloc, piece),
            State::Gathers(kept, gathered) => gather(alloc, kept, gathered, piece),
            State::Feeds(kept, gathered, length, feed) => hand_on(
                kept, gathered, length, feed, piece,
            ),
            State::Ended(_) => unreachable!(),
        }
    }

    /// What describes the fields, once the End Section came.
    pub fn summaries(&self) -> &[FieldSummary]
        ensures { (kept : Kept) → self.now ≡ Ended kept → result.now ≡ kept.summaries.items }
    {
        match self {
            State::Ended(kept) => kept.summaries.as_slice(),
            _ => &[],
        }
    }

    /// How many octets came.
    pub fn octets(&self) -> u64
        requires heard { (profile : Profile) × (octets : List ℕ) × StateHeard profile (Some self.now) octets }
        ensures count { (profile : Profile) (octets : List ℕ) → StateHeard profile (Some self.now) octets → result ≡ length_of octets }
        ensures few { result ≤ 268435456 }
    {
        match self {
            State::Begins(beginning) => beginning.count as u64,
            State::Gathers(kept, gathered) => kept.frame.place() - 1 + gathered.len() as u64,
            State::Feeds(kept, _, length, feed) => {
                kept.frame.place() - 1 + u64::from(*length) - u64::from(feed.left())
            }
            State::Ended(kept) => kept.frame.total(),
        }
    }
}

/// Gathers the next octets, no more than one section or the End Section needs, and says how many.
fn gather(
    alloc: Global,
    kept: Kept,
    gathered: Vec<u8>,
    piece: &[u8],
) -> Result<(State, usize), ReadFault>
    requires some { 1 ≤ length_of piece.now }
    requires heard { (profile : Profile) × (octets : List ℕ) × GathersHeard profile kept gathered.items octets }
    ensures { (profile : Profile) (octets : List ℕ) → GathersHeard profile kept gathered.items octets
        → MatchResult result (λ next. (1 ≤ next.1) × (next.1 ≤ length_of piece.now)
        × StateHeard profile (Some next.0) (octets ++ take next.1 piece.now))
        (StopsUnder profile (octets ++ piece.now)) }
{
    let mut gathered = gathered;
    let taken = wanted(gathered.as_slice()).min(piece.len());
    gathered.extend_from_slice(&piece[..taken])?;
    let state = settle(alloc, kept, gathered)?;
    Ok((state, taken))
}

/// Goes on by what was gathered.
fn settle(alloc: Global, kept: Kept, gathered: Vec<u8>) -> Result<State, ReadFault>
    requires stands { (profile : Profile) × (octets : List ℕ) × (before : List Placed) × Stands profile octets before kept
        × (gathered.items ≡ pending octets kept) × IsOne gathered.items }
    ensures { (profile : Profile) (octets : List ℕ) (before : List Placed) → Stands profile octets before kept
        → gathered.items ≡ pending octets kept → IsOne gathered.items
        → MatchResult result (λ state. StateHeard profile (Some state) octets) (StopsUnder profile octets) }
{
    match kept.look(gathered.as_slice())? {
        Look::More => Ok(State::Gathers(kept, gathered)),
        Look::Ends => Ok(State::Ended(kept)),
        Look::Section => take_section(alloc, kept, gathered),
        Look::Values(length) => start_values(alloc, kept, gathered, length),
    }
}

/// Goes past a section that was gathered whole and is no Section 7.
fn take_section(alloc: Global, kept: Kept, gathered: Vec<u8>) -> Result<State, ReadFault>
    requires stands { (profile : Profile) × (octets : List ℕ) × (before : List Placed) × Stands profile octets before kept
        × (gathered.items ≡ pending octets kept) × (step_of octets kept ≡ Next gathered.items) }
    requires itself { StatesItself (number_at gathered.items 5 5) gathered.items }
    requires not_7 { number_at gathered.items 5 5 ≢ 7 }
    ensures { (profile : Profile) (octets : List ℕ) (before : List Placed) → Stands profile octets before kept
        → gathered.items ≡ pending octets kept → step_of octets kept ≡ Next gathered.items
        → MatchResult result (λ state. StateHeard profile (Some state) octets) (StopsUnder profile octets) }
{
    let octets = gathered.as_slice();
    let section = Section {
        number: u8_at(octets, 5),
        start: kept.frame.place(),
        octets,
    };
    let kept = after_section(alloc, kept, &section)?;
    let mut gathered = gathered;
    gathered.clear();
    Ok(State::Gathers(kept, gathered))
}

/// Goes on to the values of a Section 7 of this many octets, of which five were gathered.
fn start_values(
    alloc: Global,
    kept: Kept,
    gathered: Vec<u8>,
    length: u32,
) -> Result<State, ReadFault>
    requires stands { (profile : Profile) × (octets : List ℕ) × (before : List Placed) × Stands profile octets before kept
        × (gathered.items ≡ pending octets kept) × IsValues octets kept length
        × (length_of gathered.items ≡ 5) }
    ensures { (profile : Profile) (octets : List ℕ) (before : List Placed) → Stands profile octets before kept
        → gathered.items ≡ pending octets kept → length_of gathered.items ≡ 5 → IsValues octets kept length
        → MatchResult result (λ state. StateHeard profile (Some state) octets) (StopsUnder profile octets) }
{
    let representation = kept.force.representation();
    let feed = Data::start(alloc, representation, kept.frame.place(), length)?;
    let mut gathered = gathered;
    gathered.clear();
    go_on(kept, gathered, length, feed)
}

/// Hands the next octets of a Section 7 of this length on, and says how many.
fn hand_on(
    kept: Kept,
    gathered: Vec<u8>,
    length: u32,
    feed: Data,
    piece: &[u8],
) -> Result<(State, usize), ReadFault>
    requires some { 1 ≤ length_of piece.now }
    requires heard { (profile : Profile) × (octets : List ℕ) × FeedsHeard profile kept length feed octets × (gathered.items ≡ []) }
    ensures { (profile : Profile) (octets : List ℕ) → FeedsHeard profile kept length feed octets
        → MatchResult result (λ next. (1 ≤ next.1) × (next.1 ≤ length_of piece.now)
        × StateHeard profile (Some next.0) (octets ++ take next.1 piece.now))
        (StopsUnder profile (octets ++ piece.now)) }
{
    let taken = (feed.left() as usize).min(piece.len());
    let feed = feed.push(&piece[..taken]);
    let state = go_on(kept, gathered, length, feed)?;
    Ok((state, taken))
}

/// Goes past a Section 7 of this length, where it is whole.
fn go_on(kept: Kept, gathered: Vec<u8>, length: u32, feed: Data) -> Result<State, ReadFault>
    requires empty { gathered.items ≡ [] }
    requires stands { (profile : Profile) × (octets : List ℕ) × (before : List Placed) × Stands profile octets before kept
        × IsValues octets kept length
        × DataAgrees (octets_in_force 5 before) kept.frame.place length (drop 5 (pending octets kept)) feed }
    ensures { (profile : Profile) (octets : List ℕ) (before : List Placed) → Stands profile octets before kept
        → IsValues octets kept length
        → DataAgrees (octets_in_force 5 before) kept.frame.place length (drop 5 (pending octets kept)) feed
        → MatchResult result (λ state. StateHeard profile (Some state) octets) (StopsUnder profile octets) }
{
    if feed.left() > 0 {
        return Ok(State::Feeds(kept, gathered, length, feed));
    }
    feed.finish()?;
    let kept = after_values(kept, length)?;
    Ok(State::Gathers(kept, gathered))
}
