//! A Section 7 that is read as its octets come.

ghost use Rattle.std.specs.Prelude.{◌≡◌, ℕ, ◌+◌, ◌≤◌, Some, None, List, Bool, [], ◌++◌, length as length_of, drop, IfOk, MatchResult};
ghost use Rattle.grib_base.specs.Rules.{located};
ghost use Rattle.grib_bitmap.specs.Mask.{present_count};
ghost use Rattle.grib_packing.specs.Entries.{packing_fault, data_fault, entries_of, column_from};
ghost use Rattle.grib_packing.specs.Packing.{value_count};
ghost use Rattle.grib_packings.specs.Field.{Represents};
ghost use Rattle.grib_packing.specs.Kept.{PointsKept};
ghost use Rattle.grib_packings.specs.Feeding.{HasRead, Agrees, IsFed, octets_left};

use crate::reading::Reading;
use crate::representation::Representation;
use grib_base::{Fault, Section};
use grib_bitmap::Mask;
use grib_complex_reading::length_of_section;
use grib_packing::{Column, Keeper, Points, Simple};
use std::alloc::{AllocError, Global};

/// Reads the values of a field as the octets of its Section 7 come, in any pieces (WMO-No. 306, Volume I.2,
/// FM 92 GRIB edition 2, data templates 7.0, 7.2, 7.3 and 7.42), and hands their points on. All memory is taken
/// at the start.
#[derive(Debug, Drop)]
pub struct Feeding<K> {
    alloc: Global,
    /// What Section 5 says in each template.
    simple: Simple,
    /// The octet of the message at which Section 7 begins.
    start: u64,
    /// The octets of Section 7.
    length: u32,
    /// How many of them came after the fifth.
    pushed: u32,
    /// How far they were read. It is there between calls.
    reading: Option<Reading<K>>,
}

/// Reads the column of a field as the octets of its Section 7 come.
pub type Feeder = Feeding<Points>;

impl<K: Keeper + Drop> Feeding<K> {
    /// No octet came yet of a Section 7 of `length` octets that begins at octet `start` of the message, of a
    /// field of which Section 5 says this.
    ///
    /// # Errors
    ///
    /// There is no memory for the groups. What is to keep the points is dropped.
    pub fn start(
        alloc: Global,
        representation: &Representation,
        keeper: K,
        start: u64,
        length: u32,
    ) -> Result<Feeding<K>, AllocError>
        requires read { (s5 : List ℕ) × Represents representation.now s5 }
        requires low { 1 ≤ start }
        requires high { start ≤ 268435456 }
        requires least { 5 ≤ length }
        ensures read { (s5 : List ℕ) → Represents representation.now s5 → IfOk result (HasRead K.kept s5 keeper start length []) }
        ensures fed { IfOk result (IsFed K.kept) }
    {
        let reading = Reading::start(alloc, representation, keeper, start, length)?;
        Ok(Feeding {
            alloc,
            simple: representation.shared(),
            start,
            length,
            pushed: 0,
            reading: Some(reading),
        })
    }

    /// All octets of a Section 7 came, of a field of which Section 5 says this.
    ///
    /// # Errors
    ///
    /// There is no memory for the groups. What is to keep the points is dropped.
    pub fn whole(
        alloc: Global,
        representation: &Representation,
        keeper: K,
        section7: &Section<'_>,
    ) -> Result<Feeding<K>, AllocError>
        requires read { (s5 : List ℕ) × Represents representation.now s5 }
        ensures read { (s5 : List ℕ) → Represents representation.now s5
            → IfOk result (HasRead K.kept s5 keeper section7.now.start (length_of section7.now.octets.now) (drop 5 section7.now.octets.now)) }
        ensures fed { IfOk result (IsFed K.kept) }
        ensures all { IfOk result (λ feeding. octets_left feeding ≡ 0) }
    {
        let length = length_of_section(section7);
        let mut feeding = Feeding::start(alloc, representation, keeper, section7.start, length)?;
        feeding.push(&section7.octets[5..]);
        Ok(feeding)
    }

    /// How many octets are still to come.
    pub fn left(&self) -> u32
        ensures { result ≡ octets_left self.now }
    {
        self.length.saturating_sub(5).saturating_sub(self.pushed)
    }

    /// Reads the next octets of the section, no more than are still to come.
    pub fn push(&mut self, piece: &[u8])
        requires fed { IsFed K.kept self.old }
        requires within { length_of piece.now ≤ octets_left self.old }
        ensures read { (s5 : List ℕ) (keeper : _) (start l : ℕ) (octets : List ℕ) → HasRead K.kept s5 keeper start l octets self.old
            → HasRead K.kept s5 keeper start l (octets ++ piece.now) self.new }
        ensures fed { IsFed K.kept self.new }
    {
        let Some(reading) = self.reading.take() else {
            unreachable!();
        };
        let reading = reading.push(self.alloc, piece, self.pushed, self.start, self.length);
        self.reading = Some(reading);
        self.pushed += piece.len() as u32;
    }

    /// What has kept the points, once all octets came.
    ///
    /// # Errors
    ///
    /// Section 7 is refused by the first rule of the profile that fails.
    pub fn end(self) -> Result<K, Fault>
        requires fed { IsFed K.kept self }
        requires all { octets_left self ≡ 0 }
        ensures { (s5 : List ℕ) (keeper : _) (start : ℕ) (s7 : List ℕ) → HasRead K.kept s5 keeper start (length_of s7) (drop 5 s7) self
            → MatchResult result
            (λ after. (data_fault s5 s7 ≡ None) × K.kept keeper (entries_of s5 s7) after × (length_of (entries_of s5 s7) ≡ value_count s5))
            (λ fault. located start (data_fault s5 s7) ≡ Some fault) }
    {
        let Feeding {
            start,
            length,
            reading,
            ..
        } = self;
        let Some(reading) = reading else {
            unreachable!();
        };
        reading.end(start, length)
    }
}

impl Feeding<Points> {
    /// No octet came yet of a Section 7 of `length` octets that begins at octet `start` of the message. It
    /// belongs to this Section 5, which is accepted, and to this mask.
    ///
    /// # Errors
    ///
    /// There is no memory.
    pub fn new(
        alloc: Global,
        section5: &Section<'_>,
        mask: Mask,
        start: u64,
        length: u32,
    ) -> Result<Feeder, AllocError>
        requires few { length_of mask ≤ 33554432 }
        requires accepted { packing_fault section5.now.octets.now (length_of mask) ≡ None }
        requires values { present_count mask ≡ value_count section5.now.octets.now }
        requires low { 1 ≤ start }
        requires high { start ≤ 268435456 }
        requires least { 5 ≤ length }
        ensures agrees { IfOk result (Agrees section5.now.octets.now mask start length []) }
        ensures fed { IfOk result (IsFed PointsKept) }
    {
        let representation = Representation::accepted(section5, mask.len());
        let points = Points::start(alloc, mask)?;
        let feeder = Feeding::start(alloc, &representation, points, start, length)?;
        Ok(feeder)
    }

    /// The column, once all octets came.
    ///
    /// # Errors
    ///
    /// Section 7 is refused by the first rule of the profile that fails.
    pub fn finish(self) -> Result<Column, Fault>
        requires fed { IsFed PointsKept self }
        requires all { octets_left self ≡ 0 }
        ensures { (s5 : List ℕ) (mask : List Bool) (start : ℕ) (s7 : List ℕ) → Agrees s5 mask start (length_of s7) (drop 5 s7) self
            → MatchResult result
            (λ column. (data_fault s5 s7 ≡ None) × (column ≡ column_from s5 mask s7))
            (λ fault. located start (data_fault s5 s7) ≡ Some fault) }
    {
        let simple = self.simple;
        let points = self.end()?;
        Ok(simple.column(points.finish()))
    }
}
