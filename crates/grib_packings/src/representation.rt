//! What Section 5 says of a field, by its packing.

ghost use Rattle.std.specs.Prelude.{◌≡◌, ℕ, ◌≤◌, List, length, None, Some, MatchResult};
ghost use Rattle.grib_base.specs.Faults.{AreTried, IsReadFault};
ghost use Rattle.grib_base.specs.Rules.{located};
ghost use Rattle.grib_bitmap.specs.Mask.{present_count};
ghost use Rattle.grib_packing.specs.Entries.{packing_fault, data_fault, entries_of};
ghost use Rattle.grib_packing.specs.Packing.{value_count};
ghost use Rattle.grib_packing.specs.Representation.{Spelled};
ghost use Rattle.grib_packing.specs.Unpacked.{IsUnpacked};
ghost use Rattle.grib_packings.specs.Field.{Represents};

use crate::feeding::Feeding;
use grib_base::{Fault, ReadFault, Section};
use grib_bitmap::Mask;
use grib_block_feeding::{Coded, coded_of};
use grib_complex_reading::{Complex, complex_of};
use grib_packing::{Column, Keeper, Nothing, Points, Simple, read_simple};
use grib_simple_reading::unpack_simple;
use std::alloc::Global;

/// What Section 5 says of a field, by its packing (WMO-No. 306, Volume I.2, FM 92 GRIB edition 2, code table
/// 5.0). It is read once, and then checks and unpacks the field's Section 7.
#[derive(Clone, Copy, Debug, PartialEq, Eq)]
pub enum Representation {
    /// Simple packing: template 5.0.
    Simple(Simple),
    /// Complex packing, without or with spatial differencing: templates 5.2 and 5.3.
    Complex(Complex),
    /// CCSDS packing: template 5.42.
    Coded(Coded),
}

impl Representation {
    /// Reads a Section 5, where the grid has this many points, at most 33,554,432.
    ///
    /// # Errors
    ///
    /// The refusal of the first rule of the profile that fails.
    pub fn read(section5: &Section<'_>, points: u32) -> Result<Representation, Fault>
        requires { points ≤ 33554432 }
        ensures { MatchResult result
            (λ value. (packing_fault section5.now.octets.now points ≡ None)
            × Represents value section5.now.octets.now)
            (λ fault. located section5.now.start (packing_fault section5.now.octets.now points) ≡ Some fault) }
    {
        let simple = read_simple(section5, points)?;
        match simple.template {
            0 => Ok(Representation::Simple(simple)),
            42 => Ok(Representation::Coded(coded_of(simple, section5)?)),
            _ => Ok(Representation::Complex(complex_of(simple, section5)?)),
        }
    }

    /// What a Section 5 says that is accepted for a grid of this many points.
    pub(crate) fn accepted(section5: &Section<'_>, points: u32) -> Representation
        requires few { points ≤ 33554432 }
        requires accepted { packing_fault section5.now.octets.now points ≡ None }
        ensures { Represents result section5.now.octets.now }
    {
        let Ok(representation) = Representation::read(section5, points) else {
            unreachable!();
        };
        representation
    }

    /// What all templates share.
    pub fn shared(&self) -> Simple
        ensures { (s5 : List ℕ) → Represents self.now s5 → Spelled result s5 }
    {
        match self {
            Representation::Simple(simple) => *simple,
            Representation::Complex(complex) => complex.simple,
            Representation::Coded(coded) => coded.simple,
        }
    }

    /// The number of values that Section 7 gives.
    pub fn values(&self) -> u32
        ensures { (s5 : List ℕ) → Represents self.now s5 → result ≡ value_count s5 }
    {
        self.shared().values
    }

    /// Tries the rules of the field's Section 7. No column is made.
    ///
    /// # Errors
    ///
    /// The refusal of the first rule of the profile that fails, or there is no memory.
    pub fn check_data(&self, alloc: Global, section7: &Section<'_>) -> Result<(), ReadFault>
        requires { (s5 : List ℕ) × Represents self.now s5 }
        ensures { (s5 : List ℕ) → Represents self.now s5
            → AreTried (located section7.now.start (data_fault s5 section7.now.octets.now)) result }
    {
        let _nothing = self.take_values(alloc, section7, Nothing)?;
        Ok(())
    }

    /// Hands the points of all values of the field on, in their order, from its Section 7.
    ///
    /// # Errors
    ///
    /// Section 7 is refused by the first rule of the profile that fails, or there is no memory. What keeps the
    /// points is dropped.
    pub fn take_values<K: Keeper + Drop>(
        &self,
        alloc: Global,
        section7: &Section<'_>,
        keeper: K,
    ) -> Result<K, ReadFault>
        requires { (s5 : List ℕ) × Represents self.now s5 }
        ensures { (s5 : List ℕ) → Represents self.now s5 → MatchResult result
            (λ after. (data_fault s5 section7.now.octets.now ≡ None)
            × K.kept keeper (entries_of s5 section7.now.octets.now) after
            × (length (entries_of s5 section7.now.octets.now) ≡ value_count s5))
            (IsReadFault (located section7.now.start (data_fault s5 section7.now.octets.now))) }
    {
        Ok(Feeding::whole(alloc, self, keeper, section7)?.end()?)
    }

    /// The column of the field, from its mask, in which as many points are present as Section 7 has values,
    /// and its Section 7.
    ///
    /// # Errors
    ///
    /// Section 7 is refused by the first rule of the profile that fails, or there is no memory.
    pub fn unpack(
        &self,
        alloc: Global,
        mask: &Mask,
        section7: &Section<'_>,
    ) -> Result<Column, ReadFault>
        requires { (s5 : List ℕ) × Represents self.now s5 × (present_count mask.now ≡ value_count s5) }
        ensures { (s5 : List ℕ) → Represents self.now s5
            → IsUnpacked s5 mask.now section7.now.start section7.now.octets.now result }
    {
        if let Representation::Simple(simple) = self {
            return unpack_simple(alloc, simple, mask, section7);
        }
        let points = Points::start(alloc, mask.copy(alloc)?)?;
        Ok(Feeding::whole(alloc, self, points, section7)?.finish()?)
    }
}
