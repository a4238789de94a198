//! How far a Section 7 was read that comes in pieces.

ghost use Rattle.std.specs.Prelude.{◌≡◌, ◌⊎◌, ℕ, ◌+◌, ◌-◌, ◌*◌, ◌^◌, ◌<◌, ◌≤◌, Some, None, List, Bool, true, map, pos, [], ◌++◌, length as length_of, drop, nat_abs, vec_capacity, cond, IfOk, MatchResult, All};
ghost use Rattle.grib_base.specs.Rules.{first_place, located, refusal};
ghost use Rattle.grib_base.specs.declared.fault.Reason.TheVariants.{FirstValueSign};
ghost use Rattle.grib_packing.specs.declared.layout.Layout.{Layout as layout_of_groups};
ghost use Rattle.grib_packing.specs.Differences.{NoNumber};
ghost use Rattle.grib_packing.specs.Entries.{data_fault, entries_of, has_no_groups, is_out_of_range};
ghost use Rattle.grib_packing.specs.Groups.{codes_from, list_octets};
ghost use Rattle.grib_packing.specs.Packing.{packing_template, value_count};
ghost use Rattle.grib_group_reading.specs.Table.{groups_in, IsNarrow, IsWhole};
ghost use Rattle.grib_group_reading.specs.Taking.{values as values_in};
ghost use Rattle.grib_complex_reading.specs.Representation.{Spelled};
ghost use Rattle.grib_complex_reading.specs.Descriptors.{IsAccepted, descriptors_in, is_signed_number};
ghost use Rattle.grib_complex_reading.specs.Told.{After, told as points_of};
ghost use Rattle.grib_complex_reading.specs.Feeding.{AreOctets, BeginningAgrees, CanBegin, CanList, IsFedState, IsWholeListing, IsWholeState, ListingAgrees, StateAgrees};

use crate::alike::{Outcome, outcome_of};
use crate::noted::{Told, signed_fault};
use crate::range::stays_by;
use crate::representation::Complex;
use crate::values::{PlainValues, Values};
use grib_base::{Fault, Reason};
use grib_group_reading::{
    Fed, FedLists, Lists, References, Table, lists_fit, octets_of_lists, part_of, rest_of,
};
use grib_packing::Keeper;
use std::alloc::{AllocError, Global};

/// How far a Section 7 was read that comes in pieces (WMO-No. 306, Volume I.2, FM 92 GRIB edition 2, data templates
/// 7.2 and 7.3). At most one list of numbers is read at a time, so that the bits of one number at most are kept.
#[derive(Debug, Drop)]
pub enum ComplexReading<K> {
    /// Octets of the extra descriptors are still to come.
    Begins(Beginning<K>),
    /// The extra descriptors are whole, and octets of the lists are still to come.
    Lists(Between<K>),
    /// Packed numbers come, which are the scaled integers themselves.
    ReadsPlainly(Fed<PlainValues<K>>),
    /// Packed numbers come, which are those of differences.
    Reads(Fed<Values<K>>),
    /// No rule of the profile fails, whatever comes, and no points are kept.
    Passes(K),
    /// A rule of the profile fails, whatever comes.
    Refused(Fault, K),
}

/// The extra descriptors, as far as they came, and what is to take the lists and the points.
#[derive(Debug, Drop)]
pub struct Beginning<K> {
    complex: Complex,
    descriptors: Fed<References>,
    lists: Lists,
    keeper: K,
}

/// What the extra descriptors told, the lists, as far as they came, and what is to keep the points.
#[derive(Debug, Drop)]
pub struct Between<K> {
    complex: Complex,
    told: Told,
    lists: FedLists,
    keeper: K,
}

/// Before the first octet where there are no groups: each of `count` values is a number of no bits, which is handed on
/// at once. No rule fails.
fn start_zeros<K: Keeper>(alloc: Global, count: u32, keeper: K) -> ComplexReading<K>
    ensures { (s5 : List ℕ) (start l : ℕ) → (packing_template s5 ≡ 2) ⊎ (packing_template s5 ≡ 3) → has_no_groups s5 ≡ true → count ≡ value_count s5 → 5 ≤ l
        → StateAgrees K.kept s5 keeper start l [] result }
{
    if !keeper.keeps() {
        return ComplexReading::Passes(keeper);
    }
    let values = PlainValues { keeper };
    ComplexReading::ReadsPlainly(Fed::list(alloc, 0, count, values).push(&[]))
}

impl<K: Keeper + Drop> ComplexReading<K> {
    /// No octet came yet of a Section 7 of `length` octets that begins at octet `start` of the message, of a field of
    /// which Section 5 says this.
    ///
    /// # Errors
    ///
    /// There is no memory for the groups. What is to keep the points is dropped.
    pub fn start(
        alloc: Global,
        complex: Complex,
        keeper: K,
        start: u64,
        length: u32,
    ) -> Result<ComplexReading<K>, AllocError>
        requires accepted { IsAccepted complex }
        requires spelled { (s5 : List ℕ) × Spelled complex s5 }
        requires low { 1 ≤ start }
        requires high { start ≤ 268435456 }
        requires least { 5 ≤ length }
        ensures { (s5 : List ℕ) → Spelled complex s5
            → IfOk result (StateAgrees K.kept s5 keeper start length []) }
    {
        let count = complex.simple.values;
        if complex.layout.groups == 0 {
            return Ok(start_zeros(alloc, count, keeper));
        }
        if !lists_fit(&complex.layout, length, complex.skip()) {
            let fault = Fault::at(start, Reason::DataTooShort, u64::from(length));
            return Ok(ComplexReading::Refused(fault, keeper));
        }
        let numbers = References {
            items: Vec::with_capacity(alloc, 3)?,
        };
        let width = 8 * complex.extra;
        let beginning = Beginning {
            complex,
            descriptors: Fed::list(alloc, width, u32::from(complex.order) + 1, numbers),
            lists: Lists::start(alloc, &complex.layout, count)?,
            keeper,
        };
        Ok(beginning.push(alloc, &[], 0, start, length))
    }

    /// Reads the next octets, where this many came before.
    pub fn push(
        self,
        alloc: Global,
        piece: &[u8],
        before: u32,
        start: u64,
        length: u32,
    ) -> ComplexReading<K>
        requires fed { IsFedState K.kept start length before self }
        requires within { 5 + before + length_of piece.now ≤ length }
        ensures { (s5 : List ℕ) (keeper : _) (octets : List ℕ) → length_of octets ≡ before → AreOctets octets → StateAgrees K.kept s5 keeper start length octets self
            → StateAgrees K.kept s5 keeper start length (octets ++ piece.now) result }
    {
        match self {
            ComplexReading::Begins(beginning) => beginning.push(
                alloc, piece, before, start, length,
            ),
            ComplexReading::Lists(between) => between.push(alloc, piece, before, start, length),
            ComplexReading::ReadsPlainly(fed) => ComplexReading::ReadsPlainly(fed.push(piece)),
            ComplexReading::Reads(fed) => ComplexReading::Reads(fed.push(piece)),
            ComplexReading::Passes(keeper) => ComplexReading::Passes(keeper),
            ComplexReading::Refused(fault, keeper) => ComplexReading::Refused(fault, keeper),
        }
    }

    /// What has kept the points, once all octets came of a Section 7 that begins at octet `start` of the message.
    ///
    /// # Errors
    ///
    /// Section 7 is refused by the first rule of the profile that fails.
    pub fn end(self, start: u64) -> Result<K, Fault>
        requires { IsWholeState K.kept start self }
        ensures { (s5 : List ℕ) (keeper : _) (s7 : List ℕ) → AreOctets (drop 5 s7) → StateAgrees K.kept s5 keeper start (length_of s7) (drop 5 s7) self
            → MatchResult result
            (λ after. (data_fault s5 s7 ≡ None) × K.kept keeper (entries_of s5 s7) after × (length_of (entries_of s5 s7) ≡ value_count s5))
            (λ fault. located start (data_fault s5 s7) ≡ Some fault) }
    {
        let fed = match self {
            ComplexReading::Begins(_) | ComplexReading::Lists(_) => unreachable!(),
            ComplexReading::Refused(fault, _keeper) => return Err(fault),
            ComplexReading::Passes(keeper) => return Ok(keeper),
            ComplexReading::ReadsPlainly(fed) => return Ok(fed.finish().keeper),
            ComplexReading::Reads(fed) => fed,
        };
        let Values { teller, keeper } = fed.finish();
        let beyond = teller.beyond();
        if beyond > 0 {
            return Err(Fault::at(start, Reason::ScaledRange, beyond));
        }
        Ok(keeper)
    }
}

impl<K: Keeper + Drop> Beginning<K> {
    /// Reads the next octets, where this many came before, and goes on to the lists where the descriptors are
    /// whole. A first value is tried as soon as it is. Lists of groups that are all alike are not read where no
    /// points are kept.
    fn push(
        self,
        alloc: Global,
        piece: &[u8],
        before: u32,
        start: u64,
        length: u32,
    ) -> ComplexReading<K>
        requires low { 1 ≤ start }
        requires high { start ≤ 268435456 }
        requires begun { CanBegin length before self }
        requires within { 5 + before + length_of piece.now ≤ length }
        ensures { (s5 : List ℕ) (keeper : _) (octets : List ℕ) → length_of octets ≡ before → AreOctets octets → BeginningAgrees s5 keeper length octets self
            → StateAgrees K.kept s5 keeper start length (octets ++ piece.now) result }
    {
        let Beginning {
            complex,
            descriptors,
            lists,
            keeper,
        } = self;
        let skip = complex.skip();
        let part = part_of(piece, u64::from(before), 0, u64::from(skip));
        let descriptors = descriptors.push(part);
        if let Some(fault) = signed_fault(&descriptors.taker().items, &complex, start) {
            return ComplexReading::Refused(fault, keeper);
        }
        if before + (piece.len() as u32) < skip {
            return ComplexReading::Begins(Beginning {
                complex,
                descriptors,
                lists,
                keeper,
            });
        }
        let told = Told::of(&descriptors.taker().items, complex.order, complex.extra);
        if !keeper.keeps() {
            match outcome_of(&complex, &told, start, length) {
                Outcome::Passes => return ComplexReading::Passes(keeper),
                Outcome::Refused(fault) => return ComplexReading::Refused(fault, keeper),
                Outcome::Open => {}
            }
        }
        let between = Between {
            complex,
            told,
            lists: FedLists::start(alloc, &complex.layout, lists),
            keeper,
        };
        between.push(alloc, piece, before, start, length)
    }
}

impl<K: Keeper + Drop> Between<K> {
    /// Reads the next octets, where this many came before, and goes on to the packed numbers where the lists
    /// are whole.
    fn push(
        self,
        alloc: Global,
        piece: &[u8],
        before: u32,
        start: u64,
        length: u32,
    ) -> ComplexReading<K>
        requires low { 1 ≤ start }
        requires high { start ≤ 268435456 }
        requires begun { CanList length before piece.now self }
        requires within { 5 + before + length_of piece.now ≤ length }
        ensures { (s5 : List ℕ) (keeper : _) (octets : List ℕ) → length_of octets ≡ before → length_of octets ≤ (self.complex.order + 1) * self.complex.extra + list_octets self.complex.layout
            → ListingAgrees s5 keeper length octets (octets ++ piece.now) self
            → StateAgrees K.kept s5 keeper start length (octets ++ piece.now) result }
    {
        let Between {
            complex,
            told,
            lists,
            keeper,
        } = self;
        let before = u64::from(before);
        let skip = u64::from(complex.skip());
        let listed = rest_of(piece, before, skip);
        let between = Between {
            complex,
            told,
            lists: lists.push(alloc, &complex.layout, before.saturating_sub(skip), listed),
            keeper,
        };
        let whole = skip + octets_of_lists(&complex.layout);
        if before + (piece.len() as u64) < whole {
            return ComplexReading::Lists(between);
        }
        between.read(rest_of(piece, before, whole), start, length)
    }

    /// Goes on to the packed numbers, of which these octets came.
    fn read(self, numbers: &[u8], start: u64, length: u32) -> ComplexReading<K>
        requires low { 1 ≤ start }
        requires high { start ≤ 268435456 }
        requires begun { IsWholeListing length self }
        requires short { length_of numbers.now < 2 ^ 32 }
        ensures { (s5 : List ℕ) (keeper : _) (octets : List ℕ) → ListingAgrees s5 keeper length octets octets self
            → numbers.now ≡ drop ((self.complex.order + 1) * self.complex.extra + list_octets self.complex.layout) octets
            → (self.complex.order + 1) * self.complex.extra + list_octets self.complex.layout ≤ length_of octets
            → StateAgrees K.kept s5 keeper start length octets result }
    {
        let Between {
            complex,
            told,
            lists,
            keeper,
        } = self;
        let lists = lists.finish(&complex.layout);
        if let Some(fault) = lists.fault(&complex.layout, complex.skip(), length, start) {
            return ComplexReading::Refused(fault, keeper);
        }
        let table = lists.into_table();
        if !keeper.keeps() && is_steady(&told, &table, complex.simple.values) {
            return ComplexReading::Passes(keeper);
        }
        if told.order == 0 {
            let values = PlainValues { keeper };
            return ComplexReading::ReadsPlainly(Fed::groups(complex.layout, table, values).push(
                numbers,
            ));
        }
        let values = Values::start(told.running(), keeper);
        ComplexReading::Reads(Fed::groups(complex.layout, table, values).push(numbers))
    }
}

/// Whether no number of a field can be out of range, whatever its packed numbers are: without differences
/// none can, and with them the groups may bound all numbers.
fn is_steady(told: &Told, table: &Table, values: u32) -> bool
    requires order { told.now.order ≤ 2 }
    requires first { nat_abs told.now.first ≤ 2 ^ 31 }
    requires second { nat_abs told.now.second ≤ 2 ^ 31 }
    requires minimum { nat_abs told.now.minimum ≤ 2 ^ 31 }
    requires whole { IsWhole table.now }
    requires narrow { IsNarrow table.now }
    requires values { values_in (groups_in table.now) ≡ values }
    ensures { result ≡ true → (told.now.order ≡ 0) ⊎ ((layout : layout_of_groups) (numbers : List Bool)
        → first_place is_out_of_range (points_of (After (descriptors_in told.now) NoNumber) (codes_from layout (groups_in table.now) numbers)) ≡ 0) }
{
    if told.order == 0 {
        return true;
    }
    stays_by(told, table, values.max(1))
}
