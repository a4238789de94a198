//! The three lists of groups, as they are read.

ghost use Rattle.std.specs.Prelude.{List, length, map, sum, None, ◌↔◌, IsTrue, IfOk, ◌*◌, ◌≡◌, ℕ, ◌+◌, ◌^◌, ◌<◌, ◌≤◌, ◌∷◌, [], ◌++◌, vec_len, vec_capacity};
ghost use Rattle.std.specs.List.{All};
ghost use Rattle.grib_bits.specs.Bits.{bits as bits_in};
ghost use Rattle.grib_bits.specs.Plain.{plain};
ghost use Rattle.grib_base.specs.declared.code.Code.TheVariants.{Present};
ghost use Rattle.grib_base.specs.Rules.{first_fault};
ghost use Rattle.grib_group_reading.specs.Taking.{number_of};
ghost use Rattle.grib_packing.specs.Groups.{list_octets, packed_bits, groups_from, octets_for, list_rules, references as all_references, widths as all_widths, lengths as all_lengths};
ghost use Rattle.grib_group_reading.specs.Lists.{HasGroups, ListsAre, lists_fault, AreEmpty, WereRead, ReferencesRoom, ReferencesTook, WidthsRoom, WidthsTook, LengthsRoom, LengthsTook, LengthAdded, noted_first};
ghost use Rattle.grib_group_reading.specs.Feeding.{no_marks};
ghost use Rattle.grib_group_reading.specs.Laws.{references-none, references-more, widths-none, widths-more, lengths-none, lengths-more, references-fewer, references-room, widths-fewer, widths-room, lengths-fewer, lengths-room};

use crate::{FedLists, RunTaker, Table, Taker};
use grib_base::{Code, Fault, Reason, push_within};
use grib_packing::Layout;
use std::alloc::{AllocError, Global};

/// The references that were read, for which there is memory.
#[derive(Debug, Drop)]
pub struct References {
    pub items: Vec<u32>,
}

impl Taker for References {
    ghost limit = { 2 ^ 32 };

    ghost room = { ReferencesRoom };

    ghost took = { ReferencesTook };

    #[inline]
    fn take(mut self, code: Code) -> References {
        push_within(&mut self.items, number(code) as u32);
        self
    }

    ghost none = { references-none };

    ghost more = { references-more };

    ghost fewer = { references-fewer };

    ghost room_after = { references-room };
}

impl RunTaker for References {
    #[inline]
    fn is_ready(&self, _count: u32, _limit: u64) -> bool {
        true
    }
}

/// The widths that were read, each the reference width and a coded width.
#[derive(Debug, Drop)]
pub struct Widths {
    pub items: Vec<u8>,
    reference: u8,
    /// The number, from 1, of the first width over 32.
    too_wide: Option<u64>,
}

impl Taker for Widths {
    ghost limit = { 2 ^ 32 };

    ghost room = { WidthsRoom };

    ghost took = { WidthsTook };

    #[inline]
    fn take(mut self, code: Code) -> Widths {
        let width = u64::from(self.reference) + number(code);
        self.too_wide = first_noted(self.too_wide, width > 32, self.items.len() as u64 + 1);
        push_within(&mut self.items, width.min(32) as u8);
        self
    }

    ghost none = { widths-none };

    ghost more = { widths-more };

    ghost fewer = { widths-fewer };

    ghost room_after = { widths-room };
}

impl RunTaker for Widths {
    #[inline]
    fn is_ready(&self, _count: u32, _limit: u64) -> bool {
        true
    }
}

/// The lengths that were read, each the reference length and some increments.
#[derive(Debug, Drop)]
pub struct Lengths {
    pub items: Vec<u32>,
    reference: u32,
    increment: u8,
    /// How many values are left for further groups.
    rest: u32,
    /// The number, from 1, of the first group that is longer than that.
    past: Option<u64>,
}

impl Lengths {
    /// Adds the length of the next group.
    #[inline]
    pub fn add(mut self, length: u64) -> Lengths
        requires { LengthsRoom self 1 }
        ensures { LengthAdded self length result }
    {
        if self.past.is_some() || length > u64::from(self.rest) {
            self.past = first_noted(self.past, true, self.items.len() as u64 + 1);
            push_within(&mut self.items, 0);
            return self;
        }
        self.rest -= length as u32;
        push_within(&mut self.items, length as u32);
        self
    }
}

impl Taker for Lengths {
    ghost limit = { 2 ^ 32 };

    ghost room = { LengthsRoom };

    ghost took = { LengthsTook };

    #[inline]
    fn take(self, code: Code) -> Lengths {
        let length = u64::from(self.reference) + u64::from(self.increment) * number(code);
        self.add(length)
    }

    ghost none = { lengths-none };

    ghost more = { lengths-more };

    ghost fewer = { lengths-fewer };

    ghost room_after = { lengths-room };
}

impl RunTaker for Lengths {
    #[inline]
    fn is_ready(&self, _count: u32, _limit: u64) -> bool {
        true
    }
}

/// The three lists of groups.
#[derive(Debug, Drop)]
pub struct Lists {
    pub references: References,
    pub widths: Widths,
    pub lengths: Lengths,
}

impl Lists {
    /// No group yet, with memory for all of them, of a field that has `values` values.
    ///
    /// # Errors
    ///
    /// There is no memory for the groups.
    pub fn start(alloc: Global, layout: &Layout, values: u32) -> Result<Lists, AllocError>
        ensures { IfOk result (AreEmpty layout.now values) }
    {
        let groups = layout.groups as usize;
        Ok(Lists {
            references: References {
                items: Vec::with_capacity(alloc, groups)?,
            },
            widths: Widths {
                items: Vec::with_capacity(alloc, groups)?,
                reference: layout.width_reference,
                too_wide: None,
            },
            lengths: Lengths {
                items: Vec::with_capacity(alloc, groups)?,
                reference: layout.length_reference,
                increment: layout.length_increment,
                rest: values,
                past: None,
            },
        })
    }

    /// The lists that stand one after another at the begin of `octets`, each from a whole octet on
    /// (WMO-No. 306, Volume I.2, FM 92 GRIB edition 2, data template 7.2). The last length is that of
    /// the layout.
    ///
    /// # Errors
    ///
    /// There is no memory for the groups.
    pub fn read(
        alloc: Global,
        layout: &Layout,
        octets: &[u8],
        values: u32,
    ) -> Result<Lists, AllocError>
        requires groups { HasGroups layout.now }
        requires short { length octets.now < 2 ^ 32 }
        requires within { list_octets layout.now ≤ length octets.now }
        ensures { IfOk result (λ lists. ListsAre layout.now values lists (all_references layout.now octets.now)
            (all_widths layout.now octets.now) (all_lengths layout.now octets.now)) }
    {
        let lists = FedLists::start(alloc, layout, Lists::start(alloc, layout, values)?);
        Ok(lists.push(alloc, layout, 0, octets).finish(layout))
    }

    /// The refusal of a Section 7 of `length` octets that begins at octet `start` of the message and
    /// has these lists after `skip` octets of extra descriptors: the first group whose width is over
    /// 32, then lengths that do not add up to the values, then too few octets for the packed numbers.
    pub fn fault(&self, layout: &Layout, skip: u32, length: u32, start: u64) -> Option<Fault>
        requires low { 1 ≤ start }
        requires high { start ≤ 268435456 }
        requires skip { skip ≤ 12 }
        requires read { WereRead layout.now self.now }
        ensures { (values : ℕ) (references widths lengths : List ℕ) → values < 2 ^ 32 → ListsAre layout.now values self.now references widths lengths
            → result ≡ lists_fault layout.now start skip length values references widths lengths }
    {
        if let Some(group) = self.widths.too_wide {
            let before = u64::from(5 + skip) + octets_of(layout.reference_bits, layout.groups);
            let place = start + before;
            return Some(Fault::at(place, Reason::GroupWidth, group));
        }
        if let Some(group) = self.lengths.past {
            return Some(Fault::at(start, Reason::GroupShape, group));
        }
        if self.lengths.rest > 0 {
            let groups = u64::from(layout.groups);
            return Some(Fault::at(start, Reason::GroupShape, groups));
        }
        let before = u64::from(5 + skip) + octets_of_lists(layout);
        let bits = bits_of_numbers(&self.widths.items, &self.lengths.items);
        if 8 * u64::from(length) < 8 * before + bits {
            return Some(Fault::at(start, Reason::DataTooShort, u64::from(length)));
        }
        None
    }

    /// The groups, once the lists are whole.
    pub fn into_table(self) -> Table
        ensures references { result.references ≡ self.references.items }
        ensures widths { result.widths ≡ self.widths.items }
        ensures lengths { result.lengths ≡ self.lengths.items }
    {
        Table {
            references: self.references.items,
            widths: self.widths.items,
            lengths: self.lengths.items,
        }
    }
}

/// The bits that the packed numbers of all groups take.
fn bits_of_numbers(widths: &[u8], lengths: &[u32]) -> u64
    requires as_long { length widths.now ≡ length lengths.now }
    requires narrow { All (λ width. width ≤ 32) widths.now }
    requires values { sum lengths.now < 2 ^ 32 }
    ensures bits { (references : List ℕ) → length references ≡ length widths.now → result ≡ packed_bits (groups_from references widths.now lengths.now) }
    ensures small { result < 2 ^ 37 }
{
    let mut bits = 0;
    for index in 0..widths.len() {
        bits += u64::from(widths[index]) * u64::from(lengths[index]);
    }
    bits
}

/// The octets that `count` numbers of `bits` bits take, padded to whole octets.
#[inline]
pub fn octets_of(bits: u8, count: u32) -> u64
    ensures octets { result ≡ octets_for bits count }
    ensures small { result < 2 ^ 37 }
{
    (u64::from(count) * u64::from(bits) + 7) / 8
}

/// The octets of the three lists.
pub fn octets_of_lists(layout: &Layout) -> u64
    ensures octets { result ≡ list_octets layout.now }
    ensures small { result < 2 ^ 39 }
{
    octets_of(layout.reference_bits, layout.groups)
        + octets_of(layout.width_bits, layout.groups)
        + octets_of(layout.length_bits, layout.groups)
}

/// Whether a Section 7 of `length` octets, of which `skip` octets after the fifth are extra
/// descriptors, has all octets of the three lists (WMO-No. 306, Volume I.2, FM 92 GRIB edition 2,
/// data templates 7.2 and 7.3).
pub fn lists_fit(layout: &Layout, length: u32, skip: u32) -> bool
    requires groups { 1 ≤ layout.now.groups }
    requires length { 5 ≤ length }
    requires skip { skip ≤ 12 }
    ensures { IsTrue result ↔ (first_fault (list_rules layout.now length skip) ≡ None) }
{
    u64::from(5 + skip) + octets_of_lists(layout) <= u64::from(length)
}

/// The layout of numbers none of which is a mark.
#[inline]
pub fn plain_layout() -> Layout
    ensures management { result.management ≡ 0 }
    ensures bits { result.reference_bits ≡ 0 }
    ensures all { result ≡ no_marks }
{
    Layout {
        groups: 0,
        reference_bits: 0,
        width_reference: 0,
        width_bits: 0,
        length_reference: 0,
        length_increment: 0,
        last_length: 0,
        length_bits: 0,
        management: 0,
    }
}

/// The number of a code that is present.
#[inline]
fn number(code: Code) -> u64
    ensures { result ≡ number_of code }
{
    match code {
        Code::Present(number) => number,
        Code::Primary | Code::Secondary => 0,
    }
}

/// The place that was noted before, else this one where it is to be noted.
#[inline]
fn first_noted(before: Option<u64>, here: bool, place: u64) -> Option<u64>
    ensures { result ≡ noted_first before here place }
{
    match before {
        Some(earlier) => Some(earlier),
        None if here => Some(place),
        None => None,
    }
}
