//! The three lists of groups, as their octets come.

ghost use Rattle.std.specs.Prelude.{◌≡◌, ℕ, ◌+◌, ◌-◌, ◌*◌, ◌^◌, ◌<◌, ◌≤◌, List, [], ◌++◌, length};
ghost use Rattle.grib_packing.specs.Groups.{reference_octets, width_octets, length_octets, references as all_references, widths as all_widths, lengths as all_lengths, list_octets};
ghost use Rattle.grib_group_reading.specs.Lists.{AreEmpty, HasGroups, ListsAre, LengthsRoom, LengthsTook, ReferencesRoom, ReferencesTook, WidthsRoom, WidthsTook};
ghost use Rattle.grib_group_reading.specs.Feeding.{AreFeedable, AreWhole, HasReferences, HasRoom, HasWidths, IsFeedable, Listing, ListsFed, WasFed, no_marks, part, plain_groups};

use crate::feeding::{Fed, part_of};
use crate::lists::{Lengths, Lists, References, Widths, octets_of};
use grib_packing::Layout;
use std::alloc::Global;

/// The three lists of groups, which stand one after another, each from a whole octet on, as their octets
/// come (WMO-No. 306, Volume I.2, FM 92 GRIB edition 2, data template 7.2). One list is read at a time.
#[derive(Debug, Drop)]
pub enum FedLists {
    /// Octets of the references are still to come.
    AtReferences(Fed<References>, Widths, Lengths),
    /// The references are whole, and octets of the widths are still to come.
    AtWidths(References, Fed<Widths>, Lengths),
    /// The references and the widths are whole.
    AtLengths(References, Widths, Fed<Lengths>),
}

impl FedLists {
    /// Into these lists, which are empty, the lists of a field are read. No octet came yet.
    pub fn start(alloc: Global, layout: &Layout, lists: Lists) -> FedLists
        requires groups { HasGroups layout.now }
        requires empty { (values : ℕ) × AreEmpty layout.now values lists }
        ensures feedable { AreFeedable layout.now result }
        ensures fed { (values : ℕ) → AreEmpty layout.now values lists → ListsFed layout.now values [] result }
    {
        let Lists {
            references,
            widths,
            lengths,
        } = lists;
        let references = Fed::list(alloc, layout.reference_bits, layout.groups, references);
        push_references(alloc, layout, 0, &[], references, widths, lengths)
    }

    /// Reads what the next octets hold of the lists, where `before` octets came before, counted from the
    /// first list on. Octets after the lists are passed over.
    pub fn push(self, alloc: Global, layout: &Layout, before: u64, piece: &[u8]) -> FedLists
        requires feedable { AreFeedable layout.now self }
        requires short { length piece.now < 2 ^ 32 }
        ensures feedable { AreFeedable layout.now result }
        ensures fed { (values : ℕ) (octets : List ℕ) → length octets ≡ before → ListsFed layout.now values octets self
            → ListsFed layout.now values (octets ++ piece.now) result }
    {
        match self {
            FedLists::AtReferences(references, widths, lengths) => {
                push_references(alloc, layout, before, piece, references, widths, lengths)
            }
            FedLists::AtWidths(references, widths, lengths) => {
                push_widths(alloc, layout, before, piece, references, widths, lengths)
            }
            FedLists::AtLengths(references, widths, lengths) => {
                push_lengths(layout, before, piece, references, widths, lengths)
            }
        }
    }

    /// The lists, once all their octets came. The last length is that of the layout.
    pub fn finish(self, layout: &Layout) -> Lists
        requires feedable { AreFeedable layout.now self }
        requires whole { AreWhole layout.now self }
        ensures { (values : ℕ) (octets : List ℕ) → ListsFed layout.now values octets self → list_octets layout.now ≤ length octets
            → ListsAre layout.now values result (all_references layout.now octets) (all_widths layout.now octets) (all_lengths layout.now octets) }
    {
        let FedLists::AtLengths(references, widths, lengths) = self else {
            unreachable!();
        };
        let lengths = lengths.finish();
        Lists {
            references,
            widths,
            lengths: lengths.add(u64::from(layout.last_length)),
        }
    }
}

/// Reads what the next octets hold of the references, and then of the lists after them.
fn push_references(
    alloc: Global,
    layout: &Layout,
    before: u64,
    piece: &[u8],
    references: Fed<References>,
    widths: Widths,
    lengths: Lengths,
) -> FedLists
    requires groups { HasGroups layout.now }
    requires short { length piece.now < 2 ^ 32 }
    requires feedable { IsFeedable (2 ^ 32) references }
    requires room { HasRoom ReferencesRoom references 0 }
    requires widths { WidthsRoom widths layout.now.groups }
    requires lengths { LengthsRoom lengths layout.now.groups }
    ensures feedable { AreFeedable layout.now result }
    ensures fed { (start : Lists) (octets : List ℕ) → length octets ≡ before → length octets ≤ reference_octets layout.now
        → WasFed ReferencesTook no_marks (plain_groups layout.now.reference_bits layout.now.groups) start.references (part 0 (reference_octets layout.now) octets) references
        → widths ≡ start.widths → lengths ≡ start.lengths → Listing layout.now start (octets ++ piece.now) result }
{
    let size = octets_of(layout.reference_bits, layout.groups);
    let references = references.push(part_of(piece, before, 0, size));
    if before.saturating_add(piece.len() as u64) < size {
        return FedLists::AtReferences(references, widths, lengths);
    }
    let widths = Fed::list(alloc, layout.width_bits, layout.groups, widths);
    push_widths(
        alloc,
        layout,
        before,
        piece,
        references.finish(),
        widths,
        lengths,
    )
}

/// Reads what the next octets hold of the widths, and then of the lengths.
fn push_widths(
    alloc: Global,
    layout: &Layout,
    before: u64,
    piece: &[u8],
    references: References,
    widths: Fed<Widths>,
    lengths: Lengths,
) -> FedLists
    requires groups { HasGroups layout.now }
    requires short { length piece.now < 2 ^ 32 }
    requires feedable { IsFeedable (2 ^ 32) widths }
    requires room { HasRoom WidthsRoom widths 0 }
    requires lengths { LengthsRoom lengths layout.now.groups }
    ensures feedable { AreFeedable layout.now result }
    ensures fed { (start : Lists) (octets : List ℕ) → length octets ≡ before → length octets ≤ reference_octets layout.now + width_octets layout.now
        → HasReferences layout.now start (octets ++ piece.now) references
        → WasFed WidthsTook no_marks (plain_groups layout.now.width_bits layout.now.groups) start.widths (part (reference_octets layout.now) (width_octets layout.now) octets) widths
        → lengths ≡ start.lengths → Listing layout.now start (octets ++ piece.now) result }
{
    let first = octets_of(layout.reference_bits, layout.groups);
    let size = octets_of(layout.width_bits, layout.groups);
    let widths = widths.push(part_of(piece, before, first, size));
    if before.saturating_add(piece.len() as u64) < first + size {
        return FedLists::AtWidths(references, widths, lengths);
    }
    let lengths = Fed::list(alloc, layout.length_bits, layout.groups - 1, lengths);
    push_lengths(layout, before, piece, references, widths.finish(), lengths)
}

/// Reads what the next octets hold of the lengths.
fn push_lengths(
    layout: &Layout,
    before: u64,
    piece: &[u8],
    references: References,
    widths: Widths,
    lengths: Fed<Lengths>,
) -> FedLists
    requires groups { HasGroups layout.now }
    requires short { length piece.now < 2 ^ 32 }
    requires feedable { IsFeedable (2 ^ 32) lengths }
    requires room { HasRoom LengthsRoom lengths 1 }
    ensures feedable { AreFeedable layout.now result }
    ensures fed { (start : Lists) (octets : List ℕ) → length octets ≡ before
        → HasReferences layout.now start (octets ++ piece.now) references → HasWidths layout.now start (octets ++ piece.now) widths
        → WasFed LengthsTook no_marks (plain_groups layout.now.length_bits (layout.now.groups - 1)) start.lengths (part (reference_octets layout.now + width_octets layout.now) (length_octets layout.now) octets) lengths
        → Listing layout.now start (octets ++ piece.now) result }
{
    let first = octets_of(layout.reference_bits, layout.groups);
    let second = octets_of(layout.width_bits, layout.groups);
    let size = octets_of(layout.length_bits, layout.groups);
    let part = part_of(piece, before, first + second, size);
    FedLists::AtLengths(references, widths, lengths.push(part))
}
