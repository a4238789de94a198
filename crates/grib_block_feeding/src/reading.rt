//! Items one after another, bit by bit.

ghost use Rattle.std.specs.Prelude.{◌≡◌, ℕ, suc, ◌+◌, ◌-◌, ◌*◌, ◌/◌, ◌%◌, ◌^◌, ◌==◌, ◌<◌, ◌≤◌, List, Bool, [], ◌∷◌, ◌++◌, length, drop, None, Some, MatchOption, true};
ghost use Rattle.grib_bits.specs.Bits.{bits as bits_in};
ghost use Rattle.grib_coding.specs.Coding.{Fits, block_count, greatest};
ghost use Rattle.grib_coding.specs.Reading.{padded, Front, Coded, items_from};
ghost use Rattle.grib_block_reading.specs.Taking.{with_reference as has_reference};
ghost use Rattle.grib_block_feeding.specs.Half.{front_half, WholeItem, IsHalf};
ghost use Rattle.grib_block_feeding.specs.Feeding.{IsReading, IsFresh, IsWholeAt, Going, GoingAt, left_at, left_by, cut, Read};

use crate::half::Half;
use grib_bits::get_bits;
use grib_block_reading::{BitsLeft, Head, Kept, Kind, is_referred, skip_padding, take_read};
use grib_coding::{BlockFault, Coding};
use grib_packing::Keeper;

/// What comes next.
#[derive(Clone, Copy, Debug)]
pub(crate) enum Stage {
    /// Bits of an item.
    Items,
    /// Nothing that is read: all items came, or one that is at fault.
    Over(Option<BlockFault>),
}

/// The items of some numbers, as their bits come.
#[derive(Debug, Drop)]
pub(crate) struct Reading {
    coding: Coding,
    /// How many numbers are coded.
    count: u32,
    /// How many blocks came.
    block: u32,
    stage: Stage,
    /// The item that is being read.
    half: Half,
}

impl Reading {
    /// No bit came yet of `count` numbers.
    pub(crate) fn start(coding: Coding, count: u32) -> Reading
        requires fits { Fits coding }
        requires few { count ≤ 33554432 }
        ensures reading { IsReading result }
        ensures coding { result.coding ≡ coding }
        ensures count { result.count ≡ count }
        ensures block { result.block ≡ 0 }
        ensures reads { (most : ℕ) (bits : List Bool) → length bits % 8 ≡ 0 → block_count coding count ≤ most
            → cut count (items_from most coding count 0 bits) ≡ cut count (left_at result (most - 1) bits) }
    {
        let mut reading = Reading {
            coding,
            count,
            block: 0,
            stage: Stage::Items,
            half: Half::new(),
        };
        reading.begin(0);
        reading
    }

    /// Reads the bits of a piece up to the end of the item that is being read.
    pub(crate) fn end_item<K: Keeper + Drop>(&mut self, piece: &[u8], kept: Kept<K>) -> Moved<K>
        requires reading { IsReading self.old }
        requires short { length piece.now < 2 ^ 32 }
        requires last { kept.last ≤ greatest self.old.coding }
        ensures reading { IsReading self.new }
        ensures last { result.kept.last ≤ greatest self.new.coding }
        ensures coding { self.new.coding ≡ self.old.coding }
        ensures count { self.new.count ≡ self.old.count }
        ensures within { result.place ≤ 8 * length piece.now }
        ensures fresh { result.place < 8 * length piece.now → self.new.stage ≡ Stage.Items → IsFresh self.new ((8 - result.place % 8) % 8) }
        ensures going { (octets : List ℕ) (first : _) → GoingAt K.kept octets piece.now 0 first self.old kept.last kept.keeper
            → GoingAt K.kept octets piece.now result.place first self.new result.kept.last result.kept.keeper }
    {
        let block = self.block;
        let mut kept = kept;
        let end = 8 * piece.len() as u64;
        for place in 0..end {
            kept = self.next_at(piece, place, kept);
            if self.block != block {
                let place = place + 1;
                return Moved { place, kept };
            }
        }
        Moved { place: end, kept }
    }

    /// Reads the items that are whole in a piece from a place on, where an item begins.
    pub(crate) fn read_items<K: Keeper + Drop>(
        &mut self,
        piece: &[u8],
        from: u64,
        kept: Kept<K>,
    ) -> Moved<K>
        requires reading { IsReading self.old }
        requires short { length piece.now < 2 ^ 32 }
        requires last { kept.last ≤ greatest self.old.coding }
        requires within { from ≤ 8 * length piece.now }
        requires fresh { from < 8 * length piece.now → self.old.stage ≡ Stage.Items → IsFresh self.old ((8 - from % 8) % 8) }
        ensures reading { IsReading self.new }
        ensures last { result.kept.last ≤ greatest self.new.coding }
        ensures coding { self.new.coding ≡ self.old.coding }
        ensures count { self.new.count ≡ self.old.count }
        ensures within { result.place ≤ 8 * length piece.now }
        ensures going { (octets : List ℕ) (first : _) → GoingAt K.kept octets piece.now from first self.old kept.last kept.keeper
            → GoingAt K.kept octets piece.now result.place first self.new result.kept.last result.kept.keeper }
    {
        let mut place = from;
        let mut kept = kept;
        for _item in 0..8 * piece.len() as u64 {
            let moved = self.next_item(piece, place, kept);
            kept = moved.kept;
            if moved.place == place {
                return Moved { place, kept };
            }
            place = moved.place;
        }
        Moved { place, kept }
    }

    /// Reads the bits of a piece from a place on.
    pub(crate) fn read_rest<K: Keeper + Drop>(
        &mut self,
        piece: &[u8],
        from: u64,
        kept: Kept<K>,
    ) -> Kept<K>
        requires reading { IsReading self.old }
        requires short { length piece.now < 2 ^ 32 }
        requires last { kept.last ≤ greatest self.old.coding }
        requires within { from ≤ 8 * length piece.now }
        ensures reading { IsReading self.new }
        ensures last { result.last ≤ greatest self.new.coding }
        ensures coding { self.new.coding ≡ self.old.coding }
        ensures count { self.new.count ≡ self.old.count }
        ensures going { (octets : List ℕ) (first : _) → GoingAt K.kept octets piece.now from first self.old kept.last kept.keeper
            → GoingAt K.kept octets piece.now (8 * length piece.now) first self.new result.last result.keeper }
    {
        let mut kept = kept;
        for place in from..8 * piece.len() as u64 {
            kept = self.next_at(piece, place, kept);
        }
        kept
    }

    /// Reads the bit of a piece at a place.
    #[inline]
    fn next_at<K: Keeper + Drop>(&mut self, piece: &[u8], place: u64, kept: Kept<K>) -> Kept<K>
        requires reading { IsReading self.old }
        requires last { kept.last ≤ greatest self.old.coding }
        requires short { length piece.now < 2 ^ 32 }
        requires within { place < 8 * length piece.now }
        ensures reading { IsReading self.new }
        ensures last { result.last ≤ greatest self.new.coding }
        ensures coding { self.new.coding ≡ self.old.coding }
        ensures count { self.new.count ≡ self.old.count }
        ensures fresh { (self.new.block ≡ self.old.block → ⊥) → self.new.stage ≡ Stage.Items → IsFresh self.new ((8 - (place + 1) % 8) % 8) }
        ensures going { (octets : List ℕ) (first : _) → GoingAt K.kept octets piece.now place first self.old kept.last kept.keeper
            → GoingAt K.kept octets piece.now (place + 1) first self.new result.last result.keeper }
    {
        self.next(bit_at(piece, place), bits_to_octet(place + 1), kept)
    }

    /// Takes the item that is whole in a piece from a place on. The place does not change where none is.
    fn next_item<K: Keeper + Drop>(&mut self, piece: &[u8], place: u64, kept: Kept<K>) -> Moved<K>
        requires reading { IsReading self.old }
        requires short { length piece.now < 2 ^ 32 }
        requires last { kept.last ≤ greatest self.old.coding }
        requires within { place ≤ 8 * length piece.now }
        requires fresh { place < 8 * length piece.now → self.old.stage ≡ Stage.Items → IsFresh self.old ((8 - place % 8) % 8) }
        ensures reading { IsReading self.new }
        ensures last { result.kept.last ≤ greatest self.new.coding }
        ensures coding { self.new.coding ≡ self.old.coding }
        ensures count { self.new.count ≡ self.old.count }
        ensures within { result.place ≤ 8 * length piece.now }
        ensures fresh { (result.place ≡ place → ⊥) → self.new.stage ≡ Stage.Items → IsFresh self.new ((8 - result.place % 8) % 8) }
        ensures going { (octets : List ℕ) (first : _) → GoingAt K.kept octets piece.now place first self.old kept.last kept.keeper
            → GoingAt K.kept octets piece.now result.place first self.new result.kept.last result.kept.keeper }
    {
        if !self.is_at_item() || place >= 8 * piece.len() as u64 {
            return Moved { place, kept };
        }
        let Some(whole) = self.read_whole(piece, place) else {
            self.begin(bits_to_octet(place));
            return Moved { place, kept };
        };
        let place = whole.place;
        let kept = self.take(whole.kind, bits_to_octet(place), kept);
        Moved { place, kept }
    }

    /// Reads the next item as a whole from a place of a piece on. What it is, and the place behind it.
    fn read_whole(&mut self, piece: &[u8], place: u64) -> Option<Whole>
        requires fits { Fits self.old.coding }
        requires short { length piece.now < 2 ^ 32 }
        requires within { place ≤ 8 * length piece.now }
        ensures whole { MatchOption result (Unit {0}) (λ whole. IsWholeAt self.old.coding self.old.block (drop place (bits_in piece.now)) (drop whole.place (bits_in piece.now)) whole.kind self.new.half
            × (place ≤ whole.place) × (whole.place ≤ 8 * length piece.now)) }
        ensures coding { self.new.coding ≡ self.old.coding }
        ensures count { self.new.count ≡ self.old.count }
        ensures block { self.new.block ≡ self.old.block }
        ensures stage { self.new.stage ≡ self.old.stage }
    {
        let mut bits = BitsLeft::after(piece, place);
        skip_padding(&mut bits, self.coding, self.block);
        let with_reference = is_referred(self.coding, self.block);
        let kind = self
            .half
            .read_whole(&mut bits, self.coding, with_reference)?;
        let place = 8 * piece.len() as u64 - bits.len();
        Some(Whole { kind, place })
    }

    /// Whether bits of an item come next.
    fn is_at_item(&self) -> bool
        ensures { result ≡ true → self.now.stage ≡ Stage.Items }
    {
        matches!(self.stage, Stage::Items)
    }

    /// What comes next.
    pub(crate) fn stage(&self) -> Stage
        ensures { result ≡ self.now.stage }
    {
        self.stage
    }

    /// Reads the next bit, after which `after` bits of an octet are left.
    #[inline]
    fn next<K: Keeper + Drop>(&mut self, bit: bool, after: u32, kept: Kept<K>) -> Kept<K>
        requires reading { IsReading self.old }
        requires after { after ≤ 7 }
        requires last { kept.last ≤ greatest self.old.coding }
        ensures reading { IsReading self.new }
        ensures last { result.last ≤ greatest self.new.coding }
        ensures coding { self.new.coding ≡ self.old.coding }
        ensures count { self.new.count ≡ self.old.count }
        ensures fresh { (self.new.block ≡ self.old.block → ⊥) → self.new.stage ≡ Stage.Items → IsFresh self.new after }
        ensures going { (start : List Bool) (first : _) → Going K.kept self.old.coding self.old.count self.old.block start first ((after + 1) % 8) (left_at self.old) kept.last kept.keeper
            → Going K.kept self.new.coding self.new.count self.new.block (start ++ bit ∷ []) first after (left_at self.new) result.last result.keeper }
    {
        let Some(kind) = self.read(bit) else {
            return kept;
        };
        self.take(kind, after, kept)
    }

    /// Reads the next bit. What the item is that it completes.
    #[inline]
    fn read(&mut self, bit: bool) -> Option<Kind>
        requires { IsReading self.old }
        ensures { Read self.old bit result self.new }
    {
        match self.stage {
            Stage::Items => self.half.read(self.coding, bit),
            Stage::Over(_) => None,
        }
    }

    /// Takes the item that is whole, after which `after` bits of an octet are left, and begins the next one.
    fn take<K: Keeper + Drop>(&mut self, kind: Kind, after: u32, kept: Kept<K>) -> Kept<K>
        requires fits { Fits self.old.coding }
        requires few { self.old.count ≤ 33554432 }
        requires some { self.old.block < block_count self.old.coding self.old.count }
        requires referred { self.old.half.with_reference ≡ has_reference self.old.coding self.old.block }
        requires item { (front : List Bool → Front Coded) × WholeItem self.old.coding front kind self.old.half }
        requires after { after ≤ 7 }
        requires last { kept.last ≤ greatest self.old.coding }
        ensures reading { IsReading self.new }
        ensures last { result.last ≤ greatest self.new.coding }
        ensures coding { self.new.coding ≡ self.old.coding }
        ensures count { self.new.count ≡ self.old.count }
        ensures fresh { self.new.stage ≡ Stage.Items → IsFresh self.new after }
        ensures going { (front : List Bool → Front Coded) (start : List Bool) (first : _) → WholeItem self.old.coding front kind self.old.half
            → Going K.kept self.old.coding self.old.count self.old.block start first after (left_by self.old.coding self.old.count self.old.block front) kept.last kept.keeper
            → Going K.kept self.new.coding self.new.count self.new.block start first after (left_at self.new) result.last result.keeper }
    {
        let head = Head {
            reference: self.half.reference,
            kind,
        };
        let count = self.half.count(self.coding);
        let codes = &self.half.numbers[..count];
        let read = take_read(head, self.coding, self.count, self.block, codes, kept);
        match read.blocks {
            Ok(blocks) => {
                self.block += blocks;
                self.begin(after);
            }
            Err(fault) => self.stage = Stage::Over(Some(fault)),
        }
        read.kept
    }

    /// Begins the next item, if one follows, where `after` bits of an octet are left.
    fn begin(&mut self, after: u32)
        requires fits { Fits self.old.coding }
        requires few { self.old.count ≤ 33554432 }
        requires after { after ≤ 7 }
        ensures reading { IsReading self.new }
        ensures coding { self.new.coding ≡ self.old.coding }
        ensures count { self.new.count ≡ self.old.count }
        ensures block { self.new.block ≡ self.old.block }
        ensures fresh { IsFresh self.new after }
        ensures reads { (most : ℕ) (bits : List Bool) → length bits % 8 ≡ after → block_count self.old.coding self.old.count ≤ self.old.block + most
            → cut (self.old.count - self.old.block * self.old.coding.block) (items_from most self.old.coding self.old.count self.old.block bits)
            ≡ cut (self.old.count - self.old.block * self.old.coding.block) (left_at self.new (most - 1) bits) }
    {
        if self.block >= self.coding.block_count(self.count) {
            self.stage = Stage::Over(None);
            return;
        }
        let with_reference = is_referred(self.coding, self.block);
        let padding = padding_before(self.coding, self.block, after);
        self.stage = Stage::Items;
        self.half.begin(self.coding, with_reference, padding);
    }
}

/// How far a piece was read, in bits, and what keeps the points.
#[derive(Drop)]
pub(crate) struct Moved<K> {
    pub(crate) place: u64,
    pub(crate) kept: Kept<K>,
}

/// What an item is that was read as a whole, and the place behind it.
#[derive(Clone, Copy)]
struct Whole {
    kind: Kind,
    place: u64,
}

/// The bit after the first `place` bits of some octets.
#[inline]
fn bit_at(octets: &[u8], place: u64) -> bool
    requires { place < 8 * length octets.now }
    ensures { drop place (bits_in octets.now) ≡ result ∷ drop (place + 1) (bits_in octets.now) }
{
    get_bits(octets, place, 1) == 1
}

/// How many bits there are from a place on to the next one where an octet begins.
#[inline]
fn bits_to_octet(place: u64) -> u32
    ensures is { result ≡ (8 - place % 8) % 8 }
    ensures within { result ≤ 7 }
{
    ((8 - place % 8) % 8) as u32
}

/// How many bits are passed over before the item that begins with a block, where `after` bits of an octet are left.
fn padding_before(coding: Coding, block: u32, after: u32) -> u32
    requires fits { Fits coding }
    requires after { after ≤ 7 }
    ensures within { result ≤ 7 }
    ensures enough { (bits : List Bool) → length bits % 8 ≡ after → result ≤ length bits }
    ensures padded { (bits : List Bool) → length bits % 8 ≡ after → padded coding (block % coding.interval == 0) bits ≡ drop result bits }
{
    if coding.is_padded() && block % u32::from(coding.interval) == 0 {
        after
    } else {
        0
    }
}
