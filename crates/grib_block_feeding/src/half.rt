//! One item, bit by bit.

ghost use Rattle.std.specs.Prelude.{◌≡◌, ℕ, suc, ◌+◌, ◌/◌, ◌%◌, ◌^◌, ◌==◌, ◌<◌, ◌≤◌, true, List, Bool, ◌∷◌, length, drop, None, Some, MatchOption};
ghost use Rattle.grib_coding.specs.Coding.{Fits, identifier_width};
ghost use Rattle.grib_coding.specs.Reading.{front_item, front_kind, front_zero, front_reference, and_then};
ghost use Rattle.grib_block_reading.specs.ItemRead.{HasReference};
ghost use Rattle.grib_block_feeding.specs.Half.{capped, count_of, front_shape, front_from, front_half, after_part, after_pairs, after_high, after_low, after_codes, after_count, low_front, Stands, ShapeFits, IsHalf, Gone, WholeItem, GoesOn, IsFront};

use crate::pending::Pending;
use grib_block_reading::{BitsLeft, Kind, read_item, spread_second};
use grib_coding::Coding;

/// How an item is coded.
#[derive(Clone, Copy, Debug)]
pub(crate) enum Shape {
    /// A run of zero blocks.
    ZeroBlocks,
    /// A second extension.
    SecondExtension,
    /// Codes divided by 2 to this power, and what is left of each.
    SplitSamples(u32),
    /// Codes as they are.
    NoCompression,
}

/// The part of an item that is being read.
#[derive(Clone, Copy, Debug)]
pub(crate) enum Part {
    /// Bits before it up to a whole octet.
    Padding,
    /// Its identifier.
    Identifier,
    /// The bit after the identifier 0.
    Extension,
    /// The reference of an item that is coded so.
    Reference(Shape),
    /// The number of a run of zero blocks.
    Count,
    /// The numbers that count pairs of codes.
    Pairs,
    /// Codes divided by 2 to this power.
    High(u32),
    /// This many low bits of each code.
    Low(u32),
    /// Codes.
    Codes,
}

/// An item that is not whole.
#[derive(Clone, Debug, Drop)]
pub(crate) struct Half {
    /// The part that is being read.
    part: Part,
    /// The number of it that is being read.
    pending: Pending,
    /// Whether the item has a reference.
    pub(crate) with_reference: bool,
    /// Its reference, once it is whole.
    pub(crate) reference: Option<u32>,
    /// How many numbers of the part are whole.
    place: usize,
    /// These numbers. Where low bits are read, what codes were divided by stands behind them.
    pub(crate) numbers: [u64; 64],
}

impl Half {
    /// No item, of which nothing came.
    pub(crate) fn new() -> Half {
        Half {
            part: Part::Padding,
            pending: Pending::Sequence(0),
            with_reference: false,
            reference: None,
            place: 0,
            numbers: [0; 64],
        }
    }

    /// Begins an item, before which `padding` bits are passed over.
    pub(crate) fn begin(&mut self, coding: Coding, with_reference: bool, padding: u32)
        requires fits { Fits coding }
        requires padding { padding ≤ 7 }
        ensures half { IsHalf coding self.new }
        ensures reference { self.new.with_reference ≡ with_reference }
        ensures reads { (bits : List Bool) → padding ≤ length bits → front_half coding self.new bits ≡ capped (front_item coding with_reference (drop padding bits)) }
    {
        self.with_reference = with_reference;
        if padding == 0 {
            self.begin_identifier(coding);
        } else {
            self.part = Part::Padding;
            self.pending = Pending::Bits(0, padding);
        }
    }

    /// Reads the next bit. What the item is, if it is whole: its codes are among the numbers.
    #[inline]
    pub(crate) fn read(&mut self, coding: Coding, bit: bool) -> Option<Kind>
        requires fits { Fits coding }
        requires half { IsHalf coding self.old }
        ensures gone { Gone coding (λ rest. front_half coding self.old (bit ∷ rest)) result self.new }
        ensures reference { self.new.with_reference ≡ self.old.with_reference }
    {
        let number = self.pending.read(bit)?;
        self.go_on(coding, number)
    }

    /// Reads an item as a whole. What it is: its codes are among the numbers.
    pub(crate) fn read_whole(
        &mut self,
        bits: &mut BitsLeft<'_>,
        coding: Coding,
        with_reference: bool,
    ) -> Option<Kind>
        requires { Fits coding }
        ensures item { MatchOption result (Unit {0}) (λ kind. IsFront coding (front_item coding with_reference bits.old) bits.new kind self.new) }
        ensures reference { self.new.with_reference ≡ with_reference }
    {
        self.with_reference = with_reference;
        let count = self.count(coding);
        let head = read_item(bits, coding, with_reference, &mut self.numbers[..count])?;
        self.reference = head.reference;
        Some(head.kind)
    }

    /// Goes on after a number of the part that is read.
    fn go_on(&mut self, coding: Coding, number: u64) -> Option<Kind>
        requires fits { Fits coding }
        requires stands { Stands coding self.old self.old.part (λ width. number < 2 ^ width) (number ≤ 18446744073709551615) }
        ensures gone { Gone coding (after_part coding self.old self.old.part number) result self.new }
        ensures reference { self.new.with_reference ≡ self.old.with_reference }
    {
        match self.part {
            Part::Padding => self.begin_identifier(coding),
            Part::Identifier => self.identify(coding, number),
            Part::Extension => self.extend(coding, number),
            Part::Reference(shape) => self.begin_shape(coding, shape, Some(number as u32)),
            Part::Count => return Some(Kind::Zeros(number)),
            Part::Pairs => return self.next_pair(coding, number),
            Part::High(k) => return self.next_high(coding, k, number),
            Part::Low(k) => return self.next_low(coding, k, number),
            Part::Codes => return self.next_code(coding, number),
        }
        None
    }

    /// Begins an identifier.
    fn begin_identifier(&mut self, coding: Coding)
        requires { Fits coding }
        ensures on { GoesOn coding (λ bits. capped (front_item coding self.old.with_reference bits)) self.new }
        ensures reference { self.new.with_reference ≡ self.old.with_reference }
    {
        self.part = Part::Identifier;
        self.pending = Pending::Bits(0, coding.identifier_width());
    }

    /// Goes on after an identifier.
    fn identify(&mut self, coding: Coding, identifier: u64)
        requires fits { Fits coding }
        requires within { identifier < 2 ^ identifier_width coding }
        ensures on { GoesOn coding (λ rest. capped (front_kind coding self.old.with_reference (identifier + 1 == 2 ^ identifier_width coding) identifier rest)) self.new }
        ensures reference { self.new.with_reference ≡ self.old.with_reference }
    {
        if identifier == 0 {
            self.part = Part::Extension;
            self.pending = Pending::Bits(0, 1);
        } else if identifier + 1 == 1 << coding.identifier_width() {
            self.begin_reference(coding, Shape::NoCompression);
        } else {
            self.begin_reference(coding, Shape::SplitSamples(identifier as u32 - 1));
        }
    }

    /// Goes on after the bit behind the identifier 0.
    fn extend(&mut self, coding: Coding, bit: u64)
        requires { Fits coding }
        ensures on { GoesOn coding (λ rest. capped (front_zero coding self.old.with_reference bit rest)) self.new }
        ensures reference { self.new.with_reference ≡ self.old.with_reference }
    {
        let shape = if bit == 0 {
            Shape::ZeroBlocks
        } else {
            Shape::SecondExtension
        };
        self.begin_reference(coding, shape);
    }

    /// Begins a reference, if the item has one.
    fn begin_reference(&mut self, coding: Coding, shape: Shape)
        requires fits { Fits coding }
        requires shape { ShapeFits shape }
        ensures on { GoesOn coding (λ rest. capped (front_from coding self.old.with_reference shape rest)) self.new }
        ensures reference { self.new.with_reference ≡ self.old.with_reference }
    {
        if self.with_reference {
            self.part = Part::Reference(shape);
            self.pending = Pending::Bits(0, u32::from(coding.bits));
        } else {
            self.begin_shape(coding, shape, None);
        }
    }

    /// Begins what follows a reference.
    fn begin_shape(&mut self, coding: Coding, shape: Shape, reference: Option<u32>)
        requires fits { Fits coding }
        requires shape { ShapeFits shape }
        requires reference { HasReference coding self.old.with_reference reference }
        ensures on { GoesOn coding (λ rest. capped (front_shape coding self.old.with_reference shape reference rest)) self.new }
        ensures reference { self.new.with_reference ≡ self.old.with_reference }
    {
        self.reference = reference;
        self.place = 0;
        self.pending = Pending::Sequence(0);
        match shape {
            Shape::ZeroBlocks => self.part = Part::Count,
            Shape::SecondExtension => self.part = Part::Pairs,
            Shape::SplitSamples(k) => self.part = Part::High(k),
            Shape::NoCompression => {
                self.part = Part::Codes;
                self.pending = Pending::Bits(0, u32::from(coding.bits));
            }
        }
    }

    /// How many codes of the block do not stand in a reference.
    pub(crate) fn count(&self, coding: Coding) -> usize
        requires { Fits coding }
        ensures is { result ≡ count_of coding self.now }
        ensures some { 1 ≤ result }
        ensures most { result ≤ 64 }
    {
        usize::from(coding.block) - usize::from(self.with_reference)
    }

    /// Goes on after the number of a pair of codes.
    fn next_pair(&mut self, coding: Coding, number: u64) -> Option<Kind>
        requires fits { Fits coding }
        requires reference { HasReference coding self.old.with_reference self.old.reference }
        requires place { self.old.place < coding.block / 2 }
        requires part { self.old.part ≡ Part.Pairs }
        ensures gone { Gone coding (after_pairs coding self.old number) result self.new }
        ensures reference { self.new.with_reference ≡ self.old.with_reference }
    {
        self.numbers[self.place] = number;
        self.place += 1;
        self.pending = Pending::Sequence(0);
        let pairs = usize::from(coding.block / 2);
        if self.place < pairs {
            return None;
        }
        let numbers = self.numbers;
        let count = self.count(coding);
        Some(spread_second(
            &numbers[..pairs],
            self.with_reference,
            &mut self.numbers[..count],
        ))
    }

    /// Goes on after a code that was divided by 2 to the `k`.
    fn next_high(&mut self, coding: Coding, k: u32, number: u64) -> Option<Kind>
        requires fits { Fits coding }
        requires stands { Stands coding self.old (Part.High k) (λ width. number < 2 ^ width) (number ≤ 18446744073709551615) }
        requires part { self.old.part ≡ Part.High k }
        ensures gone { Gone coding (after_high coding self.old k number) result self.new }
        ensures reference { self.new.with_reference ≡ self.old.with_reference }
    {
        self.numbers[self.place] = number;
        self.place += 1;
        if self.place < self.count(coding) {
            self.pending = Pending::Sequence(0);
            return None;
        }
        if k == 0 {
            return Some(Kind::Codes);
        }
        self.part = Part::Low(k);
        self.place = 0;
        self.pending = Pending::Bits(0, k);
        None
    }

    /// Goes on after the `k` low bits of a code.
    fn next_low(&mut self, coding: Coding, k: u32, number: u64) -> Option<Kind>
        requires fits { Fits coding }
        requires stands { Stands coding self.old (Part.Low k) (λ width. number < 2 ^ width) (number ≤ 18446744073709551615) }
        requires part { self.old.part ≡ Part.Low k }
        ensures gone { Gone coding (after_low coding self.old k number) result self.new }
        ensures reference { self.new.with_reference ≡ self.old.with_reference }
    {
        let high = self.numbers[self.place];
        self.numbers[self.place] = high.saturating_mul(1 << k).saturating_add(number);
        self.place += 1;
        if self.place < self.count(coding) {
            self.pending = Pending::Bits(0, k);
            return None;
        }
        Some(Kind::Codes)
    }

    /// Goes on after a code.
    fn next_code(&mut self, coding: Coding, number: u64) -> Option<Kind>
        requires fits { Fits coding }
        requires reference { HasReference coding self.old.with_reference self.old.reference }
        requires place { self.old.place < count_of coding self.old }
        requires part { self.old.part ≡ Part.Codes }
        ensures gone { Gone coding (after_codes coding self.old number) result self.new }
        ensures reference { self.new.with_reference ≡ self.old.with_reference }
    {
        self.numbers[self.place] = number;
        self.place += 1;
        if self.place < self.count(coding) {
            self.pending = Pending::Bits(0, u32::from(coding.bits));
            return None;
        }
        Some(Kind::Codes)
    }
}
