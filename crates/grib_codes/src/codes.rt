//! Codes in 32 bits each.

ghost use Rattle.std.specs.Prelude.{◌≡◌, ◌≢◌, ℕ, ◌+◌, ◌≤◌, ◌<◌, ◌^◌, ◌∷◌, [], length, take, drop, get_or, max, min, true, false, All};
ghost use Rattle.grib_base.specs.declared.code.Code as code_io;
ghost use Rattle.grib_codes.specs.Words.{code_of, codes_of};
ghost use Rattle.grib_base.specs.declared.code.Code.TheVariants.{Primary};
ghost use Rattle.grib_packing.specs.Groupings.{greatest, smallest, present_codes, is_present};
ghost use Rattle.grib_codes.specs.Span.{IsBelow, IsOrdered, IsSmallWith, IsSpan, IsTold};

use crate::Span;
use grib_base::Code;
use std::marker::Model;

/// Codes in 32 bits each, of which up to two are reserved for missing points: all bits set for primary missing,
/// one less for secondary, as in a group of 32 bits (WMO-No. 306, Volume I.2, FM 92 GRIB edition 2, data
/// template 7.2).
#[derive(Debug, Drop)]
pub struct Codes<'a> {
    words: &'a [u32],
    reserved: u32,
}

impl<'a> Model for Codes<'a> {
    ghost use Rattle.std.specs.Prelude.{List, ◌≤◌};
    ghost use Rattle.grib_base.specs.declared.code.Code.{Code};
    ghost use Rattle.grib_codes.specs.Words.{codes_of};

    ghost Value = { List Code };

    ghost view = { λ codes. codes_of codes.reserved codes.words.now };

    ghost invariant = { λ codes. codes.reserved ≤ 2 };
}

impl<'a> Codes<'a> {
    /// The codes that these words stand for, where `reserved` codes are kept for missing points.
    #[inline]
    pub fn of(words: &'a [u32], reserved: u32) -> Codes<'a>
        requires { reserved ≤ 2 }
        ensures is { result ≡ codes_of reserved words.now }
        ensures below { All (IsBelow reserved) result }
    {
        Codes { words, reserved }
    }

    /// All of them.
    #[inline(always)]
    pub fn all(&self) -> Codes<'a>
        ensures { result ≡ self.now }
    {
        Codes {
            words: self.words,
            reserved: self.reserved,
        }
    }

    /// How many there are.
    #[inline(always)]
    pub fn len(&self) -> usize
        ensures { result ≡ length self.now }
    {
        self.words.len()
    }

    /// The code at a place.
    #[inline(always)]
    pub fn at(&self, place: usize) -> Code
        requires { place < length self.now }
        ensures { (default : code_io.Code) → result ≡ get_or self.now place default }
    {
        let words = self.words;
        code_in(words[place], self.reserved)
    }

    /// Whether the codes at two places are the same.
    #[inline(always)]
    pub fn are_same(&self, place: usize, other: usize) -> bool
        requires place { place < length self.now }
        requires other { other < length self.now }
        ensures same { (default : code_io.Code) → result ≡ true → get_or self.now place default ≡ get_or self.now other default }
        ensures differ { (default : code_io.Code) → result ≡ false → get_or self.now place default ≢ get_or self.now other default }
    {
        let words = self.words;
        words[place] == words[other]
    }

    /// The first codes, as many as `count`, and those behind them.
    #[inline(always)]
    pub fn split_at(&self, count: usize) -> (Codes<'a>, Codes<'a>)
        requires { count ≤ length self.now }
        ensures front { result.0 ≡ take count self.now }
        ensures back { result.1 ≡ drop count self.now }
    {
        let (front, back) = self.words.split_at(count);
        (
            Codes {
                words: front,
                reserved: self.reserved,
            },
            Codes {
                words: back,
                reserved: self.reserved,
            },
        )
    }

    /// What they span.
    pub fn span(&self) -> Span
        ensures span { IsSpan result self.now }
        ensures ordered { IsOrdered result }
        ensures small { (k : ℕ) → k ≤ 2 → All (IsBelow k) self.now → IsSmallWith k result }
    {
        span_of_words(self.words, self.reserved)
    }
}

/// What the codes of these words span. Where all are numbers only the least and the greatest are looked for, and where
/// some are primary missing and no other code is reserved, the greatest number too.
fn span_of_words(words: &[u32], reserved: u32) -> Span
    requires { reserved ≤ 2 }
    ensures span { IsSpan result (codes_of reserved words.now) }
    ensures ordered { IsOrdered result }
    ensures small { (k : ℕ) → k ≤ 2 → All (IsBelow k) (codes_of reserved words.now) → IsSmallWith k result }
{
    let (least, greatest) = ends(words);
    if words.len() == 0 || greatest > u32::MAX - reserved {
        return span_with_marks(words, least, greatest, reserved);
    }
    span_between(u64::from(least), u64::from(greatest))
}

/// What the codes of these words span, of which these are the least and the greatest, where some may be marks.
fn span_with_marks(words: &[u32], least: u32, most: u32, reserved: u32) -> Span
    requires few { reserved ≤ 2 }
    requires least { least ≡ smallest (u32.MAX ∷ words.now) }
    requires greatest { most ≡ greatest words.now }
    ensures span { IsSpan result (codes_of reserved words.now) }
    ensures ordered { IsOrdered result }
    ensures small { (k : ℕ) → k ≤ 2 → All (IsBelow k) (codes_of reserved words.now) → IsSmallWith k result }
{
    if reserved != 1 || most < u32::MAX {
        return span_of_each(words, reserved);
    }
    if least == u32::MAX {
        return Span::none().with(Code::Primary);
    }
    span_around(u64::from(least), u64::from(greatest_number(words)))
}

/// The least and the greatest of some words. The first is the greatest word where there is none.
fn ends(words: &[u32]) -> (u32, u32)
    ensures least { result.0 ≡ smallest (u32.MAX ∷ words.now) }
    ensures greatest { result.1 ≡ greatest words.now }
{
    let mut least = u32::MAX;
    let mut most: u32 = 0;
    for word in words {
        least = least.min(*word);
        most = most.max(*word);
    }
    (least, most)
}

/// What two numbers span.
#[inline]
fn span_between(least: u64, greatest: u64) -> Span
    ensures span { IsSpan result (Code.Present greatest ∷ Code.Present least ∷ []) }
    ensures ordered { IsOrdered result }
{
    Span::none()
        .with(Code::Present(least))
        .with(Code::Present(greatest))
}

/// What two numbers and a primary missing point span.
#[inline]
fn span_around(least: u64, greatest: u64) -> Span
    ensures span { IsSpan result (Code.Present greatest ∷ Code.Present least ∷ Primary ∷ []) }
    ensures ordered { IsOrdered result }
{
    Span::none()
        .with(Code::Primary)
        .with(Code::Present(least))
        .with(Code::Present(greatest))
}

/// The greatest number of some words, where the one code that is reserved is for primary missing points; 0 for none.
fn greatest_number(words: &[u32]) -> u32
    ensures { result ≡ greatest (present_codes (codes_of 1 words.now)) }
{
    let mut most: u32 = 0;
    for word in words {
        most = most.max(number_or_none(*word));
    }
    most
}

/// The number that a word stands for, and 0 for a mark.
#[inline(always)]
fn number_or_none(word: u32) -> u32
    ensures { result ≡ greatest (present_codes (code_of 1 word ∷ [])) }
{
    if word == u32::MAX { 0 } else { word }
}

/// What the codes of these words span, each looked at.
fn span_of_each(words: &[u32], reserved: u32) -> Span
    requires { reserved ≤ 2 }
    ensures span { IsSpan result (codes_of reserved words.now) }
    ensures ordered { IsOrdered result }
    ensures small { (k : ℕ) → k ≤ 2 → All (IsBelow k) (codes_of reserved words.now) → IsSmallWith k result }
{
    let mut span = Span::none();
    for word in words {
        span = span.with(code_in(*word, reserved));
    }
    span
}

/// The code that a word stands for.
#[inline(always)]
fn code_in(word: u32, reserved: u32) -> Code
    requires { reserved ≤ 2 }
    ensures { result ≡ code_of reserved word }
{
    if word <= u32::MAX - reserved {
        Code::Present(u64::from(word))
    } else if word == u32::MAX {
        Code::Primary
    } else {
        Code::Secondary
    }
}

/// Whether a code is a number, and no mark.
#[inline(always)]
pub fn is_number(code: Code) -> bool
    ensures { result ≡ is_present code }
{
    matches!(code, Code::Present(_))
}

/// The word that stands for a code.
#[inline(always)]
pub fn word_of(code: Code) -> u32
    requires { IsBelow 0 code }
    ensures { (reserved : ℕ) → reserved ≤ 2 → IsTold reserved code → code_of reserved result ≡ code }
{
    match code {
        Code::Present(number) => number as u32,
        Code::Primary => u32::MAX,
        Code::Secondary => u32::MAX - 1,
    }
}
