//! Codes of a group that follow one another.

ghost use Rattle.std.specs.Prelude.{◌≡◌, ℕ, ◌+◌, ◌*◌, ◌^◌, ◌<◌, ◌≤◌, List, ◌∷◌, length, drop, map, replicate};
ghost use Rattle.grib_bits.specs.Bits.{bits as bits_in};
ghost use Rattle.grib_bits.specs.Plain.{plain};
ghost use Rattle.grib_base.specs.declared.code.Code.{Code as code_of_value};
ghost use Rattle.grib_group_reading.specs.Taking.{code_by, number_of};
ghost use Rattle.grib_group_reading.specs.CodeRuns.{AreInWords, IsBelowItsLimit, codes_in_words, limit_of, same_codes};

use crate::coding::Coding;
use grib_base::Code;
use grib_bits::number_in_word;

/// Codes of one group that follow one another, each of which is given once.
pub trait CodeRun {
    // The codes that are still to be given.
    ghost codes: { Self → List code_of_value };

    // Their numbers are below this.
    ghost limit: { Self → ℕ };

    // It has what it is to read.
    ghost stands: { Self → Type 0 };

    /// How many codes are still to be given.
    fn count(&self) -> u32
        requires { stands self.now }
        ensures { result ≡ length (codes self.now) };

    /// What the numbers of all codes are below.
    fn limit(&self) -> u64
        requires { stands self.now }
        ensures { result ≡ limit self.now };

    /// The next code.
    fn next(&mut self) -> Code
        requires stands { stands self.old }
        requires some { 1 ≤ length (codes self.old) }
        ensures codes { codes self.old ≡ result ∷ codes self.new }
        ensures below { number_of result < limit self.old }
        ensures limit { limit self.new ≡ limit self.old }
        ensures stands { stands self.new };
}

/// Numbers of one width, each of which begins where eight octets are left.
#[derive(Debug, Drop)]
pub(crate) struct WordRun<'a> {
    coding: Coding,
    octets: &'a [u8],
    /// The bits before the next number.
    place: u64,
    width: u32,
    count: u32,
}

impl<'a> WordRun<'a> {
    /// `count` numbers after the first `place` bits of `octets`.
    #[inline(always)]
    pub(crate) fn new(
        coding: Coding,
        octets: &'a [u8],
        place: u64,
        width: u32,
        count: u32,
    ) -> WordRun<'a>
        requires some { 1 ≤ width }
        requires width { width ≤ 48 }
        requires reference { coding.reference < 2 ^ 32 }
        requires short { length octets.now < 2 ^ 32 }
        requires within { 0 < count → place + count * width + 64 ≤ 8 * length octets.now + width }
        ensures codes { codes_in_words result ≡ map (code_by coding) (plain (drop place (bits_in octets.now)) width count) }
        ensures limit { limit_of result ≡ coding.reference + 2 ^ width }
        ensures stands { AreInWords result }
    {
        WordRun {
            coding,
            octets,
            place,
            width,
            count,
        }
    }
}

impl CodeRun for WordRun<'_> {
    ghost codes = { codes_in_words };

    ghost limit = { limit_of };

    ghost stands = { AreInWords };

    #[inline(always)]
    fn count(&self) -> u32 {
        self.count
    }

    #[inline(always)]
    fn limit(&self) -> u64 {
        self.coding.limit(self.width)
    }

    #[inline(always)]
    fn next(&mut self) -> Code {
        let number = number_in_word(self.octets, self.place, self.width);
        self.place += u64::from(self.width);
        self.count -= 1;
        self.coding.code(number)
    }
}

/// One code several times.
#[derive(Debug, Drop)]
pub(crate) struct SameRun {
    code: Code,
    /// What its number is below.
    limit: u64,
    count: u32,
}

impl SameRun {
    /// This code `count` times.
    #[inline(always)]
    pub(crate) fn new(code: Code, limit: u64, count: u32) -> SameRun
        requires { number_of code < limit }
        ensures codes { same_codes result ≡ replicate count code }
        ensures limit { result.limit ≡ limit }
        ensures stands { IsBelowItsLimit result }
    {
        SameRun { code, limit, count }
    }
}

impl CodeRun for SameRun {
    ghost codes = { same_codes };

    ghost limit = { λ run. run.limit };

    ghost stands = { IsBelowItsLimit };

    #[inline(always)]
    fn count(&self) -> u32 {
        self.count
    }

    #[inline(always)]
    fn limit(&self) -> u64 {
        self.limit
    }

    #[inline(always)]
    fn next(&mut self) -> Code {
        self.count -= 1;
        self.code
    }
}
