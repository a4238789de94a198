//! What a run of codes spans.

ghost use Rattle.std.specs.Prelude.{◌≡◌, ℕ, ◌+◌, ◌<◌, ◌≤◌, ◌^◌, ◌∷◌, [], List, not, ◌&&◌, ◌==◌, cond, All};
ghost use Rattle.grib_packing.specs.Groupings.{width_of, reference_bits_of};
ghost use Rattle.grib_packing.specs.Packed.{reference_of};
ghost use Rattle.grib_base.specs.declared.code.Code as code_io;
ghost use Rattle.grib_codes.specs.Span.{IsBelow, IsOrdered, IsSmallWith, IsSpan};

use grib_base::Code;
use grib_packing::bit_length;

/// What the width of a run of codes rests on.
#[derive(Clone, Copy, Debug)]
pub struct Span {
    /// The least and the greatest number, 0 where the run has none.
    least: u64,
    greatest: u64,
    /// Which kinds of codes the run has.
    present: bool,
    primary: bool,
    secondary: bool,
}

impl Span {
    /// The span of no codes.
    pub fn none() -> Span
        ensures { IsSpan result [] }
    {
        Span {
            least: 0,
            greatest: 0,
            present: false,
            primary: false,
            secondary: false,
        }
    }

    /// The span of these codes.
    pub fn of(run: &[Code]) -> Span
        ensures span { IsSpan result run.now }
        ensures ordered { IsOrdered result }
        ensures small { (k : ℕ) → k ≤ 2 → All (IsBelow k) run.now → IsSmallWith k result }
    {
        let mut span = Span::none();
        for done in 0..run.len() {
            span = span.with(run[done]);
        }
        span
    }

    /// The span of the run with this code before it.
    #[inline]
    pub fn with(self, code: Code) -> Span
        ensures span { (run : List code_io.Code) → IsSpan self run → IsSpan result (code ∷ run) }
        ensures ordered { IsOrdered self → IsOrdered result }
        ensures small { (k : ℕ) → IsSmallWith k self → IsBelow k code → IsSmallWith k result }
    {
        match code {
            Code::Present(number) => self.with_number(number),
            Code::Primary => Span {
                primary: true,
                ..self
            },
            Code::Secondary => Span {
                secondary: true,
                ..self
            },
        }
    }

    /// The span of the run with this number before it.
    #[inline]
    fn with_number(self, number: u64) -> Span
        ensures span { (run : List code_io.Code) → IsSpan self run → IsSpan result (Code.Present number ∷ run) }
        ensures ordered { IsOrdered self → IsOrdered result }
        ensures small { (k : ℕ) → IsSmallWith k self → number + k < 2 ^ 32 → IsSmallWith k result }
    {
        if self.present {
            Span {
                least: number.min(self.least),
                greatest: number.max(self.greatest),
                ..self
            }
        } else {
            Span {
                least: number,
                greatest: number,
                present: true,
                ..self
            }
        }
    }

    /// The width of the run as a group, in bits, with this many codes reserved for missing points.
    #[inline]
    pub fn width(self, reserved: u32) -> u32
        requires ordered { IsOrdered self }
        requires small { IsSmallWith reserved self }
        ensures is { (run : List code_io.Code) → IsSpan self run → result ≡ width_of reserved run }
        ensures few { result ≤ 32 }
    {
        if !self.present {
            return self.width_of_marks();
        }
        if self.is_constant() {
            return 0;
        }
        bit_length(self.greatest - self.least + u64::from(reserved))
    }

    /// The reference of the run as a group, where a reference has this many bits: the least number; without
    /// one all bits set where all are primary missing, one less where all are secondary missing, else 0.
    #[inline]
    pub fn reference(self, bits: u32) -> u64
        requires { bits ≤ 32 }
        ensures { (run : List code_io.Code) → IsSpan self run → result ≡ reference_of bits run }
    {
        if self.present {
            self.least
        } else if !self.secondary {
            (1 << bits) - 1
        } else if !self.primary {
            (1u64 << bits).saturating_sub(2)
        } else {
            0
        }
    }

    /// The bits of each group reference where all codes are this run and this many are reserved for missing
    /// points: those of the greatest number and the reserved codes.
    #[inline]
    pub fn reference_bits(self, reserved: u32) -> u32
        requires { IsSmallWith reserved self }
        ensures is { (run : List code_io.Code) → IsSpan self run → result ≡ reference_bits_of reserved run }
        ensures few { result ≤ 32 }
    {
        bit_length(self.greatest + u64::from(reserved))
    }

    /// The width of a run without a number: 1 bit tells two kinds of missing points apart.
    #[inline]
    fn width_of_marks(self) -> u32
        ensures { result ≡ cond (self.primary && self.secondary) 1 0 }
    {
        if self.primary && self.secondary { 1 } else { 0 }
    }

    /// Whether all codes of a run with numbers are the same.
    #[inline]
    fn is_constant(self) -> bool
        ensures { result ≡ ((not self.primary && not self.secondary) && (self.greatest == self.least)) }
    {
        !self.primary && !self.secondary && self.greatest == self.least
    }
}
