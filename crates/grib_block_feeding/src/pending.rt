//! A number that is read bit by bit.

ghost use Rattle.std.specs.Prelude.{◌≡◌, ℕ, ◌^◌, ◌<◌, ◌≤◌, List, Bool, ◌∷◌, MatchOption};
ghost use Rattle.grib_bits.specs.Bits.{digit};
ghost use Rattle.grib_coding.specs.Reading.{Found};
ghost use Rattle.grib_block_feeding.specs.Pending.{front_pending, IsSmall, IsNumber, IsSequence};

/// A number of an item that is not whole.
#[derive(Clone, Copy, Debug)]
pub(crate) enum Pending {
    /// A number in bits: what the bits so far make, and how many are missing.
    Bits(u64, u32),
    /// A sequence of zero bits up to a one bit: how many came, or the greatest count there is.
    Sequence(u64),
}

impl Pending {
    /// Reads the next bit. The number, if it is whole.
    #[inline]
    pub(crate) fn read(&mut self, bit: bool) -> Option<u64>
        requires { IsSmall self.old }
        ensures reads { MatchOption result ((rest : List Bool) → front_pending self.old (bit ∷ rest) ≡ front_pending self.new rest)
            (λ number. (rest : List Bool) → front_pending self.old (bit ∷ rest) ≡ Found number rest) }
        ensures number { (width : ℕ) → IsNumber width self.old → MatchOption result (IsNumber width self.new) (λ number. number < 2 ^ width) }
        ensures sequence { IsSequence self.old → MatchOption result (IsSequence self.new) (λ number. number ≤ 18446744073709551615) }
    {
        match *self {
            Pending::Bits(value, left) => {
                let value = 2 * value + digit_of(bit);
                if left == 1 {
                    return Some(value);
                }
                *self = Pending::Bits(value, left - 1);
                None
            }
            Pending::Sequence(zeros) => {
                if bit {
                    return Some(zeros);
                }
                *self = Pending::Sequence(zeros.saturating_add(1));
                None
            }
        }
    }
}

/// What a bit counts.
#[inline(always)]
fn digit_of(bit: bool) -> u64
    ensures is { result ≡ digit bit }
    ensures within { result ≤ 1 }
{
    if bit { 1 } else { 0 }
}
