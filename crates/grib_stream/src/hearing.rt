//! What judges a message incrementally, as its octets come.

ghost use Rattle.std.specs.Prelude.{◌≤◌, ℕ, Bool, List, length};
ghost use Rattle.grib_stream.specs.Stream.{Judgement};
ghost use Rattle.grib_stream.specs.Hearing.{CanHear, Hears, Cuts};

use grib_base::Fault;

/// Why no more octets are taken.
#[derive(Clone, Copy, Debug, PartialEq, Eq)]
pub enum HearStop {
    /// They are refused, whatever follows.
    Refused(Fault),
    /// There is no memory.
    Memory,
}

/// Judges one message as its octets come, one piece after another.
pub trait Hearer: Drop {
    ghost use Rattle.grib_stream.specs.Hearing.{CanHear, Hears, Cuts};

    /// Whether a message that begins with these eight octets can be judged incrementally.
    ghost hears: { List ℕ → Bool };

    /// The octets that were taken, which are judged so.
    ghost heard: { (List ℕ → Judgement) → Self → List ℕ → Type 0 };

    /// Takes a piece after what was taken, up to the end of the message. It is refused exactly where it
    /// makes the octets refused whatever follows.
    fn push(&mut self, piece: &[u8]) -> Result<usize, HearStop>
        requires { (judge : List ℕ → Judgement) × CanHear judge hears (heard judge self.old) piece.now }
        ensures { (judge : List ℕ → Judgement) → Hears judge (heard judge self.old) (heard judge self.new) piece.now result };

    /// Nothing where the message is whole, and else why it is refused where the input ends here.
    fn cut(&self) -> Option<Fault>
        requires { (judge : List ℕ → Judgement) × (octets : List ℕ) × heard judge self.now octets × (4 ≤ length octets) }
        ensures { (judge : List ℕ → Judgement) (octets : List ℕ) → heard judge self.now octets → 4 ≤ length octets
            → Cuts (judge octets) (length octets) result };
}
