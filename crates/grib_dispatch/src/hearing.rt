//! Messages of edition 2 that are judged as their octets come, and answered by what was found of them.

ghost use Rattle.std.specs.Prelude.{◌≡◌};
ghost use Rattle.grib_dispatch.specs.Hearing.{heard_of};

use grib_base::{Fault, ReadFault};
use grib_command::Answered;
use grib_stream::{HearStop, Hearer, Kept, Outcome, Place, Whole};
use grib2_arrival::Arrival;

/// Judges a message of edition 2 incrementally.
#[derive(Debug, Drop)]
pub struct SecondHearer {
    pub(crate) arrival: Arrival,
}

impl Hearer for SecondHearer {
    ghost use Rattle.std.specs.Prelude.{◌≡◌};
    ghost use Rattle.grib_base.specs.declared.profile.Profile.{Profile};
    ghost use Rattle.grib_dispatch.specs.Hearing.{judge_2_under, is_second};
    ghost use Rattle.grib2_arrival.specs.Heard.{HeardUnder};

    ghost hears = { is_second };

    ghost heard = { λ judge hearer octets. (profile : Profile) × (judge ≡ judge_2_under profile) × HeardUnder profile hearer.arrival octets };

    fn push(&mut self, piece: &[u8]) -> Result<usize, HearStop> {
        match self.arrival.push(piece) {
            Ok(count) => Ok(count),
            Err(ReadFault::Refused(fault)) => Err(HearStop::Refused(fault)),
            Err(ReadFault::Memory) => Err(HearStop::Memory),
        }
    }

    fn cut(&self) -> Option<Fault> {
        if self.arrival.whole() {
            return None;
        }
        Some(self.arrival.cut())
    }
}

/// What came of a message that was judged incrementally, with this many octets and fields.
pub(crate) fn heard(
    answered: Answered,
    place: &Place,
    octets: u64,
    fields: u32,
) -> Result<Whole, Outcome>
    ensures { result ≡ heard_of answered place.now octets fields }
{
    match answered {
        Answered::Whole(written) => Ok(Whole {
            octets,
            fields: u64::from(fields),
            written,
        }),
        Answered::Kept(cause) => Err(Outcome::Kept(Kept {
            message: place.message,
            cause,
        })),
        Answered::WriteFault => Err(Outcome::WriteFault),
        Answered::ShelfFault => Err(Outcome::ShelfFault),
        Answered::Memory => Err(Outcome::Memory),
    }
}
