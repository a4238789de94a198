//! Section 0, the indicator section.

ghost use Rattle.std.specs.Prelude.{◌≡◌, take, Some, None, MatchResult};
ghost use Rattle.grib_base.specs.Rules.{first_fault};
ghost use Rattle.grib2_sections.specs.Head.{indicator, head_rules, head_of};

use crate::refusing::truncated;
use byteorder::{BigEndian, ByteOrder};
use grib_base::{Fault, Reason};

/// What Section 0 tells of its message (WMO-No. 306, Volume I.2, FM 92 GRIB).
#[derive(Clone, Copy, Debug, PartialEq, Eq)]
pub struct Head {
    /// The edition of the format, 1 or 2: octet 8.
    pub edition: u8,
    /// The discipline (code table 0.0): octet 7. Edition 1 has none, and here 0.
    pub discipline: u8,
    /// The length of the message in octets: octets 9-16, in edition 1 octets 5-7.
    pub total: u64,
}

/// The longest message of edition 2 that the profile accepts, in octets.
const LONGEST: u64 = 1 << 28;

/// Reads Section 0 of the message that begins with these octets, which may go on past its end. A
/// refusal is that of the first rule of the profile that fails: the octets end too early, the
/// edition is neither 1 nor 2, or the total length is no length of a message.
pub fn read_head(octets: &[u8]) -> Result<Head, Fault>
    requires { take 4 octets.now ≡ indicator }
    ensures { MatchResult result
        (λ head. (first_fault (head_rules octets.now) ≡ None) × (head ≡ head_of octets.now))
        (λ fault. first_fault (head_rules octets.now) ≡ Some fault) }
{
    let present = octets.len() as u64;
    if present < 8 {
        return Err(truncated(present));
    }
    let edition = octets[7];
    if edition != 1 && edition != 2 {
        return Err(Fault::at(8, Reason::Edition, u64::from(edition)));
    }
    if edition == 1 {
        let total = u64::from(BigEndian::read_u24(&octets[4..]));
        if total < 12 {
            return Err(Fault::at(5, Reason::TotalLength, total));
        }
        return Ok(Head {
            edition,
            discipline: 0,
            total,
        });
    }
    if present < 16 {
        return Err(truncated(present));
    }
    let total = BigEndian::read_u64(&octets[8..]);
    if total < 20 || total > LONGEST {
        return Err(Fault::at(9, Reason::TotalLength, total));
    }
    Ok(Head {
        edition,
        discipline: octets[6],
        total,
    })
}
