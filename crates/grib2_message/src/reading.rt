//! Reading a message.

ghost use Rattle.std.specs.Prelude.{◌≡◌, ◌≤◌, length, take, None, MatchResult};
ghost use Rattle.grib_base.specs.Rules.{first_fault};
ghost use Rattle.grib2_sections.specs.Head.{indicator, edition, head_rules, total_length};
ghost use Rattle.grib2_sections.specs.Verdict.{Accepted};
ghost use Rattle.grib2_message.specs.Acceptance.{verdict_under};
ghost use Rattle.grib2_message.specs.Fields.{field_count};
ghost use Rattle.grib2_message.specs.Kept.{Keeps};
ghost use Rattle.grib2_message.specs.Message.{IsMessageUnder};
ghost use Rattle.grib2_sections.specs.Refused.{IsVerdict};

use crate::Message;
use crate::places::Places;
use grib_base::{Profile, ReadFault};
use grib2_sections::{Frame, read_head};
use std::alloc::Global;

/// Reads under this profile the message of edition 2 that begins with these octets, which may go on past its
/// end; where they end in it, they are all that there is. No column is made.
///
/// # Errors
///
/// The first rule of the profile that fails, or there is no memory.
pub fn read_message<'a>(
    alloc: Global,
    profile: Profile,
    octets: &'a [u8],
) -> Result<Message<'a>, ReadFault>
    requires indicated { take 4 octets.now ≡ indicator }
    requires edition { edition octets.now ≡ 2 }
    ensures { MatchResult result
        (λ message. (verdict_under profile octets.now ≡ Accepted (length message))
        × (message ≡ take (length message) octets.now) × IsMessageUnder profile message)
        (IsVerdict (verdict_under profile octets.now)) }
{
    let head = read_head(octets)?;
    let fields = read_fields(alloc, profile, octets, head.total)?;
    Ok(Message::of(&octets[..head.total as usize], fields))
}

/// Walks over the sections of a message of this total length under this profile, and keeps where those of each field begin.
fn read_fields(
    alloc: Global,
    profile: Profile,
    octets: &[u8],
    total: u64,
) -> Result<Vec<Places>, ReadFault>
    requires indicated { take 4 octets.now ≡ indicator }
    requires edition { edition octets.now ≡ 2 }
    requires begun { first_fault (head_rules octets.now) ≡ None }
    requires total { total ≡ total_length octets.now }
    ensures { MatchResult result
        (λ fields. (verdict_under profile octets.now ≡ Accepted total)
        × Keeps profile (take total octets.now) fields.items)
        (IsVerdict (verdict_under profile octets.now)) }
{
    let mut fields = Vec::new(alloc);
    let mut places = Places::new(profile);
    let mut frame = Frame::new(total);
    while let Some(section) = frame.next(octets)? {
        places.go_past(alloc, &section)?;
        if section.number == 7 {
            let Ok(()) = fields.push(places) else {
                return Err(ReadFault::Memory);
            };
        }
    }
    Ok(fields)
}
