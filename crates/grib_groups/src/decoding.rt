//! The codes of a whole Section 7.

ghost use Rattle.std.specs.Prelude.{◌≡◌, ◌+◌, ◌^◌, length, drop, None, MatchResult};
ghost use Rattle.grib_base.specs.Rules.{first_fault_at};
ghost use Rattle.grib_packing.specs.Groups.{grouped, group_rules};
ghost use Rattle.grib_groups.specs.Decoding.{CodesRoom, CodesTook, codes-none, codes-more, codes-fewer, codes-room};
ghost use Rattle.grib_group_reading.specs.Lists.{HasLists};
ghost use Rattle.grib_base.specs.Faults.{IsReadFault};

use crate::Layout;
use byteorder::{BigEndian, ByteOrder};
use grib_base::{Code, ReadFault, Section, push_within};
use grib_group_reading::{Fed, Lists, RunTaker, Taker, octets_of_lists};
use std::alloc::Global;

/// Codes one after another, for which there is memory.
#[derive(Debug, Drop)]
struct Codes {
    items: Vec<Code>,
}

impl Taker for Codes {
    ghost limit = { 2 ^ 33 };

    ghost room = { CodesRoom };

    ghost took = { CodesTook };

    fn take(mut self, code: Code) -> Codes {
        push_within(&mut self.items, code);
        self
    }

    ghost none = { codes-none };

    ghost more = { codes-more };

    ghost fewer = { codes-fewer };

    ghost room_after = { codes-room };
}

impl RunTaker for Codes {
    #[inline]
    fn is_ready(&self, _count: u32, _limit: u64) -> bool {
        true
    }
}

/// The codes of all values of a Section 7 that has `skip` octets of extra descriptors after octet 5,
/// where Section 5 has `count` values (WMO-No. 306, Volume I.2, FM 92 GRIB edition 2, data templates
/// 7.2 and 7.3). All octets of the three lists are there, as [`lists_fit`](crate::lists_fit) says.
///
/// # Errors
///
/// The section is refused: the first group whose width is over 32, then lengths that do not add up to
/// the values, then too few octets for the packed numbers. Or there is no memory for the groups and
/// the codes.
pub fn decode_groups(
    alloc: Global,
    layout: &Layout,
    section7: &Section<'_>,
    skip: u32,
    count: u32,
) -> Result<Vec<Code>, ReadFault>
    requires lists { HasLists layout.now skip (length section7.now.octets.now) }
    ensures { let expected = first_fault_at section7.now.start (group_rules layout.now section7.now.octets.now skip count) in MatchResult result
        (λ codes. (expected ≡ None)
        × (codes.items ≡ grouped layout.now (drop (5 + skip) section7.now.octets.now)))
        (IsReadFault expected) }
{
    let length = BigEndian::read_u32(section7.octets);
    let octets = &section7.octets[5 + skip as usize..];
    let lists = Lists::read(alloc, layout, octets, count)?;
    if let Some(fault) = lists.fault(layout, skip, length, section7.start) {
        return Err(ReadFault::Refused(fault));
    }
    let codes = Codes {
        items: Vec::with_capacity(alloc, count as usize)?,
    };
    let numbers = &octets[octets_of_lists(layout) as usize..];
    let fed = Fed::groups(*layout, lists.into_table(), codes).push(numbers);
    Ok(fed.finish().items)
}
