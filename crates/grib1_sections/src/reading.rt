//! Reading a message.

ghost use Rattle.std.specs.Prelude.{◌≡◌, ◌+◌, ◌≤◌, true, length, take, Some, None, MatchResult, option_copied};
ghost use Rattle.grib_base.specs.Rules.{first_fault};
ghost use Rattle.grib2_sections.specs.Head.{indicator, edition, total_length_1};
ghost use Rattle.grib2_sections.specs.Verdict.{Accepted};
ghost use Rattle.grib1_sections.specs.Identification.{identification_rules, flags_bitmap as is_flagged};
ghost use Rattle.grib1_sections.specs.Grid.{grid_rules, grid_points};
ghost use Rattle.grib1_sections.specs.Data.{data_rules};
ghost use Rattle.grib1_sections.specs.Acceptance.{verdict_1, has_bitmap, bitmap_fault, bitmap, bitmap_start, data_start, points_of, values_of, section_fault};
ghost use Rattle.grib1_sections.specs.Message.{IsMessage1};
ghost use Rattle.grib2_sections.specs.Refused.{IsVerdict};
ghost use Rattle.grib_base.specs.Faults.{IsReadFault};
ghost use Rattle.grib1_sections.specs.Known.{Stands, HasBitmap};

use crate::Message1;
use crate::checking::{check_bitmap, check_data, check_grid, check_identification};
use crate::frame::{Placed, check_end, section_from};
use grib_base::{Fault, ReadFault};
use grib_bits::{has_bit, u8_at};
use grib2_sections::read_head;
use std::alloc::Global;

/// Reads the message of edition 1 that begins with these octets, which may go on past its end; where they
/// end in it, they are all that there is. No column is made.
///
/// # Errors
///
/// The first rule of the profile that fails, or there is no memory for the bits of Section 3.
pub fn read_message1<'a>(alloc: Global, octets: &'a [u8]) -> Result<Message1<'a>, ReadFault>
    requires indicated { take 4 octets.now ≡ indicator }
    requires edition { edition octets.now ≡ 1 }
    ensures { MatchResult result
        (λ message. (verdict_1 octets.now ≡ Accepted (length message))
        × (message ≡ take (length message) octets.now) × IsMessage1 message)
        (IsVerdict (verdict_1 octets.now)) }
{
    let total = read_head(octets)?.total;
    let identification = read_identification(octets, total)?;
    let (grid, points) = read_grid(octets, total, identification.end())?;
    let flagged = flags_bitmap(identification.octets);
    let bitmap = read_bitmap(alloc, octets, total, grid.end(), flagged, points)?;
    let data = read_data(octets, total, bitmap.end, bitmap.present)?;
    check_end(octets, total, data.end())?;
    Ok(Message1::of(
        &octets[..total as usize],
        identification.octets,
        grid.octets,
        bitmap.octets,
        data.octets,
        points,
        bitmap.present,
    ))
}

/// What Section 3 says, or that there is none: its octets, how many points are present, and the octet of
/// the message at which what follows begins.
#[derive(Drop)]
struct Bitmap<'a> {
    octets: Option<&'a [u8]>,
    present: u32,
    end: usize,
}

/// Reads Section 1 of a message of `total` octets.
fn read_identification(octets: &[u8], total: u64) -> Result<Placed<'_>, Fault>
    requires begun { 8 ≤ length octets.now }
    requires total { total ≡ total_length_1 octets.now }
    ensures { MatchResult result
        (λ section. (section_fault octets.now 9 28 identification_rules ≡ None)
        × (section.start ≡ 9) × Stands octets.now 9 28 section.octets.now)
        (λ fault. section_fault octets.now 9 28 identification_rules ≡ Some fault) }
{
    let section = section_from(octets, total, 9, 28)?;
    check_identification(&section)?;
    Ok(section)
}

/// Reads Section 2, which begins at octet `start` of a message of `total` octets, and its number of
/// points.
fn read_grid(octets: &[u8], total: u64, start: usize) -> Result<(Placed<'_>, u32), Fault>
    requires counted { 1 ≤ start }
    requires within { start ≤ length octets.now + 1 }
    requires total { total ≡ total_length_1 octets.now }
    ensures { MatchResult result
        (λ found. (section_fault octets.now start 6 grid_rules ≡ None)
        × (found.0.start ≡ start) × Stands octets.now start 6 found.0.octets.now
        × (found.1 ≡ grid_points found.0.octets.now))
        (λ fault. section_fault octets.now start 6 grid_rules ≡ Some fault) }
{
    let section = section_from(octets, total, start, 6)?;
    let points = check_grid(&section)?;
    Ok((section, points))
}

/// Whether Section 3 is flagged.
fn flags_bitmap(identification: &[u8]) -> bool
    requires { 28 ≤ length identification.now }
    ensures { result ≡ is_flagged identification.now }
{
    has_bit(u8_at(identification, 8), 2)
}

/// Reads Section 3, where it is flagged, of a message of `total` octets. It begins at octet `start`, and
/// the grid has `points` points.
fn read_bitmap<'a>(
    alloc: Global,
    octets: &'a [u8],
    total: u64,
    start: usize,
    flagged: bool,
    points: u32,
) -> Result<Bitmap<'a>, ReadFault>
    requires counted { 1 ≤ start }
    requires within { start ≤ length octets.now + 1 }
    requires room { start + 3 ≤ total }
    requires total { total ≡ total_length_1 octets.now }
    requires start { start ≡ bitmap_start octets.now }
    requires flagged { flagged ≡ has_bitmap octets.now }
    requires points { points ≡ points_of octets.now }
    ensures { MatchResult result
        (λ bitmap. (bitmap_fault octets.now ≡ None)
        × HasBitmap octets.now (option_copied bitmap.octets) bitmap.present bitmap.end)
        (IsReadFault (bitmap_fault octets.now)) }
{
    if !flagged {
        return Ok(Bitmap {
            octets: None,
            present: points,
            end: start,
        });
    }
    let section = section_from(octets, total, start, 6)?;
    let present = check_bitmap(alloc, &section, points)?;
    Ok(Bitmap {
        octets: Some(section.octets),
        present,
        end: section.end(),
    })
}

/// Reads Section 4, which begins at octet `start` of a message of `total` octets, where `present`
/// points are present.
fn read_data(octets: &[u8], total: u64, start: usize, present: u32) -> Result<Placed<'_>, Fault>
    requires counted { 1 ≤ start }
    requires within { start ≤ length octets.now + 1 }
    requires total { total ≡ total_length_1 octets.now }
    ensures { MatchResult result
        (λ section. (section_fault octets.now start 11 (data_rules present) ≡ None)
        × (section.start ≡ start) × Stands octets.now start 11 section.octets.now)
        (λ fault. section_fault octets.now start 11 (data_rules present) ≡ Some fault) }
{
    let section = section_from(octets, total, start, 11)?;
    check_data(&section, present)?;
    Ok(section)
}
