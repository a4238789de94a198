//! Putting a message together with other Sections 3, 5, 6 and 7.

ghost use Rattle.std.specs.Prelude.{◌≡◌, ◌≢◌, ◌≤◌, ◌++◌, ◌==◌, ℕ, cond, length, drop, All, IfOk, MatchOption};
ghost use Rattle.grib_base.specs.declared.fault.Fault.{Fault};
ghost use Rattle.grib2_sections.specs.Frame.{End, Fails, Next, step_from, position_after};
ghost use Rattle.grib2_message.specs.Assembled as definitions;
ghost use Rattle.grib2_message.specs.Assembled.{assembled, assembled_with, assembled_body_with, IsShort};
ghost use Rattle.grib2_message.specs.Fields.{field_count, part_octets};
ghost use Rattle.grib2_message.specs.Message.{IsAnyMessage};

use crate::NewGrid;
use grib_base::Section;
use grib_packing::Packed;
use grib2_sections::Frame;
use std::alloc::{AllocError, Global};

/// The number of octets of this message with the Sections 5, 6 and 7 of these parts, one for each field. It
/// takes no memory.
pub(crate) fn assembled_length(octets: &[u8], packed: &[Packed]) -> u64
    requires message { IsAnyMessage octets.now }
    requires short { All IsShort packed.now }
    ensures { result ≡ length (assembled octets.now packed.now) }
{
    let mut total = 20;
    let mut parts = packed;
    let mut frame = Frame::new(octets.len() as u64);
    while let Some(section) = next_section(&mut frame, octets) {
        total += in_place(parts, &section).len() as u64;
        parts = parts_after(parts, section.number);
    }
    total
}

/// The message with these parts and with this grid, which has `total` octets.
pub(crate) fn put_together<G: NewGrid>(
    alloc: Global,
    octets: &[u8],
    grid: &G,
    packed: &[Packed],
    total: u64,
) -> Result<Vec<u8>, AllocError>
    requires message { IsAnyMessage octets.now }
    requires grids { (i : ℕ) → 1 ≤ i → i ≤ field_count octets.now → G.takes grid.now (part_octets octets.now i 3) }
    requires total { total ≡ length (assembled_with (G.becomes grid.now) octets.now packed.now) }
    ensures { IfOk result (λ out. out.items ≡ assembled_with (G.becomes grid.now) octets.now packed.now) }
{
    let mut out = Vec::with_capacity(alloc, total as usize)?;
    out.extend_from_slice(&octets[..8])?;
    out.extend_from_slice(&total.to_be_bytes())?;
    put_sections(alloc, octets, grid, packed, &mut out)?;
    out.extend_from_slice(b"7777")?;
    Ok(out)
}

/// Appends the sections of that message.
fn put_sections<G: NewGrid>(
    alloc: Global,
    octets: &[u8],
    grid: &G,
    packed: &[Packed],
    out: &mut Vec<u8>,
) -> Result<(), AllocError>
    requires message { IsAnyMessage octets.now }
    requires grids { (i : ℕ) → 1 ≤ i → i ≤ field_count octets.now → G.takes grid.now (part_octets octets.now i 3) }
    ensures { IfOk result (λ _. out.new.items
        ≡ out.old.items ++ assembled_body_with (G.becomes grid.now) octets.now packed.now) }
{
    let mut parts = packed;
    let mut frame = Frame::new(octets.len() as u64);
    while let Some(section) = next_section(&mut frame, octets) {
        put_section(alloc, grid, parts, &section, out)?;
        parts = parts_after(parts, section.number);
    }
    Ok(())
}

/// Appends what stands in place of a section, where the first of these parts is that of its field.
fn put_section<G: NewGrid>(
    alloc: Global,
    grid: &G,
    parts: &[Packed],
    section: &Section<'_>,
    out: &mut Vec<u8>,
) -> Result<(), AllocError>
    requires { section.now.number ≡ 3 → G.takes grid.now section.now.octets.now }
    ensures { IfOk result (λ _. out.new.items ≡ out.old.items
        ++ definitions.in_place_with (G.becomes grid.now) parts.now section.now.octets.now) }
{
    if section.number == 3 {
        grid.put(alloc, section.octets, out)
    } else {
        out.extend_from_slice(in_place(parts, section))
    }
}

/// The next section of a message of which no rule refuses a section, or nothing at its End Section.
fn next_section<'a>(frame: &mut Frame, octets: &'a [u8]) -> Option<Section<'a>>
    requires { (fault : Fault) → step_from octets.now frame.old ≢ Fails fault }
    ensures { MatchOption result (step_from octets.now frame.old ≡ End)
        (λ section. (step_from octets.now frame.old ≡ Next section.octets.now)
        × (section.start ≡ frame.old.place)
        × (frame.new ≡ position_after frame.old section.octets.now)) }
{
    let Ok(section) = frame.next(octets) else {
        unreachable!();
    };
    section
}

/// What stands in place of this section, where the first of these parts is that of its field.
fn in_place<'a>(parts: &'a [Packed], section: &Section<'a>) -> &'a [u8]
    ensures { result.now ≡ definitions.in_place parts.now section.now.octets.now }
{
    let Some(part) = parts.first() else {
        return section.octets;
    };
    match section.number {
        5 => part.section5.as_slice(),
        6 => part.section6.as_slice(),
        7 => part.section7.as_slice(),
        _ => section.octets,
    }
}

/// The parts of the fields that are left after a section with this number: a Section 7 ends a field.
fn parts_after(parts: &[Packed], number: u8) -> &[Packed]
    ensures { result.now ≡ cond (number == 7) (drop 1 parts.now) parts.now }
{
    match parts.split_first() {
        Some((_, rest)) if number == 7 => rest,
        _ => parts,
    }
}
