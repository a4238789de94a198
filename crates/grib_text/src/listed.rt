//! The lines of `list` of edition 2.

ghost use Rattle.std.specs.Prelude.{◌≡◌, ◌≤◌, string_bytes, IfOk};
ghost use Rattle.grib2_message.specs.Fields.{field_count};
ghost use Rattle.grib_text.specs.Lines as lines;

use crate::fields::{Grid, Packing};
use crate::products::Product;
use crate::times::Origin;
use grib2_message::{FieldSummary, Message, field_summary};
use std::alloc::{AllocError, Global};

/// The line of a field, from 1, of the message with this number, from 1. The only error is that there is no
/// memory.
pub fn list_line(
    alloc: Global,
    message: &Message<'_>,
    number: u64,
    field: u32,
) -> Result<Vec<u8>, AllocError>
    requires first { 1 ≤ field }
    requires last { field ≤ field_count message.now }
    ensures { IfOk result (λ line. line.items ≡ lines.list_line message.now number field) }
{
    summary_line(alloc, &field_summary(message, field), number, field)
}

/// The same without its newline.
pub(crate) fn list_text(
    alloc: Global,
    message: &Message<'_>,
    number: u64,
    field: u32,
) -> Result<String, AllocError>
    requires first { 1 ≤ field }
    requires last { field ≤ field_count message.now }
    ensures { IfOk result (λ text. string_bytes text ≡ lines.list_text message.now number field) }
{
    summary_text(alloc, &field_summary(message, field), number, field)
}

/// The line of a field that this describes, from 1, of the message with this number, from 1. The only error
/// is that there is no memory.
pub fn summary_line(
    alloc: Global,
    summary: &FieldSummary,
    number: u64,
    field: u32,
) -> Result<Vec<u8>, AllocError>
    ensures { IfOk result (λ line. line.items ≡ lines.summary_line summary.now number field) }
{
    let mut line = summary_text(alloc, summary, number, field)?;
    line.push('\n')?;
    Ok(line.into_bytes())
}

/// The same without its newline.
fn summary_text(
    alloc: Global,
    summary: &FieldSummary,
    number: u64,
    field: u32,
) -> Result<String, AllocError>
    ensures { IfOk result (λ text. string_bytes text ≡ lines.summary_text summary.now number field) }
{
    let origin = Origin::of(&summary.identification);
    let grid = Grid::of(summary);
    let product = Product::of(summary);
    let packing = Packing::of(summary);
    format!(in alloc; "{number}.{field} ed=2 {origin} {grid} {product} {packing}")
}
