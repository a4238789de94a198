//! The line of `stats`.

ghost use Rattle.std.specs.Prelude.{◌≡◌, Some, IfOk};
ghost use Rattle.grib_text.specs.Stats as lines;

use grib_decimal::{Extremes, Summary};
use std::alloc::{AllocError, Global};
use std::fmt;

/// The line of this field, from 1, of the message with this number, from 1, by its counts and extremes. The
/// only error is that there is no memory.
pub fn stats_line(
    alloc: Global,
    number: u64,
    field: u32,
    summary: &Summary,
) -> Result<Vec<u8>, AllocError>
    ensures { IfOk result (λ line. line.items ≡ lines.stats_line number field summary.now) }
{
    let present = summary.present;
    let missing = summary.missing;
    let missing2 = summary.missing2;
    let bounds = Bounds(summary.extremes);
    let line = format!(in alloc;
        "{number}.{field} present {present} missing {missing} missing2 {missing2}{bounds}\n"
    )?;
    Ok(line.into_bytes())
}

/// The least and the greatest scaled integer, where there is one.
#[derive(Clone, Copy, Debug)]
struct Bounds(Option<Extremes>);

impl fmt::Display for Bounds {
    ghost output = { λ bounds. Some (lines.extremes_text bounds.0) };

    fn fmt<W: fmt::Write>(&self, f: &mut fmt::Formatter<W>) -> fmt::Result {
        match self.0 {
            Some(extremes) => {
                let least = extremes.least;
                let least_place = extremes.least_place;
                let greatest = extremes.greatest;
                let greatest_place = extremes.greatest_place;
                write!(
                    f,
                    " least {least} at {least_place} greatest {greatest} at {greatest_place}"
                )
            }
            None => Ok(()),
        }
    }
}
