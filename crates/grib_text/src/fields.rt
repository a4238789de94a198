//! The grid and the packing of a field.

ghost use Rattle.std.specs.Prelude.{◌≡◌, Some};
ghost use Rattle.grib_text.specs.Lines as lines;

use grib_packing::is_read;
use grib2_message::FieldSummary;
use std::fmt;

/// A grid: its template and the number of its points.
#[derive(Clone, Copy, Debug)]
pub(crate) struct Grid {
    template: u16,
    points: u32,
}

impl Grid {
    /// The grid of a field.
    pub(crate) fn of(summary: &FieldSummary) -> Self
        ensures template { result.template ≡ summary.now.grid }
        ensures points { result.points ≡ summary.now.points }
    {
        Grid {
            template: summary.grid,
            points: summary.points,
        }
    }
}

impl fmt::Display for Grid {
    ghost output = { λ g. Some (lines.grid_of g.template g.points) };

    fn fmt<W: fmt::Write>(&self, f: &mut fmt::Formatter<W>) -> fmt::Result {
        let Grid { template, points } = *self;
        write!(f, "grid=3.{template} points={points}")
    }
}

/// A packing: its template, the bits of each number unless it is opaque, and how many values it has.
#[derive(Clone, Copy, Debug)]
pub(crate) struct Packing {
    template: u16,
    bits: Option<u8>,
    values: u32,
}

impl Packing {
    /// The packing of a field.
    pub(crate) fn of(summary: &FieldSummary) -> Self
        ensures template { result.template ≡ summary.now.packing }
        ensures bits { result.bits ≡ lines.known_bits summary.now }
        ensures values { result.values ≡ summary.now.values }
    {
        Packing {
            template: summary.packing,
            bits: is_read(summary.packing).then_some(summary.bits),
            values: summary.values,
        }
    }
}

impl fmt::Display for Packing {
    ghost output = { λ p. Some (lines.packing_of p.template p.bits p.values) };

    fn fmt<W: fmt::Write>(&self, f: &mut fmt::Formatter<W>) -> fmt::Result {
        let Packing {
            template,
            bits,
            values,
        } = *self;
        match bits {
            Some(bits) => write!(f, "packing=5.{template} bits={bits} values={values}"),
            None => write!(f, "packing=5.{template} values={values}"),
        }
    }
}
