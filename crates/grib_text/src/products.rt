//! What a field is of, for when and where.

ghost use Rattle.std.specs.Prelude.{◌≡◌, Some, option_map};
ghost use Rattle.grib_text.specs.Lines as lines;

use crate::missing::OrMissing;
use grib_bits::signed_of;
use grib2_message::FieldSummary;
use grib2_sections::instant_shift;
use std::fmt;

/// A product: its template, what it is of, and for when and where, if the template is known to say that as
/// template 4.0 does.
#[derive(Clone, Copy, Debug)]
pub(crate) struct Product {
    template: u16,
    parameter: Parameter,
    instant: Option<Instant>,
}

impl Product {
    /// The product of a field.
    pub(crate) fn of(summary: &FieldSummary) -> Self
        ensures { lines.product_of result.template (lines.parameter_of result.parameter.discipline
            result.parameter.category result.parameter.number)
            (option_map (λ i. lines.instant_of i.unit i.ahead
            (lines.surface_of i.surface.kind.0 i.surface.scale.0 i.surface.value.0)) result.instant)
            ≡ lines.product_text summary.now }
    {
        Product {
            template: summary.product,
            parameter: Parameter {
                discipline: summary.discipline,
                category: summary.category,
                number: summary.number,
            },
            instant: Instant::of(summary),
        }
    }
}

impl fmt::Display for Product {
    ghost output = { λ p. Some (lines.product_of p.template
        (lines.parameter_of p.parameter.discipline p.parameter.category p.parameter.number)
        (option_map (λ i. lines.instant_of i.unit i.ahead
        (lines.surface_of i.surface.kind.0 i.surface.scale.0 i.surface.value.0)) p.instant)) };

    fn fmt<W: fmt::Write>(&self, f: &mut fmt::Formatter<W>) -> fmt::Result {
        let Product {
            template,
            parameter,
            instant,
        } = *self;
        match instant {
            Some(instant) => write!(f, "product=4.{template} param={parameter} {instant}"),
            None => write!(f, "product=4.{template} param={parameter}"),
        }
    }
}

/// For when and where a product is: its forecast time with the unit, and its first fixed surface.
#[derive(Clone, Copy, Debug)]
struct Instant {
    unit: u8,
    ahead: i64,
    surface: Surface,
}

impl Instant {
    /// That of a field, `None` where the product is not known to have it.
    fn of(summary: &FieldSummary) -> Option<Self>
        ensures { option_map (λ i. lines.instant_of i.unit i.ahead
            (lines.surface_of i.surface.kind.0 i.surface.scale.0 i.surface.value.0)) result
            ≡ lines.instant_text summary.now }
    {
        instant_shift(summary.product)?;
        Some(Instant {
            unit: summary.unit,
            ahead: signed_of(u64::from(summary.time), 32),
            surface: Surface {
                kind: OrMissing::octet(summary.surface),
                scale: OrMissing::signed_octet(summary.scale),
                value: OrMissing::word(summary.value),
            },
        })
    }
}

impl fmt::Display for Instant {
    ghost output = { λ i. Some (lines.instant_of i.unit i.ahead
        (lines.surface_of i.surface.kind.0 i.surface.scale.0 i.surface.value.0)) };

    fn fmt<W: fmt::Write>(&self, f: &mut fmt::Formatter<W>) -> fmt::Result {
        let Instant {
            unit,
            ahead,
            surface,
        } = *self;
        write!(f, "unit={unit} ahead={ahead} surface={surface}")
    }
}

/// A parameter: its discipline, category and number.
#[derive(Clone, Copy, Debug)]
struct Parameter {
    discipline: u8,
    category: u8,
    number: u8,
}

impl fmt::Display for Parameter {
    ghost output = { λ p. Some (lines.parameter_of p.discipline p.category p.number) };

    fn fmt<W: fmt::Write>(&self, f: &mut fmt::Formatter<W>) -> fmt::Result {
        let discipline = self.discipline;
        let category = self.category;
        let number = self.number;
        write!(f, "{discipline}.{category}.{number}")
    }
}

/// A fixed surface: its type, scale factor and scaled value.
#[derive(Clone, Copy, Debug)]
struct Surface {
    kind: OrMissing,
    scale: OrMissing,
    value: OrMissing,
}

impl fmt::Display for Surface {
    ghost output = { λ s. Some (lines.surface_of s.kind.0 s.scale.0 s.value.0) };

    fn fmt<W: fmt::Write>(&self, f: &mut fmt::Formatter<W>) -> fmt::Result {
        let kind = self.kind;
        let scale = self.scale;
        let value = self.value;
        write!(f, "{kind}:{scale}:{value}")
    }
}
