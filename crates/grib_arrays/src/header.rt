//! The header of an array.

ghost use Rattle.std.specs.Prelude.{◌≡◌, ◌+◌, ◌-◌, ◌≤◌, [], ◌∷◌, ◌++◌, codes, length, replicate, IfOk, OnOk};
ghost use Rattle.grib_arrays.specs.Header as definitions;
ghost use Rattle.std.specs.Fmt.{decimal};
ghost use Rattle.grib_arrays.specs.Header.{header, dictionary};

use crate::shape::Shape;
use grib_nearest::Format;
use std::alloc::{AllocError, Global};

/// What stands before the dictionary: the magic text, the version, and the length of what follows.
const HEAD: [u8; 10] = [147, 78, 85, 77, 80, 89, 1, 0, 118, 0];

/// The octets of the dictionary and the blanks behind it.
const FILLED: usize = 117;

/// Appends the header of an array with values of this format and this shape.
///
/// # Errors
///
/// There is no memory.
pub fn append_header(
    alloc: Global,
    octets: &mut Vec<u8>,
    format: Format,
    shape: Shape,
) -> Result<(), AllocError>
    ensures { OnOk result (octets.new.items ≡ octets.old.items ++ header format shape) }
{
    let dictionary = dictionary_of(alloc, format, shape)?;
    octets.extend_from_slice(&HEAD)?;
    octets.extend_from_slice(dictionary.as_slice())?;
    append_blanks(octets, FILLED.saturating_sub(dictionary.len()))?;
    octets.push(b'\n')?;
    Ok(())
}

/// The dictionary of an array.
fn dictionary_of(alloc: Global, format: Format, shape: Shape) -> Result<Vec<u8>, AllocError>
    ensures { IfOk result (λ text. text.items ≡ dictionary format shape) }
{
    let name = type_name(format);
    match shape {
        Shape::Table { outer, inner } => table_text(alloc, name, outer, inner),
        Shape::Points(count) => points_text(alloc, name, count),
    }
}

/// The dictionary of an array of rows.
fn table_text(alloc: Global, name: &str, outer: u32, inner: u32) -> Result<Vec<u8>, AllocError>
    ensures { IfOk result (λ text. text.items ≡ definitions.dictionary_with name.now (decimal outer ++ codes ", " ++ decimal inner)) }
{
    let text = format!(in alloc;
        "{{'descr': '{name}', 'fortran_order': False, 'shape': ({outer}, {inner}), }}"
    )?;
    Ok(text.into_bytes())
}

/// The dictionary of an array of points.
fn points_text(alloc: Global, name: &str, count: u32) -> Result<Vec<u8>, AllocError>
    ensures { IfOk result (λ text. text.items ≡ definitions.dictionary_with name.now (decimal count ++ codes ",")) }
{
    let text = format!(in alloc;
        "{{'descr': '{name}', 'fortran_order': False, 'shape': ({count},), }}"
    )?;
    Ok(text.into_bytes())
}

/// The name of the type of the values.
fn type_name(format: Format) -> &'static str
    ensures { result.now ≡ definitions.type_name format }
{
    match format {
        Format::Binary32 => "<f4",
        Format::Binary64 => "<f8",
    }
}

/// Appends so many blanks.
fn append_blanks(octets: &mut Vec<u8>, count: usize) -> Result<(), AllocError>
    ensures { OnOk result (octets.new.items ≡ octets.old.items ++ replicate count 32) }
{
    for _ in 0..count {
        octets.push(b' ')?;
    }
    Ok(())
}
