//! Lists of names: the columns of a line, and the names of parameters.

ghost use Rattle.std.specs.Prelude.{◌≡◌, ◌++◌, [], ◌∷◌, IfOk};
ghost use Rattle.grib_words.specs.Columns as definitions;

use grib_command::Name;
use grib_keys::Key;
use grib_names::is_name;
use grib_text::Column;
use grib1_sections::Key1;
use std::alloc::{AllocError, Global};

/// Whether each element of a list with `,` between them is the name of a column.
pub fn is_columns(text: &str) -> bool
    ensures { result ≡ definitions.is_columns text.now }
{
    text.split(',')
        .all(|element| column_named(element).is_some())
}

/// The columns of these names, in their order.
pub fn columns_in(alloc: Global, text: &str) -> Result<Vec<Column>, AllocError>
    ensures { IfOk result (λ v. v.items ≡ definitions.columns_in text.now) }
{
    text.split(',')
        .filter_map(|element| column_named(element))
        .collect(alloc)
}

/// The column of this name: a key of edition 2 or of edition 1, or a place.
fn column_named(name: &str) -> Option<Column>
    ensures { result ≡ definitions.column_named name.now }
{
    if let Some(key) = Key::of(name) {
        return Some(Column::Key(key));
    }
    if let Some(key) = Key1::of(name) {
        return Some(Column::First(key));
    }
    place_named(name)
}

/// The column of this name that is no key.
fn place_named(name: &str) -> Option<Column>
    ensures { result ≡ definitions.place_named name.now }
{
    match name {
        "at" => Some(Column::At),
        "octets" => Some(Column::Octets),
        _ => None,
    }
}

/// Whether each element of a list is a name of a parameter.
pub fn are_names(text: &str) -> bool
    ensures { result ≡ definitions.are_names text.now }
{
    text.split(',').all(|element| is_name(element.as_bytes()))
}

/// The names of a list, in their order.
pub fn names_in(alloc: Global, text: &str) -> Result<Vec<Name>, AllocError>
    ensures { IfOk result (λ v. v.items ≡ definitions.names_in text.now) }
{
    let mut names = Vec::new(alloc);
    for element in text.split(',') {
        push_name(alloc, &mut names, element)?;
    }
    Ok(names)
}

/// Appends a name.
fn push_name(alloc: Global, names: &mut Vec<Name>, text: &str) -> Result<(), AllocError>
    ensures { IfOk result (λ _. names.new.items ≡ names.old.items ++ (text.now ∷ [])) }
{
    let name = Name::of(String::from_str(alloc, text)?);
    names.push(name)?;
    Ok(())
}
