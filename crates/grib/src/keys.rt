//! The keys of a field, one after the other.

use crate::Field;
use grib_keys::{Key, Value as KeyValue};
use grib1_sections::Key1;

/// The keys of edition 2 that a field has, each with its value, in the order of their places. A field of edition 1 has
/// none of them.
#[derive(Debug, Drop)]
pub struct Keys<'m, 'a> {
    field: Field<'m, 'a>,
    left: &'static [Key],
}

impl<'m, 'a> Keys<'m, 'a> {
    ghost use Rattle.std.specs.Prelude.{◌≡◌};
    ghost use Rattle.grib_keys.specs.Keys.{keys};
    ghost use Rattle.grib.specs.Field.{shown, key_in};
    ghost use Rattle.grib.specs.Keys.{keys_left, with_values};

    /// All that the field has.
    pub(crate) fn of(field: Field<'m, 'a>) -> Keys<'m, 'a>
        ensures { keys_left result ≡ with_values (key_in (shown field.entry)) keys }
    {
        Keys {
            field,
            left: Key::all(),
        }
    }
}

impl<'m, 'a> Iterator for Keys<'m, 'a> {
    ghost use Rattle.std.specs.Iterator.{YieldsFirst, item_count};
    ghost use Rattle.grib.specs.Keys.{keys_left};

    type Item = (Key, KeyValue);

    ghost next_gives = { YieldsFirst keys_left };

    ghost remaining = { item_count keys_left };

    fn next(&mut self) -> Option<(Key, KeyValue)> {
        while let Some((key, left)) = self.left.split_first() {
            self.left = left;
            if let Some(value) = self.field.get(*key) {
                return Some((*key, value));
            }
        }
        None
    }
}

/// The keys of edition 1, each with its number, in the order of Section 1. A field of edition 2 has none of them.
#[derive(Debug, Drop)]
pub struct Keys1<'m, 'a> {
    field: Field<'m, 'a>,
    left: &'static [Key1],
}

impl<'m, 'a> Keys1<'m, 'a> {
    ghost use Rattle.std.specs.Prelude.{◌≡◌};
    ghost use Rattle.grib_keys.specs.Keys1.{keys1};
    ghost use Rattle.grib.specs.Field.{shown, key1_in};
    ghost use Rattle.grib.specs.Keys.{keys1_left, with_values};

    /// All that the field has.
    pub(crate) fn of(field: Field<'m, 'a>) -> Keys1<'m, 'a>
        ensures { keys1_left result ≡ with_values (key1_in (shown field.entry)) keys1 }
    {
        Keys1 {
            field,
            left: Key1::all(),
        }
    }
}

impl<'m, 'a> Iterator for Keys1<'m, 'a> {
    ghost use Rattle.std.specs.Iterator.{YieldsFirst, item_count};
    ghost use Rattle.grib.specs.Keys.{keys1_left};

    type Item = (Key1, i64);

    ghost next_gives = { YieldsFirst keys1_left };

    ghost remaining = { item_count keys1_left };

    fn next(&mut self) -> Option<(Key1, i64)> {
        while let Some((key, left)) = self.left.split_first() {
            self.left = left;
            if let Some(number) = self.field.get1(*key) {
                return Some((*key, number));
            }
        }
        None
    }
}
