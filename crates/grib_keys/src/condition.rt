//! The value that a key has, or is to have.

ghost use Rattle.std.specs.Prelude.{Some};
ghost use Rattle.grib_keys.specs.Words.{value_text, word_of};

use crate::key::Key;
use std::fmt;

/// The value of a key: a number, or missing.
#[derive(Clone, Copy, Debug, PartialEq, Eq)]
pub enum Value {
    Number(i64),
    Missing,
}

/// A key with a value, as `centre=98`: one that it has, or is to have.
#[derive(Clone, Copy, Debug, PartialEq, Eq)]
pub struct Change {
    pub key: Key,
    pub value: Value,
}

impl fmt::Display for Value {
    ghost output = { λ value. Some (value_text value) };

    fn fmt<W: fmt::Write>(&self, f: &mut fmt::Formatter<W>) -> fmt::Result {
        match *self {
            Value::Number(number) => write!(f, "{number}"),
            Value::Missing => f.write_str("missing"),
        }
    }
}

impl fmt::Display for Change {
    ghost output = { λ change. Some (word_of change) };

    fn fmt<W: fmt::Write>(&self, f: &mut fmt::Formatter<W>) -> fmt::Result {
        let Change { key, value } = *self;
        write!(f, "{key}={value}")
    }
}
