//! What is asked of the value of a key.

ghost use Rattle.std.specs.Prelude.{◌≡◌, ◌↔◌, IsTrue};
ghost use Rattle.grib_keys.specs.Wanted.{is_chosen, is_among, holds, Holds};

use crate::condition::Value;
use crate::key::Key;
use grib_base::List;

/// Values that are asked for: one, or the numbers of a range with its ends.
#[derive(Clone, Copy, Debug, PartialEq, Eq)]
pub enum Choice {
    /// This value.
    One(Value),
    /// A number from the one on to the other.
    Between { least: i64, most: i64 },
    /// This number or a greater one.
    From(i64),
    /// This number or a smaller one.
    UpTo(i64),
}

/// Values that are asked for, one after another.
pub type Choices = List<Choice>;

/// What is asked of a value.
#[derive(Debug, Drop)]
pub enum Test {
    /// That it is one of these.
    Among(Choices),
    /// That it is none of these.
    Outside(Choices),
}

/// A key with what is asked of its value, as `surface1Value=50000,85000`.
#[derive(Debug, Drop)]
pub struct Wanted {
    pub key: Key,
    pub test: Test,
}

impl Choice {
    /// Whether the value is the one, or a number within the range.
    pub fn has(&self, value: Value) -> bool
        ensures { result ≡ is_chosen self.now value }
    {
        match (*self, value) {
            (Choice::One(this), value) => value == this,
            (Choice::Between { least, most }, Value::Number(x)) => least <= x && x <= most,
            (Choice::From(least), Value::Number(x)) => least <= x,
            (Choice::UpTo(most), Value::Number(x)) => x <= most,
            (_, Value::Missing) => false,
        }
    }
}

impl Test {
    /// Whether what is asked holds of the value.
    pub fn holds(&self, value: Value) -> bool
        ensures answer { result ≡ holds self.now value }
        ensures exactly { IsTrue result ↔ Holds self.now value }
    {
        match self {
            Test::Among(choices) => is_among(choices.as_slice(), value),
            Test::Outside(choices) => !is_among(choices.as_slice(), value),
        }
    }
}

/// Whether the value is one of these.
fn is_among(choices: &[Choice], value: Value) -> bool
    ensures { result ≡ is_among choices.now value }
{
    choices.iter().any(|choice| choice.has(value))
}
