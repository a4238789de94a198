//! The codes of the points of a field, 32 bits for each.

ghost use Rattle.std.specs.Prelude.{◌≡◌, ◌≤◌, length};
ghost use Rattle.grib_codes.specs.Words.{codes_of};

use crate::Codes;
use std::marker::Model;

/// The codes of the points of a field, one after another: a word of 4 octets for each, of which up to two are
/// reserved for missing points.
#[derive(Debug, Drop)]
pub struct Words {
    words: Vec<u32>,
    reserved: u8,
}

impl Model for Words {
    ghost use Rattle.std.specs.Prelude.{List, ◌≤◌};
    ghost use Rattle.grib_base.specs.declared.code.Code.{Code};
    ghost use Rattle.grib_codes.specs.Words.{codes_of};

    ghost Value = { List Code };

    ghost view = { λ codes. codes_of codes.reserved codes.words.items };

    ghost invariant = { λ codes. codes.reserved ≤ 2 };
}

impl Words {
    /// The codes that these words stand for, where `reserved` codes are kept for missing points.
    pub fn of(words: Vec<u32>, reserved: u8) -> Words
        requires { reserved ≤ 2 }
        ensures { result ≡ codes_of reserved words.items }
    {
        Words { words, reserved }
    }

    /// How many there are.
    pub fn len(&self) -> usize
        ensures { result ≡ length self.now }
    {
        self.words.len()
    }

    /// The codes, to be looked at.
    pub fn codes(&self) -> Codes<'_>
        ensures { result ≡ self.now }
    {
        Codes::of(&self.words, u32::from(self.reserved))
    }
}
