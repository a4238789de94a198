//! The fields of a message, one after the other.

ghost use Rattle.std.specs.Prelude.{◌≡◌, ◌+◌, ◌≤◌, ◌-◌};
ghost use Rattle.grib.specs.Message.{field_count_in};

use crate::{Field, Message};

/// The fields of a message that are left, in their order.
#[derive(Debug, Drop)]
pub struct Fields<'m, 'a> {
    message: &'m Message<'a>,
    /// How many fields came already.
    before: u32,
    count: u32,
    ghost counted: { count ≡ field_count_in message.now },
    ghost within: { before ≤ count },
    ghost few: { count ≤ 4096 },
}

impl<'m, 'a> Fields<'m, 'a> {
    ghost use Rattle.grib.specs.Message.{fields_in};
    ghost use Rattle.grib.specs.Fields.{fields_left};

    /// All fields of the message.
    pub(crate) fn of(message: &'m Message<'a>) -> Fields<'m, 'a>
        ensures { fields_left result ≡ fields_in message.now }
    {
        Fields {
            message,
            before: 0,
            count: message.field_count(),
        }
    }
}

impl<'m, 'a> Iterator for Fields<'m, 'a> {
    ghost use Rattle.std.specs.Iterator.{YieldsFirstBy, item_count};
    ghost use Rattle.grib.specs.Field.{shown};
    ghost use Rattle.grib.specs.Fields.{fields_left};

    type Item = Field<'m, 'a>;

    ghost next_gives = { YieldsFirstBy shown fields_left };

    ghost remaining = { item_count fields_left };

    fn next(&mut self) -> Option<Field<'m, 'a>> {
        if self.before == self.count {
            return None;
        }
        self.before += 1;
        Some(Field::of(self.message, self.before))
    }
}

impl<'m, 'a> ExactSizeIterator for Fields<'m, 'a> {
    fn len(&self) -> usize {
        (self.count - self.before) as usize
    }
}
