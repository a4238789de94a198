//! A field of a message.

ghost use Rattle.std.specs.Prelude.{◌≡◌, ◌≤◌, MatchOption, MatchResult, IfOk, None, Some, length, map};
ghost use Rattle.grib_base.specs.declared.limits.TheConstants.{MOST_POINTS};
ghost use Rattle.grib1_sections.specs.Acceptance.{points_of};
ghost use Rattle.grib1_sections.specs.Column.{column1_of};
ghost use Rattle.grib_keys.specs.Keys1.{keys1};
ghost use Rattle.grib_keys.specs.Keys.{keys};
ghost use Rattle.grib2_grids.specs.Grid.{grid_points};
ghost use Rattle.grib2_message.specs.Fields.{field_count, part_octets, column_of};
ghost use Rattle.grib2_message.specs.Message.{IsMessage, FieldReads};
ghost use Rattle.grib.specs.Message.{field_count_in};

use crate::changing::repack_single;
use crate::readable::readable;
use crate::{Keys, Keys1, Message, Points, RepackError};
use grib_dispatch::Held;
use grib_dyadic::Dyadic;
use grib_keys::{Key, Value as KeyValue};
use grib_packing::Column;
use grib_repack::RepackTarget;
use grib_select::{key_value, single};
use grib1_sections::{Key1, Message1};
use grib2_grids::GridSection;
use grib2_message::Message as Message2;
use grib2_products::ProductSection;
use std::alloc::{AllocError, Global};

/// A field: a product on a grid, with a value for each point. A message of edition 1 has one, a message of edition 2
/// one for each Section 7.
#[derive(Clone, Copy, Debug)]
pub struct Field<'m, 'a> {
    message: &'m Message<'a>,
    number: u32,
    ghost first: { 1 ≤ number },
    ghost last: { number ≤ field_count_in message.now },
}

impl<'m, 'a> Field<'m, 'a> {
    ghost use Rattle.grib.specs.Message.{field_of};
    ghost use Rattle.grib.specs.Points.{values_left};
    ghost use Rattle.grib.specs.Field as definitions;
    ghost use Rattle.grib.specs.Changing.{IsRepacked, IsRepackError, alone};
    ghost use Rattle.grib.specs.Exact.{nearest_number};
    ghost use Rattle.grib.specs.Keys.{keys_left, keys1_left, with_values};
    ghost use Rattle.grib.specs.Field.{shown, IsGridOf, IsProductOf};

    /// The field of a message with this number, from 1.
    pub(crate) fn of(message: &'m Message<'a>, number: u32) -> Field<'m, 'a>
        requires first { 1 ≤ number }
        requires last { number ≤ field_count_in message.now }
        ensures { shown result ≡ field_of message.now number }
    {
        Field { message, number }
    }

    /// The number of the field in its message, from 1.
    pub fn number(&self) -> u32
        ensures { result ≡ (shown self.now).number }
    {
        self.number
    }

    /// The message of the field.
    pub fn message(&self) -> &'m Message<'a>
        ensures { result.now ≡ (shown self.now).message }
    {
        self.message
    }

    /// The value of a key of edition 2: the number at its octets in the section that is in force for the field, or
    /// missing. `None` where the section has no such key by its template, and in edition 1.
    pub fn get(&self, key: Key) -> Option<KeyValue>
        ensures { result ≡ definitions.key_in (shown self.now) key }
    {
        match self.message.held() {
            Held::One(_) => None,
            Held::Two(message) => key_value(message, self.number, key),
        }
    }

    /// The number of a key of edition 1, as Section 1 says it; the decimal scale factor has a sign. `None` in edition 2.
    pub fn get1(&self, key: Key1) -> Option<i64>
        ensures { result ≡ definitions.key1_in (shown self.now) key }
    {
        match self.message.held() {
            Held::One(message) => Some(message.number1(key)),
            Held::Two(_) => None,
        }
    }

    /// The keys of edition 2 that the field has, each with its value, in the order of their places; none in edition 1.
    pub fn keys(&self) -> Keys<'m, 'a>
        ensures { keys_left result ≡ with_values (definitions.key_in (shown self.now)) keys }
    {
        Keys::of(*self)
    }

    /// The keys of edition 1, each with its number, in the order of Section 1; none in edition 2.
    pub fn keys1(&self) -> Keys1<'m, 'a>
        ensures { keys1_left result ≡ with_values (definitions.key1_in (shown self.now)) keys1 }
    {
        Keys1::of(*self)
    }

    /// The grid: what Section 3 of edition 2 says. `None` where the grid is opaque, and in edition 1.
    ///
    /// # Errors
    ///
    /// There is no memory for the list of rows, where there is one.
    pub fn grid(&self, alloc: Global) -> Result<Option<GridSection>, AllocError>
        ensures { IfOk result (IsGridOf (shown self.now)) }
    {
        match self.message.held() {
            Held::One(_) => Ok(None),
            Held::Two(message) => message.grid(alloc, self.number),
        }
    }

    /// The product: what Section 4 of edition 2 says. `None` where the product is opaque, and in edition 1.
    ///
    /// # Errors
    ///
    /// There is no memory for the time ranges or the coordinate values, where there are any.
    pub fn product(&self, alloc: Global) -> Result<Option<ProductSection>, AllocError>
        ensures { IfOk result (IsProductOf (shown self.now)) }
    {
        match self.message.held() {
            Held::One(_) => Ok(None),
            Held::Two(message) => message.product(alloc, self.number),
        }
    }

    /// The scaled integer X or the missing mark of each point, with the reference value and the scale factors as they
    /// stand in the message. The reference value of edition 1 is a word of the IBM single form.
    ///
    /// # Errors
    ///
    /// There is no memory for the points: 16 octets each.
    pub fn column(&self, alloc: Global) -> Result<Column, AllocError>
        ensures column { IfOk result (λ column. column ≡ definitions.column_in (shown self.now)) }
        ensures count { IfOk result (λ column. length column.points ≡ definitions.point_count_in (shown self.now)) }
        ensures few { IfOk result (λ column. length column.points ≤ MOST_POINTS) }
    {
        match self.message.held() {
            Held::One(message) => first_column(alloc, message),
            Held::Two(message) => second_column(alloc, message, self.number),
        }
    }

    /// The exact value of each point, in the order of the grid: as many as the grid has points, 33,554,432 at most.
    ///
    /// # Errors
    ///
    /// There is no memory for the points: 16 octets each.
    pub fn points(&self, alloc: Global) -> Result<Points, AllocError>
        ensures values { IfOk result (λ left. values_left left ≡ definitions.values_in (shown self.now)) }
        ensures count { IfOk result (λ left. length (values_left left) ≡ definitions.point_count_in (shown self.now)) }
        ensures few { IfOk result (λ left. length (values_left left) ≤ MOST_POINTS) }
    {
        match self.message.held() {
            Held::One(message) => {
                let column = first_column(alloc, message)?;
                Ok(Points::of(Dyadic::from_ibm(column.reference), column))
            }
            Held::Two(message) => {
                let column = second_column(alloc, message, self.number)?;
                let Ok(reference) = Dyadic::from_ieee(column.reference) else {
                    unreachable!();
                };
                Ok(Points::of(reference, column))
            }
        }
    }

    /// The number of IEEE 754 binary64 that is nearest to the exact value of each point, ties to even, rounded once, in the
    /// order of the grid; `None` where a point is missing.
    ///
    /// # Errors
    ///
    /// There is no memory: 32 octets for each point, of which half are given back.
    pub fn values(&self, alloc: Global) -> Result<Vec<Option<f64>>, AllocError>
        ensures numbers { IfOk result (λ numbers. numbers.items ≡ map nearest_number (definitions.values_in (shown self.now))) }
        ensures count { IfOk result (λ numbers. length numbers.items ≡ definitions.point_count_in (shown self.now)) }
    {
        self.points(alloc)?.to_f64s(alloc)
    }

    /// The field as a message of its own: the sections that are in force for it, and no other field. A message of
    /// edition 1 is copied.
    ///
    /// # Errors
    ///
    /// There is no memory.
    pub fn extract(&self, alloc: Global) -> Result<Vec<u8>, AllocError>
        ensures { IfOk result (λ octets. octets.items ≡ definitions.extracted (shown self.now)) }
    {
        match self.message.held() {
            Held::One(message) => message.octets().to_vec(alloc),
            Held::Two(message) => single(alloc, message, self.number),
        }
    }

    /// The field as a message of its own in another packing: each point with its value, or missing as before.
    ///
    /// # Errors
    ///
    /// The field is of edition 1; the target is none; a point does not fit the packing; the message would have more than
    /// 268,435,456 octets; or there is no memory.
    pub fn repack(&self, alloc: Global, target: RepackTarget) -> Result<Vec<u8>, RepackError>
        ensures { MatchResult result (λ octets. IsRepacked target (alone (shown self.now)) octets.items)
            (IsRepackError target (alone (shown self.now))) }
    {
        match self.message.held() {
            Held::One(_) => Err(RepackError::EditionOne),
            Held::Two(message) => repack_single(alloc, message, self.number, target),
        }
    }
}

/// The points of a message of edition 1, with an entry for each point of its grid.
fn first_column(alloc: Global, message: &Message1<'_>) -> Result<Column, AllocError>
    ensures column { IfOk result (λ column. column ≡ column1_of message.now) }
    ensures count { IfOk result (λ column. length column.points ≡ points_of message.now) }
    ensures few { IfOk result (λ column. length column.points ≤ MOST_POINTS) }
{
    // So its sections are known to pass.
    message.octets();
    message.column1(alloc)
}

/// The points of a field of a message of edition 2, with an entry for each point of its grid.
fn second_column(alloc: Global, message: &Message2<'_>, number: u32) -> Result<Column, AllocError>
    requires accepted { IsMessage message.now }
    requires first { 1 ≤ number }
    requires last { number ≤ field_count message.now }
    ensures column { IfOk result (λ column. column ≡ column_of message.now number) }
    ensures count { IfOk result (λ column. length column.points ≡ grid_points (part_octets message.now number 3)) }
    ensures few { IfOk result (λ column. length column.points ≤ MOST_POINTS) }
    ensures passes { FieldReads message.now number }
{
    readable(message).column(alloc, number)
}
