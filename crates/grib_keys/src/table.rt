//! What the table of keys says of a key.

ghost use Rattle.std.specs.Prelude.{◌≡◌, ◌+◌, ◌-◌, ◌≤◌, Some};
ghost use Rattle.grib_keys.specs.Keys as keys;
ghost use Rattle.grib_keys.specs.Keys.{octets_by};

use grib2_sections::instant_shift;

/// A row of the table: a key's name, its section, its place there, and how its number is read and written.
#[derive(Clone, Copy, Debug)]
pub struct Row {
    /// The name, as a command line has it and as a note prints it.
    pub name: &'static str,
    /// The number of the section in which the key stands.
    pub section: u8,
    pub place: Place,
    pub kind: Kind,
}

/// What decides where the numbers of a section stand.
#[derive(Clone, Copy, Debug, PartialEq, Eq)]
pub struct Layout {
    /// The number of the section's template, 0 in Sections 0 and 1, which have none.
    pub template: u16,
    /// Whether the section is opaque: its template is not stated in docs/PROFILE.md, or, in Section 3, octets
    /// 13-14 do not define the grid.
    pub is_opaque: bool,
    /// How many time ranges the section has, 0 in all but Section 4.
    pub ranges: u8,
}

/// Where the number of a key stands in its section, by the layout of the section.
#[derive(Clone, Copy, Debug, PartialEq, Eq)]
pub enum Place {
    /// At these octets in every template.
    At(Octets),
    /// At these octets in every stated template: an opaque section does not have the number.
    Stated(Octets),
    /// The scanning mode of a grid (templates 3.0, 3.1 and 3.40; 3.10; 3.20 and 3.30).
    ScanningMode,
    /// An angle of the first grid point: four octets, from `by_angles` on in grids by latitude and longitude
    /// (templates 3.0, 3.1 and 3.40), from `other` on in grids on a plane (templates 3.10, 3.20 and 3.30).
    FirstPoint { by_angles: u8, other: u8 },
    /// A number of template 4.0 beyond the parameter: the octets from `first` to `last` of it, 12-34, in each
    /// template that begins so (4.0 to 4.15, 4.51, 4.60, 4.61 and 4.91), two octets later in templates 4.40 to
    /// 4.43.
    Instant { first: u8, last: u8 },
    /// A number of an ensemble, at these octets (templates 4.1 and 4.11).
    Ensemble(Octets),
    /// A number of an interval: the octets from `first` to `last` of template 4.8, three octets later in
    /// template 4.11.
    Interval { first: u8, last: u8 },
    /// A number of the first time range of an interval, where it has one: the octets from `first` to `last` of
    /// template 4.8, three octets later in template 4.11.
    FirstRange { first: u8, last: u8 },
}

/// The octets of a section at which a number stands, counted from 1.
#[derive(Clone, Copy, Debug, PartialEq, Eq)]
pub struct Octets {
    pub first: usize,
    pub last: usize,
}

/// How the number of a key is read and written.
#[derive(Clone, Copy, Debug, PartialEq, Eq)]
pub struct Kind {
    /// Whether it has a sign, as sign and magnitude.
    pub is_signed: bool,
    /// Whether it is missing where all its bits are 1.
    pub may_be_missing: bool,
    /// Whether a message may get another number there. It may not where others are read or counted by the
    /// number: the numbers of templates, points and bits, and the sizes of the grid.
    pub can_set: bool,
}

impl Octets {
    /// How many octets there are.
    pub fn count(&self) -> usize
        requires low { 1 ≤ self.now.first }
        requires order { self.now.first ≤ self.now.last }
        ensures { result ≡ self.now.last + 1 - self.now.first }
    {
        self.last - self.first + 1
    }
}

impl Layout {
    /// A layout in which all keys of the section with this number stand: templates 3.1 and 4.11, with a time range.
    pub fn full(section: u8) -> Layout
        ensures { result ≡ keys.full_layout section }
    {
        match section {
            4 => Layout {
                template: 11,
                is_opaque: false,
                ranges: 1,
            },
            _ => Layout {
                template: 1,
                is_opaque: false,
                ranges: 0,
            },
        }
    }
}

impl Place {
    /// The octets of the number in a section of this layout, `None` where the section lacks it.
    pub fn octets(&self, layout: Layout) -> Option<Octets>
        ensures { result ≡ octets_by self.now layout }
    {
        match *self {
            Place::At(octets) => Some(octets),
            Place::Stated(octets) => unless_opaque(octets, layout),
            Place::ScanningMode => scanning_place(layout),
            Place::FirstPoint { by_angles, other } => first_point(by_angles, other, layout),
            Place::Instant { first, last } => instant_place(first, last, layout),
            Place::Ensemble(octets) => ensemble_place(octets, layout),
            Place::Interval { first, last } => interval_place(first, last, layout),
            Place::FirstRange { first, last } => range_place(first, last, layout),
        }
    }
}

/// These octets, unless the section is opaque.
fn unless_opaque(octets: Octets, layout: Layout) -> Option<Octets>
    ensures { result ≡ keys.unless_opaque (Some octets) layout }
{
    if layout.is_opaque {
        return None;
    }
    Some(octets)
}

/// The octets of the scanning mode of a grid.
fn scanning_place(layout: Layout) -> Option<Octets>
    ensures { result ≡ keys.scanning_place layout }
{
    if layout.is_opaque {
        return None;
    }
    match layout.template {
        0 | 1 | 40 => at(72, 72),
        10 => at(60, 60),
        20 | 30 => at(65, 65),
        _ => None,
    }
}

/// The octets of an angle of the first grid point.
fn first_point(by_angles: u8, other: u8, layout: Layout) -> Option<Octets>
    ensures { result ≡ keys.first_point by_angles other layout }
{
    if layout.is_opaque {
        return None;
    }
    let first = match layout.template {
        0 | 1 | 40 => usize::from(by_angles),
        10 | 20 | 30 => usize::from(other),
        _ => return None,
    };
    at(first, first + 3)
}

/// The octets of a number of template 4.0, which stands there from `first` to `last`.
fn instant_place(first: u8, last: u8, layout: Layout) -> Option<Octets>
    ensures { result ≡ keys.instant_place first last layout }
{
    let shift = instant_shift(layout.template)?;
    at(usize::from(first) + shift, usize::from(last) + shift)
}

/// The octets of a number of an ensemble.
fn ensemble_place(octets: Octets, layout: Layout) -> Option<Octets>
    ensures { result ≡ keys.ensemble_place octets layout }
{
    match layout.template {
        1 | 11 => Some(octets),
        _ => None,
    }
}

/// The octets of a number of an interval, which stands from `first` to `last` in template 4.8.
fn interval_place(first: u8, last: u8, layout: Layout) -> Option<Octets>
    ensures { result ≡ keys.interval_place first last layout }
{
    let (first, last) = (usize::from(first), usize::from(last));
    match layout.template {
        8 => at(first, last),
        11 => at(first + 3, last + 3),
        _ => None,
    }
}

/// The octets of a number of the first time range of an interval, which stands from `first` to `last` in
/// template 4.8.
fn range_place(first: u8, last: u8, layout: Layout) -> Option<Octets>
    ensures { result ≡ keys.range_place first last layout }
{
    match layout.ranges {
        0 => None,
        _ => interval_place(first, last, layout),
    }
}

/// The octets from `first` to `last`.
fn at(first: usize, last: usize) -> Option<Octets>
    ensures { result ≡ Some (record { first = first; last = last }) }
{
    Some(Octets { first, last })
}
