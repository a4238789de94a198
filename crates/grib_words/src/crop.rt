//! What `crop` is asked for: a box by columns and rows, a box in degrees, or the point nearest to a place.

ghost use Rattle.std.specs.Prelude.{◌≡◌, [], length, map, int_le, string_bytes};
ghost use Rattle.grib_words.specs.Reading as grammar;
ghost use Rattle.grib_words.specs.Reading.{box_entries, crop_entries, degree_entries};
ghost use Rattle.grib_words.specs.Words as asked;
ghost use Rattle.grib_words.specs.declared.command.Command.TheVariants.{Crop};

use crate::asking::{degrees_by, number_by};
use crate::reading::has_name;
use grib_numbers::{are_degrees, is_between};
use grib_rescan::Bounds;

/// Whether the names of what `crop` is asked for have a name with this value.
pub fn takes_part(name: &str, value: &str) -> bool
    ensures { result ≡ grammar.takes crop_entries name.now value.now }
{
    takes_side(name, value) || takes_degrees(name, value)
}

/// Whether the names of the sides of a subarea have a name with this value.
fn takes_side(name: &str, value: &str) -> bool
    ensures { result ≡ grammar.takes box_entries name.now value.now }
{
    matches!(name, "i0" | "i1" | "j0" | "j1") && is_between(value, 0, 33_554_431)
}

/// Whether the names of places in degrees have a name with this value.
fn takes_degrees(name: &str, value: &str) -> bool
    ensures { result ≡ grammar.takes degree_entries name.now value.now }
{
    (matches!(name, "north" | "south" | "lat") && are_degrees(value, -90_000_000, 90_000_000))
        || (matches!(name, "west" | "east" | "lon")
            && are_degrees(value, -360_000_000, 360_000_000))
}

/// Whether a place, a box in degrees, or a box by columns and rows is among the arguments, which are read, and one of
/// them alone.
pub fn has_crop(words: &[String]) -> bool
    requires { grammar.read_count Crop [] (map string_bytes words.now) ≡ length words.now }
    ensures { result ≡ grammar.has_crop (map string_bytes words.now) }
{
    if has_name(words, "lat") {
        has_name(words, "lon") && !(has_a_side(words) || has_an_edge(words))
    } else if has_name(words, "north") {
        has_edges(words) && !(has_name(words, "lon") || has_a_side(words))
    } else {
        has_box(words) && !(has_name(words, "lon") || has_an_edge(words))
    }
}

/// Whether all sides of a subarea are among the arguments, which are read, and the last ones are not before the
/// first.
fn has_box(words: &[String]) -> bool
    requires { grammar.read_count Crop [] (map string_bytes words.now) ≡ length words.now }
    ensures { result ≡ grammar.has_box (map string_bytes words.now) }
{
    if !has_sides(words) {
        return false;
    }
    number_by(words, "i0") <= number_by(words, "i1")
        && number_by(words, "j0") <= number_by(words, "j1")
}

/// Whether all sides of a subarea are among the arguments.
fn has_sides(words: &[String]) -> bool
    ensures { result ≡ grammar.has_sides (map string_bytes words.now) }
{
    has_name(words, "i0") && has_name(words, "i1") && has_name(words, "j0") && has_name(words, "j1")
}

/// Whether some of the sides of a subarea are among the arguments.
pub fn has_a_side(words: &[String]) -> bool
    ensures { result ≡ grammar.has_a_side (map string_bytes words.now) }
{
    has_name(words, "i0") || has_name(words, "i1") || has_name(words, "j0") || has_name(words, "j1")
}

/// Whether all edges of a box in degrees are among the arguments, and the south is not north of the north.
fn has_edges(words: &[String]) -> bool
    ensures { result ≡ grammar.has_edges (map string_bytes words.now) }
{
    has_all_edges(words) && in_order(degrees_by(words, "south"), degrees_by(words, "north"))
}

/// Whether all edges of a box in degrees are among the arguments.
fn has_all_edges(words: &[String]) -> bool
    ensures { result ≡ grammar.has_all_edges (map string_bytes words.now) }
{
    has_name(words, "north")
        && has_name(words, "south")
        && has_name(words, "west")
        && has_name(words, "east")
}

/// Whether the first number is at most the second.
fn in_order(least: i32, most: i32) -> bool
    ensures { result ≡ int_le least most }
{
    least <= most
}

/// Whether some of the edges of a box in degrees are among the arguments.
pub fn has_an_edge(words: &[String]) -> bool
    ensures { result ≡ grammar.has_an_edge (map string_bytes words.now) }
{
    has_name(words, "north")
        || has_name(words, "south")
        || has_name(words, "west")
        || has_name(words, "east")
}

/// The place whose nearest point the arguments ask for.
pub fn nearest_of(words: &[String]) -> Bounds
    ensures { result ≡ asked.nearest_of (map string_bytes words.now) }
{
    Bounds::Nearest {
        latitude: degrees_by(words, "lat"),
        longitude: degrees_by(words, "lon"),
    }
}

/// The box in degrees whose edges the arguments give.
pub fn edges_of(words: &[String]) -> Bounds
    ensures { result ≡ asked.edges_of (map string_bytes words.now) }
{
    Bounds::Box {
        north: degrees_by(words, "north"),
        south: degrees_by(words, "south"),
        west: degrees_by(words, "west"),
        east: degrees_by(words, "east"),
    }
}
