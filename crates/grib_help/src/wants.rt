//! What is wanted after arguments that are all read.

ghost use Rattle.std.specs.Prelude.{◌≡◌, map, string_bytes, IfOk};
ghost use Rattle.grib_help.specs.Helping as helping;

use crate::telling::joined;
use grib_words::{Command, has_a_side, has_an_edge, has_name, has_word};
use std::alloc::{AllocError, Global};

/// What a command with these arguments wants beside them.
pub(crate) fn wanted(
    alloc: Global,
    command: Command,
    words: &[String],
) -> Result<String, AllocError>
    ensures { IfOk result (λ text. string_bytes text ≡ helping.wanted command (map string_bytes words.now)) }
{
    match command {
        Command::Crop => crop_wanted(alloc, words),
        Command::Make => named_or(
            alloc,
            words,
            &["seed", "ni", "nj", "to"],
            order_wanted(words),
        ),
        Command::Repack => named_or(alloc, words, &["to"], beside_to(words)),
        Command::Split => named_or(alloc, words, &["out"], ""),
        Command::Compare => named_or(alloc, words, &["with"], ""),
        Command::Migrate | Command::Demote => named_or(alloc, words, &["params"], ""),
        Command::Filter => String::from_str(alloc, condition_wanted(words)),
        _ => String::from_str(
            alloc,
            "a key with its value, as centre=98; all keys: grib help keys",
        ),
    }
}

/// What `crop` wants: a box by columns and rows, a box in degrees, or a place.
fn crop_wanted(alloc: Global, words: &[String]) -> Result<String, AllocError>
    ensures { IfOk result (λ text. string_bytes text ≡ helping.crop_wanted (map string_bytes words.now)) }
{
    let (sides, edges) = (has_a_side(words), has_an_edge(words));
    if has_place(words) {
        return named_or(alloc, words, &["lat", "lon"], "lat= and lon= alone");
    }
    if edges && !sides {
        return named_or(
            alloc,
            words,
            &["north", "south", "west", "east"],
            "south= at most north=",
        );
    }
    if edges {
        return String::from_str(alloc, "columns and rows alone, or a box in degrees alone");
    }
    named_or(
        alloc,
        words,
        &["i0", "i1", "j0", "j1"],
        "i0= at most i1=, and j0= at most j1=",
    )
}

/// Whether a part of a place is among the arguments.
fn has_place(words: &[String]) -> bool
    ensures { result ≡ helping.has_place (map string_bytes words.now) }
{
    has_name(words, "lat") || has_name(words, "lon")
}

/// What `filter` wants: the table of names and those that are asked for stand together; else a key.
fn condition_wanted(words: &[String]) -> &'static str
    ensures { result.now ≡ helping.condition_wanted (map string_bytes words.now) }
{
    if has_name(words, "name") {
        "names= beside name="
    } else if has_name(words, "names") {
        "name= beside names="
    } else {
        "a key with its value, as centre=98; all keys: grib help keys"
    }
}

/// That `order` goes with `to=3`.
fn order_wanted(words: &[String]) -> &'static str
    ensures { result.now ≡ helping.order_wanted (map string_bytes words.now) }
{
    if has_word(words, "to=3") {
        "order=1 or order=2 beside to=3"
    } else {
        "order= beside to=3 alone"
    }
}

/// What goes with `to` of `repack`: the profile that has the packing, or the order.
fn beside_to(words: &[String]) -> &'static str
    ensures { result.now ≡ helping.beside_to (map string_bytes words.now) }
{
    if has_word(words, "to=42") && !has_word(words, "profile=open") {
        "profile=open beside to=42"
    } else {
        order_wanted(words)
    }
}

/// The names that none of the arguments has, or this where there is none of these.
fn named_or(
    alloc: Global,
    words: &[String],
    names: &[&str],
    other: &str,
) -> Result<String, AllocError>
    ensures { IfOk result (λ text. string_bytes text ≡ helping.named_or (map string_bytes words.now) (map (λ name. name.now) names.now) other.now) }
{
    let mut text = String::new(alloc);
    for name in names {
        text = with_wanted(alloc, words, text, name)?;
    }
    if text.as_str().is_empty() {
        return String::from_str(alloc, other);
    }
    Ok(text)
}

/// A text with a name after it that none of the arguments has.
fn with_wanted(
    alloc: Global,
    words: &[String],
    text: String,
    name: &str,
) -> Result<String, AllocError>
    ensures { IfOk result (λ longer. string_bytes longer ≡ helping.with_wanted (map string_bytes words.now) (string_bytes text) name.now) }
{
    if has_name(words, name) {
        return Ok(text);
    }
    if text.as_str().is_empty() {
        return joined(alloc, name, "=", "", "", "", "");
    }
    joined(alloc, text.as_str(), " and ", name, "=", "", "")
}
