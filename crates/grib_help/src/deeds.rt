//! What a command line would do, in words.

ghost use Rattle.std.specs.Prelude.{◌≡◌, map, string_bytes};
ghost use Rattle.grib_help.specs.Helping as helping;

use grib_words::{Command, has_first, has_name, has_word};

/// What a command with these arguments would do.
pub(crate) fn deed_of(command: Command, words: &[String]) -> &'static str
    ensures { result.now ≡ helping.deed_of command (map string_bytes words.now) }
{
    match command {
        Command::Check => "writes a line for each message, and a line on the input",
        Command::List => list_deed(words),
        Command::Keys => keys_deed(words),
        Command::Stats =>
            "writes for each field how many points it has, and its smallest and largest scaled integer",
        Command::Dump => dump_deed(words),
        Command::Values => "writes for each field its values as an array of NumPy",
        Command::Coordinates =>
            "writes for each field the latitudes and the longitudes of its points as arrays of NumPy",
        Command::Filter => filter_deed(words),
        Command::Split => split_deed(words),
        Command::Set => set_deed(words),
        Command::Repack => repack_deed(words),
        Command::Migrate => "writes each message of edition 1 as one of edition 2, by this table",
        Command::Demote =>
            "writes each field of edition 2 as a message of edition 1, by this table",
        Command::Rescan =>
            "writes each message with its points from west to east and from north to south",
        Command::Crop => crop_deed(words),
        Command::Compare => compare_deed(words),
        Command::Make => "writes a synthetic message, made from the seed",
        Command::Help => "writes a line on each command",
        Command::Version => "writes the version of the program",
    }
}

/// What `compare` with these arguments would do.
fn compare_deed(words: &[String]) -> &'static str
    ensures { result.now ≡ helping.compare_deed (map string_bytes words.now) }
{
    if has_name(words, "quiet") {
        "writes a line for each field that is not the same as its counterpart in this file, and a line on all fields"
    } else {
        "writes a line for each field that says whether it is the same as its counterpart in this file, and a line on all fields"
    }
}

/// What `list` with these arguments would do.
fn list_deed(words: &[String]) -> &'static str
    ensures { result.now ≡ helping.list_deed (map string_bytes words.now) }
{
    let is_named = has_name(words, "names");
    if has_name(words, "with") {
        if is_named {
            "writes a line for each field, with these columns and the name of its parameter by this table"
        } else {
            "writes a line for each field, with these columns"
        }
    } else if is_named {
        "writes a line for each field, with the name of its parameter by this table"
    } else {
        "writes a line for each field"
    }
}

/// What `keys` with these arguments would do.
fn keys_deed(words: &[String]) -> &'static str
    ensures { result.now ≡ helping.keys_deed (map string_bytes words.now) }
{
    let is_named = has_name(words, "names");
    if has_name(words, "show") {
        if is_named {
            "writes for each field the values of these columns and the name of its parameter by this table"
        } else {
            "writes for each field the values of these columns"
        }
    } else if is_named {
        "writes for each field every key that it has, with its value, and the name of its parameter by this table"
    } else {
        "writes for each field every key that it has, with its value"
    }
}

/// What `filter` with these arguments would do.
fn filter_deed(words: &[String]) -> &'static str
    ensures { result.now ≡ helping.filter_deed (map string_bytes words.now) }
{
    if has_name(words, "name") {
        "copies the fields whose parameter has one of these names by this table, and that have all these values"
    } else if has_first(words) {
        "copies the messages of edition 1 that have all these values"
    } else {
        "copies the fields that have all these values"
    }
}

/// What `split` with these arguments would do.
fn split_deed(words: &[String]) -> &'static str
    ensures { result.now ≡ helping.split_deed (map string_bytes words.now) }
{
    if has_name(words, "editions") {
        "writes the n-th field, of either edition, to the file of this name with .n after it"
    } else {
        "writes the n-th field to the file of this name with .n after it"
    }
}

/// What `set` with these arguments would do.
fn set_deed(words: &[String]) -> &'static str
    ensures { result.now ≡ helping.set_deed (map string_bytes words.now) }
{
    if has_first(words) {
        "writes each message of edition 1 with these values of keys, and all else as it is"
    } else {
        "writes each message with these values of keys, and all else as it is"
    }
}

/// What `dump` with these arguments would do.
fn dump_deed(words: &[String]) -> &'static str
    ensures { result.now ≡ helping.dump_deed (map string_bytes words.now) }
{
    let is_placed = has_name(words, "place");
    if has_name(words, "decimals") {
        if is_placed {
            "writes for each field its list line, R, E and D, and the place and the value of each point, the value with so many decimals"
        } else {
            "writes for each field its list line, R, E and D, and the value of each point with so many decimals"
        }
    } else if is_placed {
        "writes for each field its list line, R, E and D, and the place and the scaled integer of each point"
    } else {
        "writes for each field its list line, R, E and D, and the scaled integer of each point"
    }
}

/// What `crop` with these arguments would do.
fn crop_deed(words: &[String]) -> &'static str
    ensures { result.now ≡ helping.crop_deed (map string_bytes words.now) }
{
    if has_name(words, "lat") {
        "writes of each message the grid point nearest to this place"
    } else if has_name(words, "north") {
        "writes of each message the grid points in this box"
    } else {
        "writes of each message these grid columns and rows"
    }
}

/// What `repack` with these arguments would do.
fn repack_deed(words: &[String]) -> &'static str
    ensures { result.now ≡ helping.repack_deed (map string_bytes words.now) }
{
    if has_word(words, "to=0") {
        "writes each message in simple packing"
    } else if has_word(words, "to=2") {
        "writes each message in complex packing"
    } else if has_word(words, "to=3") {
        "writes each message in complex packing with spatial differencing"
    } else if has_word(words, "to=42") {
        "writes each message in CCSDS packing"
    } else {
        "writes each field in the smallest of the packings, or as it is"
    }
}

/// Which reference times are accepted.
pub(crate) fn dates_part(words: &[String]) -> &'static str
    ensures { result.now ≡ helping.dates_part (map string_bytes words.now) }
{
    if has_word(words, "dates=valid") {
        ", where its reference time is then a date and time"
    } else {
        ""
    }
}

/// What is accepted.
pub(crate) fn profile_part(words: &[String]) -> &'static str
    ensures { result.now ≡ helping.profile_part (map string_bytes words.now) }
{
    if has_word(words, "profile=open") {
        ", and accepts any grid, product and packing"
    } else {
        ""
    }
}

/// What is done with what is refused.
pub(crate) fn refused_part(words: &[String]) -> &'static str
    ensures { result.now ≡ helping.refused_part (map string_bytes words.now) }
{
    if has_word(words, "refused=copy") {
        ", and copies what is refused"
    } else if has_word(words, "refused=pass") {
        ", and skips what is refused"
    } else {
        ""
    }
}

/// What is done with a message that is kept.
pub(crate) fn kept_part(words: &[String]) -> &'static str
    ensures { result.now ≡ helping.kept_part (map string_bytes words.now) }
{
    if has_word(words, "kept=copy") {
        ", and copies a message that it cannot change"
    } else if has_word(words, "kept=pass") {
        ", and leaves out a message that it cannot change or print"
    } else {
        ""
    }
}
