//! The arguments of the command line: which of them are read.

ghost use Rattle.std.specs.Prelude.{codes, cond, true, ◌≡◌, ◌≤◌, [], length, map, string_bytes};
ghost use Rattle.grib_words.specs.Reading as grammar;
ghost use Rattle.grib_words.specs.Reading.{entries, own_entries, policy_entries, past_entries, profile_entries, line_entries, filter_entries, set_entries, size_entries, target_entries, reading};

use crate::choices::is_test;
use crate::columns::{are_names, is_columns};
use crate::command::Command;
use crate::crop::{has_crop, takes_part};
use crate::editions::{is_any_key, is_asked, is_key_to_set, is_key1_to_set, is_mixed};
use crate::values::key_value;
use grib_numbers::{is_between, signed_number};

/// Reads the arguments of a command line: the command that they ask for. Where they ask for none, the place
/// of the first argument that is not read, from 0 for the command on, or the number of arguments where all are
/// read and one that is needed is missing.
pub fn read_words(words: &[String]) -> Result<Command, u64>
    ensures { result ≡ reading (map string_bytes words.now) }
{
    let [first, later @ ..] = words else {
        return Err(0);
    };
    let Some(command) = Command::named(first.as_str()) else {
        return Err(0);
    };
    let count = read_count(command, later);
    if count == later.len() && is_complete(command, later) {
        Ok(command)
    } else {
        Err(count as u64 + 1)
    }
}

/// How many of the arguments after the command are read, from the first on.
fn read_count(command: Command, words: &[String]) -> usize
    ensures count { result ≡ grammar.read_count command [] (map string_bytes words.now) }
    ensures within { result ≤ length words.now }
{
    for (place, word) in words.iter().enumerate() {
        if !is_read(command, &words[..place], word.as_str()) {
            return place;
        }
    }
    words.len()
}

/// Whether an argument after these is read: it has a `=`, the command has its name with its value, none of the
/// earlier arguments has its name, unless several may have it, and none has a name of the other edition.
fn is_read(command: Command, earlier: &[String], word: &str) -> bool
    ensures { result ≡ grammar.is_read command (map string_bytes earlier.now) word.now }
{
    match word.split_once('=') {
        Some((name, value)) => {
            takes(command, name, value)
                && (may_repeat(command, name) || !has_name(earlier, name))
                && !is_mixed(earlier, name)
        }
        None => false,
    }
}

/// Whether several arguments may have this name: those of `filter` that ask of a key.
fn may_repeat(command: Command, name: &str) -> bool
    ensures { result ≡ grammar.may_repeat command name.now }
{
    command == Command::Filter && is_asked(name)
}

/// Whether one of the arguments has this name.
pub fn has_name(words: &[String], name: &str) -> bool
    ensures { result ≡ grammar.has_name name.now (map string_bytes words.now) }
{
    words.iter().any(|word| is_named(word.as_str(), name))
}

/// Whether an argument has this name.
pub fn is_named(word: &str, name: &str) -> bool
    ensures { result ≡ grammar.is_named name.now word.now }
{
    match word.split_once('=') {
        Some((found, _)) => found == name,
        None => false,
    }
}

/// Whether a command has a name with this value.
pub fn takes(command: Command, name: &str, value: &str) -> bool
    ensures { result ≡ grammar.takes (entries command) name.now value.now }
{
    takes_own(command, name, value) || takes_policy(command, name, value)
}

/// Whether the names beside a command's own have a name with this value.
fn takes_policy(command: Command, name: &str, value: &str) -> bool
    ensures { result ≡ grammar.takes (policy_entries command) name.now value.now }
{
    takes_past(command, name, value) || takes_profile(command, name, value)
}

/// Whether the names of what a run does with what it cannot answer have a name with this value.
fn takes_past(command: Command, name: &str, value: &str) -> bool
    ensures { result ≡ grammar.takes (past_entries command) name.now value.now }
{
    match command {
        Command::Compare | Command::Make | Command::Help | Command::Version => false,
        Command::Check | Command::List | Command::Keys | Command::Stats => {
            name == "refused" && value == "pass"
        }
        Command::Dump | Command::Values | Command::Coordinates => matches!(name, "refused" | "kept")
            && value == "pass",
        Command::Filter
        | Command::Split
        | Command::Set
        | Command::Repack
        | Command::Migrate
        | Command::Demote
        | Command::Rescan
        | Command::Crop => {
            matches!(name, "refused" | "kept") && matches!(value, "copy" | "pass")
        }
    }
}

/// Whether the name of the profile is this, and has this value.
fn takes_profile(command: Command, name: &str, value: &str) -> bool
    ensures { result ≡ grammar.takes (profile_entries command) name.now value.now }
{
    match command {
        Command::Make | Command::Help | Command::Version => false,
        _ => name == "profile" && value == "open",
    }
}

/// Whether the names of a command's own arguments have a name with this value.
fn takes_own(command: Command, name: &str, value: &str) -> bool
    ensures { result ≡ grammar.takes (own_entries command) name.now value.now }
{
    match command {
        Command::Check
        | Command::Stats
        | Command::Coordinates
        | Command::Rescan
        | Command::Help
        | Command::Version => false,
        Command::List => takes_line(name, value, "with"),
        Command::Keys => takes_line(name, value, "show"),
        Command::Dump => {
            (name == "decimals" && is_between(value, 0, 18)) || (name == "place" && value == "yes")
        }
        Command::Values => name == "as" && matches!(value, "f4" | "f8"),
        Command::Filter => takes_condition(name, value),
        Command::Set => takes_change(name, value),
        Command::Split => {
            (name == "out" && !value.is_empty()) || (name == "editions" && value == "both")
        }
        Command::Repack => {
            takes_target(name, value) || (name == "to" && matches!(value, "least" | "42"))
        }
        Command::Migrate => {
            (matches!(name, "params" | "surfaces") && !value.is_empty())
                || (name == "local" && matches!(value, "keep" | "ecmwf"))
        }
        Command::Demote => {
            (name == "params" && !value.is_empty())
                || (name == "local" && value == "keep")
                || (matches!(name, "earth" | "tables") && value == "any")
        }
        Command::Crop => takes_part(name, value),
        Command::Compare => {
            (name == "with" && !value.is_empty())
                || (name == "sections" && value == "all")
                || (name == "quiet" && value == "yes")
        }
        Command::Make => takes_size(name, value) || takes_target(name, value),
    }
}

/// Whether the names on lines of fields, of which this is one, have a name with this value.
fn takes_line(name: &str, value: &str, this: &str) -> bool
    ensures { result ≡ grammar.takes (line_entries this.now) name.now value.now }
{
    (name == this && is_columns(value)) || (name == "names" && !value.is_empty())
}

/// Whether the names of what `filter` asks have a name with this value.
fn takes_condition(name: &str, value: &str) -> bool
    ensures { result ≡ grammar.takes filter_entries name.now value.now }
{
    (is_asked(name) && is_test(value))
        || (name == "name" && are_names(value))
        || (name == "names" && !value.is_empty())
}

/// Whether the names of what `set` changes have a name with this value.
fn takes_change(name: &str, value: &str) -> bool
    ensures { result ≡ grammar.takes set_entries name.now value.now }
{
    (is_key_to_set(name) && key_value(value).is_some())
        || (is_key1_to_set(name) && signed_number(value).is_some())
        || (name == "dates" && value == "valid")
}

/// Whether the names by which fields are packed anew have a name with this value.
fn takes_target(name: &str, value: &str) -> bool
    ensures { result ≡ grammar.takes target_entries name.now value.now }
{
    (name == "to" && matches!(value, "0" | "2" | "3"))
        || (name == "order" && matches!(value, "1" | "2"))
}

/// Whether the names of the size and the contents of a synthetic message have a name with this value.
fn takes_size(name: &str, value: &str) -> bool
    ensures { result ≡ grammar.takes size_entries name.now value.now }
{
    (name == "seed" && is_between(value, 0, 2_147_483_647))
        || (name == "ni" && is_between(value, 1, 4096))
        || (name == "nj" && is_between(value, 1, 4096))
}

/// Whether all names that the command needs are among the arguments, which are read.
fn is_complete(command: Command, words: &[String]) -> bool
    requires { grammar.read_count command [] (map string_bytes words.now) ≡ length words.now }
    ensures { result ≡ grammar.is_complete command (map string_bytes words.now) }
{
    match command {
        Command::Check
        | Command::List
        | Command::Keys
        | Command::Stats
        | Command::Dump
        | Command::Values
        | Command::Coordinates
        | Command::Rescan
        | Command::Help
        | Command::Version => true,
        Command::Filter => has_condition(words),
        Command::Set => has_key(words),
        Command::Split => has_name(words, "out"),
        Command::Repack => has_target(words) && has_profile_of_target(words),
        Command::Migrate | Command::Demote => has_name(words, "params"),
        Command::Crop => has_crop(words),
        Command::Compare => has_name(words, "with"),
        Command::Make => {
            has_name(words, "seed")
                && has_name(words, "ni")
                && has_name(words, "nj")
                && has_target(words)
        }
    }
}

/// Whether a packing that only the open profile has is asked for beside `profile=open` alone.
fn has_profile_of_target(words: &[String]) -> bool
    ensures { result ≡ cond (grammar.has_word (codes "to=42") (map string_bytes words.now)) (grammar.has_word (codes "profile=open") (map string_bytes words.now)) true }
{
    !has_word(words, "to=42") || has_word(words, "profile=open")
}

/// Whether one of the arguments is on a key.
fn has_key(words: &[String]) -> bool
    ensures { result ≡ grammar.has_key (map string_bytes words.now) }
{
    words.iter().any(|word| is_on_key(word.as_str()))
}

/// Whether an argument is on a key.
fn is_on_key(word: &str) -> bool
    ensures { result ≡ grammar.is_on_key word.now }
{
    match word.split_once('=') {
        Some((name, _)) => is_any_key(name),
        None => false,
    }
}

/// Whether one of the arguments asks of a key, or of the name of a parameter beside the table of names.
fn has_condition(words: &[String]) -> bool
    ensures { result ≡ grammar.has_condition (map string_bytes words.now) }
{
    if has_name(words, "name") {
        has_name(words, "names")
    } else {
        !has_name(words, "names") && has_asking(words)
    }
}

/// Whether one of the arguments asks of a key.
fn has_asking(words: &[String]) -> bool
    ensures { result ≡ grammar.has_asking (map string_bytes words.now) }
{
    words.iter().any(|word| is_asking(word.as_str()))
}

/// Whether an argument asks of a key.
fn is_asking(word: &str) -> bool
    ensures { result ≡ grammar.is_asking word.now }
{
    match word.split_once('=') {
        Some((name, _)) => is_asked(name),
        None => false,
    }
}

/// Whether `to` is among the arguments, with `order` beside `to=3` and beside no other.
fn has_target(words: &[String]) -> bool
    ensures { result ≡ grammar.has_target (map string_bytes words.now) }
{
    has_name(words, "to") && has_name(words, "order") == has_word(words, "to=3")
}

/// Whether this is one of the arguments.
pub fn has_word(words: &[String], whole: &str) -> bool
    ensures { result ≡ grammar.has_word whole.now (map string_bytes words.now) }
{
    words.iter().any(|word| word.as_str() == whole)
}
