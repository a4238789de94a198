//! Why an argument is not read.

ghost use Rattle.std.specs.Prelude.{◌≡◌, ◌<◌, ◌==◌, get_or, length, map, string_bytes, IfOk};
ghost use Rattle.grib_words.specs.Reading.{crop_entries};
ghost use Rattle.grib_help.specs.Helping as helping;

use crate::telling::{command_of, joined};
use grib_topics::{nearest_command, nearest_key};
use grib_words::{
    Command, is_any_key, is_asked, is_key_to_set, is_key1, is_key1_to_set, is_mixed, is_on_first,
    takes,
};
use std::alloc::{AllocError, Global};

/// Why the argument at this place is not read.
pub(crate) fn reason_at(alloc: Global, words: &[String], place: usize) -> Result<String, AllocError>
    requires { place < length words.now }
    ensures { IfOk result (λ text. string_bytes text ≡ helping.reason_at place (map string_bytes words.now)) }
{
    match command_of(words) {
        Some(command) => reason_behind(alloc, command, words, place),
        None => no_command(alloc, words[place].as_str()),
    }
}

/// Why the argument at this place after a command is not read.
fn reason_behind(
    alloc: Global,
    command: Command,
    words: &[String],
    place: usize,
) -> Result<String, AllocError>
    requires { place < length words.now }
    ensures { IfOk result (λ text. string_bytes text ≡ helping.reason_behind command place (map string_bytes words.now)) }
{
    let word = words[place].as_str();
    match word.split_once('=') {
        Some((name, value)) => named_reason(alloc, command, name, value, &words[..place]),
        None => bare_reason(alloc, command, words, word),
    }
}

/// Why an argument is the name of no command.
fn no_command(alloc: Global, word: &str) -> Result<String, AllocError>
    ensures { IfOk result (λ text. string_bytes text ≡ helping.no_command word.now) }
{
    if is_dashed(word) {
        return String::from_str(
            alloc,
            "no arguments but --help and --version begin with a dash",
        );
    }
    let nearest = nearest_command(alloc, word)?;
    no_such(alloc, "command", nearest, "all commands: grib help")
}

/// Why a name is none of this kind, with the nearest of the kind, if there is one, and where all stand.
fn no_such(alloc: Global, kind: &str, nearest: &str, all: &str) -> Result<String, AllocError>
    ensures { IfOk result (λ text. string_bytes text ≡ helping.no_such kind.now nearest.now all.now) }
{
    if nearest.is_empty() {
        return joined(alloc, "no ", kind, " has this name; ", all, "", "");
    }
    joined(
        alloc,
        "no ",
        kind,
        " has this name; nearest: ",
        nearest,
        "; ",
        all,
    )
}

/// Whether an argument begins with a dash.
fn is_dashed(word: &str) -> bool
    ensures { result ≡ (get_or word.now 0 0 == 45) }
{
    matches!(word.as_bytes(), [b'-', ..])
}

/// Why an argument without a `=` is not read.
fn bare_reason(
    alloc: Global,
    command: Command,
    words: &[String],
    word: &str,
) -> Result<String, AllocError>
    ensures { IfOk result (λ text. string_bytes text ≡ helping.bare_reason command word.now (map string_bytes words.now)) }
{
    let told = command.name();
    if is_dashed(word) {
        return joined(
            alloc,
            "no argument after ",
            told,
            " begins with a dash; its arguments: grib help ",
            told,
            "",
            "",
        );
    }
    if knows(command, word) {
        return joined(
            alloc,
            word,
            " wants a value; write ",
            word,
            "=VALUE",
            "",
            "",
        );
    }
    if !command.reads_input() {
        return joined(
            alloc,
            told,
            " reads no file; its arguments: grib help ",
            told,
            "",
            "",
            "",
        );
    }
    joined(
        alloc,
        told,
        " takes no file name; write grib ",
        told,
        others(words),
        " < ",
        word,
    )
}

/// What stands for the arguments beside the command and the name of a file.
fn others(words: &[String]) -> &'static str
    ensures { result.now ≡ helping.others (map string_bytes words.now) }
{
    match words {
        [_, _] => "",
        _ => " ..",
    }
}

/// Why an argument with this name and this value is not read after these.
fn named_reason(
    alloc: Global,
    command: Command,
    name: &str,
    value: &str,
    earlier: &[String],
) -> Result<String, AllocError>
    ensures { IfOk result (λ text. string_bytes text ≡ helping.named_reason command name.now value.now (map string_bytes earlier.now)) }
{
    if takes(command, name, value) {
        return joined(alloc, name, beside(name, earlier), "", "", "", "");
    }
    if knows(command, name) {
        return joined(alloc, name, " is ", rule_of(command, name), "", "", "");
    }
    if takes_keys(command) {
        key_reason(alloc, name)
    } else {
        name_reason(alloc, command, name, value)
    }
}

/// What keeps a name with a value of it from being read after these arguments.
fn beside(name: &str, earlier: &[String]) -> &'static str
    ensures { result.now ≡ helping.beside name.now (map string_bytes earlier.now) }
{
    if !is_mixed(earlier, name) {
        "= stands before; each name stands once"
    } else if is_on_first(name) {
        " is of edition 1, and an argument before it of edition 2; write those of one edition"
    } else {
        " is of edition 2, and an argument before it of edition 1; write those of one edition"
    }
}

/// Whether a command takes keys.
fn takes_keys(command: Command) -> bool
    ensures { result ≡ helping.takes_keys command }
{
    matches!(command, Command::Filter | Command::Set)
}

/// Why a name is not read that is that of no key, or of one that cannot be set.
fn key_reason(alloc: Global, name: &str) -> Result<String, AllocError>
    ensures { IfOk result (λ text. string_bytes text ≡ helping.key_reason name.now) }
{
    if is_any_key(name) {
        return joined(
            alloc,
            name,
            " is fixed, and cannot be set; all keys: grib help keys",
            "",
            "",
            "",
            "",
        );
    }
    let nearest = nearest_key(alloc, name)?;
    no_such(alloc, "key", nearest, "all keys: grib help keys")
}

/// Why a name is not read by a command that takes no keys.
fn name_reason(
    alloc: Global,
    command: Command,
    name: &str,
    value: &str,
) -> Result<String, AllocError>
    ensures { IfOk result (λ text. string_bytes text ≡ helping.name_reason command name.now value.now) }
{
    let told = command.name();
    if is_filtered(command, name) {
        let word = joined(alloc, name, "=", value, "", "", "")?;
        return joined(
            alloc,
            told,
            " takes no key; write grib filter ",
            word.as_str(),
            " < FILE | grib ",
            told,
            "",
        );
    }
    joined(
        alloc,
        told,
        " has no ",
        name,
        "=; its arguments: grib help ",
        told,
        "",
    )
}

/// Whether a name is that of a key, and the command one that reads messages.
fn is_filtered(command: Command, name: &str) -> bool
    ensures { result ≡ helping.is_filtered command name.now }
{
    is_any_key(name) && command.reads_input()
}

/// Whether a command takes a name, with some value.
fn knows(command: Command, name: &str) -> bool
    ensures { result ≡ helping.knows command name.now }
{
    knows_own(command, name) || knows_policy(command, name)
}

/// Whether a name is one that stands beside a command's own, on what it cannot answer or on the profile.
fn knows_policy(command: Command, name: &str) -> bool
    ensures { result ≡ helping.knows_policy command name.now }
{
    match command {
        Command::Make | Command::Help | Command::Version => false,
        Command::Check | Command::List | Command::Keys | Command::Stats => {
            matches!(name, "refused" | "profile")
        }
        Command::Compare => name == "profile",
        _ => matches!(name, "refused" | "kept" | "profile"),
    }
}

/// Whether a name is that of one of the command's own arguments.
fn knows_own(command: Command, name: &str) -> bool
    ensures { result ≡ helping.knows_own command name.now }
{
    match command {
        Command::Dump => matches!(name, "decimals" | "place"),
        Command::Values => name == "as",
        Command::List => matches!(name, "with" | "names"),
        Command::Keys => matches!(name, "show" | "names"),
        Command::Filter => is_asked(name) || matches!(name, "name" | "names"),
        Command::Set => is_key_to_set(name) || is_key1_to_set(name) || name == "dates",
        Command::Split => matches!(name, "out" | "editions"),
        Command::Repack => matches!(name, "to" | "order"),
        Command::Migrate => matches!(name, "params" | "surfaces" | "local"),
        Command::Demote => matches!(name, "params" | "local" | "earth" | "tables"),
        Command::Crop => knows_part(name),
        Command::Compare => matches!(name, "with" | "sections" | "quiet"),
        Command::Make => matches!(name, "seed" | "ni" | "nj" | "to" | "order"),
        Command::Check
        | Command::Stats
        | Command::Coordinates
        | Command::Rescan
        | Command::Help
        | Command::Version => false,
    }
}

/// Whether a name is that of a part of what `crop` is asked for.
fn knows_part(name: &str) -> bool
    ensures { result ≡ helping.has_entry crop_entries name.now }
{
    matches!(
        name,
        "i0" | "i1" | "j0" | "j1" | "north" | "south" | "lat" | "west" | "east" | "lon"
    )
}

/// What the value of a name is.
fn rule_of(command: Command, name: &str) -> &'static str
    ensures { result.now ≡ helping.rule_of command name.now }
{
    if name == "profile" {
        return "open";
    }
    if matches!(name, "refused" | "kept") {
        return policy_rule(command);
    }
    command_rule(command, name)
}

/// What the value of one of a command's own names is.
fn command_rule(command: Command, name: &str) -> &'static str
    ensures { result.now ≡ helping.command_rule command name.now }
{
    match command {
        Command::Filter => filter_rule(name),
        Command::Set => set_rule(name),
        Command::Compare => compare_rule(name),
        Command::Repack => repack_rule(name),
        Command::Migrate => migrate_rule(name),
        _ => own_rule(name),
    }
}

/// What the value of a name of `compare` is.
fn compare_rule(name: &str) -> &'static str
    ensures { result.now ≡ helping.compare_rule name.now }
{
    match name {
        "with" => "the name of a file",
        "sections" => "all",
        _ => "yes",
    }
}

/// What the value of a name of `filter` is.
fn filter_rule(name: &str) -> &'static str
    ensures { result.now ≡ helping.filter_rule name.now }
{
    match name {
        "name" =>
            "one or more names with commas between them, each of 1 to 32 letters, digits, _ and -",
        "names" => own_rule(name),
        _ => condition_rule(name),
    }
}

/// What the value of a key is in `filter`. A key of edition 1 is never missing.
fn condition_rule(name: &str) -> &'static str
    ensures { result.now ≡ helping.condition_rule name.now }
{
    if is_on_first(name) {
        "a value, a list as 1,2 or a range as 0..24; a value is a whole number without zeros before it"
    } else {
        "a value, a list as 1,2 or a range as 0..24; a value is a whole number without zeros before it, or missing"
    }
}

/// What the value of a name of `set` is.
fn set_rule(name: &str) -> &'static str
    ensures { result.now ≡ helping.set_rule name.now }
{
    if name == "dates" {
        "valid"
    } else if is_key1(name) {
        "a whole number without zeros before it, as 98 or 0"
    } else {
        "a whole number without zeros before it, as 98, 0 or -5, or missing"
    }
}

/// What the value of `refused` and `kept` is.
fn policy_rule(command: Command) -> &'static str
    ensures { result.now ≡ helping.policy_rule command }
{
    match command {
        Command::Check
        | Command::List
        | Command::Keys
        | Command::Stats
        | Command::Dump
        | Command::Values
        | Command::Coordinates => "pass",
        _ => "copy or pass",
    }
}

/// What the value of a name of `repack` is.
fn repack_rule(name: &str) -> &'static str
    ensures { result.now ≡ helping.repack_rule name.now }
{
    match name {
        "to" => "0, 2, 3, 42 or least",
        _ => own_rule(name),
    }
}

/// What the value of a name of `migrate` is.
fn migrate_rule(name: &str) -> &'static str
    ensures { result.now ≡ helping.migrate_rule name.now }
{
    match name {
        "local" => "keep or ecmwf",
        _ => own_rule(name),
    }
}

/// What the value of a command's own name is.
fn own_rule(name: &str) -> &'static str
    ensures { result.now ≡ helping.own_rule name.now }
{
    match name {
        "decimals" => "a whole number from 0 to 18",
        "as" => "f8 or f4",
        "place" => "yes",
        "north" | "south" | "lat" => "degrees from -90 to 90, with up to six decimals",
        "west" | "east" | "lon" => "degrees from -360 to 360, with up to six decimals",
        "out" => "a name that the names of the files begin with",
        "params" | "surfaces" | "names" => "the name of a file",
        "to" => "0, 2 or 3",
        "order" => "1 or 2",
        "local" => "keep",
        "earth" | "tables" => "any",
        "seed" => "a whole number from 0 to 2147483647",
        "ni" | "nj" => "a whole number from 1 to 4096",
        "with" | "show" =>
            "one or more of the keys, at and octets, with commas between them; all keys: grib help keys",
        "editions" => "both",
        _ => "a whole number from 0 to 33554431",
    }
}
