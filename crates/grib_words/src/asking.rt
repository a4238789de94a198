//! The job of a command, by the values of its arguments.

ghost use Rattle.std.specs.Prelude.{◌≡◌, ◌-◌, ◌^◌, true, false, codes, map, string_bytes, Ok, IfOk};
ghost use Rattle.grib_words.specs.Reading as grammar;
ghost use Rattle.grib_words.specs.Reading.{is, is_named, reading_of};
ghost use Rattle.grib_numbers.specs.Numbers.{is_between};
ghost use Rattle.grib_words.specs.Words as asked;
ghost use Rattle.std.specs.declared.option.Option.TheVariants.{Some};

use crate::choosing::{filter_of, keys_of, list_of, set_of};
use crate::command::Command;
use crate::crop::{edges_of, nearest_of};
use crate::job::JobFault;
use crate::policy::profile_of;
use crate::reading::{has_name, is_named};
use grib_command::{Job, Name, Page};
use grib_migrate::Local;
use grib_nearest::Format;
use grib_numbers::{degrees_of, number_of};
use grib_packing::RepackTarget;
use grib_params::TableMatch;
use grib_rescan::Area;
use std::alloc::{AllocError, Global};

/// The job of a command with these arguments after it, which it reads.
pub fn job_of_command(alloc: Global, command: Command, words: &[String]) -> Result<Job, JobFault>
    requires { reading_of (Some command) (map string_bytes words.now) ≡ Ok command }
    ensures { asked.IsUnlessMemory result (asked.job_of_command command (map string_bytes words.now)) }
{
    match command {
        Command::Check => Ok(Job::Check),
        Command::List => Ok(list_of(alloc, words)?),
        Command::Keys => Ok(keys_of(alloc, words)?),
        Command::Stats => Ok(Job::Stats),
        Command::Dump => Ok(Job::Dump {
            decimals: number_if_given(words, "decimals"),
            placed: has_name(words, "place"),
        }),
        Command::Values => Ok(Job::Values(format_of(words))),
        Command::Coordinates => Ok(Job::Coordinates),
        Command::Filter => Ok(filter_of(alloc, words)?),
        Command::Split => Ok(Job::Split {
            name: name_by(alloc, words, "out")?,
            edition_1: has_name(words, "editions"),
        }),
        Command::Set => Ok(set_of(alloc, words)?),
        Command::Repack => Ok(repack_of(words)),
        Command::Make => Ok(Job::Make {
            seed: number_by(words, "seed"),
            ni: number_by(words, "ni"),
            nj: number_by(words, "nj"),
            target: target_of(words),
        }),
        Command::Migrate => Ok(Job::Migrate {
            params: name_by(alloc, words, "params")?,
            surfaces: name_if_given(alloc, words, "surfaces")?,
            local: local_of(words),
        }),
        Command::Demote => Ok(Job::Demote {
            params: name_by(alloc, words, "params")?,
            keep_local: has_name(words, "local"),
            any_earth: has_name(words, "earth"),
            matching: matching_of(words),
        }),
        Command::Rescan => Ok(Job::Rescan),
        Command::Crop => Ok(crop_of(words)),
        Command::Compare => Ok(Job::Compare {
            file: name_by(alloc, words, "with")?,
            sections: has_name(words, "sections"),
            quiet: has_name(words, "quiet"),
        }),
        Command::Help => Ok(Job::Print(Page::Help)),
        Command::Version => Ok(Job::Print(Page::Version)),
    }
}

/// The format of the values of an array.
fn format_of(words: &[String]) -> Format
    ensures { result ≡ asked.format_of (map string_bytes words.now) }
{
    if value_of(words, "as") == "f4" {
        Format::Binary32
    } else {
        Format::Binary64
    }
}

/// Which tables a record of the parameter table may have.
fn matching_of(words: &[String]) -> TableMatch
    ensures { result ≡ asked.matching_of (map string_bytes words.now) }
{
    if has_name(words, "tables") {
        TableMatch::Any
    } else {
        TableMatch::Same
    }
}

/// What becomes of octets for local use.
fn local_of(words: &[String]) -> Local
    ensures { result ≡ asked.local_of (map string_bytes words.now) }
{
    match value_of(words, "local") {
        "keep" => Local::Keep,
        "ecmwf" => Local::Ecmwf,
        _ => Local::Refuse,
    }
}

/// The value of the argument that has this name, as a name on a shelf.
pub fn name_by(alloc: Global, words: &[String], name: &str) -> Result<Name, AllocError>
    ensures { IfOk result (λ found. found ≡ grammar.value_of name.now (map string_bytes words.now)) }
{
    Ok(Name::of(String::from_str(alloc, value_of(words, name))?))
}

/// The value of the argument that has this name, as a name on a shelf, where there is one.
pub fn name_if_given(
    alloc: Global,
    words: &[String],
    name: &str,
) -> Result<Option<Name>, AllocError>
    ensures { IfOk result (λ found. found ≡ grammar.value_if_given name.now (map string_bytes words.now)) }
{
    if has_name(words, name) {
        Ok(Some(name_by(alloc, words, name)?))
    } else {
        Ok(None)
    }
}

/// The job of `repack` with these arguments.
fn repack_of(words: &[String]) -> Job
    requires { is (codes "least") (grammar.value_of (codes "to") (map string_bytes words.now)) ≡ false
        → is (codes "0") (grammar.value_of (codes "to") (map string_bytes words.now)) ≡ false
        → is (codes "2") (grammar.value_of (codes "to") (map string_bytes words.now)) ≡ false
        → is (codes "42") (grammar.value_of (codes "to") (map string_bytes words.now)) ≡ false
        → is_between 1 2 (grammar.value_of (codes "order") (map string_bytes words.now)) ≡ true }
    ensures { result ≡ asked.repack_of (map string_bytes words.now) }
{
    if value_of(words, "to") == "least" {
        Job::RepackLeast(profile_of(words))
    } else {
        Job::Repack(target_of(words))
    }
}

/// What the arguments ask fields to be packed to.
fn target_of(words: &[String]) -> RepackTarget
    requires { is (codes "0") (grammar.value_of (codes "to") (map string_bytes words.now)) ≡ false
        → is (codes "2") (grammar.value_of (codes "to") (map string_bytes words.now)) ≡ false
        → is (codes "42") (grammar.value_of (codes "to") (map string_bytes words.now)) ≡ false
        → is_between 1 2 (grammar.value_of (codes "order") (map string_bytes words.now)) ≡ true }
    ensures { result ≡ asked.target_of (map string_bytes words.now) }
{
    match value_of(words, "to") {
        "0" => RepackTarget::Simple,
        "2" => RepackTarget::Complex,
        "42" => RepackTarget::Coded {
            block: 32,
            interval: 128,
        },
        _ => RepackTarget::Spatial(number_by(words, "order") as u8),
    }
}

/// The job of `crop` with these arguments.
fn crop_of(words: &[String]) -> Job
    requires { grammar.has_name (codes "lat") (map string_bytes words.now) ≡ false
        → grammar.has_name (codes "north") (map string_bytes words.now) ≡ false
        → asked.SidesStand (map string_bytes words.now) }
    ensures { result ≡ asked.crop_of (map string_bytes words.now) }
{
    if has_name(words, "lat") {
        Job::Within(nearest_of(words))
    } else if has_name(words, "north") {
        Job::Within(edges_of(words))
    } else {
        Job::Crop(area_of(words))
    }
}

/// The subarea whose sides the arguments give.
fn area_of(words: &[String]) -> Area
    requires { asked.SidesStand (map string_bytes words.now) }
    ensures { result ≡ asked.area_of (map string_bytes words.now) }
{
    Area {
        i0: number_by(words, "i0"),
        i1: number_by(words, "i1"),
        j0: number_by(words, "j0"),
        j1: number_by(words, "j1"),
    }
}

/// The number of the argument that has this name.
pub fn number_by(words: &[String], name: &str) -> u32
    requires { is_between 0 (2 ^ 32 - 1) (grammar.value_of name.now (map string_bytes words.now)) ≡ true }
    ensures { result ≡ grammar.number_of name.now (map string_bytes words.now) }
{
    match number_of(value_of(words, name)) {
        Some(number) => number as u32,
        None => unreachable!(),
    }
}

/// The degrees of the argument that has this name, in 10^-6 degree, 0 where there is none.
pub fn degrees_by(words: &[String], name: &str) -> i32
    ensures { result ≡ grammar.degrees_by name.now (map string_bytes words.now) }
{
    degrees_of(value_of(words, name)).unwrap_or(0)
}

/// The number of the argument that has this name, where there is one.
fn number_if_given(words: &[String], name: &str) -> Option<u32>
    requires { grammar.has_name name.now (map string_bytes words.now) ≡ true
        → is_between 0 (2 ^ 32 - 1) (grammar.value_of name.now (map string_bytes words.now)) ≡ true }
    ensures { result ≡ grammar.number_if_given name.now (map string_bytes words.now) }
{
    if has_name(words, name) {
        Some(number_by(words, name))
    } else {
        None
    }
}

/// The value of the argument that has this name, empty where none has it.
pub fn value_of<'a>(words: &'a [String], name: &str) -> &'a str
    ensures { result.now ≡ grammar.value_of name.now (map string_bytes words.now) }
{
    match words.iter().find(|word| is_named(word.as_str(), name)) {
        Some(word) => value_in(word.as_str()),
        None => "",
    }
}

/// What stands after the first `=` of an argument.
fn value_in(word: &str) -> &str
    ensures { result.now ≡ grammar.value_in word.now }
{
    match word.split_once('=') {
        Some((_, value)) => value,
        None => "",
    }
}
