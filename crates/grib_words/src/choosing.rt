//! The jobs of the commands that have several, by their arguments.

ghost use Rattle.std.specs.Prelude.{◌≡◌, map, string_bytes, IfOk};
ghost use Rattle.grib_words.specs.Words as asked;

use crate::asking::{name_by, name_if_given, value_of};
use crate::changes::{changes_of, changes1_of};
use crate::columns::{columns_in, names_in};
use crate::editions::has_first;
use crate::reading::has_name;
use crate::wanted::{conditions_of, conditions1_of};
use grib_base::List;
use grib_command::{Changes, Changes1, Conditions, Conditions1, Job};
use grib_dates::Dates;
use grib_text::{Columns, LineForm};
use std::alloc::{AllocError, Global};

/// The job of `list` with these arguments.
pub fn list_of(alloc: Global, words: &[String]) -> Result<Job, AllocError>
    ensures { IfOk result (λ job. job ≡ asked.list_of (map string_bytes words.now)) }
{
    if has_name(words, "with") || has_name(words, "names") {
        lines_by(alloc, words, LineForm::List, "with")
    } else {
        Ok(Job::List)
    }
}

/// The job of `keys` with these arguments.
pub fn keys_of(alloc: Global, words: &[String]) -> Result<Job, AllocError>
    ensures { IfOk result (λ job. job ≡ asked.keys_of (map string_bytes words.now)) }
{
    if has_name(words, "show") {
        return lines_by(alloc, words, LineForm::Show, "show");
    }
    if has_name(words, "names") {
        return Ok(Job::Lines {
            form: LineForm::Keys,
            columns: Columns::of(Vec::new(alloc)),
            names: name_if_given(alloc, words, "names")?,
        });
    }
    Ok(Job::Keys)
}

/// Lines of this form, with the columns that the argument of this name gives, and by the table of names, if there is one.
fn lines_by(alloc: Global, words: &[String], form: LineForm, name: &str) -> Result<Job, AllocError>
    ensures { IfOk result (λ job. job ≡ asked.lines_by form name.now (map string_bytes words.now)) }
{
    Ok(Job::Lines {
        form,
        columns: Columns::of(columns_in(alloc, value_of(words, name))?),
        names: name_if_given(alloc, words, "names")?,
    })
}

/// The job of `filter` with these arguments.
pub fn filter_of(alloc: Global, words: &[String]) -> Result<Job, AllocError>
    ensures { IfOk result (λ job. job ≡ asked.filter_of (map string_bytes words.now)) }
{
    if has_name(words, "name") {
        return by_name(alloc, words);
    }
    if has_first(words) {
        let conditions = conditions1_of(alloc, words)?;
        return Ok(Job::Filter1(Conditions1::of(conditions)));
    }
    Ok(Job::Filter(Conditions::of(conditions_of(alloc, words)?)))
}

/// The conditions of the arguments, with those on the names of parameters.
fn by_name(alloc: Global, words: &[String]) -> Result<Job, AllocError>
    ensures { IfOk result (λ job. job ≡ asked.by_name (map string_bytes words.now)) }
{
    Ok(Job::FilterNamed {
        conditions: Conditions::of(conditions_of(alloc, words)?),
        names: name_by(alloc, words, "names")?,
        wanted: List::of(names_in(alloc, value_of(words, "name"))?),
    })
}

/// The job of `set` with these arguments.
pub fn set_of(alloc: Global, words: &[String]) -> Result<Job, AllocError>
    ensures { IfOk result (λ job. job ≡ asked.set_of (map string_bytes words.now)) }
{
    let dates = dates_of(words);
    if has_first(words) {
        let changes = Changes1::of(changes1_of(alloc, words)?);
        return Ok(Job::Set1 { changes, dates });
    }
    let changes = Changes::of(changes_of(alloc, words)?);
    Ok(Job::Set { changes, dates })
}

/// Which reference times a message may have once it is changed.
fn dates_of(words: &[String]) -> Dates
    ensures { result ≡ asked.dates_of (map string_bytes words.now) }
{
    if has_name(words, "dates") {
        Dates::Valid
    } else {
        Dates::Any
    }
}
