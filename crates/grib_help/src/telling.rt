//! What `help` tells of arguments.

ghost use Rattle.std.specs.Prelude.{◌≡◌, ◌<◌, ◌++◌, cond, [], ◌∷◌, length, map, string_bytes, IfOk};
ghost use Rattle.std.specs.List.{concat};
ghost use Rattle.grib_topics.specs.Topics.{told_of};
ghost use Rattle.grib_help.specs.Helping as helping;

use crate::deeds::{dates_part, deed_of, kept_part, profile_part, refused_part};
use crate::faults::reason_at;
use crate::wants::wanted;
use grib_topics::{shown, told_of};
use grib_words::{Command, read_words};
use std::alloc::{AllocError, Global};

/// Whether the arguments are `help` with others after it, of which it tells.
pub fn is_on_words(words: &[String]) -> bool
    ensures { result ≡ helping.is_on_words (map string_bytes words.now) }
{
    match words {
        [first, later @ ..] => has_any(later) && is_help(first.as_str()),
        [] => false,
    }
}

/// Whether there are arguments.
fn has_any(words: &[String]) -> bool
    ensures { result ≡ helping.has_any (map string_bytes words.now) }
{
    match words {
        [_, ..] => true,
        [] => false,
    }
}

/// Whether an argument names `help`.
fn is_help(word: &str) -> bool
    ensures { result ≡ helping.is_help word.now }
{
    matches!(word, "help" | "--help")
}

/// What `help` tells of these arguments: the text on the one name, or what a command line of the arguments would do, or the
/// argument at which it is at fault, and why. The only error is that there is no memory.
pub fn told_of_words(alloc: Global, words: &[String]) -> Result<String, AllocError>
    ensures { IfOk result (λ text. string_bytes text ≡ helping.told_of_words (map string_bytes words.now)) }
{
    let told = told_of_name(alloc, words)?;
    if told.as_str().is_empty() {
        judged(alloc, words)
    } else {
        Ok(told)
    }
}

/// The text on a name that stands alone, empty where there is none.
fn told_of_name(alloc: Global, words: &[String]) -> Result<String, AllocError>
    ensures { IfOk result (λ text. string_bytes text ≡ helping.told_of_name (map string_bytes words.now)) }
{
    match words {
        [name, later @ ..] => told_of_alone(alloc, name.as_str(), has_any(later)),
        [] => Ok(String::new(alloc)),
    }
}

/// The text on a name, empty where there is none, or where it does not stand alone.
fn told_of_alone(alloc: Global, name: &str, has_more: bool) -> Result<String, AllocError>
    ensures { IfOk result (λ text. string_bytes text ≡ cond has_more [] (told_of name.now)) }
{
    if has_more {
        Ok(String::new(alloc))
    } else {
        told_of(alloc, name)
    }
}

/// What a command line of these arguments would do, or the argument at which it is at fault, and why.
fn judged(alloc: Global, words: &[String]) -> Result<String, AllocError>
    ensures { IfOk result (λ text. string_bytes text ≡ helping.judged (map string_bytes words.now)) }
{
    if is_on_words(words) {
        return done_line(alloc, words, "tells of the arguments after help");
    }
    match read_words(words) {
        Ok(command) => done_line(alloc, words, deed_of(command, words)),
        Err(place) => judged_at(alloc, words, place),
    }
}

/// The line on arguments that have no reading, by the place that this gives: at an argument that is not read, or after all.
fn judged_at(alloc: Global, words: &[String], place: u64) -> Result<String, AllocError>
    ensures { IfOk result (λ text. string_bytes text ≡ helping.judged_at place (map string_bytes words.now)) }
{
    if place < words.len() as u64 {
        fault_line(alloc, words, place)
    } else {
        wanted_line(alloc, words)
    }
}

/// The line on arguments that do this.
fn done_line(alloc: Global, words: &[String], deed: &str) -> Result<String, AllocError>
    ensures { IfOk result (λ text. string_bytes text ≡ helping.done_line deed.now (map string_bytes words.now)) }
{
    let typed = spaced(alloc, words)?;
    let dates = dates_part(words);
    let profile = profile_part(words);
    let refused = refused_part(words);
    let kept = kept_part(words);
    let part = joined(alloc, deed, dates, profile, refused, kept, ".")?;
    let text = joined(alloc, "grib", typed.as_str(), ": ", part.as_str(), "", "")?;
    line(alloc, text.as_str())
}

/// A text as a line, whatever characters its words have.
fn line(alloc: Global, text: &str) -> Result<String, AllocError>
    ensures { IfOk result (λ line. string_bytes line ≡ helping.line text.now) }
{
    let mut line = shown(alloc, text)?;
    line.push_str("\n")?;
    Ok(line)
}

/// The line on an argument that is not read.
fn fault_line(alloc: Global, words: &[String], place: u64) -> Result<String, AllocError>
    requires { place < length words.now }
    ensures { IfOk result (λ text. string_bytes text ≡ helping.fault_line place (map string_bytes words.now)) }
{
    let reason = reason_at(alloc, words, place as usize)?;
    let number = format!(in alloc; "{place}")?;
    let word = words[place as usize].as_str();
    let text = joined(
        alloc,
        "word ",
        number.as_str(),
        " \"",
        word,
        "\": ",
        reason.as_str(),
    )?;
    line(alloc, text.as_str())
}

/// The line on arguments of which all are read, and after which one is wanted.
fn wanted_line(alloc: Global, words: &[String]) -> Result<String, AllocError>
    ensures { IfOk result (λ text. string_bytes text ≡ helping.wanted_line (map string_bytes words.now)) }
{
    match command_of(words) {
        Some(command) => {
            let wanted = wanted(alloc, command, words)?;
            joined(
                alloc,
                command.name(),
                " wants ",
                wanted.as_str(),
                "\n",
                "",
                "",
            )
        }
        None => Ok(String::new(alloc)),
    }
}

/// The command that the first argument names.
pub(crate) fn command_of(words: &[String]) -> Option<Command>
    ensures { result ≡ helping.command_of (map string_bytes words.now) }
{
    match words {
        [first, ..] => Command::named(first.as_str()),
        [] => None,
    }
}

/// The arguments, with a blank before each.
fn spaced(alloc: Global, words: &[String]) -> Result<String, AllocError>
    ensures { IfOk result (λ text. string_bytes text ≡ helping.spaced (map string_bytes words.now)) }
{
    let mut text = String::new(alloc);
    for word in words {
        push_spaced(&mut text, word.as_str())?;
    }
    Ok(text)
}

/// Appends a blank and an argument.
fn push_spaced(text: &mut String, word: &str) -> Result<(), AllocError>
    ensures { IfOk result (λ _. string_bytes text.new ≡ string_bytes text.old ++ helping.spaced_word word.now) }
{
    text.push_str(" ")?;
    text.push_str(word)?;
    Ok(())
}

/// Six texts, one after the other.
pub(crate) fn joined(
    alloc: Global,
    first: &str,
    second: &str,
    third: &str,
    fourth: &str,
    fifth: &str,
    sixth: &str,
) -> Result<String, AllocError>
    ensures { IfOk result (λ text. string_bytes text ≡ concat (first.now ∷ second.now ∷ third.now ∷ fourth.now ∷ fifth.now ∷ sixth.now ∷ [])) }
{
    let text = format!(in alloc; "{first}{second}{third}{fourth}{fifth}{sixth}")?;
    Ok(text)
}
