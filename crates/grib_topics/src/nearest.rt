//! The name that is nearest to a word.

ghost use Rattle.std.specs.Prelude.{◌≡◌, IfOk, map};
ghost use Rattle.grib_topics.specs.Nearest as near;

use crate::elsewhere::{command_for, keys_for};
use crate::table::{COMMANDS, FIRST_KEYS, KEYS};
use std::alloc::{AllocError, Global};
use strsim::levenshtein;

/// A name, and by how many letters a word differs from it.
#[derive(Clone, Copy, Debug)]
struct Near<'a> {
    name: &'a str,
    changes: usize,
}

/// No name yet: one counts where no more than three letters change.
const NONE: Near<'static> = Near {
    name: "",
    changes: 4,
};

/// The keys that are nearest to a word: those that say what ecCodes has by this name, or else the one whose name is
/// nearest. It is empty where there are none. The only error is that there is no memory.
#[tactic(auto, unfolding(crate::specs::Nearest::nearest_key))]
pub fn nearest_key(alloc: Global, word: &str) -> Result<&'static str, AllocError>
    ensures { IfOk result (λ names. names.now ≡ near.nearest_key word.now) }
{
    let keys = keys_for(word);
    if keys.is_empty() {
        nearest_name(alloc, word)
    } else {
        Ok(keys)
    }
}

/// The name of the key that is nearest to a word: of edition 2, or of edition 1 where that is nearer.
#[tactic(auto, unfolding(crate::specs::Nearest::nearest_name))]
fn nearest_name(alloc: Global, word: &str) -> Result<&'static str, AllocError>
    ensures { IfOk result (λ name. name.now ≡ near.nearest_name word.now) }
{
    let second = nearest(alloc, word, NONE, &KEYS[1..])?;
    let best = nearest(alloc, word, second, &FIRST_KEYS[1..])?;
    Ok(best.name)
}

/// The command that is nearest to a word: the one that does what other programs have by this name, or else the one whose
/// name is nearest. It is empty where none is near. The only error is that there is no memory.
#[tactic(auto, unfolding(crate::specs::Nearest::nearest_command))]
pub fn nearest_command(alloc: Global, word: &str) -> Result<&'static str, AllocError>
    ensures { IfOk result (λ name. name.now ≡ near.nearest_command word.now) }
{
    let command = command_for(word);
    if command.is_empty() {
        nearest_name_of_command(alloc, word)
    } else {
        Ok(command)
    }
}

/// The name of the command that is nearest to a word.
#[tactic(auto, unfolding(crate::specs::Nearest::nearest_name_of_command))]
fn nearest_name_of_command(alloc: Global, word: &str) -> Result<&'static str, AllocError>
    ensures { IfOk result (λ name. name.now ≡ near.nearest_name_of_command word.now) }
{
    let best = nearest(alloc, word, NONE, &COMMANDS)?;
    Ok(best.name)
}

/// The nearest to a word of a name and the first words of these texts, by the fewest letters that are to be changed, put
/// in or left out, whatever their case: fewer than the name has. Of several names as near it is the first.
#[tactic(auto, unfolding(crate::specs::Nearest::nearest))]
fn nearest<'a>(
    alloc: Global,
    word: &str,
    start: Near<'a>,
    texts: &[&'a str],
) -> Result<Near<'a>, AllocError>
    ensures { IfOk result (λ found. near.seen found.name.now found.changes ≡ near.nearest word.now (near.seen start.entry.name.now start.entry.changes) (map (λ t. t.now) texts.now)) }
{
    let mut best = start;
    for text in texts {
        best = nearer(alloc, word, best, first_word(text))?;
    }
    Ok(best)
}

/// The one of two names that is nearer to a word; the first one where they are as near.
fn nearer<'a>(
    alloc: Global,
    word: &str,
    best: Near<'a>,
    name: &'a str,
) -> Result<Near<'a>, AllocError>
    ensures { IfOk result (λ found. near.seen found.name.now found.changes ≡ near.nearer word.now (near.seen best.entry.name.now best.entry.changes) name.now) }
{
    let changes = changes(alloc, word, name)?;
    if changes < best.changes && changes < name.len() {
        Ok(Near { name, changes })
    } else {
        Ok(best)
    }
}

/// How many letters are to be changed, put in or left out, whatever their case.
fn changes(alloc: Global, word: &str, name: &str) -> Result<usize, AllocError>
    ensures { IfOk result (λ count. count ≡ near.changes word.now name.now) }
{
    let word = word.to_ascii_lowercase(alloc)?;
    let name = name.to_ascii_lowercase(alloc)?;
    levenshtein(alloc, word.as_str(), name.as_str())
}

/// What stands before the first blank of a text.
fn first_word(text: &str) -> &str
    ensures { result.now ≡ near.first_word text.now }
{
    match text.split_once(' ') {
        Some((first, _)) => first,
        None => text,
    }
}
