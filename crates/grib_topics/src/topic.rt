//! What is told of a name.

ghost use Rattle.std.specs.Prelude.{◌≡◌, ◌++◌, string_bytes, IfOk, map};
ghost use Rattle.grib_topics.specs.Topics.{texts_of, text_if_on};
ghost use Rattle.grib_topics.specs.Topics as topics;

use crate::table::{CAUSES, COMMANDS, DEMOTIONS, FIRST_KEYS, KEYS, LOSSES, REFUSALS};
use std::alloc::{AllocError, Global};

/// What is told of a name, which is that of a page or of a topic: all texts of the page, or those on the topics that
/// have the name. It is empty where nothing has the name. The only error is that there is no memory.
pub fn told_of(alloc: Global, name: &str) -> Result<String, AllocError>
    ensures { IfOk result (λ text. string_bytes text ≡ topics.told_of name.now) }
{
    let mut text = String::new(alloc);
    push_texts(&mut text, "commands", name, &COMMANDS)?;
    push_texts(&mut text, "keys", name, &KEYS)?;
    push_texts(&mut text, "keys", name, &FIRST_KEYS)?;
    push_texts(&mut text, "refusals", name, &REFUSALS)?;
    push_texts(&mut text, "causes", name, &CAUSES)?;
    push_texts(&mut text, "causes", name, &LOSSES)?;
    push_texts(&mut text, "causes", name, &DEMOTIONS)?;
    Ok(text)
}

/// Appends the texts of a page on the topics that have this name, or all of them where it is that of the page.
fn push_texts(text: &mut String, page: &str, name: &str, texts: &[&str]) -> Result<(), AllocError>
    ensures { IfOk result (λ _. string_bytes text.new ≡ string_bytes text.old ++ texts_of page.now name.now (map (λ t. t.now) texts.now)) }
{
    for topic in texts {
        push_if_on(text, page, name, topic)?;
    }
    Ok(())
}

/// Appends a text of a page where the name is that of the page, or the text's own.
fn push_if_on(text: &mut String, page: &str, name: &str, topic: &str) -> Result<(), AllocError>
    ensures { IfOk result (λ _. string_bytes text.new ≡ string_bytes text.old ++ text_if_on page.now name.now topic.now) }
{
    if is_on(page, name, topic) {
        text.push_str(topic)?;
    }
    Ok(())
}

/// Whether a name is that of the page, or the first word of the text.
fn is_on(page: &str, name: &str, text: &str) -> bool
    ensures { result ≡ topics.is_on page.now name.now text.now }
{
    if name == page {
        return true;
    }
    match text.split_once(' ') {
        Some((first, _)) => first == name,
        None => text == name,
    }
}
