//! Names and texts as keys of maps, and in order.

use indexmap::IndexMap;
use qml_ast::{Name, Text};
use std::alloc::Global;
use std::test::Fail;

fn name(alloc: Global, text: &str) -> Result<Name, Fail> {
    if text.len() > 65536 {
        return Err(Fail::from("a long name"));
    }
    Ok(Name::new(alloc, text)?)
}

fn text(alloc: Global, text: &str) -> Result<Text, Fail> {
    if text.len() > 65536 {
        return Err(Fail::from("a long text"));
    }
    Ok(Text::new(alloc, text)?)
}

const WORDS: &[&str] = &["b", "a", "b", "", "ab", "a", "", "b"];

/// For each word which of the words was the last one that is equal, or `-`.
const EARLIER: &str = "- - 0 - - 1 3 2 ";

/// Adds a number that a map had for a key.
fn push_number(alloc: Global, told: &mut String, number: Option<usize>) -> Result<(), Fail> {
    match number {
        Some(number) => told.push_str(number.to_string(alloc)?.as_str())?,
        None => told.push_str("-")?,
    }
    told.push_str(" ")?;
    Ok(())
}

fn earlier_names(alloc: Global) -> Result<String, Fail> {
    let mut told = String::new(alloc);
    let mut seen = IndexMap::new(alloc);
    for (i, word) in WORDS.iter().enumerate() {
        let earlier = seen.insert(name(alloc, word)?, i)?;
        push_number(alloc, &mut told, earlier)?;
    }
    Ok(told)
}

fn earlier_texts(alloc: Global) -> Result<String, Fail> {
    let mut told = String::new(alloc);
    let mut seen = IndexMap::new(alloc);
    for (i, word) in WORDS.iter().enumerate() {
        let earlier = seen.insert(text(alloc, word)?, i)?;
        push_number(alloc, &mut told, earlier)?;
    }
    Ok(told)
}

#[test]
fn keys_of_maps(rt: HostRuntime) -> Result<(), Fail> {
    let names = earlier_names(rt.alloc())?;
    let texts = earlier_texts(rt.alloc())?;
    assert!(rt; names.as_str() == EARLIER && texts.as_str() == EARLIER);
    Ok(())
}

fn sorted_names(alloc: Global) -> Result<String, Fail> {
    let mut names = Vec::new(alloc);
    for word in WORDS {
        names.push(name(alloc, word)?)?;
    }
    names.sort()?;
    let mut told = String::new(alloc);
    for name in names.as_slice() {
        told.push_str(name.to_string(alloc)?.as_str())?;
        told.push_str(" ")?;
    }
    Ok(told)
}

#[test]
fn order_of_names(rt: HostRuntime) -> Result<(), Fail> {
    assert_eq!(rt; sorted_names(rt.alloc())?.as_str(), "  a a ab b b b ");
    Ok(())
}

/// How many bytes a text of so many letters has, where a copy is the same text.
fn length_of_copy(alloc: Global, len: usize) -> Result<usize, Fail> {
    let long = "x".repeat(alloc, len)?;
    let made = text(alloc, long.as_str())?;
    let copied = made.copy(alloc)?;
    if !copied.is(&made) || copied.as_str() != long.as_str() {
        return Err(Fail::from("another text"));
    }
    Ok(copied.as_bytes().len())
}

#[test]
fn longest_texts(rt: HostRuntime) -> Result<(), Fail> {
    assert!(rt; length_of_copy(rt.alloc(), 65536)? == 65536);
    Ok(())
}
