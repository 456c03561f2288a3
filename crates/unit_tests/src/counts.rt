//! How many objects, contexts and levels documents make.

use crate::documents::{compiled, known_as_a};
use crate::report::{note, told_fault};
use qml_ast::DocFault;
use qml_types::{ComponentType, Known};
use std::alloc::{AllocError, Global};
use std::test::Fail;

/// The objects, contexts and levels of a component, in this order.
fn numbers(alloc: Global, component: &ComponentType) -> Result<String, AllocError> {
    let objects = component.object_count();
    let contexts = component.context_count();
    let levels = component.depth();
    format!(in alloc; "{objects} {contexts} {levels}")
}

/// The type `A` of the last of these texts, each of which knows the one before it as `A`.
fn known_by(alloc: Global, texts: &[&str]) -> Result<Known, DocFault> {
    let mut known = Known::new(alloc);
    for text in texts {
        known = known_as_a(alloc, text, &known)?;
    }
    Ok(known)
}

/// The numbers of a text over the types that it stands on.
fn made(alloc: Global, under: &[&str], text: &str) -> Result<String, DocFault> {
    let known = known_by(alloc, under)?;
    let component = compiled(alloc, text, &known)?;
    Ok(numbers(alloc, &component)?)
}

fn answer(alloc: Global, under: &[&str], text: &str) -> Result<String, AllocError> {
    match made(alloc, under, text) {
        Ok(numbers) => Ok(numbers),
        Err(fault) => told_fault(alloc, fault),
    }
}

const MADE: &[(&[&str], &str, &str)] = &[
    (&[], "Item { }", "1 1 1"),
    (&[], "Item { Item { } Item { Item { } } }", "4 1 3"),
    // Objects that are the value of a property count as those that are children.
    (&[], "Item { property Item a: Item { Item { } } }", "3 1 3"),
    // A document's objects count each time.
    (
        &["Item { Item { } }"],
        "Item { A { } A { } A { } }",
        "7 4 3",
    ),
    // A root that is of a document's type is one object with that document's root.
    (&["Item { Item { } }"], "A { }", "2 2 2"),
    (&["Item { Item { } }"], "A { A { } }", "4 3 3"),
    (
        &["Item { Item { } }", "A { A { } }"],
        "A { A { } Item { } }",
        "9 7 4",
    ),
    (
        &["Item { }", "A { Item { } }", "A { }"],
        "Item { Item { A { } } }",
        "4 4 4",
    ),
    // What an inline Component declares is made by nobody yet.
    (&[], "Item { Component { Item { Item { } } } }", "2 1 2"),
    (
        &[],
        "Item { property Component c: Item { Item { } } }",
        "2 1 2",
    ),
    (
        &["Component { Item { Item { } } }"],
        "Item { A { } A { } }",
        "3 3 2",
    ),
    // Of an unlawful document there is nothing to count.
    (&[], "Item { A { } }", "UnknownType 1:8"),
];

fn differing(alloc: Global) -> Result<String, AllocError> {
    let mut report = String::new(alloc);
    for (under, text, wanted) in MADE {
        note(
            &mut report,
            text,
            answer(alloc, under, text)?.as_str(),
            wanted,
        )?;
    }
    Ok(report)
}

#[test]
fn objects_contexts_and_levels(rt: HostRuntime) -> Result<(), Fail> {
    assert_eq!(rt; differing(rt.alloc())?.as_str(), "");
    Ok(())
}

/// The numbers of what the first inline component in a text declares.
fn inner_numbers(alloc: Global, text: &str) -> Result<String, DocFault> {
    let component = compiled(alloc, text, &Known::new(alloc))?;
    for object in component.objects.as_slice() {
        if let Some(inner) = &object.inner {
            return Ok(numbers(alloc, inner.get())?);
        }
    }
    Ok(String::new(alloc))
}

#[test]
fn an_inline_component_has_numbers_of_its_own(rt: HostRuntime) -> Result<(), Fail> {
    let text = "Item { Item { } Component { Item { Item { } Item { Item { } } } } }";
    let as_wanted = match inner_numbers(rt.alloc(), text) {
        Ok(numbers) => numbers.as_str() == "4 1 3",
        Err(_) => false,
    };
    assert!(rt; as_wanted);
    Ok(())
}

/// The numbers of a document that is made twice in a document that is made twice in another, and so on.
fn twice(alloc: Global, times: u32) -> Result<String, DocFault> {
    let mut known = known_as_a(alloc, "Item { }", &Known::new(alloc))?;
    for _ in 0..times {
        known = known_as_a(alloc, "Item { A { } A { } }", &known)?;
    }
    let component = compiled(alloc, "A { }", &known)?;
    Ok(numbers(alloc, &component)?)
}

/// With k doublings there are 2^(k+1) - 1 objects, and one context more than that with the last document's own.
const DOUBLED: &[(u32, &str)] = &[
    (1, "3 4 2"),
    (10, "2047 2048 11"),
    (62, "9223372036854775807 9223372036854775808 63"),
    (63, "18446744073709551615 18446744073709551615 64"),
    (100, "18446744073709551615 18446744073709551615 101"),
];

fn doubled_otherwise(alloc: Global) -> Result<String, AllocError> {
    let mut report = String::new(alloc);
    for (times, wanted) in DOUBLED {
        let found = match twice(alloc, *times) {
            Ok(numbers) => numbers,
            Err(fault) => told_fault(alloc, fault)?,
        };
        note(&mut report, "so many doublings", found.as_str(), wanted)?;
    }
    Ok(report)
}

#[test]
fn numbers_are_capped(rt: HostRuntime) -> Result<(), Fail> {
    assert_eq!(rt; doubled_otherwise(rt.alloc())?.as_str(), "");
    Ok(())
}
