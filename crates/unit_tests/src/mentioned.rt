//! The types that documents name and the engine has not.

use crate::report::{note, placed, told_fault};
use qml_ast::DocFault;
use qml_parse::parse;
use qml_types::mentions;
use std::alloc::{AllocError, Global};
use std::test::Fail;

/// Each mention and its place, or the text's fault.
fn told(alloc: Global, text: &str) -> Result<String, DocFault> {
    if text.len() > 1_000_000 {
        return Err(DocFault::NoMemory);
    }
    let document = parse(alloc, text.as_bytes())?;
    let mut told = String::new(alloc);
    for mention in mentions(alloc, &document)?.as_slice() {
        let text = placed(alloc, mention.name.as_str(), mention.span)?;
        told.push_str(text.as_str())?;
        told.push_str("; ")?;
    }
    Ok(told)
}

const MENTIONS: &[(&str, &str)] = &[
    ("Item { }", ""),
    ("A { }", "A 1:1; "),
    // By the first place, each once.
    (
        "A { B { } A { }\nproperty C c; signal s(D d, A a, int i)\nB { E { } } }",
        "A 1:1; B 1:5; C 2:10; D 2:24; E 3:5; ",
    ),
    ("Item { property B b: A { } B { } }", "B 1:17; A 1:22; "),
    ("Item { property A a: A { } }", "A 1:17; "),
    // In values, in groups and in components within.
    (
        "Item { x: A { } g { y: B { C { } } } Component { D { } } }",
        "A 1:11; B 1:24; C 1:28; D 1:50; ",
    ),
    // Words for kinds, types of the engine and names in expressions are none.
    (
        "Rectangle { property Component a; property foo b; signal s(var a)\nx: A.b; onFoo: B.c() }",
        "",
    ),
];

fn differing(alloc: Global) -> Result<String, AllocError> {
    let mut report = String::new(alloc);
    for (text, wanted) in MENTIONS {
        let found = match told(alloc, text) {
            Ok(told) => told,
            Err(fault) => told_fault(alloc, fault)?,
        };
        note(&mut report, text, found.as_str(), wanted)?;
    }
    Ok(report)
}

#[test]
fn types_that_documents_mention(rt: HostRuntime) -> Result<(), Fail> {
    assert_eq!(rt; differing(rt.alloc())?.as_str(), "");
    Ok(())
}
