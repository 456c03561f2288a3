//! Both sides of each limit.

use crate::store::{gives, loaded};
use std::alloc::{AllocError, Global};
use std::test::Fail;

/// A file with a long name, and a document that mentions its type.
const NAMED: &str = "*.qml: Item { }\nMain.qml: Item { * { } }";

/// A letter and how many of it stand for each `*` in the others: the document that is loaded, the files,
/// and what the load gives.
const LONG: &[(&str, usize, &str, &str, &str)] = &[
    // How many bytes the document has.
    (
        " ",
        1_048_576 - 8,
        "Main.qml",
        "Main.qml: Item { }*",
        "Main.qml ",
    ),
    (
        " ",
        1_048_577 - 8,
        "Main.qml",
        "Main.qml: Item { }*",
        "Main.qml: too long",
    ),
    // How many bytes the name of the file has.
    ("A", 5 - 4, "*.qml", NAMED, "*.qml "),
    ("A", 254 - 4, "*.qml", NAMED, "*.qml "),
    ("A", 255 - 4, "*.qml", NAMED, "*.qml "),
    ("A", 256 - 4, "*.qml", NAMED, "*.qml: missing"),
    ("A", 5 - 4, "Main.qml", NAMED, "Main.qml *.qml "),
    ("A", 254 - 4, "Main.qml", NAMED, "Main.qml *.qml "),
    ("A", 255 - 4, "Main.qml", NAMED, "Main.qml *.qml "),
    (
        "A",
        256 - 4,
        "Main.qml",
        NAMED,
        "Main.qml: 1:8: unknown type",
    ),
];

/// What stands for a load that gives `Main.qml` and 255 more.
const ALL: &str = "256 documents";

/// How many documents `Main.qml` mentions, the number of one that is none, the fetch that fails, and
/// what a load gives.
const COUNTS: &[(u32, u32, u64, &str)] = &[
    (255, 0, 257, ALL),
    (255, 0, 256, "read fault"),
    (256, 0, 0, "too many documents"),
    (256, 0, 257, "too many documents"),
    (256, 0, 256, "read fault"),
    (256, 200, 0, "T200.qml: 1:1: syntax"),
    (256, 255, 0, "T255.qml: 1:1: syntax"),
    (256, 256, 0, "too many documents"),
    (300, 0, 0, "too many documents"),
];

fn spelled(alloc: Global, text: &str, letter: &str, count: usize) -> Result<String, AllocError> {
    let letters = letter.repeat(alloc, count)?;
    text.replace(alloc, '*', letters.as_str())
}

fn long_gives(alloc: Global, row: &(&str, usize, &str, &str, &str)) -> Result<bool, AllocError> {
    let (letter, count, name, lines, wanted) = *row;
    let name = spelled(alloc, name, letter, count)?;
    let lines = spelled(alloc, lines, letter, count)?;
    let wanted = spelled(alloc, wanted, letter, count)?;
    gives(
        alloc,
        name.as_str(),
        &[(lines.as_str(), 0)],
        wanted.as_str(),
    )
}

fn add_mentions(lines: &mut String, count: u32) -> Result<(), AllocError> {
    for number in 1..=count {
        write!(lines, " T{number} {{ }}")?;
    }
    lines.push_str(" }")
}

fn add_documents(lines: &mut String, count: u32, bad: u32) -> Result<(), AllocError> {
    for number in 1..=count {
        let text = if number == bad { "}" } else { "Item { }" };
        write!(lines, "\nT{number}.qml: {text}")?;
    }
    Ok(())
}

/// `Main.qml`, which mentions so many documents, and these, of which the one of that number is none.
fn documents(alloc: Global, count: u32, bad: u32) -> Result<String, AllocError> {
    let mut lines = String::from_str(alloc, "Main.qml: Item {")?;
    add_mentions(&mut lines, count)?;
    add_documents(&mut lines, count, bad)?;
    Ok(lines)
}

fn is_as_wanted(found: &str, wanted: &str) -> bool {
    if wanted == ALL {
        return found.starts_with("Main.qml T1.qml ") && found.ends_with(" T255.qml ");
    }
    found == wanted
}

fn counts_give(alloc: Global, row: &(u32, u32, u64, &str)) -> Result<bool, AllocError> {
    let (count, bad, failing, wanted) = *row;
    let lines = documents(alloc, count, bad)?;
    let found = loaded(alloc, "Main.qml", &[(lines.as_str(), failing)])?;
    Ok(is_as_wanted(found.as_str(), wanted))
}

#[test]
fn lengths_of_documents_and_names(rt: HostRuntime) -> Result<(), Fail> {
    for row in LONG {
        assert!(rt; long_gives(rt.alloc(), row)?, "{} at {}", row.4, row.1);
    }
    Ok(())
}

#[test]
fn counts_of_documents(rt: HostRuntime) -> Result<(), Fail> {
    for row in COUNTS {
        assert!(rt; counts_give(rt.alloc(), row)?, "{} of {}", row.3, row.0);
    }
    Ok(())
}
