//! The limits of levels, of nodes, and of the sizes of names and texts.

use crate::parsing::answer;
use crate::report::note;
use std::alloc::{AllocError, Global};
use std::test::Fail;

fn push_times(text: &mut String, part: &str, times: usize) -> Result<(), AllocError> {
    for _ in 0..times {
        text.push_str(part)?;
    }
    Ok(())
}

/// The answer to a text in which `before` and `after` stand so many times round what is in the middle.
fn nested_answer(
    alloc: Global,
    [head, before, middle, after, tail]: [&str; 5],
    times: usize,
) -> Result<String, AllocError> {
    let mut text = String::from_str(alloc, head)?;
    push_times(&mut text, before, times)?;
    text.push_str(middle)?;
    push_times(&mut text, after, times)?;
    text.push_str(tail)?;
    answer(alloc, text.as_bytes())
}

/// Rows of the five parts of a text, how often the second and the fourth stand in it, and its answer.
fn differing(alloc: Global, rows: &[([&str; 5], usize, &str)]) -> Result<String, AllocError> {
    let mut report = String::new(alloc);
    for (parts, times, wanted) in rows {
        let found = nested_answer(alloc, *parts, *times)?;
        note(&mut report, parts[1], found.as_str(), wanted)?;
    }
    Ok(report)
}

const LEVELS: &[([&str; 5], usize, &str)] = &[
    // Objects, and what stands in the innermost one.
    (["", "Item { ", "", "} ", ""], 64, "ok"),
    (["", "Item { ", "", "} ", ""], 65, "TooDeep 1:454"),
    (["", "Item { ", "", "", ""], 65, "TooDeep 1:454"),
    (["", "Item { ", "", "", ""], 64, "Syntax 1:449"),
    (["", "Item { ", "x: A { }", "} ", ""], 63, "ok"),
    (["", "Item { ", "x: A { }", "} ", ""], 64, "TooDeep 1:454"),
    (["", "Item { ", "g { x: 1 }", "} ", ""], 63, "ok"),
    (["", "Item { ", "g { x: 1 }", "} ", ""], 64, "TooDeep 1:451"),
    (["", "Item { ", "g { x: A { } }", "} ", ""], 62, "ok"),
    (
        ["", "Item { ", "g { x: A { } }", "} ", ""],
        63,
        "TooDeep 1:451",
    ),
    (["", "Item { ", "function f(a) { }", "} ", ""], 63, "ok"),
    (
        ["", "Item { ", "function f(a) { }", "} ", ""],
        64,
        "TooDeep 1:463",
    ),
    (["", "Item { ", "signal s(int a)", "} ", ""], 64, "ok"),
    (
        ["", "Item { ", "onFoo: a = b.c + d * 2", "} ", ""],
        64,
        "ok",
    ),
    (["", "Item { ", "onFoo: { }", "} ", ""], 63, "ok"),
    (["", "Item { ", "onFoo: { }", "} ", ""], 64, "TooDeep 1:456"),
    (
        ["", "Item { ", "onFoo: if (a) b; else c", "} ", ""],
        63,
        "ok",
    ),
    (
        ["", "Item { ", "onFoo: if (a) b; else c", "} ", ""],
        64,
        "TooDeep 1:463",
    ),
    (["", "Item { ", "onFoo: while (a) b", "} ", ""], 63, "ok"),
    (
        ["", "Item { ", "onFoo: while (a) b", "} ", ""],
        64,
        "TooDeep 1:466",
    ),
    (["", "Item { ", "onFoo: while (a) { }", "} ", ""], 62, "ok"),
    (
        ["", "Item { ", "onFoo: while (a) { }", "} ", ""],
        63,
        "TooDeep 1:459",
    ),
    (
        ["", "Item { ", "onFoo: for (a = 1; b; c++) d", "} ", ""],
        63,
        "ok",
    ),
    (
        ["", "Item { ", "onFoo: for (a = 1; b; c++) d", "} ", ""],
        64,
        "TooDeep 1:476",
    ),
    (["", "Item { ", "x: (a)", "} ", ""], 63, "ok"),
    (["", "Item { ", "x: (a)", "} ", ""], 64, "TooDeep 1:452"),
    (["", "Item { ", "x: f()", "} ", ""], 63, "ok"),
    (["", "Item { ", "x: f()", "} ", ""], 64, "TooDeep 1:453"),
    (["", "Item { ", "x: !-a", "} ", ""], 62, "ok"),
    (["", "Item { ", "x: !-a", "} ", ""], 63, "TooDeep 1:446"),
    (["", "Item { ", "x: (a) ? b : c", "} ", ""], 63, "ok"),
    (
        ["", "Item { ", "x: a ? b : c", "} ", ""],
        64,
        "TooDeep 1:454",
    ),
    (
        ["", "Item { ", "x: a ? (b) : c", "} ", ""],
        63,
        "TooDeep 1:449",
    ),
    (
        ["", "Item { ", "x: a ? b : (c)", "} ", ""],
        63,
        "TooDeep 1:453",
    ),
    (
        ["", "Item { ", "x: a ? b : c ? d : e", "} ", ""],
        63,
        "TooDeep 1:455",
    ),
    // A token that cannot stand there opens no level.
    (["", "Item { ", "x: )", "} ", ""], 64, "Syntax 1:452"),
    (
        ["", "Item { ", "onFoo: if (a) )", "} ", ""],
        64,
        "Syntax 1:463",
    ),
    (["", "Item { ", "x: { }", "} ", ""], 64, "Unsupported 1:452"),
    (
        ["", "Item { ", "onFoo: if (a) this", "} ", ""],
        64,
        "Unsupported 1:463",
    ),
    (
        ["", "Item { ", "A.B { }", "} ", ""],
        64,
        "Unsupported 1:449",
    ),
    // Each form within itself.
    (["Item { x: ", "f(", "1", ")", " }"], 63, "ok"),
    (["Item { x: ", "f(", "1", ")", " }"], 64, "TooDeep 1:138"),
    (
        ["Item { onFoo: ", "if (a) b; else ", "if (a) b", "", " }"],
        62,
        "ok",
    ),
    (
        ["Item { onFoo: ", "if (a) b; else ", "if (a) b", "", " }"],
        63,
        "TooDeep 1:967",
    ),
    (["I{", "x:I{", "", "}", "}"], 63, "ok"),
    (["I{", "x:I{", "", "}", "}"], 64, "TooDeep 1:258"),
    (["I{", "property A p:I{", "", "}", "}"], 63, "ok"),
    (["I{", "property A p:I{", "", "}", "}"], 64, "TooDeep 1:962"),
    (["I{a{", "x:I{", "", "}", "}}"], 62, "ok"),
    (["I{a{", "x:I{", "", "}", "}}"], 63, "TooDeep 1:256"),
    (["I{onA:", "{", "", "}", "}"], 63, "ok"),
    (["I{onA:", "{", "", "}", "}"], 64, "TooDeep 1:70"),
    (["I{function f()", "{", "", "}", "}"], 63, "ok"),
    (["I{function f()", "{", "", "}", "}"], 64, "TooDeep 1:78"),
    (["Item { x: ", "(", "1", ")", " }"], 63, "ok"),
    (["Item { x: ", "(", "1", ")", " }"], 64, "TooDeep 1:74"),
    (["I{x:", "- ", "1", "", "}"], 63, "ok"),
    (["I{x:", "- ", "1", "", "}"], 64, "TooDeep 1:131"),
    (["I{x:", "+ ", "1", "", "}"], 63, "ok"),
    (["I{x:", "+ ", "1", "", "}"], 64, "TooDeep 1:131"),
    (["I{x:", "!", "1", "", "}"], 63, "ok"),
    (["I{x:", "!", "1", "", "}"], 64, "TooDeep 1:68"),
    (["I{x:a", "?b:c", "", "", "}"], 63, "ok"),
    (["I{x:a", "?b:c", "", "", "}"], 64, "TooDeep 1:258"),
    (["I{x:", "a?", "b", ":c", "}"], 63, "ok"),
    (["I{x:", "a?", "b", ":c", "}"], 64, "TooDeep 1:132"),
    (["I{onA:", "if(a)", "b", "", "}"], 63, "ok"),
    (["I{onA:", "if(a)", "b", "", "}"], 64, "TooDeep 1:327"),
    (["I{onA:", "if(a)b;else ", "b", "", "}"], 63, "ok"),
    (
        ["I{onA:", "if(a)b;else ", "b", "", "}"],
        64,
        "TooDeep 1:768",
    ),
    (["I{onA:", "while(a)", "b", "", "}"], 63, "ok"),
    (["I{onA:", "while(a)", "b", "", "}"], 64, "TooDeep 1:519"),
    (["I{onA:", "for(;;)", "b", "", "}"], 63, "ok"),
    (["I{onA:", "for(;;)", "b", "", "}"], 64, "TooDeep 1:455"),
    // A block inside a statement is one level more than the statement.
    (["I{onA:", "if(a){", "", "}", "}"], 31, "ok"),
    (["I{onA:", "if(a){", "", "}", "}"], 32, "TooDeep 1:198"),
    (["I{onA:", "if(a);else{", "", "}", "}"], 31, "ok"),
    (["I{onA:", "if(a);else{", "", "}", "}"], 32, "TooDeep 1:358"),
    (["I{onA:", "while(a){", "", "}", "}"], 31, "ok"),
    (["I{onA:", "while(a){", "", "}", "}"], 32, "TooDeep 1:294"),
    (["I{onA:", "for(;;){", "", "}", "}"], 31, "ok"),
    (["I{onA:", "for(;;){", "", "}", "}"], 32, "TooDeep 1:262"),
];

#[test]
fn levels_that_each_form_opens(rt: HostRuntime) -> Result<(), Fail> {
    assert_eq!(rt; differing(rt.alloc(), LEVELS)?.as_str(), "");
    Ok(())
}

const NODES: &[([&str; 5], usize, &str)] = &[
    // Each form that is a node.
    (["I{x:a", "+a", "", "", "}"], 99, "ok"),
    (["I{x:a", "+a", "", "", "}"], 100, "TooDeep 1:205"),
    (["I{x:a", "&&a", "", "", "}"], 99, "ok"),
    (["I{x:a", "&&a", "", "", "}"], 100, "TooDeep 1:305"),
    (["I{x:a", "||a", "", "", "}"], 99, "ok"),
    (["I{x:a", "||a", "", "", "}"], 100, "TooDeep 1:305"),
    (["I{x:a", "<a", "", "", "}"], 99, "ok"),
    (["I{x:a", "<a", "", "", "}"], 100, "TooDeep 1:205"),
    (["I{x:a", "==a", "", "", "}"], 99, "ok"),
    (["I{x:a", "==a", "", "", "}"], 100, "TooDeep 1:305"),
    (["I{x:a", "*a", "", "", "}"], 99, "ok"),
    (["I{x:a", "*a", "", "", "}"], 100, "TooDeep 1:205"),
    (["I{x:a", ".b", "", "", "}"], 199, "ok"),
    (["I{x:a", ".b", "", "", "}"], 200, "TooDeep 1:404"),
    (["I{x:a", "()", "", "", "}"], 199, "ok"),
    (["I{x:a", "()", "", "", "}"], 200, "TooDeep 1:404"),
    (["I{x:f(a", ",a", "", "", ")}"], 197, "ok"),
    (["I{x:f(a", ",a", "", "", ")}"], 198, "TooDeep 1:403"),
    (["I{onA:a", ".b", "", "", "=1}"], 199, "ok"),
    (["I{onA:a", ".b", "", "", "=1}"], 200, "TooDeep 1:406"),
    // An operator and a conditional are nodes at their own tokens; a parenthesis and a `:` are none.
    (["I{x:a", "+a", "+-a", "", "}"], 99, "TooDeep 1:205"),
    (["I{x:a", "+a", "+a", "", "}"], 99, "TooDeep 1:205"),
    (["I{x:a", "+a", "+1", "", "}"], 99, "TooDeep 1:205"),
    (["I{x:a", "+a", "+'a'", "", "}"], 99, "TooDeep 1:205"),
    (["I{x:a", "+a", "+null", "", "}"], 99, "TooDeep 1:205"),
    (["I{x:a", "+a", "+true", "", "}"], 99, "TooDeep 1:205"),
    (["I{x:a", "+a", "+false", "", "}"], 99, "TooDeep 1:205"),
    (["I{x:a", "+a", "+undefined", "", "}"], 99, "TooDeep 1:205"),
    (["I{x:a", "+a", "+!a", "", "}"], 99, "TooDeep 1:205"),
    (["I{x:a", "+a", "+ +a", "", "}"], 99, "TooDeep 1:206"),
    (["I{x:a", "+a", "+(a)", "", "}"], 99, "TooDeep 1:206"),
    (["I{x:a.b", "+a", "+a", "", "}"], 99, "TooDeep 1:206"),
    (["I{x:a.b", "+a", "-a", "", "}"], 99, "TooDeep 1:206"),
    (["I{x:a.b", "+a", "*a", "", "}"], 99, "TooDeep 1:206"),
    (["I{x:a.b", "+a", "/a", "", "}"], 99, "TooDeep 1:206"),
    (["I{x:a.b", "+a", "%a", "", "}"], 99, "TooDeep 1:206"),
    (["I{x:a.b", "+a", "<a", "", "}"], 99, "TooDeep 1:206"),
    (["I{x:a.b", "+a", "<=a", "", "}"], 99, "TooDeep 1:206"),
    (["I{x:a.b", "+a", ">a", "", "}"], 99, "TooDeep 1:206"),
    (["I{x:a.b", "+a", ">=a", "", "}"], 99, "TooDeep 1:206"),
    (["I{x:a.b", "+a", "==a", "", "}"], 99, "TooDeep 1:206"),
    (["I{x:a.b", "+a", "!=a", "", "}"], 99, "TooDeep 1:206"),
    (["I{x:a.b", "+a", "===a", "", "}"], 99, "TooDeep 1:206"),
    (["I{x:a.b", "+a", "!==a", "", "}"], 99, "TooDeep 1:206"),
    (["I{x:a.b", "+a", "&&a", "", "}"], 99, "TooDeep 1:206"),
    (["I{x:a.b", "+a", "||a", "", "}"], 99, "TooDeep 1:206"),
    (["I{x:a.b", "+a", ".b", "", "}"], 99, "TooDeep 1:206"),
    (["I{x:a.b", "+a", "()", "", "}"], 99, "TooDeep 1:206"),
    (["I{x:a.b", "+a", "?b:c", "", "}"], 99, "TooDeep 1:206"),
    (["I{x:a", "+a", "?b:c", "", "}"], 99, "TooDeep 1:205"),
    (["I{x:a", "+a", "?b:c", "", "}"], 98, "ok"),
    (["I{x:a.b", "+a", "?b:c", "", "}"], 98, "TooDeep 1:207"),
    (["I{x:(((a)))", "+a", "", "", "}"], 99, "ok"),
    (["I{x:a.b", "+a", "", "", "}"], 99, "ok"),
    // A target, a condition, a part and a value are expressions of their own.
    (["I{onA:a", ".b", "=c", ".d", "}"], 199, "ok"),
    (["I{onA:if(a", ".b", ")c", ".d", "}"], 199, "ok"),
    (["I{onA:while(a", ".b", ")c", ".d", "}"], 199, "ok"),
    (["I{onA:for(;a", ".b", ";)c", ".d", "}"], 199, "ok"),
    (["I{onA:for(a", ".b", "=1;;)c", ".d", "}"], 199, "ok"),
    (["I{onA:for(;;a", ".b", "++)c", ".d", "}"], 199, "ok"),
    (["I{x:a", ".b", ";y:c", ".d", "}"], 199, "ok"),
    (["I{onA:{let c=a", ".b", ";return a", ".b", "}}"], 199, "ok"),
    (["I{onA:let c=a", ".b", "", "", "}"], 200, "TooDeep 1:412"),
    (["I{onA:return a", ".b", "", "", "}"], 200, "TooDeep 1:413"),
    (["I{onA:if(a", ".b", ")c", "", "}"], 200, "TooDeep 1:409"),
    (["I{onA:while(a", ".b", ")c", "", "}"], 200, "TooDeep 1:412"),
    (
        ["I{onA:for(a", ".b", "=1;;)c", "", "}"],
        200,
        "TooDeep 1:410",
    ),
    (["I{onA:for(;a", ".b", ";)c", "", "}"], 200, "TooDeep 1:411"),
    (
        ["I{onA:for(;;a", ".b", "++)c", "", "}"],
        200,
        "TooDeep 1:412",
    ),
    // A token that cannot stand there is no node.
    (["I{x:a", "+a", "+[", "", "}"], 99, "Unsupported 1:205"),
    (["I{x:a", "+a", "+{", "", "}"], 99, "Unsupported 1:205"),
    (["I{x:a", "+a", "+this", "", "}"], 99, "Unsupported 1:205"),
    (
        ["I{x:a", "+a", "+function", "", "}"],
        99,
        "Unsupported 1:205",
    ),
    (["I{x:a", "+a", "+0.5", "", "}"], 99, "Unsupported 1:205"),
    (["I{x:a", "+a", "+)", "", "}"], 99, "Syntax 1:205"),
    (["I{x:a", ".b", "[0]", "", "}"], 199, "Unsupported 1:404"),
];

#[test]
fn nodes_that_each_form_is(rt: HostRuntime) -> Result<(), Fail> {
    assert_eq!(rt; differing(rt.alloc(), NODES)?.as_str(), "");
    Ok(())
}

const SIZES: &[([&str; 5], usize, &str)] = &[
    (["Item { id: ", "a", "", "", " }"], 65536, "ok"),
    (["Item { id: ", "a", "", "", " }"], 65537, "BadToken 1:12"),
    (["Item { x: '", "a", "'", "", " }"], 65536, "ok"),
    (["Item { x: '", "a", "'", "", " }"], 65537, "BadToken 1:11"),
    (["Item { x: '", "\\n", "'", "", " }"], 65536, "ok"),
    (
        ["Item { x: '", "\\n", "'", "", " }"],
        65537,
        "BadToken 1:11",
    ),
    (["Item { x: '", "\\u00e9", "'", "", " }"], 32768, "ok"),
    (
        ["Item { x: '", "\\u00e9", "'", "", " }"],
        32769,
        "BadToken 1:11",
    ),
    (["Item { x: '", "é", "'", "", " }"], 32768, "ok"),
    (["Item { x: '", "é", "'", "", " }"], 32769, "BadToken 1:11"),
];

#[test]
fn sizes_of_names_and_texts(rt: HostRuntime) -> Result<(), Fail> {
    assert_eq!(rt; differing(rt.alloc(), SIZES)?.as_str(), "");
    Ok(())
}
