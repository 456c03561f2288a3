//! Statements that tokens begin with, and what is left of the tokens.

use crate::report::{note, told_fault};
use crate::shown::{show_block, show_stmt};
use crate::tokens::numbered;
use qml_ast::{DocFault, Span, Stmt};
use qml_expr::{Cursor, Token};
use qml_stmt::{block, end, statement};
use std::alloc::{AllocError, Global};
use std::test::Fail;

fn push_left(alloc: Global, told: &mut String, left: usize) -> Result<(), AllocError> {
    told.push_str(" ")?;
    told.push_str(left.to_string(alloc)?.as_str())?;
    told.push_str(" left")
}

/// A statement and how many tokens are left behind it.
fn told(alloc: Global, stmt: &Stmt, left: usize) -> Result<String, AllocError> {
    let mut told = String::new(alloc);
    show_stmt(alloc, &mut told, stmt)?;
    push_left(alloc, &mut told, left)?;
    Ok(told)
}

/// What `statement` gives for tokens.
fn read(alloc: Global, levels: usize, tokens: &[Token], end: Span) -> Result<String, DocFault> {
    let mut cursor = Cursor {
        rest: tokens,
        end,
        nodes: 0,
    };
    let stmt = statement(alloc, levels, &mut cursor)?;
    Ok(told(alloc, stmt.get(), cursor.left())?)
}

/// What `statement` gives for a text, in which each token stands in the column of its number.
fn answer(alloc: Global, levels: usize, text: &str) -> Result<String, Fail> {
    let (tokens, end) = numbered(alloc, text)?;
    match read(alloc, levels, tokens.as_slice(), end) {
        Ok(told) => Ok(told),
        Err(fault) => Ok(told_fault(alloc, fault)?),
    }
}

fn differing(alloc: Global, rows: &[(&str, &str)]) -> Result<String, Fail> {
    let mut report = String::new(alloc);
    for (text, wanted) in rows {
        note(&mut report, text, answer(alloc, 64, text)?.as_str(), wanted)?;
    }
    Ok(report)
}

const STATEMENTS: &[(&str, &str)] = &[
    ("var a ;", "var a = -; 0 left"),
    ("let b = 1 + c ;", "let b = (1 + c); 0 left"),
    ("const if = 1 }", "const if = 1; 1 left"),
    ("a = b ;", "a = b; 0 left"),
    ("a . b += 1", "a.b += 1; 0 left"),
    ("a -= 1\nb *= 1", "a -= 1; 3 left"),
    ("a *= 1 ; ;", "a *= 1; 1 left"),
    ("id /= 1", "id /= 1; 0 left"),
    ("a ++ ;", "a++; 0 left"),
    ("a . if -- }", "a.if--; 1 left"),
    // a step stands on the line of its target, and an assignment anywhere
    ("a\n++", "a; 1 left"),
    ("a\n= 1", "a = 1; 0 left"),
    ("a\n( )\n. b", "a[ ].b; 0 left"),
    ("- a ;", "(- a); 0 left"),
    ("a\nb", "a; 1 left"),
    ("{ }", "{ } 0 left"),
    ("{ a ; ; b\nc } d", "{ a; ; b; c; } 1 left"),
    ("; ;", "; 1 left"),
    ("if ( a ) b ; c", "if a [b;] [-] 1 left"),
    ("if ( a ) b ; else c", "if a [b;] [c;] 0 left"),
    ("if ( a ) { } else ; d", "if a [{ }] [;] 1 left"),
    (
        "if ( a ) if ( b ) c ; else d",
        "if a [if b [c;] [d;]] [-] 0 left",
    ),
    (
        "if ( a ) while ( b ) if ( c ) d\nelse ; else ;",
        "if a [while b [if c [d;] [;]]] [;] 0 left",
    ),
    ("while ( a < b ) a ++", "while (a < b) [a++;] 0 left"),
    ("for ( ; ; ) ;", "for [-] - [-] [;] 0 left"),
    (
        "for ( var a = 1 ; a < b ; a ++ ) { }",
        "for [var a = 1;] (a < b) [a++;] [{ }] 0 left",
    ),
    (
        "for ( a . b = 1 ; ; c -= 1 ) d",
        "for [a.b = 1;] - [c -= 1;] [d;] 0 left",
    ),
    ("return", "return -; 0 left"),
    ("return ;", "return -; 0 left"),
    ("return }", "return -; 1 left"),
    ("return a + 1 ;", "return (a + 1); 0 left"),
    // an expression behind `return` begins on its line
    ("return\na", "return -; 1 left"),
];

#[test]
fn statements(rt: HostRuntime) -> Result<(), Fail> {
    assert_eq!(rt; differing(rt.alloc(), STATEMENTS)?.as_str(), "");
    Ok(())
}

const FAULTS: &[(&str, &str)] = &[
    ("", "Syntax 1:1"),
    ("a b", "Syntax 1:2"),
    ("a [ 1", "Unsupported 1:2"),
    ("a 1.5", "Unsupported 1:2"),
    ("[ 1", "Unsupported 1:1"),
    ("switch", "Unsupported 1:1"),
    ("else", "Syntax 1:1"),
    (")", "Syntax 1:1"),
    // only names and members are changed
    ("( a ) = 1", "Syntax 1:4"),
    ("a ( ) = 1", "Syntax 1:4"),
    ("a ( ) ++", "Syntax 1:4"),
    ("1 = a", "Syntax 1:2"),
    ("a = b = c", "Syntax 1:4"),
    ("a ++ ++", "Syntax 1:3"),
    ("a = ;", "Syntax 1:3"),
    ("var 1", "Syntax 1:2"),
    ("var a b", "Syntax 1:3"),
    ("let a = }", "Syntax 1:4"),
    ("return a b", "Syntax 1:3"),
    ("return else", "Syntax 1:2"),
    ("{ a", "Syntax 1:3"),
    ("{ else }", "Syntax 1:2"),
    ("{ function }", "Unsupported 1:2"),
    ("if a", "Syntax 1:2"),
    ("if ( a ; )", "Syntax 1:4"),
    ("if ( a ) else", "Syntax 1:5"),
    ("if ( a ) switch", "Unsupported 1:5"),
    ("if ( a ) }", "Syntax 1:5"),
    ("if ( a ) b else c", "Syntax 1:6"),
    ("while ( )", "Syntax 1:3"),
    ("for ( a ) b", "Syntax 1:4"),
    ("for ( a\n++ ; ; ) b", "Syntax 2:4"),
    ("for ( let a = 1 ; ; ) b", "Syntax 1:3"),
    ("for ( var a ; ; ) b", "Syntax 1:5"),
    ("for ( [ ] ; ; ) b", "Unsupported 1:3"),
    ("for ( switch ; ; ) b", "Unsupported 1:3"),
    ("for ( ; a )", "Syntax 1:5"),
    ("for ( ; ; ; ) b", "Syntax 1:5"),
    ("for ( ; ; )", "Syntax 1:6"),
];

#[test]
fn faults(rt: HostRuntime) -> Result<(), Fail> {
    assert_eq!(rt; differing(rt.alloc(), FAULTS)?.as_str(), "");
    Ok(())
}

const LEVELS: &[(usize, &str, &str)] = &[
    (0, "a", "a; 0 left"),
    (0, "if ( a ) b", "TooDeep 1:5"),
    (0, "if ( a ) else", "Syntax 1:5"),
    (0, "{ }", "TooDeep 1:1"),
    (0, "a = ( 1 )", "TooDeep 1:3"),
    (1, "{ a ; b }", "{ a; b; } 0 left"),
    (1, "{ { } }", "TooDeep 1:2"),
    (1, "if ( a ) { }", "TooDeep 1:5"),
    (1, "if ( a ) b ; else if ( c ) d", "TooDeep 1:12"),
    (
        2,
        "if ( a ) b ; else if ( c ) d",
        "if a [b;] [if c [d;] [-]] 0 left",
    ),
    (1, "while ( a ) for ( ; ; ) b", "TooDeep 1:10"),
    // the parentheses of a condition are no level
    (1, "if ( a ( ) ) b", "if a[ ] [b;] [-] 0 left"),
    (1, "if ( a ( ) ) b ( )", "TooDeep 1:8"),
    (1, "while ( a ) b ( )", "TooDeep 1:6"),
];

fn differing_levels(alloc: Global) -> Result<String, Fail> {
    let mut report = String::new(alloc);
    for (levels, text, wanted) in LEVELS {
        note(
            &mut report,
            text,
            answer(alloc, *levels, text)?.as_str(),
            wanted,
        )?;
    }
    Ok(report)
}

#[test]
fn levels(rt: HostRuntime) -> Result<(), Fail> {
    assert_eq!(rt; differing_levels(rt.alloc())?.as_str(), "");
    Ok(())
}

fn told_block(
    alloc: Global,
    stmts: &[Stmt],
    left: usize,
    nodes: u32,
) -> Result<String, AllocError> {
    let mut told = String::new(alloc);
    show_block(alloc, &mut told, stmts)?;
    push_left(alloc, &mut told, left)?;
    told.push_str(", ")?;
    told.push_str(nodes.to_string(alloc)?.as_str())?;
    told.push_str(" nodes")?;
    Ok(told)
}

/// What `block` gives for tokens.
fn read_block(
    alloc: Global,
    levels: usize,
    tokens: &[Token],
    end: Span,
) -> Result<String, DocFault> {
    let mut cursor = Cursor {
        rest: tokens,
        end,
        nodes: 7,
    };
    let stmts = block(alloc, levels, &mut cursor)?;
    Ok(told_block(alloc, stmts.as_slice(), cursor.left(), cursor.nodes)?)
}

fn block_answer(alloc: Global, levels: usize, text: &str) -> Result<String, Fail> {
    let (tokens, end) = numbered(alloc, text)?;
    match read_block(alloc, levels, tokens.as_slice(), end) {
        Ok(told) => Ok(told),
        Err(fault) => Ok(told_fault(alloc, fault)?),
    }
}

const BLOCKS: &[(usize, &str, &str)] = &[
    (0, "{ }", "TooDeep 1:1"),
    (1, "{ } a", "{ } 1 left, 7 nodes"),
    (
        1,
        "{ a ++ ; return } }",
        "{ a++; return -; } 1 left, 7 nodes",
    ),
    (1, "{ a b }", "Syntax 1:3"),
    (1, "{", "Syntax 1:2"),
];

fn differing_blocks(alloc: Global) -> Result<String, Fail> {
    let mut report = String::new(alloc);
    for (levels, text, wanted) in BLOCKS {
        let found = block_answer(alloc, *levels, text)?;
        note(&mut report, text, found.as_str(), wanted)?;
    }
    Ok(report)
}

#[test]
fn blocks(rt: HostRuntime) -> Result<(), Fail> {
    assert_eq!(rt; differing_blocks(rt.alloc())?.as_str(), "");
    Ok(())
}

/// How many tokens `end` leaves where so many were read.
fn read_end(alloc: Global, tokens: &[Token], place: Span, read: usize) -> Result<String, DocFault> {
    let mut cursor = Cursor {
        rest: tokens,
        end: place,
        nodes: 0,
    };
    for _ in 0..read {
        cursor.skip();
    }
    end(tokens, &mut cursor)?;
    Ok(cursor.left().to_string(alloc)?)
}

fn end_answer(alloc: Global, text: &str, read: usize) -> Result<String, Fail> {
    let (tokens, place) = numbered(alloc, text)?;
    match read_end(alloc, tokens.as_slice(), place, read) {
        Ok(told) => Ok(told),
        Err(fault) => Ok(told_fault(alloc, fault)?),
    }
}

const ENDS: &[(&str, usize, &str)] = &[
    ("a ; ;", 1, "1"),
    ("a\n; b", 1, "1"),
    ("a", 1, "0"),
    ("a }", 1, "1"),
    ("a\nb", 1, "1"),
    ("a b", 1, "Syntax 1:2"),
    ("a [", 1, "Unsupported 1:2"),
    ("{ } a", 2, "1"),
    ("; a", 1, "1"),
    ("a ;\nb c", 4, "0"),
    ("a\nb c", 2, "Syntax 2:3"),
];

fn differing_ends(alloc: Global) -> Result<String, Fail> {
    let mut report = String::new(alloc);
    for (text, read, wanted) in ENDS {
        note(
            &mut report,
            text,
            end_answer(alloc, text, *read)?.as_str(),
            wanted,
        )?;
    }
    Ok(report)
}

#[test]
fn ends(rt: HostRuntime) -> Result<(), Fail> {
    assert_eq!(rt; differing_ends(rt.alloc())?.as_str(), "");
    Ok(())
}
