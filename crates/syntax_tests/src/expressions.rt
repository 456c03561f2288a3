//! Expressions that tokens begin with, and what is left of the tokens.

use crate::report::{note, told_fault};
use crate::shown::show_expr;
use crate::tokens::numbered;
use qml_ast::{DocFault, Expr, Span};
use qml_expr::{Cursor, Token, whole_expression};
use std::alloc::{AllocError, Global};
use std::test::Fail;

/// An expression and how many tokens are left behind it.
fn told(alloc: Global, expr: &Expr, left: usize) -> Result<String, AllocError> {
    let mut told = String::new(alloc);
    show_expr(alloc, &mut told, expr)?;
    told.push_str(", ")?;
    told.push_str(left.to_string(alloc)?.as_str())?;
    told.push_str(" left")?;
    Ok(told)
}

/// What `whole_expression` gives for tokens.
fn read(alloc: Global, tokens: &[Token], end: Span) -> Result<String, DocFault> {
    let mut cursor = Cursor {
        rest: tokens,
        end,
        nodes: 0,
    };
    let expr = whole_expression(alloc, 64, &mut cursor)?;
    Ok(told(alloc, expr.get(), cursor.left())?)
}

/// What `whole_expression` gives for a text, in which each token stands in the column of its number.
fn answer(alloc: Global, text: &str) -> Result<String, Fail> {
    let (tokens, end) = numbered(alloc, text)?;
    match read(alloc, tokens.as_slice(), end) {
        Ok(told) => Ok(told),
        Err(fault) => Ok(told_fault(alloc, fault)?),
    }
}

fn differing(alloc: Global, rows: &[(&str, &str)]) -> Result<String, Fail> {
    let mut report = String::new(alloc);
    for (text, wanted) in rows {
        note(&mut report, text, answer(alloc, text)?.as_str(), wanted)?;
    }
    Ok(report)
}

const EXPRESSIONS: &[(&str, &str)] = &[
    ("1 + 2 * a", "(1 + (2 * a)), 0 left"),
    ("1 * 2 + a", "((1 * 2) + a), 0 left"),
    ("a - b - c", "((a - b) - c), 0 left"),
    ("a / b % c", "((a / b) % c), 0 left"),
    ("a < b + 1", "(a < (b + 1)), 0 left"),
    ("a <= b >= c", "((a <= b) >= c), 0 left"),
    ("a < b == c > d", "((a < b) == (c > d)), 0 left"),
    ("a === b !== c", "((a === b) !== c), 0 left"),
    ("a == b && c != d", "((a == b) && (c != d)), 0 left"),
    ("a && b || c && d", "((a && b) || (c && d)), 0 left"),
    ("a || b && c || d", "((a || (b && c)) || d), 0 left"),
    ("a && b && c", "((a && b) && c), 0 left"),
    (
        "a || b ? c : d ? e : 1",
        "((a || b) ? c : (d ? e : 1)), 0 left",
    ),
    ("a ? b ? c : d : e", "(a ? (b ? c : d) : e), 0 left"),
    ("- - a . b", "(- (- a.b)), 0 left"),
    ("! a == b", "((! a) == b), 0 left"),
    ("+ a * b", "((+ a) * b), 0 left"),
    ("( 1 + 2 ) * a", "((1 + 2) * a), 0 left"),
    ("a . b ( ) ( 1 , c ) . d", "a.b[ ][ 1 c ].d, 0 left"),
    ("a ( b + 1 , c ( d ) )", "a[ (b + 1) c[ d ] ], 0 left"),
    ("a . true . if", "a.true.if, 0 left"),
    ("id + on", "(id + on), 0 left"),
    ("true == null", "(true == null), 0 left"),
    ("'a' + undefined", "(a + undefined), 0 left"),
    // the longest expression ends before what cannot go on
    ("a in b", "a, 2 left"),
    ("a + 1 ; b", "(a + 1), 2 left"),
    ("a [ 1", "a, 2 left"),
    ("a ! b", "a, 2 left"),
];

#[test]
fn expressions(rt: HostRuntime) -> Result<(), Fail> {
    assert_eq!(rt; differing(rt.alloc(), EXPRESSIONS)?.as_str(), "");
    Ok(())
}

const FAULTS: &[(&str, &str)] = &[
    ("", "Syntax 1:1"),
    ("1 +", "Syntax 1:3"),
    ("( 1", "Syntax 1:3"),
    ("( )", "Syntax 1:2"),
    ("a ( b , )", "Syntax 1:5"),
    ("a ( , b )", "Syntax 1:3"),
    ("a ( b c )", "Syntax 1:4"),
    ("a * / b", "Syntax 1:3"),
    ("a ? b", "Syntax 1:4"),
    ("a ? b ; c", "Syntax 1:4"),
    ("a ? : b", "Syntax 1:3"),
    ("a . 1", "Syntax 1:3"),
    ("if", "Syntax 1:1"),
    ("1 + var", "Syntax 1:3"),
    ("( 1 {", "Syntax 1:3"),
    ("1 + this", "Unsupported 1:3"),
    ("1 + {", "Unsupported 1:3"),
    ("1 + [", "Unsupported 1:3"),
    ("1.5", "Unsupported 1:1"),
    ("( 1 [", "Unsupported 1:3"),
    ("a . 1.5", "Unsupported 1:3"),
];

#[test]
fn faults(rt: HostRuntime) -> Result<(), Fail> {
    assert_eq!(rt; differing(rt.alloc(), FAULTS)?.as_str(), "");
    Ok(())
}

fn push_times(text: &mut String, part: &str, times: usize) -> Result<(), AllocError> {
    for _ in 0..times {
        text.push_str(part)?;
        text.push_str(" ")?;
    }
    Ok(())
}

/// What `whole_expression` gives where the text `begin` stands so often, then `middle`, then `end` so
/// often; only whether it is read, if it is.
fn nested(
    alloc: Global,
    begin: &str,
    times: usize,
    middle: &str,
    end: &str,
) -> Result<String, Fail> {
    let mut text = String::new(alloc);
    push_times(&mut text, begin, times)?;
    push_times(&mut text, middle, 1)?;
    push_times(&mut text, end, times)?;
    let answer = answer(alloc, text.as_str())?;
    if answer.as_str().starts_with("TooDeep") {
        return Ok(answer);
    }
    Ok(String::from_str(alloc, "read")?)
}

const LIMITS: &[(&str, usize, &str, &str, &str)] = &[
    ("(", 64, "1", ")", "read"),
    ("(", 65, "1", ")", "TooDeep 1:65"),
    ("-", 64, "1", "", "read"),
    ("-", 65, "1", "", "TooDeep 1:65"),
    ("a (", 64, "1", ")", "read"),
    ("a (", 65, "1", ")", "TooDeep 1:130"),
    ("a ?", 64, "1", ": 1", "read"),
    ("a ?", 65, "1", ": 1", "TooDeep 1:130"),
    // each operator and each operand is a node
    ("", 99, "- 1", "+ 1", "read"),
    ("", 99, "- - 1", "+ 1", "TooDeep 1:201"),
    ("", 199, "a", ". a", "read"),
    ("", 200, "a", ". a", "TooDeep 1:400"),
];

fn differing_limits(alloc: Global) -> Result<String, Fail> {
    let mut report = String::new(alloc);
    for (begin, times, middle, end, wanted) in LIMITS {
        let found = nested(alloc, begin, *times, middle, end)?;
        note(&mut report, begin, found.as_str(), wanted)?;
    }
    Ok(report)
}

#[test]
fn limits(rt: HostRuntime) -> Result<(), Fail> {
    assert_eq!(rt; differing_limits(rt.alloc())?.as_str(), "");
    Ok(())
}
