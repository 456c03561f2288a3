//! Arithmetic of values, and their texts.

use crate::report::note;
use qml_ast::{
    Edge, EvalFault, LineRef, Text, Value, add, div, equal, mul, rem, sub, to_text, truth,
};
use std::alloc::{AllocError, Global};
use std::test::Fail;

/// A value of a table.
#[derive(Clone, Copy)]
enum Sample {
    Int(i32),
    Bool(bool),
    Str(&'static str),
    /// A text of so many letters.
    Long(usize),
    Color(u32),
    Obj(u64),
    Undefined,
    Line,
}

impl Sample {
    fn value(self, alloc: Global) -> Result<Value, Fail> {
        match self {
            Sample::Int(n) => Ok(Value::Int(n)),
            Sample::Bool(b) => Ok(Value::Bool(b)),
            Sample::Str(text) => str_value(alloc, text),
            Sample::Long(len) => long_value(alloc, len),
            Sample::Color(argb) => Ok(Value::Color(argb)),
            Sample::Obj(serial) => Ok(Value::Obj(serial)),
            Sample::Undefined => Ok(Value::Line(None)),
            Sample::Line => Ok(Value::Line(Some(LineRef {
                serial: 7,
                edge: Edge::VCenter,
            }))),
        }
    }

    fn is_number(self) -> bool {
        matches!(self, Sample::Int(_))
    }

    fn is_text(self) -> bool {
        matches!(self, Sample::Str(_))
    }
}

fn str_value(alloc: Global, text: &str) -> Result<Value, Fail> {
    if text.len() > 65536 {
        return Err(Fail::from("a long text"));
    }
    Ok(Value::Str(Text::new(alloc, text)?))
}

fn long_value(alloc: Global, len: usize) -> Result<Value, Fail> {
    let text = "x".repeat(alloc, len)?;
    if text.len() > 65536 {
        return Err(Fail::from("a long text"));
    }
    Ok(Value::Str(Text::from_string(text)))
}

/// Adds what an operation gave: the value's text or the fault's.
fn push_outcome(
    alloc: Global,
    told: &mut String,
    outcome: Result<Value, EvalFault>,
) -> Result<(), AllocError> {
    match outcome {
        Ok(value) => told.push_str(to_text(alloc, &value)?.as_str()),
        Err(fault) => told.push_str(fault.to_string(alloc)?.as_str()),
    }
}

/// The sum, the difference, the product, the quotient and the remainder.
fn told_results(alloc: Global, a: &Value, b: &Value) -> Result<String, AllocError> {
    let mut told = String::new(alloc);
    push_outcome(alloc, &mut told, add(alloc, a, b))?;
    told.push_str(", ")?;
    push_outcome(alloc, &mut told, sub(a, b))?;
    told.push_str(", ")?;
    push_outcome(alloc, &mut told, mul(a, b))?;
    told.push_str(", ")?;
    push_outcome(alloc, &mut told, div(a, b))?;
    told.push_str(", ")?;
    push_outcome(alloc, &mut told, rem(a, b))?;
    Ok(told)
}

const NUMBERS: &[(i32, i32, &str)] = &[
    (7, 2, "9, 5, 14, 3, 1"),
    (-7, 2, "-5, -9, -14, -3, -1"),
    (7, -2, "5, 9, -14, -3, 1"),
    (-7, -2, "-9, -5, 14, 3, -1"),
    (
        2147483647,
        1,
        "overflow, 2147483646, 2147483647, 2147483647, 0",
    ),
    (
        2147483647,
        -1,
        "2147483646, overflow, -2147483647, -2147483647, 0",
    ),
    (
        -2147483648,
        1,
        "-2147483647, overflow, -2147483648, -2147483648, 0",
    ),
    (
        -2147483648,
        -1,
        "overflow, -2147483647, overflow, overflow, 0",
    ),
    (
        -2147483648,
        0,
        "-2147483648, -2147483648, 0, zero divisor, zero divisor",
    ),
    (0, -2147483648, "-2147483648, overflow, 0, 0, 0"),
    (65536, 32768, "98304, 32768, overflow, 2, 0"),
    (-65536, 32768, "-32768, -98304, -2147483648, -2, 0"),
];

fn differing_numbers(alloc: Global) -> Result<String, Fail> {
    let mut report = String::new(alloc);
    for (x, y, wanted) in NUMBERS {
        let of = format!(in alloc; "{x} and {y}")?;
        let found = told_results(alloc, &Value::Int(*x), &Value::Int(*y))?;
        note(&mut report, of.as_str(), found.as_str(), wanted)?;
    }
    Ok(report)
}

#[test]
fn numbers(rt: HostRuntime) -> Result<(), Fail> {
    assert_eq!(rt; differing_numbers(rt.alloc())?.as_str(), "");
    Ok(())
}

/// A value of each kind, whether it holds as a condition, and its text.
const KINDS: &[(Sample, bool, &str)] = &[
    (Sample::Int(0), false, "0"),
    (Sample::Int(-1), true, "-1"),
    (Sample::Int(-2147483648), true, "-2147483648"),
    (Sample::Bool(false), false, "false"),
    (Sample::Bool(true), true, "true"),
    (Sample::Str(""), false, ""),
    (Sample::Str("a"), true, "a"),
    (Sample::Color(0xff01abef), true, "#01abef"),
    (Sample::Color(0xfe0a0b0c), true, "#fe0a0b0c"),
    (Sample::Color(0), true, "#00000000"),
    (Sample::Obj(0), false, "null"),
    (Sample::Obj(3), true, "object"),
    (Sample::Undefined, false, "undefined"),
    (Sample::Line, true, "line"),
];

fn differing_kinds(alloc: Global) -> Result<String, Fail> {
    let mut report = String::new(alloc);
    for (sample, holds, text) in KINDS {
        let value = sample.value(alloc)?;
        note(&mut report, text, to_text(alloc, &value)?.as_str(), text)?;
        if truth(&value) != *holds {
            note(&mut report, text, "the other truth", "this one")?;
        }
    }
    Ok(report)
}

#[test]
fn texts_and_truths(rt: HostRuntime) -> Result<(), Fail> {
    assert_eq!(rt; differing_kinds(rt.alloc())?.as_str(), "");
    Ok(())
}

/// What the operations give for two values that are not both numbers.
fn wanted_results(
    alloc: Global,
    (a, _, text): (Sample, bool, &str),
    (b, _, other): (Sample, bool, &str),
) -> Result<String, AllocError> {
    if a.is_text() || b.is_text() {
        return format!(in alloc; "{text}{other}, wrong kind, wrong kind, wrong kind, wrong kind");
    }
    String::from_str(
        alloc,
        "wrong kind, wrong kind, wrong kind, wrong kind, wrong kind",
    )
}

fn note_results(
    alloc: Global,
    report: &mut String,
    row: (Sample, bool, &str),
    other: (Sample, bool, &str),
) -> Result<(), Fail> {
    if row.0.is_number() && other.0.is_number() {
        return Ok(());
    }
    let a = row.0.value(alloc)?;
    let b = other.0.value(alloc)?;
    let found = told_results(alloc, &a, &b)?;
    let wanted = wanted_results(alloc, row, other)?;
    note(report, row.2, found.as_str(), wanted.as_str())?;
    Ok(())
}

/// Whether a copy of one equals the other.
fn is_equal(alloc: Global, a: Sample, b: Sample) -> Result<bool, Fail> {
    let a = a.value(alloc)?;
    let b = b.value(alloc)?;
    Ok(equal(&a.copy(alloc)?, &b))
}

fn note_pairs(
    alloc: Global,
    report: &mut String,
    i: usize,
    row: (Sample, bool, &str),
) -> Result<(), Fail> {
    for (j, other) in KINDS.iter().enumerate() {
        note_results(alloc, report, row, *other)?;
        if is_equal(alloc, row.0, other.0)? != (i == j) {
            note(report, row.2, "the other equality", "this one")?;
        }
    }
    Ok(())
}

fn differing_pairs(alloc: Global) -> Result<String, Fail> {
    let mut report = String::new(alloc);
    for (i, row) in KINDS.iter().enumerate() {
        note_pairs(alloc, &mut report, i, *row)?;
    }
    Ok(report)
}

#[test]
fn pairs_of_kinds(rt: HostRuntime) -> Result<(), Fail> {
    assert_eq!(rt; differing_pairs(rt.alloc())?.as_str(), "");
    Ok(())
}

/// Two values and how long the text of their sum is.
const LENGTHS: &[(Sample, Sample, &str)] = &[
    (Sample::Long(65536), Sample::Str(""), "65536"),
    (Sample::Long(65536), Sample::Int(1), "text too long"),
    (Sample::Int(1), Sample::Long(65536), "text too long"),
    (Sample::Long(65535), Sample::Int(1), "65536"),
    (Sample::Long(65535), Sample::Int(-1), "text too long"),
    (Sample::Long(65536), Sample::Long(65536), "text too long"),
    (Sample::Str("a"), Sample::Bool(true), "5"),
];

fn told_length(alloc: Global, a: &Value, b: &Value) -> Result<String, AllocError> {
    match add(alloc, a, b) {
        Ok(Value::Str(text)) => text.as_bytes().len().to_string(alloc),
        Ok(_) => String::from_str(alloc, "no text"),
        Err(fault) => fault.to_string(alloc),
    }
}

fn differing_lengths(alloc: Global) -> Result<String, Fail> {
    let mut report = String::new(alloc);
    for (a, b, wanted) in LENGTHS {
        let a = a.value(alloc)?;
        let b = b.value(alloc)?;
        note(
            &mut report,
            "a sum",
            told_length(alloc, &a, &b)?.as_str(),
            wanted,
        )?;
    }
    Ok(report)
}

#[test]
fn lengths_of_texts(rt: HostRuntime) -> Result<(), Fail> {
    assert_eq!(rt; differing_lengths(rt.alloc())?.as_str(), "");
    Ok(())
}
