use crate::fake::{Fake, Returned};
use expr_eval::{Aim, Called, Eval, Frame, Local, Locals, Trace, aim, call, eval};
use qml_ast::{
    BinOp, Document, Edge, EvalFault, Expr, Init, LineRef, Member, Name, Text, UnOp, Value,
};
use qml_parse::parse;
use shared_value::Shared;
use sqlite_items::{Boxed, Items};
use std::alloc::Global;
use std::fmt::Write;
use std::test::Fail;

const FRAME: Frame = Frame {
    context: 1,
    scope: 5,
};

/// What an expression gives, and behind a `:` the slots that it reads.
const ROWS: &[(&str, &str)] = &[
    ("7", "7"),
    ("'a'", "'a'"),
    ("true", "true"),
    ("null", "null"),
    ("undefined", "undefined"),
    ("n", "7 [0]"),
    ("3 + 4", "7"),
    ("3 - 4", "-1"),
    ("3 * 4", "12"),
    ("-7 / 2", "-3"),
    ("-7 % 2", "-1"),
    ("2147483647 + 1", "overflow"),
    ("-2147483647 - 2", "overflow"),
    ("65536 * 65536", "overflow"),
    ("1 / 0", "zero divisor"),
    ("1 % 0", "zero divisor"),
    ("(-2147483647 - 1) / -1", "overflow"),
    ("(-2147483647 - 1) % -1", "0"),
    ("-(-2147483647 - 1)", "overflow"),
    ("-n", "-7 [0]"),
    ("+n", "7 [0]"),
    ("1 < 2", "true"),
    ("2 <= 2", "true"),
    ("1 > 2", "false"),
    ("1 >= 2", "false"),
    ("'a' + 1 + true", "'a1true'"),
    ("1 + 2 + 'a'", "'3a'"),
    ("col + ''", "'#112233' [3]"),
    ("'' + o", "'object' [4]"),
    ("'' + nul", "'null' [5]"),
    ("'' + line", "'line' [6]"),
    ("undefined + ''", "'undefined'"),
    ("true + 1", "wrong kind"),
    ("null + o", "wrong kind [4]"),
    ("'a' - 1", "wrong kind"),
    ("'a' * 1", "wrong kind"),
    ("'a' / 0", "wrong kind"),
    ("'a' % 0", "wrong kind"),
    ("'a' < 'b'", "wrong kind"),
    ("true >= 1", "wrong kind"),
    ("-'a'", "wrong kind"),
    ("+true", "wrong kind"),
    ("1 == '1'", "false"),
    ("'a' === 'a'", "true"),
    ("null == undefined", "false"),
    ("1 != 1", "false"),
    ("o !== nul", "true [4] [5]"),
    ("o == other", "true [4]"),
    ("!0", "true"),
    ("!'a'", "false"),
    ("!''", "true"),
    ("!null", "true"),
    ("!undefined", "true"),
    ("!col", "false [3]"),
    ("!line", "false [6]"),
    ("0 && nope", "0"),
    ("1 && s", "'ab' [1]"),
    ("1 || nope", "1"),
    ("'' || n", "7 [0]"),
    ("n && s", "'ab' [0] [1]"),
    ("b ? n : nope", "7 [2] [0]"),
    ("nul ? nope : s", "'ab' [5] [1]"),
    ("nope || 1", "unknown name"),
    ("1 && Math", "wrong kind"),
    ("(b ? twice : 1)(1)", "wrong kind [2]"),
    ("Math.min(4, 3)", "3"),
    ("Math.max(-4, 5)", "5"),
    ("Math.abs(-6)", "6"),
    ("Math.abs(6)", "6"),
    ("Math.floor(7) + Math.ceil(1) + Math.round(-1)", "7"),
    ("Math.abs(-2147483647 - 1)", "overflow"),
    ("Math.max('1', 2)", "wrong kind"),
    ("Math.abs(null)", "wrong kind"),
    ("Math.min(1)", "wrong kind"),
    ("Math.abs(1, 2)", "wrong kind"),
    ("Math.floor()", "wrong kind"),
    ("Math.round(true)", "wrong kind"),
    ("Math.sqrt(4)", "unknown name"),
    ("Math", "wrong kind"),
    ("Math.min", "wrong kind"),
    ("Qt.LeftToRight", "0"),
    ("Qt.RightToLeft", "1"),
    ("Qt.Foo", "unknown name"),
    ("Loader.Null", "0"),
    (
        "Loader.Ready + Loader.Loading * 10 + Loader.Error * 100",
        "321",
    ),
    ("Loader.nope", "unknown name"),
    ("console.log(1)", "wrong kind"),
    ("console.nope", "unknown name"),
    ("console", "wrong kind"),
    ("nope", "unknown name"),
    ("nul.x", "member of null [5]"),
    ("null.x", "member of null"),
    ("o.n", "7 [4] [0]"),
    ("other.n", "7 [0]"),
    ("o.o.n", "7 [4] [0]"),
    ("o.nope", "unknown name [4]"),
    ("anchors.fill", "object [4]"),
    ("anchors.nope", "unknown name"),
    ("anchors", "wrong kind"),
    ("n.x", "wrong kind [0]"),
    ("s.length", "wrong kind [1]"),
    ("line.x", "wrong kind [6]"),
    ("twice.x", "wrong kind"),
    ("finished.x", "wrong kind"),
    ("Math.min.x", "wrong kind"),
    ("undefined.x", "wrong kind"),
    ("twice(4)", "8"),
    ("twice()", "wrong kind"),
    ("twice(1, 2)", "wrong kind"),
    ("twice('a')", "wrong kind"),
    ("start()", "wrong kind"),
    ("finished()", "wrong kind"),
    ("n(1)", "wrong kind"),
    ("nope(1)", "unknown name"),
    ("1(2)", "wrong kind"),
    ("twice", "wrong kind"),
    ("finished", "wrong kind"),
    ("twice(nope)", "unknown name"),
    ("twice(nope, 1)", "wrong kind"),
    ("start(nope)", "wrong kind"),
    ("n(nope)", "wrong kind"),
    ("console.log(nope)", "wrong kind"),
    ("Math.min(nope)", "wrong kind"),
    ("nul.x(1 / 0)", "member of null [5]"),
    ("Math.min('a', 1 / 0)", "zero divisor"),
    ("twice(n) + n", "21 [0]"),
    ("down(63)", "5"),
    ("down(64)", "too much"),
    ("down(63) + down(63)", "10"),
    ("down(down(63) + 58)", "5"),
    ("down(64) + nope", "too much"),
    ("v", "9"),
    ("mouse.x * 10 + mouse.y", "34"),
    ("mouse", "wrong kind"),
    ("mouse.z", "unknown name"),
    ("mouse.x.z", "wrong kind"),
    ("mouse()", "wrong kind"),
    ("free(1)", "unknown name"),
    ("big + 1", "text too long"),
    ("(big + '') == big", "true"),
    ("nope + 1 / 0", "unknown name"),
    ("1 / 0 + nope", "zero divisor"),
    ("'a' - 1 / 0", "zero divisor"),
    ("s - n / 0", "zero divisor [1] [0]"),
    ("n + n + s + n", "'14ab7' [0] [1]"),
    ("later", "needs 7"),
    ("n + later", "needs 7 [0]"),
    ("later + nope", "needs 7"),
    ("nope + later", "unknown name"),
    ("0 && later", "0"),
    ("later.x", "needs 7"),
    ("later(1)", "wrong kind"),
    ("twice(later)", "needs 7"),
    ("Math.min('a', later)", "needs 7"),
    ("Math.min(later)", "wrong kind"),
    ("b ? later : n", "needs 7 [2]"),
    ("n / 0 + later", "zero divisor [0]"),
];

/// Where a target stands, and behind a `:` the slots that are read on the way.
const TARGETS: &[(&str, &str)] = &[
    ("n", "place 0"),
    ("later", "place 7"),
    ("o.n", "place 0 [4]"),
    ("o.later", "place 7 [4]"),
    ("o.o.s", "place 1 [4]"),
    ("other.s", "place 1"),
    ("anchors.fill", "place 4"),
    ("nope", "unknown name"),
    ("o.nope", "unknown name [4]"),
    ("anchors.nope", "unknown name"),
    ("nul.x", "member of null [5]"),
    ("null.x", "member of null"),
    ("n.x", "wrong kind [0]"),
    ("later.x", "needs 7"),
    ("7", "wrong kind"),
    ("n + later", "needs 7 [0]"),
    ("n + 1", "wrong kind [0]"),
    ("other", "wrong kind"),
    ("anchors", "wrong kind"),
    ("twice", "wrong kind"),
    ("twice(4)", "wrong kind"),
    ("finished", "wrong kind"),
    ("Math", "wrong kind"),
    ("Math.min", "wrong kind"),
    ("mouse", "wrong kind"),
    ("mouse.x", "wrong kind"),
    ("mouse.z", "unknown name"),
];

/// What a call as a whole statement calls, and behind a `:` the slots that are read.
const CALLS: &[(&str, &str)] = &[
    ("twice(4)", "method 0 (4)"),
    ("twice('a')", "method 0 ('a')"),
    ("twice(n)", "method 0 (7) [0]"),
    ("down(99)", "method 1 (99)"),
    ("start()", "method 9"),
    ("twice()", "wrong kind"),
    ("twice(1, 2)", "wrong kind"),
    ("twice(nope)", "unknown name"),
    ("twice(nope, 1)", "wrong kind"),
    ("start(nope)", "wrong kind"),
    ("lost()", "wrong kind"),
    ("lost(nope)", "wrong kind"),
    ("twice(later)", "needs 7"),
    ("twice(finished(1, 2))", "wrong kind"),
    ("finished(n, s)", "signal 0 (7) ('ab') [0] [1]"),
    ("finished(s, null)", "signal 0 ('ab') (null) [1]"),
    ("finished()", "wrong kind"),
    ("finished(1 / 0)", "wrong kind"),
    ("finished(s, 1 / 0)", "zero divisor [1]"),
    ("finished(nope, 1 / 0)", "unknown name"),
    ("muted()", "wrong kind"),
    ("muted(nope)", "wrong kind"),
    ("console.log()", "log"),
    ("console.log(1, s, true)", "log (1) ('ab') (true) [1]"),
    ("console.log(twice(4), Math.min(1, 2))", "log (8) (1)"),
    ("console.log(nope)", "unknown name"),
    ("console.log(n, later, nope)", "needs 7 [0]"),
    ("console.log(console.log())", "wrong kind"),
    ("console.nope(1 / 0)", "unknown name"),
    ("Math.abs(-3)", "done"),
    ("Math.max(n, 3)", "done [0]"),
    ("Math.abs()", "wrong kind"),
    ("Math.abs(1, nope)", "wrong kind"),
    ("Math.min('a', 1 / 0)", "zero divisor"),
    ("Math.min('a', 1)", "wrong kind"),
    ("Math.abs(-2147483647 - 1)", "overflow"),
    ("nope(1 / 0)", "unknown name"),
    ("nul.x(1 / 0)", "member of null [5]"),
    ("o.nope()", "unknown name [4]"),
    ("later(1)", "wrong kind"),
    ("n(nope)", "wrong kind"),
    ("7(nope)", "wrong kind"),
    ("other(nope)", "wrong kind"),
    ("anchors(nope)", "wrong kind"),
    ("Math(nope)", "wrong kind"),
    ("mouse(nope)", "wrong kind"),
    ("(b ? twice : 1)(1)", "wrong kind [2]"),
    ("down(down(64))", "too much"),
    ("down(down(63))", "method 1 (5)"),
];

fn name(alloc: Global, text: &str) -> Result<Name, Fail> {
    if text.len() > 65536 {
        return Err(Fail::from("a long name"));
    }
    Ok(Name::new(alloc, text)?)
}

/// What the first property among the members is initialised with.
fn initialiser(members: &[Member]) -> Result<Shared<Expr>, Fail> {
    for member in members {
        if let Member::Init {
            init: Init::Expr(e),
            ..
        } = member
        {
            return Ok(e.share()?);
        }
    }
    Err(Fail::from("no initialiser"))
}

/// A document with that expression.
fn page(alloc: Global, text: &str) -> Result<Document, Fail> {
    let text = format!(in alloc; "Item {{ x: {text} }}")?;
    if text.len() > 65536 {
        return Err(Fail::from("a long document"));
    }
    match parse(alloc, text.as_bytes()) {
        Ok(document) => Ok(document),
        Err(_) => Err(Fail::from("no document")),
    }
}

/// The expression of a text.
fn expression(alloc: Global, text: &str) -> Result<Shared<Expr>, Fail> {
    let page = page(alloc, text)?;
    initialiser(page.root.members.as_slice())
}

fn method(alloc: Global, param: &str, body: &str) -> Result<Returned, Fail> {
    let mut params = Items::new(alloc);
    params.push(name(alloc, param)?)?;
    Ok(Returned {
        params,
        body: expression(alloc, body)?,
    })
}

/// The values of the first seven slots.
fn values(alloc: Global) -> Result<Items<Value>, Fail> {
    let line = LineRef {
        serial: 5,
        edge: Edge::Left,
    };
    let mut values = Items::new(alloc);
    let text = Text::new(alloc, "ab")?;
    values.push(Value::Int(7))?;
    values.push(Value::Str(text))?;
    values.push(Value::Bool(true))?;
    values.push(Value::Color(0xff11_2233))?;
    values.push(Value::Obj(5))?;
    values.push(Value::Obj(0))?;
    values.push(Value::Line(Some(line)))?;
    Ok(values)
}

/// A store whose slot 7 has no value yet.
fn fake(alloc: Global) -> Result<Fake, Fail> {
    Ok(Fake {
        values: values(alloc)?,
        clean: 7,
        methods: methods(alloc)?,
        null: Value::Obj(0),
    })
}

/// `twice`, `down` and `free`.
fn methods(alloc: Global) -> Result<Items<Returned>, Fail> {
    let mut methods = Items::new(alloc);
    for (param, body) in [
        ("a", "a * 2"),
        ("n", "n == 0 ? 5 : down(n - 1)"),
        ("a", "v"),
    ] {
        let method = method(alloc, param, body)?;
        methods.push(method)?;
    }
    Ok(methods)
}

/// A text of 65,536 bytes.
fn big(alloc: Global) -> Result<Value, Fail> {
    let mut big = String::new(alloc);
    for _ in 0..65536 {
        big.push('a')?;
    }
    if big.len() > 65536 {
        return Err(Fail::from("a long text"));
    }
    Ok(Value::Str(Text::from_string(big)))
}

fn declare(
    alloc: Global,
    locals: &mut Locals,
    text: &str,
    held: Local,
    fixed: bool,
) -> Result<(), Fail> {
    let name = name(alloc, text)?;
    Ok(locals.declare(alloc, &name, held, fixed)?)
}

/// A number, the mouse, and a text of 65,536 bytes.
fn locals(alloc: Global) -> Result<Locals, Fail> {
    let mut locals = Locals::new(alloc);
    let big = big(alloc)?;
    declare(alloc, &mut locals, "big", Local::Plain(big), true)?;
    declare(alloc, &mut locals, "v", Local::Plain(Value::Int(9)), false)?;
    declare(alloc, &mut locals, "mouse", Local::Mouse(3, 4), false)?;
    Ok(locals)
}

fn answer_text(alloc: Global, answer: &Eval) -> Result<String, Fail> {
    let text = match answer {
        Eval::Is(Value::Str(text)) => format!(in alloc; "'{text}'"),
        Eval::Is(value) => format!(in alloc; "{value}"),
        Eval::Faulted(fault) => format!(in alloc; "{fault}"),
        Eval::Needs(place) => {
            let slot = place.slot;
            format!(in alloc; "needs {slot}")
        }
    };
    Ok(text?)
}

/// The answer and the slots that were read.
fn told(mut text: String, trace: &Trace) -> Result<String, Fail> {
    for place in trace.as_slice() {
        let slot = place.slot;
        write!(text, " [{slot}]")?;
    }
    Ok(text)
}

/// What the expression of a text gives.
fn outcome(alloc: Global, text: &str, locals: &Locals, fake: &Fake) -> Result<String, Fail> {
    let e = expression(alloc, text)?;
    let mut trace = Trace::new(alloc);
    let answer = eval(alloc, e.get(), FRAME, locals, fake, &mut trace)?;
    told(answer_text(alloc, &answer)?, &trace)
}

/// Whether the expression of a text gives that.
fn gives(
    alloc: Global,
    text: &str,
    want: &str,
    locals: &Locals,
    fake: &Fake,
) -> Result<bool, Fail> {
    let outcome = outcome(alloc, text, locals, fake)?;
    Ok(outcome.as_str() == want)
}

/// The first row that is not as it should be.
fn first_wrong(alloc: Global) -> Result<Option<&'static str>, Fail> {
    let fake = fake(alloc)?;
    let locals = locals(alloc)?;
    for (text, want) in ROWS {
        if !gives(alloc, text, want, &locals, &fake)? {
            return Ok(Some(*text));
        }
    }
    Ok(None)
}

#[test]
fn expressions(rt: HostRuntime) -> Result<(), Fail> {
    assert_eq!(rt; first_wrong(rt.alloc())?, None);
    Ok(())
}

fn aim_text(alloc: Global, answer: Aim) -> Result<String, Fail> {
    let text = match answer {
        Aim::At(place) => {
            let slot = place.slot;
            format!(in alloc; "place {slot}")
        }
        Aim::Needs(place) => {
            let slot = place.slot;
            format!(in alloc; "needs {slot}")
        }
        Aim::Faulted(fault) => format!(in alloc; "{fault}"),
    };
    Ok(text?)
}

/// Where the target of a text stands.
fn target(alloc: Global, text: &str, locals: &Locals, fake: &Fake) -> Result<String, Fail> {
    let e = expression(alloc, text)?;
    let mut trace = Trace::new(alloc);
    let answer = aim(alloc, e.get(), FRAME, locals, fake, &mut trace)?;
    told(aim_text(alloc, answer)?, &trace)
}

/// Whether the target of a text stands there.
fn stands_at(
    alloc: Global,
    text: &str,
    want: &str,
    locals: &Locals,
    fake: &Fake,
) -> Result<bool, Fail> {
    let found = target(alloc, text, locals, fake)?;
    Ok(found.as_str() == want)
}

/// The first target that is found elsewhere than it should be.
fn first_wrong_target(alloc: Global) -> Result<Option<&'static str>, Fail> {
    let fake = fake(alloc)?;
    let locals = locals(alloc)?;
    for (text, want) in TARGETS {
        if !stands_at(alloc, text, want, &locals, &fake)? {
            return Ok(Some(*text));
        }
    }
    Ok(None)
}

#[test]
fn targets(rt: HostRuntime) -> Result<(), Fail> {
    assert_eq!(rt; first_wrong_target(rt.alloc())?, None);
    Ok(())
}

/// A text, and behind it the values of arguments.
fn with_arguments(mut text: String, arguments: &[Value]) -> Result<String, Fail> {
    for argument in arguments {
        match argument {
            Value::Str(argument) => write!(text, " ('{argument}')")?,
            argument => write!(text, " ({argument})")?,
        }
    }
    Ok(text)
}

fn called_text(alloc: Global, answer: &Called) -> Result<String, Fail> {
    match answer {
        Called::Done => Ok(format!(in alloc; "done")?),
        Called::Log(arguments) => {
            with_arguments(format!(in alloc; "log")?, arguments.as_slice())
        }
        Called::Signal {
            signal,
            arguments,
            ..
        } => with_arguments(format!(in alloc; "signal {signal}")?, arguments.as_slice()),
        Called::Method {
            method,
            arguments,
            ..
        } => with_arguments(format!(in alloc; "method {method}")?, arguments.as_slice()),
        Called::Needs(place) => {
            let slot = place.slot;
            Ok(format!(in alloc; "needs {slot}")?)
        }
        Called::Faulted(fault) => Ok(format!(in alloc; "{fault}")?),
    }
}

/// What the call of a text calls.
fn statement(alloc: Global, text: &str, locals: &Locals, fake: &Fake) -> Result<String, Fail> {
    let e = expression(alloc, text)?;
    let Expr::Call(callee, arguments) = e.get() else {
        return Err(Fail::from("no call"));
    };
    let mut trace = Trace::new(alloc);
    let answer = call(
        alloc,
        callee.get(),
        arguments.as_slice(),
        FRAME,
        locals,
        fake,
        &mut trace,
    )?;
    told(called_text(alloc, &answer)?, &trace)
}

/// Whether the call of a text calls that.
fn calls_so(
    alloc: Global,
    text: &str,
    want: &str,
    locals: &Locals,
    fake: &Fake,
) -> Result<bool, Fail> {
    let found = statement(alloc, text, locals, fake)?;
    Ok(found.as_str() == want)
}

/// The first call that is not as it should be.
fn first_wrong_call(alloc: Global) -> Result<Option<&'static str>, Fail> {
    let fake = fake(alloc)?;
    let locals = locals(alloc)?;
    for (text, want) in CALLS {
        if !calls_so(alloc, text, want, &locals, &fake)? {
            return Ok(Some(*text));
        }
    }
    Ok(None)
}

#[test]
fn calls(rt: HostRuntime) -> Result<(), Fail> {
    assert_eq!(rt; first_wrong_call(rt.alloc())?, None);
    Ok(())
}

/// A sum of so many numbers, of a number of nodes that is one less than twice theirs.
fn sum(alloc: Global, numbers: u32) -> Result<Boxed<Expr>, Fail> {
    if numbers < 2 {
        return Ok(Boxed::new(alloc, Expr::Lit(Value::Int(1)))?);
    }
    let left = sum(alloc, numbers / 2)?;
    let right = sum(alloc, numbers - numbers / 2)?;
    Ok(Boxed::new(alloc, Expr::Binary(BinOp::Add, left, right))?)
}

/// What a sum of 50,000 numbers gives behind so many signs.
fn signed_sum(alloc: Global, signs: u32) -> Result<Option<i32>, Fail> {
    let fake = fake(alloc)?;
    let mut e = sum(alloc, 50_000)?;
    for _ in 0..signs {
        e = Boxed::new(alloc, Expr::Unary(UnOp::Plus, e))?;
    }
    let mut trace = Trace::new(alloc);
    let answer = eval(
        alloc,
        e.get(),
        FRAME,
        &Locals::new(alloc),
        &fake,
        &mut trace,
    )?;
    match answer {
        Eval::Is(Value::Int(n)) => Ok(Some(n)),
        Eval::Faulted(EvalFault::TooMuch) => Ok(None),
        _ => Err(Fail::from("neither a number nor too much")),
    }
}

#[test]
fn nodes(rt: HostRuntime) -> Result<(), Fail> {
    let most = signed_sum(rt.alloc(), 1)?;
    let more = signed_sum(rt.alloc(), 2)?;
    assert!(rt; most == Some(50_000) && more == None);
    Ok(())
}

/// Whether a method is called with a sum of 49,999 numbers behind so many signs.
fn takes_sum(alloc: Global, signs: u32) -> Result<bool, Fail> {
    let fake = fake(alloc)?;
    let callee = expression(alloc, "twice")?;
    let mut e = sum(alloc, 49_999)?;
    for _ in 0..signs {
        e = Boxed::new(alloc, Expr::Unary(UnOp::Plus, e))?;
    }
    let mut arguments = Items::new(alloc);
    arguments.push(e.into_inner())?;
    let mut trace = Trace::new(alloc);
    let answer = call(
        alloc,
        callee.get(),
        arguments.as_slice(),
        FRAME,
        &Locals::new(alloc),
        &fake,
        &mut trace,
    )?;
    match answer {
        Called::Method { .. } => Ok(true),
        Called::Faulted(EvalFault::TooMuch) => Ok(false),
        _ => Err(Fail::from("neither a method nor too much")),
    }
}

#[test]
fn nodes_of_a_call(rt: HostRuntime) -> Result<(), Fail> {
    let most = takes_sum(rt.alloc(), 1)?;
    let more = takes_sum(rt.alloc(), 2)?;
    assert!(rt; most && !more);
    Ok(())
}

/// What a local holds, as a text, or what an assignment of 5 to it answers.
fn assigned(alloc: Global, local: &str) -> Result<String, Fail> {
    let mut locals = locals(alloc)?;
    let name = name(alloc, local)?;
    if let Err(fault) = locals.assign(&name, Value::Int(5)) {
        return Ok(format!(in alloc; "{fault}")?);
    }
    match locals.find(&name) {
        Some(Local::Plain(value)) => Ok(format!(in alloc; "{value}")?),
        _ => Err(Fail::from("no number")),
    }
}

/// Whether a second declaration of a name replaces the first one.
fn declares_again(alloc: Global) -> Result<bool, Fail> {
    let mut locals = locals(alloc)?;
    let name = name(alloc, "big")?;
    locals.declare(alloc, &name, Local::Plain(Value::Int(1)), false)?;
    let held = matches!(locals.find(&name), Some(Local::Plain(Value::Int(1))));
    Ok(held && locals.assign(&name, Value::Int(2)).is_ok())
}

#[test]
fn assignments(rt: HostRuntime) -> Result<(), Fail> {
    let alloc = rt.alloc();
    let plain = assigned(alloc, "v")?.as_str() == "5";
    let mouse = assigned(alloc, "mouse")?.as_str() == "read only";
    let fixed = assigned(alloc, "big")?.as_str() == "read only";
    let unknown = assigned(alloc, "w")?.as_str() == "unknown name";
    assert!(rt; plain && mouse && fixed && unknown && declares_again(rt.alloc())?);
    Ok(())
}

/// An operand of each kind, and of each truth that the kind has: its text in a document, its text form, what an
/// expression gives that is this operand alone, and whether it counts as true.
struct Operand {
    source: &'static str,
    text: &'static str,
    shown: &'static str,
    is_true: bool,
}

macro_rules! operand {
    ($source:literal, $text:literal, $shown:literal, $is_true:literal) => {
        Operand {
            source: $source,
            text: $text,
            shown: $shown,
            is_true: $is_true,
        }
    };
}

static OPERANDS: [Operand; 11] = [
    operand!("7", "7", "7", true),
    operand!("0", "0", "0", false),
    operand!("true", "true", "true", true),
    operand!("false", "false", "false", false),
    operand!("'ab'", "ab", "'ab'", true),
    operand!("''", "", "''", false),
    operand!("col", "#112233", "#112233", true),
    operand!("o", "object", "object", true),
    operand!("null", "null", "null", false),
    operand!("line", "line", "line", true),
    operand!("undefined", "undefined", "undefined", false),
];

/// What an operator gives of two operands.
#[derive(Clone, Copy)]
enum Pair {
    /// A number of numbers, or whether one holds; of other operands a wrong kind.
    Numbers,
    /// A number of numbers, and both texts where one is a text.
    Joined,
    /// This where the operands are the same, and the opposite otherwise.
    Same(bool),
    /// The left operand where it counts as this, and else the right one.
    Deciding(bool),
}

/// An operator, and what it gives: of 7 and 7, 7 and 0, 0 and 7, and 0 and 0 these, where it is one of numbers.
struct Operator {
    mark: &'static str,
    pair: Pair,
    numbers: [&'static str; 4],
}

macro_rules! operator {
    ($mark:literal, $pair:expr, $numbers:expr) => {
        Operator {
            mark: $mark,
            pair: $pair,
            numbers: $numbers,
        }
    };
}

const NONE: [&str; 4] = ["", "", "", ""];

static OPERATORS: [Operator; 15] = [
    operator!("+", Pair::Joined, ["14", "7", "7", "0"]),
    operator!("-", Pair::Numbers, ["0", "7", "-7", "0"]),
    operator!("*", Pair::Numbers, ["49", "0", "0", "0"]),
    operator!(
        "/",
        Pair::Numbers,
        ["1", "zero divisor", "0", "zero divisor"]
    ),
    operator!(
        "%",
        Pair::Numbers,
        ["0", "zero divisor", "0", "zero divisor"]
    ),
    operator!("<", Pair::Numbers, ["false", "false", "true", "false"]),
    operator!("<=", Pair::Numbers, ["true", "false", "true", "true"]),
    operator!(">", Pair::Numbers, ["false", "true", "false", "false"]),
    operator!(">=", Pair::Numbers, ["true", "true", "false", "true"]),
    operator!("==", Pair::Same(true), NONE),
    operator!("===", Pair::Same(true), NONE),
    operator!("!=", Pair::Same(false), NONE),
    operator!("!==", Pair::Same(false), NONE),
    operator!("&&", Pair::Deciding(false), NONE),
    operator!("||", Pair::Deciding(true), NONE),
];

/// What the operator gives of two numbers, and a wrong kind of others.
fn of_numbers(found: &[&'static str; 4], left: &Operand, right: &Operand) -> &'static str {
    let [both, by_zero, of_zero, zeros] = found;
    match (left.source, right.source) {
        ("7", "7") => both,
        ("7", "0") => by_zero,
        ("0", "7") => of_zero,
        ("0", "0") => zeros,
        _ => "wrong kind",
    }
}

fn is_text(operand: &Operand) -> bool {
    operand.source.starts_with('\'')
}

/// Both texts, as a text is shown.
fn joined(alloc: Global, left: &Operand, right: &Operand) -> Result<String, Fail> {
    let joined = format!(in alloc; "'{}{}'", left.text, right.text)?;
    Ok(joined)
}

/// What the operator gives of these two.
fn of_pair(
    alloc: Global,
    operator: &Operator,
    left: &Operand,
    right: &Operand,
) -> Result<String, Fail> {
    let told = match operator.pair {
        Pair::Joined => {
            if is_text(left) || is_text(right) {
                return joined(alloc, left, right);
            }
            of_numbers(&operator.numbers, left, right)
        }
        Pair::Numbers => of_numbers(&operator.numbers, left, right),
        Pair::Same(same) => {
            if (left.source == right.source) == same {
                "true"
            } else {
                "false"
            }
        }
        Pair::Deciding(deciding) => {
            if left.is_true == deciding {
                left.shown
            } else {
                right.shown
            }
        }
    };
    Ok(String::from_str(alloc, told)?)
}

/// What the expression of a text gives, without the slots that were read.
fn value_text(alloc: Global, text: &str, locals: &Locals, fake: &Fake) -> Result<String, Fail> {
    let e = expression(alloc, text)?;
    let mut trace = Trace::new(alloc);
    let answer = eval(alloc, e.get(), FRAME, locals, fake, &mut trace)?;
    answer_text(alloc, &answer)
}

/// The first right operand with which the operator gives something else behind this left one.
fn wrong_right(
    alloc: Global,
    operator: &Operator,
    left: &Operand,
    fake: &Fake,
) -> Result<Option<String>, Fail> {
    let locals = Locals::new(alloc);
    for right in &OPERANDS {
        let text = format!(in alloc; "{} {} {}", left.source, operator.mark, right.source)?;
        let found = value_text(alloc, text.as_str(), &locals, fake)?;
        if found.as_str() != of_pair(alloc, operator, left, right)?.as_str() {
            return Ok(Some(text));
        }
    }
    Ok(None)
}

/// The first two operands of which the operator gives something else.
fn wrong_pair(alloc: Global, operator: &Operator, fake: &Fake) -> Result<Option<String>, Fail> {
    for left in &OPERANDS {
        if let Some(text) = wrong_right(alloc, operator, left, fake)? {
            return Ok(Some(text));
        }
    }
    Ok(None)
}

/// All operators that give something else, with their operands.
fn wrong_pairs(alloc: Global) -> Result<String, Fail> {
    let fake = fake(alloc)?;
    let mut told = String::new(alloc);
    for operator in &OPERATORS {
        if let Some(text) = wrong_pair(alloc, operator, &fake)? {
            writeln!(told, "{text}")?;
        }
    }
    Ok(told)
}

#[test]
fn operators_of_each_kind(rt: HostRuntime) -> Result<(), Fail> {
    assert_eq!(rt; wrong_pairs(rt.alloc())?.as_str(), "");
    Ok(())
}

/// What comes before and behind an operand; what that gives of 7 and of 0; and of other operands that count as true and
/// of such that do not.
const SINGLES: &[(&str, &str, [&str; 4])] = &[
    ("-", "", ["-7", "0", "wrong kind", "wrong kind"]),
    ("+", "", ["7", "0", "wrong kind", "wrong kind"]),
    ("!", "", ["false", "true", "false", "true"]),
    ("!!", "", ["true", "false", "true", "false"]),
    ("", " ? 1 : 2", ["1", "2", "1", "2"]),
    ("Math.abs(", ")", ["7", "0", "wrong kind", "wrong kind"]),
    ("Math.floor(", ")", ["7", "0", "wrong kind", "wrong kind"]),
    ("Math.ceil(", ")", ["7", "0", "wrong kind", "wrong kind"]),
    ("Math.round(", ")", ["7", "0", "wrong kind", "wrong kind"]),
    ("Math.min(", ", 3)", ["3", "0", "wrong kind", "wrong kind"]),
    ("Math.min(3, ", ")", ["3", "0", "wrong kind", "wrong kind"]),
    ("Math.max(", ", 3)", ["7", "3", "wrong kind", "wrong kind"]),
    ("Math.max(3, ", ")", ["7", "3", "wrong kind", "wrong kind"]),
    // a call of what is no method
    (
        "(",
        ")()",
        ["wrong kind", "wrong kind", "wrong kind", "wrong kind"],
    ),
];

/// What is wanted of this operand.
fn of_single(found: &[&'static str; 4], operand: &Operand) -> &'static str {
    let [seven, zero, others, empty] = found;
    match operand.source {
        "7" => seven,
        "0" => zero,
        _ => { if operand.is_true { others } else { empty } }
    }
}

/// The first operand of which the row gives something else.
fn wrong_single(
    alloc: Global,
    row: &(&str, &str, [&'static str; 4]),
    fake: &Fake,
) -> Result<Option<String>, Fail> {
    let locals = Locals::new(alloc);
    for operand in &OPERANDS {
        let text = format!(in alloc; "{}{}{}", row.0, operand.source, row.1)?;
        let found = value_text(alloc, text.as_str(), &locals, fake)?;
        if found.as_str() != of_single(&row.2, operand) {
            return Ok(Some(text));
        }
    }
    Ok(None)
}

fn wrong_singles(alloc: Global) -> Result<String, Fail> {
    let fake = fake(alloc)?;
    let mut told = String::new(alloc);
    for row in SINGLES {
        if let Some(text) = wrong_single(alloc, row, &fake)? {
            writeln!(told, "{text}")?;
        }
    }
    Ok(told)
}

#[test]
fn signs_and_functions_of_each_kind(rt: HostRuntime) -> Result<(), Fail> {
    assert_eq!(rt; wrong_singles(rt.alloc())?.as_str(), "");
    Ok(())
}
