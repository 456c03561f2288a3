//! Canonical texts, and that they print as themselves.

use crate::report::{note, told_fault};
use qml_ast::{BinOp, DocFault, Document, Expr, Name, Stmt, UnOp, Value};
use qml_parse::parse;
use qml_print::{print, print_expr, print_stmt};
use round_trip::print_and_parse;
use sqlite_items::Boxed;
use std::alloc::{AllocError, Global};
use std::test::Fail;

fn as_text(alloc: Global, bytes: Vec<u8>) -> Result<String, AllocError> {
    match String::from_utf8(bytes) {
        Ok(text) => Ok(text),
        Err(_) => String::from_str(alloc, "no UTF-8"),
    }
}

/// The canonical text of a text's document, or the text's fault.
fn canonical(alloc: Global, bytes: &[u8]) -> Result<String, AllocError> {
    if bytes.len() > 1_000_000 {
        return String::from_str(alloc, "too long");
    }
    match parse(alloc, bytes) {
        Ok(document) => as_text(alloc, print(alloc, &document)?),
        Err(fault) => told_fault(alloc, fault),
    }
}

/// A part of a document between these texts, and what its print stands between.
struct Around {
    text: [&'static str; 2],
    printed: [&'static str; 2],
}

const EXPRESSION: Around = Around {
    text: ["Item { x: ", " }"],
    printed: ["Item {\n    x: ", "\n}\n"],
};

const STATEMENT: Around = Around {
    text: ["Item { onXChanged: ", "\n}"],
    printed: ["Item {\n    onXChanged: ", "\n}\n"],
};

const MEMBER: Around = Around {
    text: ["Item { ", "\n}"],
    printed: ["Item {\n", "}\n"],
};

const NOTHING: Around = Around {
    text: ["", ""],
    printed: ["", ""],
};

fn between(alloc: Global, [head, tail]: [&str; 2], part: &str) -> Result<String, AllocError> {
    format!(in alloc; "{head}{part}{tail}")
}

/// Notes where a text prints as another one, or its print not as itself.
fn note_print(
    alloc: Global,
    report: &mut String,
    text: &str,
    wanted: &str,
) -> Result<(), AllocError> {
    let printed = canonical(alloc, text.as_bytes())?;
    note(report, text, printed.as_str(), wanted)?;
    let again = canonical(alloc, printed.as_bytes())?;
    note(report, text, again.as_str(), wanted)
}

fn differing(alloc: Global, around: &Around, rows: &[(&str, &str)]) -> Result<String, AllocError> {
    let mut report = String::new(alloc);
    for (part, printed) in rows {
        let text = between(alloc, around.text, part)?;
        let wanted = between(alloc, around.printed, printed)?;
        note_print(alloc, &mut report, text.as_str(), wanted.as_str())?;
    }
    Ok(report)
}

const EXPRESSIONS: &[(&str, &str)] = &[
    ("0x1F", "31"),
    ("'a'", "\"a\""),
    (
        "'\\'\\\"\\\\\\n\\t\\r\\u0007\\u00e9\\u001f/'",
        "\"'\\\"\\\\\\n\\t\\r\\u0007é\\u001f/\"",
    ),
    ("0x000F", "15"),
    ("0x7fffffff", "2147483647"),
    (
        "'\\u007f\\u0000\0\t\\u0020\\u0022\\u005C'",
        "\"\u{7f}\\u0000\\u0000\\t \\\"\\\\\"",
    ),
    ("\"a\rb'\"", "\"a\\rb'\""),
    ("true", "true"),
    ("false", "false"),
    ("null", "null"),
    ("undefined", "undefined"),
    ("((a))", "a"),
    ("on . id . if", "on.id.if"),
    ("(1).a", "1.a"),
    ("1 .a", "1.a"),
    ("('a').b", "\"a\".b"),
    ("(a.b)(c)", "a.b(c)"),
    ("(f())()", "f()()"),
    ("(a+b)(c)", "(a + b)(c)"),
    ("(a?b:c)(d)", "(a ? b : c)(d)"),
    ("f((a?b:c),(d||e))", "f(a ? b : c, d || e)"),
    ("(-a).b", "(-a).b"),
    ("f ( )", "f()"),
    ("f(a,(b),g(c,d))", "f(a, b, g(c, d))"),
    ("f(a)(b).c(d, e)", "f(a)(b).c(d, e)"),
    ("- a", "-a"),
    ("+ a", "+a"),
    ("! a", "!a"),
    ("-(-a)", "- -a"),
    ("- -a", "- -a"),
    ("+(+a)", "+ +a"),
    ("-(+a)", "-+a"),
    ("+(-a)", "+-a"),
    ("-(-1)", "- -1"),
    ("-(-(-a))", "- - -a"),
    ("-(-a).b", "-(-a).b"),
    ("!(!a)", "!!a"),
    ("!(-a)", "!-a"),
    ("-(!a)", "-!a"),
    ("!(a&&b)", "!(a && b)"),
    ("(-a)*b", "-a * b"),
    ("-(a.b)", "-a.b"),
    ("-(a + b)", "-(a + b)"),
    ("a*b/c%d", "a * b / c % d"),
    ("a*(b/c)", "a * (b / c)"),
    ("(a*b)+c", "a * b + c"),
    ("(a+b)*c", "(a + b) * c"),
    ("a-(b-c)", "a - (b - c)"),
    ("(a-b)-c", "a - b - c"),
    ("a%(b*c)", "a % (b * c)"),
    ("a<(b<c)", "a < (b < c)"),
    ("a<b+c", "a < b + c"),
    ("(a<b)+c", "(a < b) + c"),
    ("a==(b==c)", "a == (b == c)"),
    ("(a==b)<c", "(a == b) < c"),
    ("a+-b", "a + -b"),
    ("a- -b", "a - -b"),
    ("(-1)-(-1)", "-1 - -1"),
    ("a<b<=c>d>=e", "a < b <= c > d >= e"),
    ("(a<b)==(c!=d)", "a < b == (c != d)"),
    ("a===b!==c", "a === b !== c"),
    ("a&&b&&c", "a && b && c"),
    ("a&&(b&&c)", "a && (b && c)"),
    ("(a||b)&&c", "(a || b) && c"),
    ("a||b&&c", "a || b && c"),
    ("a||(b||c)", "a || (b || c)"),
    ("a||(b&&c)", "a || b && c"),
    ("a&&(b==c)", "a && b == c"),
    ("(a&&b)==c", "(a && b) == c"),
    ("a?b:c", "a ? b : c"),
    ("(a||b)?(b?c:d):(e?f:g)", "a || b ? b ? c : d : e ? f : g"),
    ("a||(b?c:d)", "a || (b ? c : d)"),
    ("a?b:c?d:e", "a ? b : c ? d : e"),
    ("(a?b:c)?d:e", "(a ? b : c) ? d : e"),
    ("a?b?c:d:e", "a ? b ? c : d : e"),
    ("(a?b:c)+d", "(a ? b : c) + d"),
    ("(a?b:c).d", "(a ? b : c).d"),
    ("(a+b)*c", "(a + b) * c"),
    ("c-(a-b)", "c - (a - b)"),
    ("(a<=b)!==(a==b)", "a <= b !== (a == b)"),
    ("(a%b)||(a?b:c)", "a % b || (a ? b : c)"),
    ("(a>b)&&(a/b)", "a > b && a / b"),
    (
        "(a?b:c)?(a?b:c):(a?b:c)",
        "(a ? b : c) ? a ? b : c : a ? b : c",
    ),
    ("(a+b).d", "(a + b).d"),
    ("f((a?b:c),'')", "f(a ? b : c, \"\")"),
    ("'it\\'s ü'", "\"it's ü\""),
    ("'\\\"\\\\'", "\"\\\"\\\\\""),
    ("'\\n\\t\\r'", "\"\\n\\t\\r\""),
    (
        "'\\u0000\\u000b\\u001f \\u007f'",
        "\"\\u0000\\u000b\\u001f \u{7f}\"",
    ),
];

#[test]
fn expressions(rt: HostRuntime) -> Result<(), Fail> {
    assert_eq!(rt;
        differing(rt.alloc(), &EXPRESSION, EXPRESSIONS)?.as_str(),
        ""
    );
    Ok(())
}

const STATEMENTS: &[(&str, &str)] = &[
    ("var a", "var a;"),
    ("var a=b", "var a = b;"),
    ("let a", "let a;"),
    ("let a=1", "let a = 1;"),
    ("const if=b", "const if = b;"),
    ("const a", "const a;"),
    ("c=!c", "c = !c;"),
    ("a=1", "a = 1;"),
    ("a.b+=1", "a.b += 1;"),
    ("a-=b", "a -= b;"),
    ("a*=b", "a *= b;"),
    ("a/=b", "a /= b;"),
    ("a++", "a++;"),
    ("a--", "a--;"),
    ("a.b--;;", "a.b--;"),
    ("f()", "f();"),
    ("(a)", "a;"),
    (";", ";"),
    ("return", "return;"),
    ("return a?b:c", "return a ? b : c;"),
    ("return\n", "return;"),
    ("{}", "{\n    }"),
    ("{a\nb;;}", "{\n        a;\n        b;\n        ;\n    }"),
    ("{return\na}", "{\n        return;\n        a;\n    }"),
    ("{a\n=1\nb\n(c)}", "{\n        a = 1;\n        b(c);\n    }"),
    ("{a++\n;b}", "{\n        a++;\n        b;\n    }"),
    ("{{a}}", "{\n        {\n            a;\n        }\n    }"),
    ("if(a)b", "if (a) b;"),
    ("if(a)b;else c", "if (a) b; else c;"),
    (
        "if(a){b}else{c}",
        "if (a) {\n        b;\n    } else {\n        c;\n    }",
    ),
    ("if(a)b;else if(c)d", "if (a) b; else if (c) d;"),
    ("if(a)b;else{}", "if (a) b; else {\n    }"),
    ("if(a){}\nelse b", "if (a) {\n    } else b;"),
    ("if(a)while(b)c;else d", "if (a) while (b) c; else d;"),
    ("if(a)if(b)c;else d", "if (a) if (b) c; else d;"),
    (
        "if(a){if(b)c}else d",
        "if (a) {\n        if (b) c;\n    } else d;",
    ),
    ("if(a);else;", "if (a) ; else ;"),
    ("if(a)return;else b", "if (a) return; else b;"),
    ("while(a)b", "while (a) b;"),
    ("while(a){b}", "while (a) {\n        b;\n    }"),
    ("while(true);", "while (true) ;"),
    ("for(;;);", "for (;;) ;"),
    ("for(var i=0;i<3;i++)a", "for (var i = 0; i < 3; i++) a;"),
    ("for(;;){;}", "for (;;) {\n        ;\n    }"),
    ("for(i=0;;i+=2){}", "for (i = 0;; i += 2) {\n    }"),
    ("for(;a;)for(a--;;)b", "for (; a;) for (a--;;) b;"),
    ("for(a.b=1;b;c-=1);", "for (a.b = 1; b; c -= 1) ;"),
    ("for(a*=2;;b/=2);", "for (a *= 2;; b /= 2) ;"),
    ("for(;;)if(a)b;else c", "for (;;) if (a) b; else c;"),
    ("const b=2", "const b = 2;"),
    (
        "for(var b=2;a;a++)return 3",
        "for (var b = 2; a; a++) return 3;",
    ),
    (
        "if(a){while(b){a/=1}}else a--",
        "if (a) {\n        while (b) {\n            a /= 1;\n        }\n    } else a--;",
    ),
];

#[test]
fn statements(rt: HostRuntime) -> Result<(), Fail> {
    assert_eq!(rt; differing(rt.alloc(), &STATEMENT, STATEMENTS)?.as_str(), "");
    Ok(())
}

const MEMBERS: &[(&str, &str)] = &[
    ("", ""),
    ("id:a", "    id: a\n"),
    ("id:true;x:1", "    id: true\n    x: 1\n"),
    ("property int a", "    property int a\n"),
    ("property   var a:-1;", "    property var a: -1\n"),
    ("property int a:(1)", "    property int a: 1\n"),
    ("property A a:B{}", "    property A a: B {\n    }\n"),
    ("readonly property int a", "    readonly property int a\n"),
    (
        "readonly property int a:b+1",
        "    readonly property int a: b + 1\n",
    ),
    (
        "readonly property A a:B{}",
        "    readonly property A a: B {\n    }\n",
    ),
    ("signal s", "    signal s\n"),
    ("signal s()", "    signal s\n"),
    ("signal s(int a)", "    signal s(int a)\n"),
    ("signal s(int a,A b)", "    signal s(int a, A b)\n"),
    ("signal s\n(int a)", "    signal s(int a)\n"),
    ("function f(){}", "    function f() {\n    }\n"),
    ("function f(a){}", "    function f(a) {\n    }\n"),
    (
        "function f(a,b){return a+b}",
        "    function f(a, b) {\n        return a + b;\n    }\n",
    ),
    ("a.b:1", "    a.b: 1\n"),
    ("a.b:C{}", "    a.b: C {\n    }\n"),
    ("a{b:1;c:2}", "    a.b: 1\n    a.c: 2\n"),
    ("a{}", ""),
    (
        "id:a;b{c:1\nid:2}d{}e:3",
        "    id: a\n    b.c: 1\n    b.id: 2\n    e: 3\n",
    ),
    ("a{b:C{d:1}}", "    a.b: C {\n        d: 1\n    }\n"),
    (
        "if:1;import:2;A.b:3",
        "    if: 1\n    import: 2\n    A.b: 3\n",
    ),
    ("p:A\n{}", "    p: A {\n    }\n"),
    ("onClicked:c=!c", "    onClicked: c = !c;\n"),
    ("onA:b", "    onA: b;\n"),
    ("onA:b;;", "    onA: b;\n"),
    ("onA:{b}", "    onA: {\n        b;\n    }\n"),
    ("onA:;", "    onA: ;\n"),
    ("onA:{};", "    onA: {\n    }\n"),
    (
        "onA:{b;c}d:1",
        "    onA: {\n        b;\n        c;\n    }\n    d: 1\n",
    ),
    (
        "A{function f(){if(a){b}}}",
        "    A {\n        function f() {\n            if (a) {\n                b;\n            }\n        }\n    }\n",
    ),
    ("Component.onA:b", "    Component.onA: b;\n"),
    (
        "Component.onA:{b}",
        "    Component.onA: {\n        b;\n    }\n",
    ),
    (
        "A{B{}C{}}",
        "    A {\n        B {\n        }\n        C {\n        }\n    }\n",
    ),
    ("x:a\ny:b", "    x: a\n    y: b\n"),
    ("x:a\n-b", "    x: a - b\n"),
];

#[test]
fn members(rt: HostRuntime) -> Result<(), Fail> {
    assert_eq!(rt; differing(rt.alloc(), &MEMBER, MEMBERS)?.as_str(), "");
    Ok(())
}

const DOCUMENTS: &[(&str, &str)] = &[
    ("Item{x:1}", "Item {\n    x: 1\n}\n"),
    ("Item\n{ }", "Item {\n}\n"),
    (
        "// a\nimport QtQuick 02.015\n\n\nItem{id:a//b\n/* c */}",
        "import QtQuick 2.15\nItem {\n    id: a\n}\n",
    ),
    ("\u{feff}Item{}", "Item {\n}\n"),
    (
        "import QtQuick 2.05;import QtQuick 2.15\nItem{}//",
        "import QtQuick 2.5\nimport QtQuick 2.15\nItem {\n}\n",
    ),
    (
        "Rectangle { x: (1 + 2) * 3 }",
        "Rectangle {\n    x: (1 + 2) * 3\n}\n",
    ),
    (
        "Rectangle { x: (1 * 2) + 3 }",
        "Rectangle {\n    x: 1 * 2 + 3\n}\n",
    ),
    (
        "import QtQuick 2.15
Item { id: a; readonly property int b: a + b
property var c; signal s; signal t(int x, string y); function f(x, y) { a -= 1 }
font.size: A { id: k } onT: a = 1; B { id: k } }",
        "import QtQuick 2.15
Item {
    id: a
    readonly property int b: a + b
    property var c
    signal s
    signal t(int x, string y)
    function f(x, y) {
        a -= 1;
    }
    font.size: A {
        id: k
    }
    onT: a = 1;
    B {
        id: k
    }
}
",
    ),
];

#[test]
fn documents(rt: HostRuntime) -> Result<(), Fail> {
    assert_eq!(rt; differing(rt.alloc(), &NOTHING, DOCUMENTS)?.as_str(), "");
    Ok(())
}

const PAGE: &str = r##"// The panel of a fan with three speeds.
import QtQuick 2.15

Item {
    id: panel
    width: 320
    height: 240

    /* What the panel shows, and what it tells. */
    property int speed: 0
    property bool running: speed > 0
    readonly property string label: running ? "speed " + speed : "off"
    property var listener: null
    property Item knob: Rectangle {
        width: 12; height: 12
        color: "#404040"
    }
    signal changed(int speed, bool running)
    signal stopped

    function faster(step) {
        var wanted = speed + step
        if (wanted > 3) {
            wanted = 3
        } else if (wanted < 0)
            wanted = 0
        else
            console.log("wanted", wanted);
        speed = wanted
        return
    }

    function count(n) {
        let sum = 0
        for (var i = 0; i < n; i++)
            sum += i % 2 == 0 ? i : -i
        while (sum > 100) sum /= 2
        return sum
    }

    Rectangle {
        anchors.fill: parent
        anchors { margins: 4; leftMargin: 8 }
        border { width: 1; color: "black" }
        color: running ? '#d0f0d0' : '#f0d0d0'
    }

    Row {
        x: 20; y: 20
        spacing: 8

        Rectangle { width: 40; height: 10 + 20 * 1; visible: speed >= 1 }
        Rectangle { width: 40; height: 10 + 20 * 2; visible: speed >= 2 }
        Rectangle {
            width: 40
            height: 10
                + 20 * 3
            visible: !(speed < 3) && running
        }
    }

    MouseArea {
        id: more
        x: 20; y: 180
        enabled: speed < 3
        width: (parent.width - 60) / 2; height: 40
        onClicked: faster(1)
        onPressed: {
            knob.color = "#80c080"
            panel.changed(speed, running)
        }
        onReleased: knob.color = "#404040";
    }

    MouseArea {
        x: 40 + more.width; y: more.y
        width: more.width; height: more.height
        onClicked: if (speed === 1) { speed = 0; stopped() } else faster(-1)
    }

    Timer {
        interval: 60 * 1000
        repeat: true
        running: panel.running
        onTriggered: {
            if (speed > 1)
                speed--
            const left = speed
            ;
            changed(left, left != 0)
        }
    }

    onSpeedChanged: console.log("the fan runs at \u0022" + label + "\u0022\n")
    onRunningChanged: if (!running) { stopped() }

    Component.onCompleted: {
        faster(0); faster(+1)
    }
}
"##;

/// How many members the object has that a text's document is.
fn member_count(alloc: Global, bytes: &[u8]) -> Result<usize, DocFault> {
    if bytes.len() > 1_000_000 {
        return Ok(0);
    }
    Ok(parse(alloc, bytes)?.root.members.len())
}

/// The canonical text of what a document is printed and parsed as.
fn print_of_print(alloc: Global, document: &Document) -> Result<String, DocFault> {
    match print_and_parse(alloc, document)? {
        Some(again) => Ok(as_text(alloc, print(alloc, &again)?)?),
        None => Ok(String::from_str(alloc, "too long")?),
    }
}

fn back(alloc: Global, bytes: &[u8]) -> Result<String, DocFault> {
    if bytes.len() > 1_000_000 {
        return Ok(String::from_str(alloc, "too long")?);
    }
    let document = parse(alloc, bytes)?;
    print_of_print(alloc, &document)
}

#[test]
fn a_page_as_one_would_write_it(rt: HostRuntime) -> Result<(), Fail> {
    let alloc = rt.alloc();
    let printed = canonical(alloc, PAGE.as_bytes())?;
    let twice = canonical(alloc, printed.as_bytes())?;
    let returned = back(alloc, PAGE.as_bytes())?;
    let members = member_count(alloc, PAGE.as_bytes())?;
    assert!(rt;
        printed.as_str() == twice.as_str() && printed.as_str() == returned.as_str() && members == 20
    );
    Ok(())
}

// Trees that no text spells, and parts alone

fn number(alloc: Global, n: i32) -> Result<Boxed<Expr>, AllocError> {
    Ok(Boxed::new(alloc, Expr::Lit(Value::Int(n)))?)
}

/// An expression with a negative literal: `- -12`
fn negated(alloc: Global) -> Result<String, AllocError> {
    let operand = number(alloc, -12)?;
    let expr = Boxed::new(alloc, Expr::Unary(UnOp::Neg, operand))?;
    as_text(alloc, print_expr(alloc, expr.get())?)
}

/// `a - -1`
fn difference(alloc: Global) -> Result<String, AllocError> {
    let right = number(alloc, -1)?;
    let left = Boxed::new(alloc, Expr::Name(Name::new(alloc, "a")?))?;
    let expr = Boxed::new(alloc, Expr::Binary(BinOp::Sub, left, right))?;
    as_text(alloc, print_expr(alloc, expr.get())?)
}

/// `for (;;) return 3;`
fn endless(alloc: Global) -> Result<String, AllocError> {
    let value = number(alloc, 3)?;
    let body = Boxed::new(alloc, Stmt::Return(Some(value.into_inner())))?;
    let stmt = Boxed::new(alloc, Stmt::For(None, None, None, body))?;
    as_text(alloc, print_stmt(alloc, stmt.get())?)
}

#[test]
fn parts_alone(rt: HostRuntime) -> Result<(), Fail> {
    let negated = negated(rt.alloc())?;
    let difference = difference(rt.alloc())?;
    let endless = endless(rt.alloc())?;
    let is_printed = negated.as_str() == "- -12" && difference.as_str() == "a - -1";
    assert!(rt; is_printed && endless.as_str() == "for (;;) return 3;");
    Ok(())
}
