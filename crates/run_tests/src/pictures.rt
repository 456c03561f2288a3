use crate::given::{Given, IMAGE, RED, outcome_of};
use std::alloc::{AllocError, Global};
use std::test::Fail;

/// An image of 640 by 480 pixels that is white but for two red pixels in its upper left corner.
fn is_two_red_pixels(image: &[u8]) -> bool {
    image.len() == IMAGE
        && image.starts_with(b"P6\n640 480\n255\n\xff\x00\x00\xff\x00\x00")
        && image.iter().skip(21).all(|byte| *byte == 0xff)
}

const RED_PIXELS: [&str; 3] = [
    "Rectangle{width:2;height:1;color:'#FF0000'}",
    "import QtQuick 2.15; import QtQuick 2.0\nRectangle {\n  width: 0x2\n  height: (1)\n  color: \"#ff0000\"\n}",
    "// two pixels\nRectangle { width: 2; height: 1; /* red */ color: \"\\u0023ff0000\"; x: 0 }\n",
];

fn is_drawn_so(alloc: Global, document: &str) -> Result<bool, AllocError> {
    let given = Given {
        words: &["Main.qml", "script.txt"],
        files: &[("Main.qml", document), ("script.txt", "frame")],
        failing: 0,
        room: IMAGE,
    };
    let outcome = outcome_of(alloc, &given)?;
    Ok(is_two_red_pixels(outcome.frames.contents()))
}

#[test]
fn one_picture_in_many_spellings(rt: HostRuntime) -> Result<(), Fail> {
    for document in RED_PIXELS {
        assert!(rt; is_drawn_so(rt.alloc(), document)?, "{document}");
    }
    Ok(())
}

/// The image of two red pixels, twice.
fn is_twice(written: &[u8]) -> bool {
    if written.len() != 2 * IMAGE {
        return false;
    }
    let (first, second) = written.split_at(IMAGE);
    is_two_red_pixels(first) && is_two_red_pixels(second)
}

#[test]
fn two_frames_are_twice_the_image(rt: HostRuntime) -> Result<(), Fail> {
    let given = Given {
        words: &["Main.qml", "script.txt"],
        files: &[("Main.qml", RED), ("script.txt", "frame\nframe")],
        failing: 0,
        room: 2 * IMAGE,
    };
    let outcome = outcome_of(rt.alloc(), &given)?;
    assert!(rt; is_twice(outcome.frames.contents()));
    Ok(())
}

/// Whether a run whose sink has so much room, of at most 40 bytes, has written as many of its first image.
fn is_cut_at(alloc: Global, room: usize) -> Result<bool, AllocError> {
    let start =
        b"P6\n640 480\n255\n\xff\x00\x00\xff\x00\x00\xff\xff\xff\xff\xff\xff\xff\xff\xff\xff\xff\xff\xff\xff\xff\xff\xff\xff\xff";
    let given = Given {
        words: &["Main.qml", "script.txt"],
        files: &[("Main.qml", RED), ("script.txt", "frame\nframe\n")],
        failing: 0,
        room,
    };
    let outcome = outcome_of(alloc, &given)?;
    let written = outcome.frames.contents();
    Ok(outcome.journal.len() == 1 && written.len() == room && start.starts_with(written))
}

#[test]
fn a_sink_that_stops_has_a_prefix(rt: HostRuntime) -> Result<(), Fail> {
    for room in 0..=40 {
        assert!(rt; is_cut_at(rt.alloc(), room)?, "{room}");
    }
    Ok(())
}

/// A blue rectangle with a green one in it, in which a black one stands, and a white one over its corner.
const NESTED: &str = r##"Rectangle { width: 3; height: 2; color: "#0000ff";
    Rectangle { x: 1; y: 1; width: 9; height: 1; color: "#00ff00";
        Rectangle { x: 1; width: 1; height: 1; color: "#000000" } }
    Rectangle { width: 1; height: 1 } }"##;

/// The first pixels of the first two rows of the nested rectangles.
fn has_nested_rows(image: &[u8]) -> bool {
    if image.len() != IMAGE {
        return false;
    }
    let first = &image[15..27];
    let second = &image[1935..1947];
    first == b"\xff\xff\xff\x00\x00\xff\x00\x00\xff\xff\xff\xff".as_slice()
        && second == b"\x00\x00\xff\x00\xff\x00\x00\x00\x00\x00\xff\x00".as_slice()
}

#[test]
fn children_move_with_their_parents(rt: HostRuntime) -> Result<(), Fail> {
    let given = Given {
        words: &["Main.qml", "script.txt"],
        files: &[("Main.qml", NESTED), ("script.txt", "frame")],
        failing: 0,
        room: IMAGE,
    };
    let outcome = outcome_of(rt.alloc(), &given)?;
    assert!(rt; has_nested_rows(outcome.frames.contents()));
    Ok(())
}

/// A main document and the document `A.qml`, which together show two red pixels.
const RED_UNITS: [(&str, &str); 12] = [
    (
        "A { }",
        r##"Rectangle { width: 2; height: 1; color: "red" }"##,
    ),
    (
        r##"A { width: 2; height: 1; color: "#F00" }"##,
        r##"Rectangle { x: 0; width: 9; height: 9; color: "blue" }"##,
    ),
    (
        "A { x: 0; A { x: 1 } }",
        r##"Rectangle { width: 1; height: 1; color: "#ffff0000" }"##,
    ),
    (
        r##"Item { Rectangle { width: 2; height: 1; color: "red" } QtObject { A { } } }"##,
        r##"Rectangle { width: 9; height: 9; color: "blue" }"##,
    ),
    (
        r##"Item { id: first; A { id: second; Rectangle { width: 2; height: 1; color: "red" } } }"##,
        "Item { id: first; Item { id: second } }",
    ),
    (
        r##"A { Rectangle { x: 1; width: 1; height: 1; color: "red" } }"##,
        r##"Item { Rectangle { width: 2; height: 1; color: "red" } Rectangle { x: 1; width: 1; height: 1 } }"##,
    ),
    (
        r##"Rectangle { color: "red"; property A a: A { width: 9; height: 9 } height: 1; width: 2 }"##,
        r##"Rectangle { color: "blue" }"##,
    ),
    (
        r##"A { count: 2; title: 'b'; lit: false; tint: "blue"; any: 1; other: null }"##,
        r##"Rectangle { width: 2; height: 1; color: "red"; property int count: 1; property string title
            property bool lit; property color tint; property var any; property Item other }"##,
    ),
    (
        r##"Rectangle { width: 2; height: 1; color: "red"; property real a: 1; property double b; property url c: 'd'
            property variant e: undefined; property QtObject f: QtObject { } }"##,
        "",
    ),
    (
        r##"Item { x: (0); Rectangle { width: 2; height: 1; color: ("red") } }"##,
        "",
    ),
    (
        r##"Rectangle { width: 2; height: 1; color: "red"; Rectangle { x: 640; width: 9; height: 9; color: "blue" } }"##,
        "",
    ),
    (
        r##"Rectangle { width: 2147483647; height: 2147483647; Rectangle { width: 2; height: 1; color: "red" } }"##,
        "",
    ),
];

fn is_drawn_of<'a>(alloc: Global, main: &'a str, other: &'a str) -> Result<bool, AllocError> {
    let given = Given {
        words: &["Main.qml", "script.txt"],
        files: &[
            ("Main.qml", main),
            ("A.qml", other),
            ("script.txt", "frame"),
        ],
        failing: 0,
        room: IMAGE,
    };
    let outcome = outcome_of(alloc, &given)?;
    Ok(is_two_red_pixels(outcome.frames.contents()))
}

#[test]
fn one_picture_of_two_documents(rt: HostRuntime) -> Result<(), Fail> {
    for (main, other) in RED_UNITS {
        assert!(rt; is_drawn_of(rt.alloc(), main, other)?, "{main}");
    }
    Ok(())
}

/// A main document with expressions and the document `A.qml`, which together show two red pixels.
const RED_EXPRESSIONS: [(&str, &str); 16] = [
    (
        r##"Rectangle { width: 1 + 1; height: width / 2; color: "r" + "ed" }"##,
        "",
    ),
    (
        r##"Rectangle { property int a: 3; property int b: 4; width: 2; height: b - a; color: a < b ? "red" : "blue" }"##,
        "",
    ),
    (
        r##"Rectangle { width: b.width + 1; height: 1; color: "red"; Rectangle { id: b; width: 1; height: 1; color: "red" } }"##,
        "",
    ),
    (
        r##"Item { Rectangle { x: -1; y: x; width: 3; height: 2; color: "red" } }"##,
        "",
    ),
    (
        r##"Rectangle { width: parent.width / 320; height: parent.height - 479; color: "red" }"##,
        "",
    ),
    (
        r##"Rectangle { width: 2; height: 1; Rectangle { width: parent.width; height: parent.height; color: "red" } }"##,
        "",
    ),
    (
        r##"Rectangle { property int a: 1; property int b: a; property int c: a + b; width: c; height: a; color: "red" }"##,
        "",
    ),
    (
        r##"Rectangle { property int a: b + 1; property int b: a + 1; width: a + 2; height: b; color: "red" }"##,
        "",
    ),
    (
        r##"Rectangle { width: 2; height: 1; color: "red"; x: 5 / 0; y: nope; property int a: "b" + 1 }"##,
        "",
    ),
    (
        r##"Rectangle { property int a: 2147483647 + 1; width: a + 2; height: "a" == "a" ? 1 : 2; color: "red" }"##,
        "",
    ),
    (
        r##"Rectangle { width: Math.max(1, Math.abs(-2)); height: Math.min(1, 7 % 4); color: "red" }"##,
        "",
    ),
    (
        r##"Rectangle { property string s: "#f" + 0 + "0"; width: 2; height: 1; color: s }"##,
        "",
    ),
    (
        r##"Rectangle { width: 2; height: 1; color: "red"; Rectangle { width: 2; height: 1; color: "#00" + "000000" } }"##,
        "",
    ),
    (
        r##"A { id: a; width: a.level; level: 2 }"##,
        r##"Rectangle { property int level; height: level / 2; color: "red" }"##,
    ),
    (
        r##"Item { property int lines: 1; A { width: lines + 1; height: lines } }"##,
        r##"Rectangle { property int level: 7; color: level == 7 ? "red" : "blue" }"##,
    ),
    (
        r##"Item { id: a; property Item of: b; A { id: b; height: a.of.width / 2 } }"##,
        r##"Rectangle { id: a; width: 2; color: a.parent ? "red" : "blue" }"##,
    ),
];

#[test]
fn one_picture_of_many_expressions(rt: HostRuntime) -> Result<(), Fail> {
    for (main, other) in RED_EXPRESSIONS {
        assert!(rt; is_drawn_of(rt.alloc(), main, other)?, "{main}");
    }
    Ok(())
}

/// An image whose first two pixels are red and blue, and all others white.
fn is_red_and_blue(image: &[u8]) -> bool {
    image.len() == IMAGE
        && image.starts_with(b"P6\n640 480\n255\n\xff\x00\x00\x00\x00\xff")
        && image.iter().skip(21).all(|byte| *byte == 0xff)
}

#[test]
fn a_document_in_another(rt: HostRuntime) -> Result<(), Fail> {
    let given = Given {
        words: &["Main.qml", "script.txt"],
        files: &[
            (
                "Main.qml",
                r##"Rectangle { width: 2; height: 1; color: "red"; A { x: 1 } }"##,
            ),
            (
                "A.qml",
                r##"Rectangle { width: 1; height: 1; color: "blue" }"##,
            ),
            ("script.txt", "frame"),
        ],
        failing: 0,
        room: IMAGE,
    };
    let outcome = outcome_of(rt.alloc(), &given)?;
    assert!(rt; is_red_and_blue(outcome.frames.contents()));
    Ok(())
}

/// Documents that each make ten of the next.
const TENFOLD: [(&str, &str); 5] = [
    ("A.qml", "Item { B{} B{} B{} B{} B{} B{} B{} B{} B{} B{} }"),
    ("B.qml", "Item { C{} C{} C{} C{} C{} C{} C{} C{} C{} C{} }"),
    ("C.qml", "Item { D{} D{} D{} D{} D{} D{} D{} D{} D{} D{} }"),
    ("D.qml", "Item { E{} E{} E{} E{} E{} E{} E{} E{} E{} E{} }"),
    ("E.qml", "Item { }"),
];

/// A main document over these, and whether the window stays white. One `A` makes 11,111 objects.
const CROWDS: [(&str, bool); 2] = [
    (
        r##"Rectangle { width: 2; height: 1; color: "red"; A{} A{} A{} A{} A{} A{} A{} A{} }"##,
        false,
    ),
    (
        r##"Rectangle { width: 2; height: 1; color: "red"; A{} A{} A{} A{} A{} A{} A{} A{} A{} }"##,
        true,
    ),
];

fn is_white(alloc: Global, main: &str) -> Result<bool, AllocError> {
    let [a, b, c, d, e] = TENFOLD;
    let given = Given {
        words: &["Main.qml", "script.txt"],
        files: &[("Main.qml", main), a, b, c, d, e, ("script.txt", "frame")],
        failing: 0,
        room: IMAGE,
    };
    let outcome = outcome_of(alloc, &given)?;
    let image = outcome.frames.contents();
    Ok(image.len() == IMAGE && image.iter().skip(15).all(|byte| *byte == 0xff))
}

#[test]
fn a_document_of_too_many_objects(rt: HostRuntime) -> Result<(), Fail> {
    for (main, white) in CROWDS {
        assert!(rt; is_white(rt.alloc(), main)? == white, "{main}");
    }
    Ok(())
}

/// A document, and the first pixels of its first row, red, green and blue each; all others of the row are white.
const ROWS: [(&str, &[u8]); 8] = [
    // a clip cuts what stands in the item, at whatever depth
    (
        "Item { x: 2; width: 2; height: 1; clip: true; Item { Rectangle { x: -1; width: 5; height: 1; color: 'black' } } }",
        b"\xff\xff\xff\xff\xff\xff\x00\x00\x00\x00\x00\x00\xff\xff\xff",
    ),
    // half of red over white, and over what was painted before
    (
        "Rectangle { width: 1; height: 1; color: '#80ff0000' }",
        b"\xff\x7f\x7f",
    ),
    (
        "Rectangle { width: 2; height: 1; color: 'blue'; Rectangle { x: 1; width: 1; height: 1; color: '#80ff0000' } }",
        b"\x00\x00\xff\x80\x00\x7f",
    ),
    // by z, and under its parent where that is below 0
    (
        "Rectangle { width: 2; height: 1; color: 'black'; Rectangle { z: 1; width: 1; height: 1; color: 'red' } Rectangle { width: 2; height: 1; color: 'lime' } Rectangle { z: -1; width: 3; height: 1; color: 'blue' } }",
        b"\xff\x00\x00\x00\xff\x00\x00\x00\xff",
    ),
    // equal z as they are made
    (
        "Item { Rectangle { z: 3; width: 2; height: 1; color: 'red' } Rectangle { z: 3; width: 1; height: 1; color: 'lime' } }",
        b"\x00\xff\x00\xff\x00\x00",
    ),
    // a border of one pixel round an inside of two
    (
        "Rectangle { y: -1; width: 4; height: 3; color: 'red'; border.color: 'black' }",
        b"\x00\x00\x00\xff\x00\x00\xff\x00\x00\x00\x00\x00",
    ),
    // one as wide as half of it takes all
    (
        "Rectangle { width: 2; height: 9; color: 'red'; border { width: 1; color: '#0000ff' } }",
        b"\x00\x00\xff\x00\x00\xff",
    ),
    (
        "Rectangle { width: 1; height: 1; color: 'transparent'; Rectangle { visible: false; width: 9; height: 9 } }",
        b"",
    ),
];

fn has_row(image: &[u8], pixels: &[u8]) -> bool {
    image.len() == IMAGE
        && image[15..].starts_with(pixels)
        && image
            .iter()
            .take(1935)
            .skip(15)
            .skip(pixels.len())
            .all(|byte| *byte == 0xff)
}

fn is_row_of(alloc: Global, document: &str, pixels: &[u8]) -> Result<bool, AllocError> {
    let given = Given {
        words: &["Main.qml", "script.txt"],
        files: &[("Main.qml", document), ("script.txt", "frame")],
        failing: 0,
        room: IMAGE,
    };
    let outcome = outcome_of(alloc, &given)?;
    Ok(has_row(outcome.frames.contents(), pixels))
}

#[test]
fn clips_blends_order_and_borders(rt: HostRuntime) -> Result<(), Fail> {
    for (document, pixels) in ROWS {
        assert!(rt; is_row_of(rt.alloc(), document, pixels)?, "{document}");
    }
    Ok(())
}
