use crate::given::{Ending, Given, IMAGE, RED, ends, is_refused, repeated};
use stage_run::{Status, exit_of, status_line};
use std::test::Fail;

const USAGE: &str =
    "qmlstage: usage: qmlstage MAIN SCRIPT [--size=WxH] [--schedule=LETTERS] [--stats]\n";

const NO_SCRIPT: &str = "qmlstage: bad script, line 0\n";

const WORDS: [&str; 2] = ["Main.qml", "script.txt"];

/// A document and a script, the number of the fetch that fails, the room for frames, and how the run ends.
const ENDINGS: [(&str, &str, u64, usize, &str, u8, usize, usize); 7] = [
    (RED, "frame\n", 0, IMAGE, "", 0, 1, IMAGE),
    (RED, "", 0, 0, "", 0, 0, 0),
    (
        RED,
        "frame\npress 1\n",
        0,
        IMAGE,
        "qmlstage: bad script, line 2\n",
        3,
        0,
        0,
    ),
    (
        "Row { }",
        "",
        0,
        0,
        "qmlstage: Main.qml:1:1: unsupported\n",
        4,
        0,
        0,
    ),
    (RED, "frame\n", 1, IMAGE, "qmlstage: read fault\n", 5, 0, 0),
    (RED, "frame\n", 2, IMAGE, "qmlstage: read fault\n", 5, 0, 0),
    (
        RED,
        "frame\n",
        0,
        IMAGE - 1,
        "qmlstage: write fault\n",
        6,
        1,
        IMAGE - 1,
    ),
];

#[test]
fn every_status_has_its_line_and_exit(rt: HostRuntime) -> Result<(), Fail> {
    for (document, script, failing, room, line, exit, moves, bytes) in ENDINGS {
        let given = Given {
            words: &WORDS,
            files: &[("Main.qml", document), ("script.txt", script)],
            failing,
            room,
        };
        let ending = Ending {
            line,
            exit,
            moves,
            bytes,
        };
        assert!(rt; ends(rt.alloc(), &given, &ending)?, "{line}");
    }
    Ok(())
}

/// Words over a folder that has `Main.qml` alone, with the line and the exit status of the run.
const NAMED: [(&[&str], &str, u8); 14] = [
    (&["Main.qml", "script.txt"], NO_SCRIPT, 3),
    (&[], USAGE, 2),
    (&["Main.qml"], USAGE, 2),
    (&["Main.qml", "s.txt", "more"], USAGE, 2),
    (&["--", "Main.qml", "s.txt"], USAGE, 2),
    (&["Main.qm", "s.txt"], USAGE, 2),
    (&[".qml", "s.txt"], USAGE, 2),
    (&["a/Main.qml", "s.txt"], USAGE, 2),
    (&["Main.qml", "a/s.txt"], USAGE, 2),
    (&["-Main.qml", "s.txt"], USAGE, 2),
    (&["Main.qml", "-"], USAGE, 2),
    (&["Main.qml", ""], USAGE, 2),
    (&["Ma\0in.qml", "s.txt"], USAGE, 2),
    (&["No.qml", "script.txt"], NO_SCRIPT, 3),
];

#[test]
fn words_name_a_document_and_a_script(rt: HostRuntime) -> Result<(), Fail> {
    for (words, line, exit) in NAMED {
        let given = Given {
            words,
            files: &[("Main.qml", RED)],
            failing: 0,
            room: 0,
        };
        let ending = Ending {
            line,
            exit,
            moves: 0,
            bytes: 0,
        };
        assert!(rt; ends(rt.alloc(), &given, &ending)?, "{line}");
    }
    Ok(())
}

/// The number of the fetch that fails while a document that mentions another is loaded, and the run's line.
const FETCHES: [(u64, &str, u8); 4] = [
    (1, "qmlstage: read fault\n", 5),
    (2, "qmlstage: read fault\n", 5),
    (3, "qmlstage: read fault\n", 5),
    (4, "qmlstage: write fault\n", 6),
];

#[test]
fn each_fetch_that_fails(rt: HostRuntime) -> Result<(), Fail> {
    for (failing, line, exit) in FETCHES {
        let given = Given {
            words: &WORDS,
            files: &[
                ("Main.qml", "A { }"),
                ("A.qml", RED),
                ("script.txt", "frame"),
            ],
            failing,
            room: 0,
        };
        let ending = Ending {
            line,
            exit,
            moves: if exit == 6 { 1 } else { 0 },
            bytes: 0,
        };
        assert!(rt; ends(rt.alloc(), &given, &ending)?, "{failing}");
    }
    Ok(())
}

#[test]
fn a_main_document_that_is_missing(rt: HostRuntime) -> Result<(), Fail> {
    let given = Given {
        words: &["No.qml", "script.txt"],
        files: &[("Main.qml", RED), ("script.txt", "")],
        failing: 0,
        room: 0,
    };
    let ending = Ending {
        line: "qmlstage: No.qml: missing\n",
        exit: 4,
        moves: 0,
        bytes: 0,
    };
    assert!(rt; ends(rt.alloc(), &given, &ending)?);
    Ok(())
}

/// How many letters stand before `.qml` in the first word, how many in the second, and the run's line.
const LENGTHS: [(usize, usize, &str, u8); 4] = [
    (251, 1, NO_SCRIPT, 3),
    (252, 1, USAGE, 2),
    (4, 255, NO_SCRIPT, 3),
    (4, 256, USAGE, 2),
];

#[test]
fn words_as_long_as_they_may_be(rt: HostRuntime) -> Result<(), Fail> {
    for (stem, script, line, exit) in LENGTHS {
        let mut main = repeated(rt.alloc(), "m", stem)?;
        main.push_str(".qml")?;
        let script = repeated(rt.alloc(), "s", script)?;
        let given = Given {
            words: &[main.as_str(), script.as_str()],
            files: &[],
            failing: 0,
            room: 0,
        };
        let ending = Ending {
            line,
            exit,
            moves: 0,
            bytes: 0,
        };
        assert!(rt; ends(rt.alloc(), &given, &ending)?, "{line}");
    }
    Ok(())
}

/// A line that a script repeats, how often, and how the run ends whose sink takes nothing.
const SCRIPTS: [(&str, usize, &str, u8, usize); 13] = [
    ("", 1, "", 0, 0),
    ("\n", 1, "qmlstage: bad script, line 1\n", 3, 0),
    ("frames\nframe\n", 1, "qmlstage: bad script, line 1\n", 3, 0),
    (
        "frame\nframe\nfram",
        1,
        "qmlstage: bad script, line 3\n",
        3,
        0,
    ),
    (
        "frame\n\nframe\n",
        1,
        "qmlstage: bad script, line 2\n",
        3,
        0,
    ),
    ("frame\r\n", 1, "qmlstage: bad script, line 1\n", 3, 0),
    ("frame \n", 1, "qmlstage: bad script, line 1\n", 3, 0),
    ("frame", 1, "qmlstage: write fault\n", 6, 1),
    ("frame\n", 1, "qmlstage: write fault\n", 6, 1),
    ("frame\n", 100_000, "qmlstage: write fault\n", 6, 1),
    (
        "frame\n",
        100_001,
        "qmlstage: bad script, line 100001\n",
        3,
        0,
    ),
    ("\n", 4_194_304, "qmlstage: bad script, line 1\n", 3, 0),
    ("\n", 4_194_305, NO_SCRIPT, 3, 0),
];

#[test]
fn lines_of_a_script(rt: HostRuntime) -> Result<(), Fail> {
    for (text, times, line, exit, moves) in SCRIPTS {
        let script = repeated(rt.alloc(), text, times)?;
        let given = Given {
            words: &WORDS,
            files: &[("Main.qml", RED), ("script.txt", script.as_str())],
            failing: 0,
            room: 0,
        };
        let ending = Ending {
            line,
            exit,
            moves,
            bytes: 0,
        };
        assert!(rt; ends(rt.alloc(), &given, &ending)?, "{text}");
    }
    Ok(())
}

/// A part of a document that is repeated before and one behind it, how often, and the run's line.
const LIMITS: [(&str, &str, &str, usize, &str, u8); 4] = [
    // The document itself has 51 bytes.
    (" ", RED, "", 1_048_525, "", 0),
    (" ", RED, "", 1_048_526, "qmlstage: Main.qml: too long\n", 4),
    ("Rectangle {", "", "}", 64, "", 0),
    (
        "Rectangle {",
        "",
        "}",
        65,
        "qmlstage: Main.qml:1:715: too deep\n",
        4,
    ),
];

#[test]
fn limits_of_a_document(rt: HostRuntime) -> Result<(), Fail> {
    for (before, middle, behind, times, line, exit) in LIMITS {
        let mut document = repeated(rt.alloc(), before, times)?;
        document.push_str(middle)?;
        document.push_str(repeated(rt.alloc(), behind, times)?.as_str())?;
        assert!(rt;
            is_refused(rt.alloc(), document.as_str(), "", line, exit)?,
            "{line}"
        );
    }
    Ok(())
}

#[test]
fn want_of_memory_has_its_line_and_exit(rt: HostRuntime) -> Result<(), Fail> {
    let line = status_line(rt.alloc(), &Status::NoMemory)?;
    let is_told = line.as_slice() == b"qmlstage: no memory\n".as_slice();
    assert!(rt; is_told && exit_of(&Status::NoMemory) == 7);
    Ok(())
}
