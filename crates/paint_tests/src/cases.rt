//! What windows show of items.

use crate::makes::{component, grow, show_bool, show_color, show_int};
use crate::pixels::{pixmap, written};
use item_paint::rectangle_slots::{BORDER_COLOR, BORDER_WIDTH, COLOR};
use item_paint::{CONTENT_ITEM, item_paint, picture};
use object_tree::Objects;
use qml_ast::DocFault;
use std::alloc::Global;
use std::test::Fail;
use type_table::item_slots::{CLIP, HEIGHT, VISIBLE, WIDTH, X, Y, Z};

const RED: u32 = 0xffff_0000;

const GREEN: u32 = 0xff00_ff00;

const BLUE: u32 = 0xff00_00ff;

const BLACK: u32 = 0xff00_0000;

const MOST: i32 = i32::MAX;

const LEAST: i32 = i32::MIN;

/// Items by a document, what their slots show, under their serials, of which the document's root has 2, and
/// what a window shows of them: a letter for each pixel.
#[derive(Drop)]
struct Case {
    text: &'static str,
    /// x, y, width and height.
    boxes: &'static [(u64, [i32; 4])],
    colors: &'static [(u64, u32)],
    z: &'static [(u64, i32)],
    borders: &'static [(u64, i32, u32)],
    clips: &'static [u64],
    hidden: &'static [u64],
    size: (u32, u32),
    letters: &'static str,
}

const PLAIN: Case = Case {
    text: "Rectangle { }",
    boxes: &[],
    colors: &[],
    z: &[],
    borders: &[],
    clips: &[],
    hidden: &[],
    size: (1, 1),
    letters: "W",
};

/// Colours over white, and items that are not painted.
static BLENDS: [Case; 4] = [
    PLAIN,
    // half red over white
    Case {
        boxes: &[(2, [0, 0, 1, 1])],
        colors: &[(2, 0x80ff_0000)],
        letters: "H",
        ..PLAIN
    },
    // an object that is a property's value isn't painted, nor is what isn't an item
    Case {
        text: "Item { property Item p: Rectangle { } QtObject { } Rectangle { } }",
        boxes: &[(3, [0, 0, 2, 1]), (5, [1, 0, 1, 1])],
        colors: &[(3, RED), (5, BLUE)],
        size: (2, 1),
        letters: "WB",
        ..PLAIN
    },
    // other items than Rectangles show nothing by themselves
    Case {
        text: "Row { Column { Item { } } MouseArea { Loader { } } }",
        boxes: &[(2, [0, 0, 2, 1]), (3, [0, 0, 2, 1]), (5, [0, 0, 2, 1])],
        size: (2, 1),
        letters: "WW",
        ..PLAIN
    },
];

/// Orders of painting.
static ORDERS: [Case; 3] = [
    // children of negative z under their parent, and those of one z as they were made
    Case {
        text: "Rectangle { Rectangle { } Rectangle { } Rectangle { } }",
        boxes: &[
            (2, [0, 0, 2, 1]),
            (3, [0, 0, 4, 1]),
            (4, [0, 0, 1, 1]),
            (5, [0, 0, 1, 1]),
        ],
        colors: &[(2, BLUE), (3, RED), (4, GREEN), (5, BLACK)],
        z: &[(3, -1)],
        size: (5, 1),
        letters: "KBRRW",
        ..PLAIN
    },
    // a greater z over a later child
    Case {
        text: "Item { Rectangle { } Rectangle { } Rectangle { } }",
        boxes: &[(3, [0, 0, 3, 1]), (4, [0, 0, 2, 1]), (5, [0, 0, 1, 1])],
        colors: &[(3, RED), (4, GREEN), (5, BLUE)],
        z: &[(3, 1), (5, -7)],
        size: (4, 1),
        letters: "RRRW",
        ..PLAIN
    },
    // the children of an item under its own content are under that of its parent's later children too
    Case {
        text: "Item { Rectangle { Rectangle { } } Rectangle { } }",
        boxes: &[(3, [0, 0, 1, 1]), (4, [0, 0, 3, 1]), (5, [1, 0, 1, 1])],
        colors: &[(3, RED), (4, GREEN), (5, BLUE)],
        z: &[(4, -1)],
        size: (4, 1),
        letters: "RBGW",
        ..PLAIN
    },
];

/// Clips, and what is not shown.
static CLIPS: [Case; 5] = [
    // a clip reaches what stands in the children
    Case {
        text: "Item { Item { Rectangle { } } }",
        boxes: &[(2, [2, 0, 2, 1]), (4, [-1, 0, 5, 1])],
        colors: &[(4, BLACK)],
        clips: &[2],
        size: (6, 1),
        letters: "WWKKWW",
        ..PLAIN
    },
    // two clips, one in the other, and the same without the inner one
    Case {
        text: "Item { Item { Rectangle { } } }",
        boxes: &[(2, [1, 0, 3, 2]), (3, [2, 1, 9, 9]), (4, [-9, -9, 99, 99])],
        colors: &[(4, RED)],
        clips: &[2, 3],
        size: (5, 2),
        letters: "WWWWWWWWRW",
        ..PLAIN
    },
    Case {
        text: "Item { Item { Rectangle { } } }",
        boxes: &[(2, [1, 0, 3, 2]), (3, [2, 1, 9, 9]), (4, [-9, -9, 99, 99])],
        colors: &[(4, RED)],
        clips: &[2],
        size: (5, 2),
        letters: "WRRRWWRRRW",
        ..PLAIN
    },
    // an item's own rectangles are cut too, and so are children under them
    Case {
        text: "Rectangle { Rectangle { } }",
        boxes: &[(2, [1, 0, 1, 1]), (3, [-1, 0, 3, 1])],
        colors: &[(2, 0x80ff_0000), (3, BLUE)],
        z: &[(3, -1)],
        clips: &[2],
        size: (4, 1),
        letters: "WVWW",
        ..PLAIN
    },
    // an item that isn't shown, with all that is in it
    Case {
        text: "Item { Item { Rectangle { } } Rectangle { } }",
        boxes: &[(4, [0, 0, 2, 1]), (5, [1, 0, 1, 1])],
        colors: &[(4, RED), (5, BLUE)],
        hidden: &[3],
        size: (2, 1),
        letters: "WB",
        ..PLAIN
    },
];

/// Borders.
static BORDERS: [Case; 7] = [
    // a border is named by its colour, or by its width
    Case {
        text: "Rectangle { border.color: \"black\" }",
        boxes: &[(2, [0, 0, 3, 3])],
        colors: &[(2, RED)],
        borders: &[(2, 1, BLACK)],
        size: (3, 3),
        letters: "KKKKRKKKK",
        ..PLAIN
    },
    Case {
        text: "Rectangle { border.width: 1 }",
        boxes: &[(2, [0, 0, 4, 3])],
        colors: &[(2, RED)],
        borders: &[(2, 1, BLUE)],
        size: (4, 3),
        letters: "BBBBBRRBBBBB",
        ..PLAIN
    },
    // one that isn't named is none
    Case {
        boxes: &[(2, [0, 0, 3, 3])],
        colors: &[(2, RED)],
        borders: &[(2, 1, BLACK)],
        size: (3, 3),
        letters: "RRRRRRRRR",
        ..PLAIN
    },
    // nor is one of no width, or of less
    Case {
        text: "Rectangle { border.width: 0 }",
        boxes: &[(2, [0, 0, 3, 1])],
        colors: &[(2, RED)],
        borders: &[(2, 0, BLACK)],
        size: (3, 1),
        letters: "RRR",
        ..PLAIN
    },
    Case {
        text: "Rectangle { border.width: -1 }",
        boxes: &[(2, [0, 0, 3, 1])],
        colors: &[(2, RED)],
        borders: &[(2, LEAST, BLACK)],
        size: (3, 1),
        letters: "RRR",
        ..PLAIN
    },
    // one that leaves no inside takes all, once
    Case {
        text: "Rectangle { border.width: 1 }",
        boxes: &[(2, [0, 0, 3, 2])],
        colors: &[(2, BLUE)],
        borders: &[(2, 1, 0x80ff_0000)],
        size: (4, 2),
        letters: "HHHWHHHW",
        ..PLAIN
    },
    // and one that leaves some paints no pixel twice
    Case {
        text: "Rectangle { border.width: 1 }",
        boxes: &[(2, [0, 0, 3, 3])],
        colors: &[(2, 0x80ff_0000)],
        borders: &[(2, 1, 0x80ff_0000)],
        size: (3, 3),
        letters: "HHHHHHHHH",
        ..PLAIN
    },
];

/// Sizes below 0, and places that are far.
static ENDS: [Case; 3] = [
    // a size below 0 has no rectangles, and its children stand where it begins
    Case {
        text: "Rectangle { Rectangle { } }",
        boxes: &[(2, [1, 0, -3, 1]), (3, [0, 0, 1, 1])],
        colors: &[(2, BLUE), (3, RED)],
        size: (3, 1),
        letters: "WRW",
        ..PLAIN
    },
    // and nothing is seen in it where it clips
    Case {
        text: "Rectangle { Rectangle { } }",
        boxes: &[(2, [1, 0, 3, -1]), (3, [-9, -9, 99, 99])],
        colors: &[(2, BLUE), (3, RED)],
        clips: &[2],
        size: (3, 1),
        letters: "WWW",
        ..PLAIN
    },
    // places that are no 32 bits on the way
    Case {
        text: "Item { Item { Item { Rectangle { Rectangle { } } } } }",
        boxes: &[
            (2, [MOST, LEAST, MOST, MOST]),
            (3, [MOST, LEAST, 0, 0]),
            (4, [LEAST, MOST, 0, 0]),
            (5, [LEAST + 3, MOST, MOST, MOST]),
            (6, [-1, 2, 1, 1]),
        ],
        colors: &[(5, RED), (6, BLUE)],
        size: (3, 1),
        letters: "BRR",
        ..PLAIN
    },
];

/// Has items stand at these places, and have these sizes.
fn show_boxes(objects: &mut Objects, boxes: &[(u64, [i32; 4])]) {
    for (serial, [x, y, width, height]) in boxes {
        show_int(objects, *serial, X, *x);
        show_int(objects, *serial, Y, *y);
        show_int(objects, *serial, WIDTH, *width);
        show_int(objects, *serial, HEIGHT, *height);
    }
}

/// Has Rectangles show these borders.
fn show_borders(objects: &mut Objects, borders: &[(u64, i32, u32)]) {
    for (serial, width, argb) in borders {
        show_int(objects, *serial, BORDER_WIDTH, *width);
        show_color(objects, *serial, BORDER_COLOR, *argb);
    }
}

/// Has slots show what a case says.
fn show(objects: &mut Objects, case: &Case) {
    show_boxes(objects, case.boxes);
    show_borders(objects, case.borders);
    for (serial, argb) in case.colors {
        show_color(objects, *serial, COLOR, *argb);
    }
    for (serial, z) in case.z {
        show_int(objects, *serial, Z, *z);
    }
    for serial in case.clips {
        show_bool(objects, *serial, CLIP, true);
    }
    for serial in case.hidden {
        show_bool(objects, *serial, VISIBLE, false);
    }
}

/// What a window shows of a case.
fn painted(alloc: Global, case: &Case) -> Result<Vec<u8>, DocFault> {
    let component = component(alloc, case.text)?;
    let mut objects = Objects::new(alloc)?;
    grow(alloc, &mut objects, &component, CONTENT_ITEM)?;
    show(&mut objects, case);
    let canvas = picture(alloc, &objects, case.size.0, case.size.1)?;
    Ok(written(alloc, &canvas)?)
}

/// Whether a window shows what a case says.
fn is_painted(alloc: Global, case: &Case) -> Result<bool, DocFault> {
    let got = painted(alloc, case)?;
    let want = pixmap(alloc, case.size.0, case.size.1, case.letters)?;
    Ok(got.as_slice() == want.as_slice())
}

/// Whether windows show what all cases say.
fn are_painted(alloc: Global, cases: &[Case]) -> Result<bool, DocFault> {
    for case in cases {
        let is = is_painted(alloc, case)?;
        if !is {
            return Ok(false);
        }
    }
    Ok(true)
}

#[test]
fn colours_and_objects(rt: HostRuntime) -> Result<(), Fail> {
    assert!(rt; are_painted(rt.alloc(), &BLENDS)?);
    Ok(())
}

#[test]
fn orders_of_painting(rt: HostRuntime) -> Result<(), Fail> {
    assert!(rt; are_painted(rt.alloc(), &ORDERS)?);
    Ok(())
}

#[test]
fn clips_in_clips(rt: HostRuntime) -> Result<(), Fail> {
    assert!(rt; are_painted(rt.alloc(), &CLIPS)?);
    Ok(())
}

#[test]
fn borders_of_rectangles(rt: HostRuntime) -> Result<(), Fail> {
    assert!(rt; are_painted(rt.alloc(), &BORDERS)?);
    Ok(())
}

#[test]
fn ends_of_the_range(rt: HostRuntime) -> Result<(), Fail> {
    assert!(rt; are_painted(rt.alloc(), &ENDS)?);
    Ok(())
}

/// Which objects have a paint.
fn has_paint(alloc: Global) -> Result<bool, DocFault> {
    let component = component(alloc, "Item { QtObject { } }")?;
    let mut objects = Objects::new(alloc)?;
    grow(alloc, &mut objects, &component, CONTENT_ITEM)?;
    Ok(
        item_paint(alloc, &objects, CONTENT_ITEM)?.is_some()
            && item_paint(alloc, &objects, 2)?.is_some()
            && item_paint(alloc, &objects, 3)?.is_none()
            && item_paint(alloc, &objects, 4)?.is_none(),
    )
}

#[test]
fn items_have_a_paint(rt: HostRuntime) -> Result<(), Fail> {
    assert!(rt; has_paint(rt.alloc())?);
    Ok(())
}
