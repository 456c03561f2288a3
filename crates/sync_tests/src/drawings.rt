use crate::pixels::{pixmap, written};
use crate::stage::{Look, ROOT, Stage};
use item_geometry::rects;
use std::alloc::{AllocError, Global};
use std::test::Fail;

const RED: u32 = 0xffff_0000;

const BLUE: u32 = 0xff00_00ff;

const BLACK: u32 = 0xff00_0000;

const HALF_RED: u32 = 0x80ff_0000;

/// No colour: what is painted in it is not seen.
const CLEAR: u32 = 0;

/// What canvases show before.
const GREEN: u32 = 0xff00_ff00;

/// What is special about an item.
#[derive(Clone, Copy, PartialEq, Eq)]
enum Way {
    Plain,
    Clips,
    Hidden,
    /// Its first child comes under its rectangle.
    Under,
    /// It has a blue border of one pixel.
    Bordered,
}

/// An item: its serial, its parent's, its place and size, what is special about it, and its colour.
type Added = (u64, u64, [i32; 4], Way, u32);

/// Items in the content item, and a letter for each of 4 times 3 pixels: red, blue, black or white, half red over
/// white or over blue.
const SCENES: [(&[Added], &str); 18] = [
    (&[], "WWWWWWWWWWWW"),
    (&[(2, 1, [1, 1, 2, 1], Way::Plain, RED)], "WWWWWRRWWWWW"),
    (&[(2, 1, [-1, 2, 3, 9], Way::Plain, RED)], "WWWWWWWWRRWW"),
    // with a border, which may leave no inside
    (&[(2, 1, [0, 0, 4, 3], Way::Bordered, RED)], "BBBBBRRBBBBB"),
    (&[(2, 1, [1, 0, 2, 3], Way::Bordered, RED)], "WBBWWBBWWBBW"),
    // siblings, the later one over the earlier one
    (
        &[
            (2, 1, [0, 0, 2, 1], Way::Plain, RED),
            (3, 1, [1, 0, 2, 1], Way::Plain, BLUE),
        ],
        "RBBWWWWWWWWW",
    ),
    (
        &[
            (2, 1, [0, 0, 2, 1], Way::Plain, BLUE),
            (3, 1, [1, 0, 2, 1], Way::Plain, HALF_RED),
        ],
        "BVHWWWWWWWWW",
    ),
    // in another item: moved with it, over it or under it
    (
        &[
            (2, 1, [1, 1, 2, 1], Way::Plain, RED),
            (3, 2, [1, 0, 2, 2], Way::Plain, BLUE),
        ],
        "WWWWWRBBWWBB",
    ),
    (
        &[
            (2, 1, [1, 1, 2, 1], Way::Under, RED),
            (3, 2, [1, 0, 2, 2], Way::Plain, BLUE),
        ],
        "WWWWWRRBWWBB",
    ),
    (
        &[
            (2, 1, [0, 0, 2, 1], Way::Under, RED),
            (3, 2, [0, 0, 3, 1], Way::Plain, BLUE),
            (4, 2, [1, 0, 1, 1], Way::Plain, BLACK),
        ],
        "RKBWWWWWWWWW",
    ),
    // clipped: itself and what is in it, by both clips
    (
        &[
            (2, 1, [1, 0, 2, 2], Way::Clips, CLEAR),
            (3, 2, [-1, 1, 9, 9], Way::Plain, BLACK),
        ],
        "WWWWWKKWWWWW",
    ),
    (
        &[
            (2, 1, [0, 0, 3, 1], Way::Clips, CLEAR),
            (3, 2, [1, 0, 9, 9], Way::Clips, CLEAR),
            (4, 3, [-9, -9, 99, 99], Way::Plain, BLACK),
        ],
        "WKKWWWWWWWWW",
    ),
    (
        &[
            (2, 1, [0, 0, 1, 1], Way::Clips, CLEAR),
            (3, 2, [2, 0, 2, 2], Way::Clips, CLEAR),
            (4, 3, [-9, -9, 99, 99], Way::Plain, BLACK),
        ],
        "WWWWWWWWWWWW",
    ),
    // a clip ends with its item
    (
        &[
            (2, 1, [0, 0, 1, 1], Way::Clips, RED),
            (3, 1, [1, 0, 3, 1], Way::Plain, BLUE),
        ],
        "RBBBWWWWWWWW",
    ),
    // without a clip, an item's size bounds nothing
    (
        &[
            (2, 1, [0, 0, 1, 1], Way::Plain, CLEAR),
            (3, 2, [1, 1, 3, 1], Way::Plain, BLUE),
        ],
        "WWWWWBBBWWWW",
    ),
    // hidden, with what is in it
    (&[(2, 1, [0, 0, 4, 3], Way::Hidden, RED)], "WWWWWWWWWWWW"),
    (
        &[
            (2, 1, [0, 0, 4, 3], Way::Hidden, RED),
            (3, 2, [0, 0, 1, 1], Way::Plain, BLUE),
            (4, 1, [1, 0, 1, 1], Way::Plain, BLUE),
        ],
        "WBWWWWWWWWWW",
    ),
    // as far as places go
    (
        &[
            (
                2,
                1,
                [i32::MIN, i32::MIN, i32::MAX, i32::MAX],
                Way::Plain,
                RED,
            ),
            (
                3,
                2,
                [i32::MAX, i32::MAX, i32::MAX, i32::MAX],
                Way::Plain,
                BLUE,
            ),
            (4, 3, [1, 1, 1, 1], Way::Plain, BLACK),
        ],
        "KBBBBBBBBBBB",
    ),
];

fn look(place: [i32; 4], way: Way, argb: u32) -> Look {
    let [x, y, w, h] = place;
    let border = if way == Way::Bordered {
        Some((1, BLUE))
    } else {
        None
    };
    Look {
        x,
        y,
        w,
        h,
        clip: way == Way::Clips,
        shown: way != Way::Hidden,
        rects: rects(w, h, argb, border),
        under: if way == Way::Under { 1 } else { 0 },
        reversed: false,
    }
}

/// The content item with items in it. Each looks so once its children are there, as some of them may come under it.
fn staged(alloc: Global, items: &[Added]) -> Result<Stage, AllocError> {
    let mut stage = Stage::new(alloc, look([0, 0, 4, 3], Way::Plain, CLEAR))?;
    for (serial, parent, place, way, argb) in items {
        stage = stage.grown(alloc, *parent, *serial, look(*place, *way, *argb))?;
    }
    for (serial, _, place, way, argb) in items {
        stage = stage.repainted(alloc, *serial, look(*place, *way, *argb))?;
    }
    Ok(stage)
}

/// What is written of the items, on a canvas that showed something else.
fn shown(alloc: Global, stage: Stage) -> Result<(Stage, Vec<u8>), AllocError> {
    let (stage, canvas) = stage.drawn(alloc, 4, 3, GREEN)?;
    let bytes = written(alloc, &canvas)?;
    Ok((stage, bytes))
}

/// Whether a scene of the items shows these letters.
fn shows(alloc: Global, items: &[Added], letters: &str) -> Result<bool, AllocError> {
    let (_, bytes) = shown(alloc, staged(alloc, items)?)?;
    let want = pixmap(alloc, 4, 3, letters)?;
    Ok(bytes.as_slice() == want.as_slice())
}

#[test]
fn scenes_on_a_canvas(rt: HostRuntime) -> Result<(), Fail> {
    for (items, letters) in SCENES {
        let same = shows(rt.alloc(), items, letters)?;
        assert!(rt; same);
    }
    Ok(())
}

/// What an item's later looks show, one sync after the other.
const LOOKS: [([i32; 4], Way, &str); 6] = [
    ([2, 1, 2, 1], Way::Plain, "WWWWWWRBWWWW"),
    ([0, 0, 2, 1], Way::Under, "RRWWWWWWWWWW"),
    ([0, 0, 1, 1], Way::Clips, "RWWWWWWWWWWW"),
    ([0, 0, 4, 3], Way::Hidden, "WWWWWWWWWWWW"),
    ([0, 0, 3, 3], Way::Bordered, "BBBWBRBWBBBW"),
    ([1, 1, 2, 1], Way::Plain, "WWWWWRBWWWWW"),
];

#[test]
fn frames_after_changes(rt: HostRuntime) -> Result<(), Fail> {
    let items: [Added; 2] = [
        (2, 1, [1, 1, 2, 1], Way::Plain, RED),
        (3, 2, [1, 0, 1, 1], Way::Plain, BLUE),
    ];
    let mut stage = staged(rt.alloc(), &items)?;
    for (place, way, letters) in LOOKS {
        let changed = stage.repainted(rt.alloc(), 2, look(place, way, RED))?;
        let (next, bytes) = shown(rt.alloc(), changed)?;
        let want = pixmap(rt.alloc(), 4, 3, letters)?;
        stage = next;
        assert!(rt; bytes.as_slice() == want.as_slice());
    }
    Ok(())
}

/// Items on as many levels as there may be, each in the one before and a pixel to its right, and the last one red.
fn staircase(alloc: Global) -> Result<Vec<u8>, AllocError> {
    let mut stage = Stage::new(alloc, look([0, 0, 0, 0], Way::Plain, CLEAR))?;
    for serial in 2..257 {
        stage = stage.grown(
            alloc,
            serial - 1,
            serial,
            look([1, 0, 0, 0], Way::Plain, CLEAR),
        )?;
    }
    let last = look([1, 0, 1, 1], Way::Plain, RED);
    let (_, canvas) = stage
        .grown(alloc, 256, 257, last)?
        .drawn(alloc, 258, 1, GREEN)?;
    written(alloc, &canvas)
}

/// A row of white pixels, of which one is red.
fn row_with_red(alloc: Global, width: u32, place: u32) -> Result<Vec<u8>, AllocError> {
    let mut bytes = pixmap(alloc, width, 1, "")?;
    for pixel in 0..width {
        bytes.extend_from_slice(if pixel == place {
            &[255, 0, 0]
        } else {
            &[255, 255, 255]
        })?;
    }
    Ok(bytes)
}

#[test]
fn nodes_on_all_levels(rt: HostRuntime) -> Result<(), Fail> {
    let got = staircase(rt.alloc())?;
    let want = row_with_red(rt.alloc(), 258, 256)?;
    assert!(rt; got.as_slice() == want.as_slice());
    Ok(())
}
