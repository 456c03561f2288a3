//! What lists of rectangles draw.

use crate::pixels::{pixmap, written};
use item_geometry::{ClipRect, RectPart, Rects};
use painting::{Painted, Reach, draw, drawn};
use scene::{Children, Paint};
use std::alloc::{AllocError, Global};
use std::test::Fail;

const RED: u32 = 0xffff_0000;

/// An item that clips, without children.
fn clipping(alloc: Global, x: i32, y: i32, w: i32, h: i32) -> Paint {
    Paint {
        x,
        y,
        w,
        h,
        clip: true,
        shown: true,
        rects: Rects::Zero,
        children: Children::new(alloc),
        under: 0,
    }
}

/// A part of an item's own, as it is seen in another one that clips.
fn seen(alloc: Global) -> Painted {
    let item = clipping(alloc, 1, 2, 3, 4);
    let part = RectPart {
        x: -1,
        y: 1,
        w: 3,
        h: 9,
        argb: RED,
    };
    Reach::window().inside(&item).part(part)
}

const SEEN: Painted = Painted {
    left: 1,
    top: 3,
    right: 3,
    bottom: 6,
    argb: RED,
};

const SEEN_AREA: ClipRect = ClipRect {
    left: 1,
    top: 3,
    right: 3,
    bottom: 6,
};

#[test]
fn a_part_that_is_cut(rt: HostRuntime) {
    let part = seen(rt.alloc());
    assert!(rt; part == SEEN && part.area() == SEEN_AREA);
}

const LIST: [Painted; 3] = [
    Painted {
        left: 0,
        top: 0,
        right: 2,
        bottom: 1,
        argb: 0xff00_00ff,
    },
    Painted {
        left: 1,
        top: 0,
        right: 3,
        bottom: 1,
        argb: 0x80ff_0000,
    },
    Painted {
        left: -5,
        top: 1,
        right: 1,
        bottom: i64::MAX,
        argb: 0xff00_0000,
    },
];

/// A canvas that shows the list, drawn at once or its last one apart.
fn shows_list(alloc: Global, want: &[u8]) -> Result<bool, AllocError> {
    let at_once = drawn(alloc, &LIST, 4, 2)?;
    let mut apart = drawn(alloc, &LIST[..2], 4, 2)?;
    draw(&mut apart, &LIST[2..]);
    let first = written(alloc, &at_once)?;
    let second = written(alloc, &apart)?;
    Ok(first.as_slice() == want && second.as_slice() == want)
}

#[test]
fn a_list_on_a_canvas(rt: HostRuntime) -> Result<(), Fail> {
    let want = pixmap(rt.alloc(), 4, 2, "BVHWKWWW")?;
    assert!(rt; shows_list(rt.alloc(), &want)?);
    Ok(())
}
