//! Items on the most levels that there are.

use crate::makes::{component, grow, show_color, show_int};
use crate::pixels::{pixmap, written};
use item_paint::rectangle_slots::COLOR;
use item_paint::{CONTENT_ITEM, picture};
use object_tree::Objects;
use qml_ast::DocFault;
use std::alloc::Global;
use std::test::Fail;
use type_table::item_slots::{HEIGHT, WIDTH, X};

/// How many levels of items there may be below the content item.
const LEVELS: u64 = 256;

/// A window with so many items, each in the one before and a pixel to its right, the last one red.
fn staircase(alloc: Global, levels: u64) -> Result<Vec<u8>, DocFault> {
    let item = component(alloc, "Item { }")?;
    let last = component(alloc, "Rectangle { }")?;
    let mut objects = Objects::new(alloc)?;
    let mut parent = CONTENT_ITEM;
    for _ in 1..levels {
        parent = grow(alloc, &mut objects, &item, parent)?;
        show_int(&mut objects, parent, X, 1);
    }
    let rectangle = grow(alloc, &mut objects, &last, parent)?;
    show_int(&mut objects, rectangle, WIDTH, 1);
    show_int(&mut objects, rectangle, HEIGHT, 1);
    show_color(&mut objects, rectangle, COLOR, 0xffff_0000);
    let canvas = picture(alloc, &objects, 257, 1)?;
    Ok(written(alloc, &canvas)?)
}

/// A row of 257 pixels of which one is red.
fn row_with_red(alloc: Global, place: usize) -> Result<Vec<u8>, DocFault> {
    let mut bytes = pixmap(alloc, 257, 1, "")?;
    for pixel in 0..257 {
        bytes.extend_from_slice(if pixel == place {
            &[255, 0, 0]
        } else {
            &[255, 255, 255]
        })?;
    }
    Ok(bytes)
}

#[test]
fn a_staircase(rt: HostRuntime) -> Result<(), Fail> {
    let got = staircase(rt.alloc(), LEVELS)?;
    let want = row_with_red(rt.alloc(), 255)?;
    assert!(rt; got.as_slice() == want.as_slice());
    Ok(())
}
