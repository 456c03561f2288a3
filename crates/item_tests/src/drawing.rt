use outside::MemSink;
use rect_raster::{Canvas, ClipRect, fill, write_ppm};
use std::alloc::{AllocError, Global};
use std::test::Fail;

const RED: u32 = 0xffff_0000;

const GREEN: u32 = 0xff00_ff00;

const BLUE: u32 = 0xff00_00ff;

/// A rectangle by its left, top, right and bottom edge, and its colour.
type Shape = ([i64; 4], u32);

/// Rectangles that are filled in order on a canvas of 3 by 2 pixels, and a letter for each of its
/// pixels then: red, green, blue or white, half red over white, and half red over that.
const PAINTED: [(&[Shape], &str); 24] = [
    (&[([0, 0, 3, 2], RED)], "RRRRRR"),
    (&[([1, 0, 3, 1], RED)], "WRRWWW"),
    // partly outside, at each side
    (&[([-2, 0, 1, 1], RED)], "RWWWWW"),
    (&[([2, 1, 9, 2], RED)], "WWWWWR"),
    (&[([0, -5, 2, 1], RED)], "RRWWWW"),
    (&[([1, 1, 2, 7], RED)], "WWWWRW"),
    // wholly outside, at each side
    (&[([-4, 0, 0, 2], RED)], "WWWWWW"),
    (&[([3, 0, 5, 2], RED)], "WWWWWW"),
    (&[([0, -3, 3, 0], RED)], "WWWWWW"),
    (&[([0, 2, 3, 4], RED)], "WWWWWW"),
    // no column, no row
    (&[([1, 0, 1, 2], RED)], "WWWWWW"),
    (&[([2, 0, 1, 2], RED)], "WWWWWW"),
    (&[([0, 1, 3, 1], RED)], "WWWWWW"),
    (&[([0, 2, 3, 0], RED)], "WWWWWW"),
    // as far as coordinates go
    (&[([i64::MIN, i64::MIN, i64::MAX, i64::MAX], RED)], "RRRRRR"),
    (&[([i64::MIN, 0, 2, 1], RED)], "RRWWWW"),
    (&[([2, 0, i64::MAX, i64::MAX], RED)], "WWRWWR"),
    (&[([i64::MAX, 0, i64::MIN, 2], RED)], "WWWWWW"),
    // nothing of a colour, and half of one twice
    (&[([0, 0, 3, 2], 0x00ff_0000)], "WWWWWW"),
    (
        &[([0, 0, 2, 1], 0x80ff_0000), ([1, 0, 3, 1], 0x80ff_0000)],
        "HQHWWW",
    ),
    // one over another
    (&[], "WWWWWW"),
    (&[([0, 0, 2, 2], RED), ([1, 1, 3, 2], BLUE)], "RRWRBB"),
    (&[([1, 1, 3, 2], BLUE), ([0, 0, 2, 2], RED)], "RRWRRB"),
    (
        &[
            ([0, 0, 3, 2], RED),
            ([1, 0, 3, 1], BLUE),
            ([1, 0, 2, 1], GREEN),
        ],
        "RGBRRR",
    ),
];

/// Fills a rectangle by its edges with a colour.
fn fill_edges(canvas: &mut Canvas, edges: [i64; 4], argb: u32) {
    let [left, top, right, bottom] = edges;
    let area = ClipRect {
        left,
        top,
        right,
        bottom,
    };
    fill(canvas, area, argb);
}

/// What is written of a canvas of 3 by 2 pixels on which the rectangles were filled in order.
fn painted(alloc: Global, shapes: &[Shape]) -> Result<Vec<u8>, Fail> {
    let mut canvas = Canvas::new(alloc, 3, 2)?;
    for (edges, argb) in shapes {
        fill_edges(&mut canvas, *edges, *argb);
    }
    let mut sink = MemSink::new(alloc, 5, 100)?;
    if write_ppm(&canvas, &mut sink).is_err() {
        return Err(Fail::from("the sink has no room"));
    }
    Ok(sink.contents().to_vec(alloc)?)
}

/// A pixmap of 3 by 2 pixels, a letter for each pixel.
fn pixmap(alloc: Global, pixels: &str) -> Result<Vec<u8>, AllocError> {
    let mut bytes = b"P6\n3 2\n255\n".to_vec(alloc)?;
    for pixel in pixels.bytes() {
        bytes.extend_from_slice(match pixel {
            b'R' => &[255, 0, 0],
            b'G' => &[0, 255, 0],
            b'B' => &[0, 0, 255],
            b'H' => &[255, 127, 127],
            b'Q' => &[255, 63, 63],
            _ => &[255, 255, 255],
        })?;
    }
    Ok(bytes)
}

#[test]
fn rectangles_on_a_canvas(rt: HostRuntime) -> Result<(), Fail> {
    for (shapes, want) in PAINTED {
        let got = painted(rt.alloc(), shapes)?;
        let wanted = pixmap(rt.alloc(), want)?;
        assert!(rt; got.as_slice() == wanted.as_slice());
    }
    Ok(())
}

/// The size of a canvas, the colour of its first two pixels, and what is written of it.
const WRITTEN: [(u32, u32, u32, &[u8]); 4] = [
    (
        3,
        1,
        RED,
        b"P6\n3 1\n255\n\xff\x00\x00\xff\x00\x00\xff\xff\xff",
    ),
    (1, 2, 0xff12_3456, b"P6\n1 2\n255\n\x12\x34\x56\xff\xff\xff"),
    (0, 5, RED, b"P6\n0 5\n255\n"),
    (12, 0, RED, b"P6\n12 0\n255\n"),
];

/// A sink that stops after so many bytes has got those that come first.
fn is_written(
    alloc: Global,
    canvas: &Canvas,
    want: &[u8],
    room: usize,
) -> Result<bool, AllocError> {
    let mut sink = MemSink::new(alloc, 4, room)?;
    let whole = write_ppm(canvas, &mut sink).is_ok();
    Ok(
        whole == (room == want.len())
            && want.starts_with(sink.contents())
            && sink.contents().len() == room,
    )
}

#[test]
fn bytes_of_a_pixmap(rt: HostRuntime) -> Result<(), Fail> {
    for (width, height, argb, want) in WRITTEN {
        let mut canvas = Canvas::new(rt.alloc(), width, height)?;
        fill_edges(&mut canvas, [0, 0, 2, 1], argb);
        for room in 0..=want.len() {
            let written = is_written(rt.alloc(), &canvas, want, room)?;
            assert!(rt; written);
        }
    }
    Ok(())
}

#[test]
fn a_canvas_of_too_many_bytes(rt: HostRuntime) -> Result<(), Fail> {
    assert!(rt; Canvas::new(rt.alloc(), u32::MAX, u32::MAX).is_err());
    Ok(())
}
