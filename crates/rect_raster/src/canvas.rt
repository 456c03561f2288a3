ghost use Rattle.std.specs.Prelude.{◌≡◌, ℕ, ◌≤◌, List, [], ◌∷◌, ◌++◌, IfOk, OnOk, OnErr};
ghost use Rattle.std.specs.Io.KnownBytes.{Appends};
ghost use Rattle.outside.specs.Bytes.{AppendsPart};
ghost use Rattle.outside.specs.Count.{Rose};
ghost use Rattle.rect_raster.specs.Picture.{ppm};
ghost use Rattle.rect_raster.specs.Drawing.{Shape, shape_of, painted_over, drawing};

use crate::area::clipped;
use crate::bytes::paint_area;
use item_geometry::ClipRect;
use outside::{Sink, SinkFailed, write_whole};
use std::alloc::{AllocError, Global};
use std::marker::Model;

/// The pixels of a window. Contracts see it as a picture: its width and height in pixels, and three
/// bytes a pixel, red, green and blue, by rows from the top.
#[derive(Drop)]
pub struct Canvas {
    width: u32,
    height: u32,
    // What a binary pixmap of this size has before its pixels.
    header: String,
    pixels: Vec<u8>,
}

impl Model for Canvas {
    ghost use Rattle.std.specs.Prelude.{◌≡◌, length};
    ghost use Rattle.std.specs.String.{string_bytes};
    ghost use Rattle.rect_raster.specs.Picture.{Picture, picture_of, byte_count, ppm_header};

    ghost Value = { Picture };

    ghost view = { λ c. picture_of c.width c.height c.pixels.items };

    ghost invariant = { λ c. (string_bytes c.header ≡ ppm_header c.width c.height)
        × (length c.pixels.items ≡ byte_count c.width c.height) };
}

impl Canvas {
    /// A white canvas, of `width` times `height` pixels. Its only error is that memory ran out, or that
    /// its pixels take more bytes than a `usize` counts.
    pub fn new(alloc: Global, width: u32, height: u32) -> Result<Canvas, AllocError>
        ensures { IfOk result (λ canvas. canvas ≡ drawing width height []) }
    {
        let size = (width as usize * height as usize)
            .checked_mul(3)
            .ok_or(AllocError)?;
        let header = format!(in alloc; "P6\n{width} {height}\n255\n")?;
        let pixels = vec![in alloc; 255; size]?;
        Ok(Canvas {
            width,
            height,
            header,
            pixels,
        })
    }
}

/// Paints a rectangle, as far as the canvas has it, with a colour: alpha, red, green and blue, from the
/// highest byte to the lowest. Each of its pixels is then the colour over what the pixel was: a channel `d`
/// becomes `(s * a + d * (255 - a) + 127) / 255`, where `s` is the colour's channel and `a` its alpha.
pub fn fill(canvas: &mut Canvas, rect: ClipRect, argb: u32)
    ensures over { canvas.new ≡ painted_over (shape_of rect argb) canvas.old }

    // Whatever shapes the canvas showed before, it shows those and then this one.
    ensures drawn { (width height : ℕ) (shapes : List Shape) → canvas.old ≡ drawing width height shapes
        → canvas.new ≡ drawing width height (shapes ++ shape_of rect argb ∷ []) }
{
    let area = clipped(rect, canvas.width, canvas.height);
    let width = canvas.width as usize;
    paint_area(&mut canvas.pixels, width, area, argb);
}

/// Makes each pixel of a canvas white, whatever it showed.
pub fn clear(canvas: &mut Canvas)
    ensures { canvas.new ≡ drawing canvas.old.width canvas.old.height [] }
{
    canvas.pixels.fill(255);
}

/// Writes a canvas as a binary pixmap, Netpbm's P6. It fails where a write of the sink failed, and the
/// sink has then got the pixmap's first bytes, maybe none.
pub fn write_ppm<S: Sink>(canvas: &Canvas, sink: &mut S) -> Result<(), SinkFailed>
    ensures whole { OnOk result (Appends (S.contents sink.old) (S.contents sink.new) (ppm canvas.now)) }
    ensures part { OnErr result (AppendsPart (S.contents sink.old) (S.contents sink.new) (ppm canvas.now)) }
    ensures later { S.faults sink.old ≤ S.faults sink.new }
    ensures failed { OnErr result (Rose (S.faults sink.old) (S.faults sink.new)) }
{
    let header = canvas.header.as_bytes();
    let pixels = canvas.pixels.as_slice();
    write_whole(sink, header)?;
    write_whole(sink, pixels)
}
