ghost use Rattle.std.specs.Prelude.{◌≡◌, ◌*◌, ◌%◌, ◌≤◌, length, EachIndex, slice_index};
ghost use Rattle.rect_raster.specs.Drawing.{channel_of, alpha_of, blended};
ghost use Rattle.rect_raster.specs.Bytes.{IsPattern, IsPainted};

use crate::area::Area;

/// How many bytes a row is painted by at a time: those of 16 pixels.
const PIECE: usize = 48;

/// A colour without its alpha.
#[derive(Clone, Copy)]
struct Rgb {
    red: u8,
    green: u8,
    blue: u8,
}

/// The colour that `argb` has below its highest byte.
#[tactic(auto, unfolding(crate::specs::Drawing::channel_of))]
fn rgb_of(argb: u32) -> Rgb
    ensures red { result.red ≡ channel_of argb 0 }
    ensures green { result.green ≡ channel_of argb 1 }
    ensures blue { result.blue ≡ channel_of argb 2 }
{
    Rgb {
        red: (argb >> 16 & 0xff) as u8,
        green: (argb >> 8 & 0xff) as u8,
        blue: (argb & 0xff) as u8,
    }
}

/// How opaque `argb` is: its highest byte.
#[tactic(auto, unfolding(crate::specs::Drawing::alpha_of))]
fn alpha_of(argb: u32) -> u8
    ensures { result ≡ alpha_of argb }
{
    (argb >> 24) as u8
}

/// Gives each pixel of a row the colour, whatever its alpha.
fn fill_row(row: &mut [u8], argb: u32)
    requires { length row.old % 3 ≡ 0 }
    ensures { IsPattern argb row.new }
{
    let Rgb { red, green, blue } = rgb_of(argb);
    for pixel in 0..row.len() / 3 {
        row[3 * pixel] = red;
        row[3 * pixel + 1] = green;
        row[3 * pixel + 2] = blue;
    }
}

/// A channel of a colour of this alpha over what lies below.
fn blended(source: u8, alpha: u8, below: u8) -> u8
    ensures { result ≡ blended source alpha below }
{
    let over = u16::from(source) * u16::from(alpha);
    let under = u16::from(below) * (255 - u16::from(alpha));
    ((over + under + 127) / 255) as u8
}

/// Paints bytes with as many of a pattern, of this alpha.
fn paint_part(part: &mut [u8], pattern: &[u8], alpha: u8)
    requires { length part.old ≤ length pattern.now }
    ensures { EachIndex part.new (λ k.
        slice_index part.new k ≡ blended (slice_index pattern.now k) alpha (slice_index part.old k)) }
{
    if alpha == 255 {
        let count = part.len();
        part.copy_from_slice(&pattern[..count]);
        return;
    }
    for k in 0..part.len() {
        part[k] = blended(pattern[k], alpha, part[k]);
    }
}

/// Paints a row with a pattern, of this alpha, that is repeated.
fn paint_row(row: &mut [u8], pattern: &[u8; PIECE], alpha: u8)
    ensures { EachIndex row.new (λ k.
        slice_index row.new k ≡ blended (slice_index pattern.now (k % 48)) alpha (slice_index row.old k)) }
{
    let pieces = row.len() / PIECE;
    for piece in 0..pieces {
        paint_part(
            &mut row[PIECE * piece..PIECE * piece + PIECE],
            pattern,
            alpha,
        );
    }
    paint_part(&mut row[PIECE * pieces..], pattern, alpha);
}

/// Paints each pixel of an area with the colour, in the bytes of a canvas that is `width` pixels wide.
pub(crate) fn paint_area(pixels: &mut [u8], width: usize, area: Area, argb: u32)
    requires columns { area.left ≤ area.right }
    requires rows { area.top ≤ area.bottom }
    requires within_width { area.right ≤ width }
    requires within_height { 3 * (width * area.bottom) ≤ length pixels.old }
    ensures { IsPainted area width argb pixels.old pixels.new }
{
    let mut pattern = [0; PIECE];
    fill_row(&mut pattern, argb);
    let alpha = alpha_of(argb);
    for row in area.top..area.bottom {
        let start = row * width;
        let part = &mut pixels[3 * (start + area.left)..3 * (start + area.right)];
        paint_row(part, &pattern, alpha);
    }
}
