//! Pictures as letters.

use outside::MemSink;
use rect_raster::{Canvas, write_ppm};
use std::alloc::{AllocError, Global};

/// What is written of a canvas.
pub fn written(alloc: Global, canvas: &Canvas) -> Result<Vec<u8>, AllocError> {
    let mut sink = MemSink::new(alloc, 1000, 100_000)?;
    if write_ppm(canvas, &mut sink).is_err() {
        return Err(AllocError);
    }
    sink.contents().to_vec(alloc)
}

/// The bytes of a pixel: red, blue, black, half red over white or over blue, or white.
fn rgb_of(letter: u8) -> &'static [u8] {
    match letter {
        b'R' => &[255, 0, 0],
        b'B' => &[0, 0, 255],
        b'K' => &[0, 0, 0],
        b'H' => &[255, 127, 127],
        b'V' => &[128, 0, 127],
        _ => &[255, 255, 255],
    }
}

/// A pixmap of so many columns and rows, a letter for each pixel.
pub fn pixmap(
    alloc: Global,
    width: u32,
    height: u32,
    letters: &str,
) -> Result<Vec<u8>, AllocError> {
    let header = format!(in alloc; "P6\n{width} {height}\n255\n")?;
    let mut bytes = header.as_bytes().to_vec(alloc)?;
    for letter in letters.bytes() {
        bytes.extend_from_slice(rgb_of(letter))?;
    }
    Ok(bytes)
}
