ghost use Rattle.std.specs.Prelude.{◌≡◌};
ghost use Rattle.color_text.specs.Spelled.{spelled_color};

use crate::digits::hexadecimal;
use crate::table::named;

/// The colour that a text spells, as 0xAARRGGBB: `#RGB` (each digit stands for two), `#RRGGBB` or
/// `#AARRGGBB` with hexadecimal digits in either case of letters, or a name of the table in any case of
/// letters. A colour without AA is opaque, as a named one is, but for `transparent`. None where the text
/// spells no colour. The forms and the names are from the SVG colours of the Qt 5 QML Reference, "color".
pub fn color_of(text: &str) -> Option<u32>
    ensures { result ≡ spelled_color text.now }
{
    match text.as_bytes() {
        [first, digits @ ..] => {
            if *first == b'#' {
                hexadecimal(digits)
            } else {
                named(text)
            }
        }
        [] => None,
    }
}
