ghost use Rattle.std.specs.Prelude.{◌≡◌};
ghost use Rattle.color_text.specs.Spelled.{hex_digit, hex_byte, argb_of, color_of_bytes, hexadecimal_color};

/// The value of a hexadecimal digit, in either case.
fn hex_digit(byte: u8) -> Option<u8>
    ensures { result ≡ hex_digit byte }
{
    match byte {
        b'0'..=b'9' => Some(byte - b'0'),
        b'A'..=b'F' => Some(byte - b'A' + 10),
        b'a'..=b'f' => Some(byte - b'a' + 10),
        _ => None,
    }
}

/// The value of two hexadecimal digits, the higher one first.
fn hex_byte(first: u8, second: u8) -> Option<u8>
    ensures { result ≡ hex_byte first second }
{
    let high = hex_digit(first)?;
    let low = hex_digit(second)?;
    Some(high * 16 + low)
}

/// The colour of these bytes, as 0xAARRGGBB.
fn argb_of(alpha: u8, red: u8, green: u8, blue: u8) -> u32
    ensures { result ≡ argb_of alpha red green blue }
{
    u32::from(alpha) * 0x100_0000
        + u32::from(red) * 0x1_0000
        + u32::from(green) * 0x100
        + u32::from(blue)
}

/// The colour of these bytes, where all four are there.
fn color_of_bytes(
    alpha: Option<u8>,
    red: Option<u8>,
    green: Option<u8>,
    blue: Option<u8>,
) -> Option<u32>
    ensures { result ≡ color_of_bytes alpha red green blue }
{
    Some(argb_of(alpha?, red?, green?, blue?))
}

/// The colour that the digits behind `#` spell.
pub fn hexadecimal(digits: &[u8]) -> Option<u32>
    ensures { result ≡ hexadecimal_color digits.now }
{
    match digits {
        [r, g, b] => {
            let (red, green, blue) = (hex_byte(*r, *r), hex_byte(*g, *g), hex_byte(*b, *b));
            color_of_bytes(Some(255), red, green, blue)
        }
        [r, s, g, h, b, c] => {
            let (red, green, blue) = (hex_byte(*r, *s), hex_byte(*g, *h), hex_byte(*b, *c));
            color_of_bytes(Some(255), red, green, blue)
        }
        [a, z, r, s, g, h, b, c] => {
            let (red, green, blue) = (hex_byte(*r, *s), hex_byte(*g, *h), hex_byte(*b, *c));
            color_of_bytes(hex_byte(*a, *z), red, green, blue)
        }
        _ => None,
    }
}
