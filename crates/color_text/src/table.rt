ghost use Rattle.std.specs.Prelude.{◌≡◌, map};
ghost use Rattle.std.specs.Str.{str_eq_ignore_ascii_case};
ghost use Rattle.color_text.specs.Spelled.{color_among, named_color};

/// Each name in lower case, with its colour as 0xAARRGGBB.
const NAMES: [(&str, u32); 29] = [
    ("black", 0xff00_0000),
    ("white", 0xffff_ffff),
    ("red", 0xffff_0000),
    ("lime", 0xff00_ff00),
    ("green", 0xff00_8000),
    ("blue", 0xff00_00ff),
    ("yellow", 0xffff_ff00),
    ("cyan", 0xff00_ffff),
    ("aqua", 0xff00_ffff),
    ("magenta", 0xffff_00ff),
    ("fuchsia", 0xffff_00ff),
    ("gray", 0xff80_8080),
    ("grey", 0xff80_8080),
    ("silver", 0xffc0_c0c0),
    ("maroon", 0xff80_0000),
    ("olive", 0xff80_8000),
    ("navy", 0xff00_0080),
    ("purple", 0xff80_0080),
    ("teal", 0xff00_8080),
    ("orange", 0xffff_a500),
    ("lightgray", 0xffd3_d3d3),
    ("darkgray", 0xffa9_a9a9),
    ("pink", 0xffff_c0cb),
    ("brown", 0xffa5_2a2a),
    ("gold", 0xffff_d700),
    ("tomato", 0xffff_6347),
    ("steelblue", 0xff46_82b4),
    ("lightsteelblue", 0xffb0_c4de),
    ("transparent", 0x0000_0000),
];

/// The colour of that name, in any case of letters.
#[tactic(auto, unfolding(crate::specs::Spelled::named_color))]
pub fn named(text: &str) -> Option<u32>
    ensures { result ≡ named_color text.now }
{
    color_among(&NAMES, text)
}

// The colour of that name among these.
fn color_among(names: &[(&str, u32)], text: &str) -> Option<u32>
    ensures { result ≡ color_among (map (λ entry. (entry.0.now, entry.1)) names.now) text.now }
{
    for entry in names {
        if is_alike(entry.0, text) {
            return Some(entry.1);
        }
    }
    None
}

// Whether the texts are the same but for the case of their letters.
fn is_alike(one: &str, other: &str) -> bool
    ensures { result ≡ str_eq_ignore_ascii_case one.now other.now }
{
    one.eq_ignore_ascii_case(other)
}
