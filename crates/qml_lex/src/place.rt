ghost use Rattle.std.specs.Prelude.{◌≡◌, ◌^◌, ◌≤◌, length};
ghost use Rattle.qml_lex.specs.Places.{place_of};

use qml_ast::span::Span;

/// The place of the byte at offset `end` of a text, by the place of the one at offset `start`.
#[inline(never)]
#[tactic(auto, using(crate::proofs::Placing::placing))]
pub fn advance(bytes: &[u8], place: Span, start: usize, end: usize) -> Span
    requires from { place ≡ place_of bytes.now start }
    requires order { start ≤ end }
    requires within { end ≤ length bytes.now }
    requires short { length bytes.now ≤ 2 ^ 31 }
    ensures { result ≡ place_of bytes.now end }
{
    let mut line = place.line;
    let mut col = place.col;
    for i in start..end {
        if bytes[i] == b'\n' {
            line += 1;
            col = 1;
        } else {
            col += 1;
        }
    }
    Span { line, col }
}

/// The place behind the last byte of a text, which has at most 2^31 bytes.
#[tactic(auto, unfolding(crate::specs::Places::line_after, crate::specs::Places::column_after))]
pub fn end_place(bytes: &[u8]) -> Span
    requires { length bytes.now ≤ 2 ^ 31 }
    ensures { result ≡ place_of bytes.now (length bytes.now) }
{
    advance(bytes, Span { line: 1, col: 1 }, 0, bytes.len())
}
