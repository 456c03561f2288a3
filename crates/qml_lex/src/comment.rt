ghost use Rattle.std.specs.Prelude.{◌≡◌, ◌+◌, ◌≤◌, length, IfSome};
ghost use Rattle.std.specs.List.{position_or_len};
ghost use Rattle.qml_lex.specs.Bytes.{is_line_end};
ghost use Rattle.qml_lex.specs.Pieces.{before_close};

/// How many bytes stand before the end of the first line.
#[inline(never)]
pub fn line_len(text: &[u8]) -> usize
    ensures value { result ≡ position_or_len is_line_end text.now }
    ensures within { result ≤ length text.now }
{
    let mut at = 0;
    while at < text.len() && text[at] != b'\n' {
        at += 1;
    }
    at
}

/// How many bytes stand before the first `*/`, if there is one.
pub fn before_close(text: &[u8]) -> Option<usize>
    ensures value { result ≡ before_close text.now }
    ensures within { IfSome result (λ n. n + 2 ≤ length text.now) }
{
    let mut rest = text;
    let mut passed = 0;
    while let [_, following @ ..] = rest {
        if let [b'*', b'/', ..] = rest {
            return Some(passed);
        }
        rest = following;
        passed += 1;
    }
    None
}
