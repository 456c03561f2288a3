ghost use Rattle.std.specs.Prelude.{◌≡◌, ◌<◌, ◌≤◌, length, option_map, IfSome};
ghost use Rattle.qml_lex.specs.Marks.{mark_of};

/// How many bytes the longest mark has with which a text begins.
#[tactic(auto, unfolding(crate::specs::Marks::mark_of))]
pub fn mark_len(text: &[u8]) -> Option<usize>
    ensures value { result ≡ option_map length (mark_of text.now) }
    ensures within { IfSome result (λ n. (0 < n) × (n ≤ length text.now)) }
{
    match text {
        [b'=' | b'!', b'=', b'=', ..] => Some(3),
        [
            b'<' | b'>' | b'=' | b'!' | b'+' | b'-' | b'*' | b'/',
            b'=',
            ..
        ]
        | [b'&', b'&', ..]
        | [b'|', b'|', ..]
        | [b'+', b'+', ..]
        | [b'-', b'-', ..] => Some(2),
        [
            b'{'
            | b'}'
            | b'('
            | b')'
            | b'['
            | b']'
            | b';'
            | b':'
            | b','
            | b'.'
            | b'?'
            | b'+'
            | b'-'
            | b'*'
            | b'/'
            | b'%'
            | b'!'
            | b'<'
            | b'>'
            | b'=',
            ..
        ] => Some(1),
        _ => None,
    }
}
