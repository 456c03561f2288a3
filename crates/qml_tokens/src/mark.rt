ghost use Rattle.std.specs.Prelude.{◌≡◌};
ghost use Rattle.qml_grammar.specs.Marks.{mark_text};
ghost use Rattle.qml_lex.specs.Meaning.{IsSpelled};
ghost use Rattle.qml_lex.specs.declared.token.TokenKind.TheVariants as kinds;
ghost use Rattle.qml_tokens.specs.Marks.{mark_of};

use qml_grammar::Mark;

/// The mark that is written so.
pub fn mark(text: &[u8]) -> Mark
    requires { IsSpelled kinds.Mark text.now }
    ensures { text.now ≡ mark_text result }
{
    match mark_of(text) {
        Some(mark) => mark,
        None => unreachable!(),
    }
}

// The mark that is written so, if one is.
#[tactic(auto, unfolding(qml_grammar::specs::Marks::mark_text))]
fn mark_of(text: &[u8]) -> Option<Mark>
    ensures { result ≡ mark_of text.now }
{
    match text {
        b"===" => Some(Mark::TripleEqual),
        b"!==" => Some(Mark::BangDoubleEqual),
        b"<=" => Some(Mark::LessEqual),
        b">=" => Some(Mark::GreaterEqual),
        b"==" => Some(Mark::EqualEqual),
        b"!=" => Some(Mark::BangEqual),
        b"&&" => Some(Mark::DoubleAmpersand),
        b"||" => Some(Mark::DoubleBar),
        b"+=" => Some(Mark::PlusEqual),
        b"-=" => Some(Mark::MinusEqual),
        b"*=" => Some(Mark::StarEqual),
        b"/=" => Some(Mark::SlashEqual),
        b"++" => Some(Mark::DoublePlus),
        b"--" => Some(Mark::DoubleMinus),
        b"{" => Some(Mark::OpenBrace),
        b"}" => Some(Mark::CloseBrace),
        b"(" => Some(Mark::OpenParen),
        b")" => Some(Mark::CloseParen),
        b"[" => Some(Mark::OpenBracket),
        b"]" => Some(Mark::CloseBracket),
        b";" => Some(Mark::Semicolon),
        b":" => Some(Mark::Colon),
        b"," => Some(Mark::Comma),
        b"." => Some(Mark::Dot),
        b"?" => Some(Mark::Question),
        b"+" => Some(Mark::Plus),
        b"-" => Some(Mark::Minus),
        b"*" => Some(Mark::Star),
        b"/" => Some(Mark::Slash),
        b"%" => Some(Mark::Percent),
        b"!" => Some(Mark::Bang),
        b"<" => Some(Mark::Less),
        b">" => Some(Mark::Greater),
        b"=" => Some(Mark::Equal),
        _ => None,
    }
}
