ghost use Rattle.std.specs.Prelude.{◌≡◌, Some, IfOk};
ghost use Rattle.qml_expr.specs.Seen.{lexeme_of};
ghost use Rattle.qml_grammar.specs.Lexemes as spec;
ghost use Rattle.qml_lex.specs.Meaning.{IsSpelled};
ghost use Rattle.qml_lex.specs.Numbers.{integer_of};
ghost use Rattle.qml_lex.specs.declared.token.TokenKind.TheVariants as kinds;
ghost use Rattle.qml_tokens.specs.Spelled.{Says};

use crate::mark::mark;
use qml_ast::Name;
use qml_expr::{Lexeme, Natural};
use qml_grammar::Word;
use qml_lex::{TokenKind, decimal_value, integer_value, name_text, text_value};
use std::alloc::{AllocError, Global};

/// What the text of a token of this kind says. The error is that memory for a name or a text ran out.
pub fn lexeme(alloc: Global, kind: TokenKind, text: &[u8]) -> Result<Lexeme, AllocError>
    requires { IsSpelled kind text.now }
    ensures { IfOk result (λ lexeme. Says kind text.now (lexeme_of lexeme)) }
{
    match kind {
        TokenKind::Name => name_lexeme(alloc, text),
        TokenKind::Integer => Ok(Lexeme::Integer(natural(text))),
        TokenKind::Decimal => {
            let value = decimal_value(text);
            Ok(Lexeme::Decimal(value.whole, value.fraction))
        }
        TokenKind::Text => Ok(Lexeme::Text(text_value(alloc, text)?)),
        TokenKind::Mark => Ok(Lexeme::Mark(mark(text))),
    }
}

// What a name says: a word, or the name itself. The error is that memory for the name ran out.
#[tactic(auto, unfolding(qml_grammar::specs::Lexemes::lexeme_of_name))]
fn name_lexeme(alloc: Global, text: &[u8]) -> Result<Lexeme, AllocError>
    requires { IsSpelled kinds.Name text.now }
    ensures { IfOk result (λ lexeme. lexeme_of lexeme ≡ spec.lexeme_of_name text.now) }
{
    let name = name_text(text);
    match Word::of_name(name) {
        Some(word) => Ok(Lexeme::Word(word)),
        None => Ok(Lexeme::Plain(Name::new(alloc, name)?)),
    }
}

// The value of a whole number's text.
fn natural(text: &[u8]) -> Natural
    requires { IsSpelled kinds.Integer text.now }
    ensures { integer_of text.now ≡ Some result }
{
    Natural::new(integer_value(text).unsigned_abs())
}
