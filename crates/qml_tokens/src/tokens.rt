ghost use Rattle.std.specs.Prelude.{◌≤◌, ◌^◌, length, IfOk, MatchResult};
ghost use Rattle.qml_expr.specs.Seen.{token_of, tokens_of};
ghost use Rattle.qml_lex.specs.Reading.{IsRefused};
ghost use Rattle.qml_tokens.specs.Spelled.{IsTokenOf, HasTokens};
ghost use Rattle.qml_tokens.specs.Within.{IsWithin};

use crate::lexeme::lexeme;
use qml_ast::DocFault;
use qml_expr::Token;
use qml_lex::{Scanner, Token as LexedToken};
use std::alloc::{AllocError, Global};

/// The tokens of a text of at most 2^31 bytes, as the grammar has them.
///
/// The faults are those of the lexer: NotUtf8 with the length of the longest front that is UTF-8; else
/// BadToken at the first byte where no token, blank or comment begins, or where one begins that has no
/// end or is too long; and NoMemory where memory ran out.
///
/// The words are those of ECMAScript 5.1, section 7.6.1, and of the Qt 5 QML Reference.
pub fn tokens_of_text(alloc: Global, bytes: &[u8]) -> Result<Vec<Token>, DocFault>
    requires { length bytes.now ≤ 2 ^ 31 }
    ensures { MatchResult result (λ tokens. HasTokens bytes.now (tokens_of tokens.items)) (IsRefused bytes.now) }
{
    let mut scanner = Scanner::new(bytes)?;
    let mut tokens = Vec::new(alloc);
    while let Some(token) = scanner.next_token()? {
        tokens.push(grammar_token(alloc, bytes, token)?)?;
    }
    Ok(tokens)
}

// A token of a text as the grammar has it: what it says, and its place. The error is that memory ran out.
fn grammar_token(alloc: Global, bytes: &[u8], token: LexedToken) -> Result<Token, AllocError>
    requires { IsWithin bytes.now token }
    ensures { IfOk result (λ told. IsTokenOf bytes.now token (token_of told)) }
{
    let lexeme = lexeme(alloc, token.kind, &bytes[token.start..token.end])?;
    Ok(Token {
        lexeme,
        span: token.span,
    })
}
