ghost use Rattle.std.specs.Prelude.{◌≡◌, ◌==◌, ◌<◌, length, slice_get, Some};

use qml_ast::span::Span;
use std::marker::Model;

/// What a token is.
#[derive(Clone, Copy, PartialEq, Eq)]
pub enum TokenKind {
    /// An ASCII letter or `_`, and letters, digits and `_` after it.
    Name,
    /// A whole number in decimal, or in hexadecimal after `0x`.
    Integer,
    /// Digits, a point and digits.
    Decimal,
    /// Characters and escapes between two quotes.
    Text,
    /// One of the marks, as `{` or `===`.
    Mark,
}

/// A token of a text.
#[derive(Clone, Copy, PartialEq, Eq)]
pub struct Token {
    pub kind: TokenKind,
    /// The offset of its first byte, from 0 on.
    pub start: usize,
    /// The offset after its last byte.
    pub end: usize,
    /// The place of its first byte.
    pub span: Span,
}

/// The tokens of a text, in order.
#[derive(Drop)]
pub struct Tokens {
    tokens: Vec<Token>,
}

impl Model for Tokens {
    ghost use Rattle.std.specs.Prelude.{List};
    ghost use Rattle.qml_lex.specs.declared.token.Token.{Token};

    ghost Value = { List Token };

    ghost view = { λ t. t.tokens.items };
}

impl Tokens {
    /// The tokens of a list.
    pub(crate) fn from_vec(tokens: Vec<Token>) -> Tokens
        ensures { result ≡ tokens.items }
    {
        Tokens { tokens }
    }

    /// How many tokens there are.
    pub fn len(&self) -> usize
        ensures { result ≡ length self.now }
    {
        self.tokens.len()
    }

    /// Whether there is none.
    pub fn is_empty(&self) -> bool
        ensures { result ≡ (length self.now == 0) }
    {
        self.tokens.is_empty()
    }

    /// The token at the index `i`.
    pub fn at(&self, i: usize) -> Token
        requires { i < length self.now }
        ensures { slice_get self.now i ≡ Some result }
    {
        self.tokens[i]
    }

    /// All the tokens.
    pub fn as_slice(&self) -> &[Token]
        ensures { result.now ≡ self.now }
    {
        self.tokens.as_slice()
    }
}
