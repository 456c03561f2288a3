ghost use Rattle.std.specs.Prelude.{◌≡◌, ◌+◌, ◌^◌, ◌<◌, ◌≤◌, length};
ghost use Rattle.std.specs.List.{prefix_len};
ghost use Rattle.qml_lex.specs.Bytes.{is_word};
ghost use Rattle.qml_lex.specs.Pieces.{IsWithin, name_piece, decimal_piece, number_piece, is_fraction, text_piece, other_piece, block_comment, piece_of};

use crate::bytes::{all_ascii_digits, blank_len, is_blank, is_letter, is_quote, word_len};
use crate::comment::{before_close, line_len};
use crate::mark::mark_len;
use crate::number::integer;
use crate::text::{body_len, value_len};
use crate::token::TokenKind;

/// What a text begins with.
#[derive(Clone, Copy)]
pub enum Piece {
    /// Nothing: the text has no bytes.
    End,
    /// No token, blank or comment.
    Bad,
    /// So many bytes of blanks, or of a comment.
    Blank(usize),
    /// A token of so many bytes.
    Lexeme(TokenKind, usize),
}

// The name with which a text begins.
#[tactic(auto, unfolding(crate::specs::Pieces::name_piece))]
fn name_piece(text: &[u8]) -> Piece
    requires { 0 < prefix_len is_word text.now }
    ensures value { result ≡ name_piece text.now }
    ensures within { IsWithin (length text.now) result }
{
    let len = word_len(text);
    if len <= 65536 {
        Piece::Lexeme(TokenKind::Name, len)
    } else {
        Piece::Bad
    }
}

// The decimal whose digits before the point are `whole` bytes and stand before `rest`.
#[tactic(auto, unfolding(crate::specs::Pieces::decimal_piece))]
fn decimal_piece(whole: usize, rest: &[u8]) -> Piece
    requires point { 0 < length rest.now }
    requires room { whole + length rest.now < 2 ^ 63 }
    ensures value { result ≡ decimal_piece whole rest.now }
    ensures within { IsWithin (whole + length rest.now) result }
{
    let rest = &rest[1..];
    let len = word_len(rest);
    if all_ascii_digits(&rest[..len]) {
        Piece::Lexeme(TokenKind::Decimal, whole + 1 + len)
    } else {
        Piece::Bad
    }
}

// The number with which a text begins.
#[tactic(auto, unfolding(crate::specs::Pieces::number_piece))]
fn number_piece(text: &[u8]) -> Piece
    requires some { 0 < prefix_len is_word text.now }
    requires short { length text.now ≤ 2 ^ 31 }
    ensures value { result ≡ number_piece text.now }
    ensures within { IsWithin (length text.now) result }
{
    let len = word_len(text);
    let (word, rest) = text.split_at(len);
    if all_ascii_digits(word) && is_fraction(rest) {
        return decimal_piece(len, rest);
    }
    match integer(word) {
        Some(_) => Piece::Lexeme(TokenKind::Integer, len),
        None => Piece::Bad,
    }
}

// Whether a text begins with a point and a digit.
fn is_fraction(text: &[u8]) -> bool
    ensures { result ≡ is_fraction text.now }
{
    match text {
        [b'.', digit, ..] => digit.is_ascii_digit(),
        _ => false,
    }
}

// The text whose opening quote stands before `rest`.
#[tactic(auto, unfolding(crate::specs::Pieces::text_piece))]
fn text_piece(quote: u8, rest: &[u8]) -> Piece
    requires { length rest.now ≤ 2 ^ 31 }
    ensures value { result ≡ text_piece quote rest.now }
    ensures within { IsWithin (length rest.now + 1) result }
{
    match body_len(quote, rest) {
        Some(len) if value_len(&rest[..len]) <= 65536 => Piece::Lexeme(TokenKind::Text, len + 2),
        _ => Piece::Bad,
    }
}

// The comment or mark with which a text begins.
#[tactic(auto, unfolding(crate::specs::Pieces::other_piece, crate::specs::Pieces::block_comment, crate::specs::Pieces::line_comment))]
fn other_piece(text: &[u8]) -> Piece
    requires { length text.now ≤ 2 ^ 31 }
    ensures value { result ≡ other_piece text.now }
    ensures within { IsWithin (length text.now) result }
{
    match text {
        [b'/', b'/', ..] => Piece::Blank(line_len(text)),
        [b'/', b'*', rest @ ..] => match before_close(rest) {
            Some(len) => Piece::Blank(len + 4),
            None => Piece::Bad,
        },
        _ => match mark_len(text) {
            Some(len) => Piece::Lexeme(TokenKind::Mark, len),
            None => Piece::Bad,
        },
    }
}

/// What a text begins with, the longest one.
#[tactic(auto, unfolding(crate::specs::Pieces::piece_of, crate::specs::Pieces::blank_piece))]
pub fn first_piece(text: &[u8]) -> Piece
    requires { length text.now ≤ 2 ^ 31 }
    ensures value { result ≡ piece_of text.now }
    ensures within { IsWithin (length text.now) result }
{
    match text {
        [] => Piece::End,
        [byte, ..] if is_blank(*byte) => Piece::Blank(blank_len(text)),
        [byte, ..] if is_letter(*byte) => name_piece(text),
        [byte, ..] if byte.is_ascii_digit() => number_piece(text),
        [quote, rest @ ..] if is_quote(*quote) => text_piece(*quote, rest),
        _ => other_piece(text),
    }
}
