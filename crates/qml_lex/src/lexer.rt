ghost use Rattle.std.specs.Prelude.{◌≡◌, ◌^◌, ◌≤◌, length, slice_range, All, IfOk, IfErr, MatchResult};
ghost use Rattle.qml_lex.specs.Meaning.{IsSpelled};
ghost use Rattle.qml_lex.specs.Reading.{IsReadAs, IsRefused, first_offset};
ghost use Rattle.qml_lex.specs.Scanning.{Stands, Begins, IsNotUtf8, HasNext, IsBadFrom, StaysWithout};

use crate::piece::{Piece, first_piece};
use crate::place::advance;
use crate::token::{Token, Tokens};
use qml_ast::fault::DocFault;
use qml_ast::span::Span;
use std::alloc::Global;
use std::str;

/// How far the tokens of a text are read.
#[derive(Clone, Copy)]
pub struct Scanner<'a> {
    /// The whole text.
    pub bytes: &'a [u8],
    /// The offset of the first byte that is not read yet.
    pub at: usize,
    /// The place of that byte.
    pub span: Span,
}

impl<'a> Scanner<'a> {
    /// Before the first token of a document's bytes, of which there are at most 2^31. A byte order mark
    /// before it is passed over; it counts in columns and offsets.
    ///
    /// The fault is NotUtf8 with the length of the longest front that is UTF-8.
    pub fn new(bytes: &'a [u8]) -> Result<Scanner<'a>, DocFault>
        requires { length bytes.now ≤ 2 ^ 31 }
        ensures { MatchResult result (Begins bytes.now) (IsNotUtf8 bytes.now) }
    {
        match str::from_utf8(bytes) {
            Ok(_) => {
                let at = byte_order_mark_len(bytes);
                let span = advance(bytes, Span { line: 1, col: 1 }, 0, at);
                Ok(Scanner { bytes, at, span })
            }
            Err(error) => Err(DocFault::NotUtf8 {
                at: error.valid_up_to() as u64,
            }),
        }
    }

    /// The next token, past blanks and comments; goes behind it. None where the text has no more. Without a
    /// token the scanner stays where it was.
    ///
    /// The fault is BadToken at the first byte where no token, blank or comment begins, or where one begins
    /// that has no end or is too long.
    pub fn next_token(&mut self) -> Result<Option<Token>, DocFault>
        requires { Stands self.old }
        ensures text { self.new.bytes.now ≡ self.old.bytes.now }
        ensures stands { Stands self.new }
        ensures next { IfOk result (HasNext self.old.bytes.now self.old.at self.new.at) }
        ensures bad { IfErr result (IsBadFrom self.old.bytes.now self.old.at) }
        ensures stays { StaysWithout result self.old self.new }
    {
        let bytes = self.bytes;
        let mut at = self.at;
        let mut span = self.span;
        loop {
            match first_piece(&bytes[at..]) {
                Piece::End => return Ok(None),
                Piece::Bad => return Err(DocFault::BadToken { at: span }),
                Piece::Blank(len) => {
                    span = advance(bytes, span, at, at + len);
                    at += len;
                }
                Piece::Lexeme(kind, len) => {
                    let start = at;
                    let end = at + len;
                    self.at = end;
                    self.span = advance(bytes, span, start, end);
                    return Ok(Some(Token {
                        kind,
                        start,
                        end,
                        span,
                    }));
                }
            }
        }
    }
}

/// The tokens of a document's bytes, of which there are at most 2^31. A byte order mark before them is
/// passed over; it counts in columns and offsets.
///
/// The faults are NotUtf8 with the length of the longest front that is UTF-8; else BadToken at the first
/// byte where no token, blank or comment begins, or where one begins that has no end or is too long; and
/// NoMemory where memory for the tokens ran out.
///
/// The tokens are those of ECMAScript 5.1, section 7, cut to the profile of this engine.
pub fn lex(alloc: Global, bytes: &[u8]) -> Result<Tokens, DocFault>
    requires { length bytes.now ≤ 2 ^ 31 }
    ensures read { MatchResult result (IsReadAs bytes.now) (IsRefused bytes.now) }
    ensures spelled { IfOk result (All (λ token.
        IsSpelled token.kind (slice_range bytes.now token.start token.end))) }
{
    let mut scanner = Scanner::new(bytes)?;
    let mut tokens = Vec::new(alloc);
    while let Some(token) = scanner.next_token()? {
        tokens.push(token)?;
    }
    Ok(Tokens::from_vec(tokens))
}

// How many bytes the byte order mark has with which a text may begin.
fn byte_order_mark_len(bytes: &[u8]) -> usize
    ensures value { result ≡ first_offset bytes.now }
    ensures within { result ≤ length bytes.now }
{
    match bytes {
        [0xEF, 0xBB, 0xBF, ..] => 3,
        _ => 0,
    }
}
