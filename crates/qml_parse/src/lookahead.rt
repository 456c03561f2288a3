ghost use Rattle.std.specs.Prelude.{◌≡◌, ◌≤◌, length, Some, OnSome, option_copied};
ghost use Rattle.qml_ast.specs.declared.fault.DocFault.TheVariants.{Unsupported};
ghost use Rattle.qml_grammar.specs.Documents as spec;
ghost use Rattle.qml_grammar.specs.Inputs as inputs;
ghost use Rattle.qml_grammar.specs.Lexemes as lexemes;
ghost use Rattle.qml_grammar.specs.Names as names;
ghost use Rattle.qml_grammar.specs.Statements.{goes_on_inside};
ghost use Rattle.qml_expr.specs.Seen.{input_of, lexeme_of, token_of, tokens_of};
ghost use Rattle.qml_grammar.specs.declared.mark.Mark.TheVariants.{Dot};
ghost use Rattle.qml_parse.specs.Followers.{follows, name_behind_dot};

use qml_ast::{DocFault, Path};
use qml_expr::{Cursor, Lexeme, Token};
use qml_grammar::{Mark, Word};

/// What may follow the dotted name of a type.
#[derive(Clone, Copy)]
pub(crate) enum Follower {
    /// `{`
    Brace,
    /// `{` or `on`.
    BraceOrOn,
}

// The spelling of names

/// Whether a name begins with an upper-case letter, as a type's does.
pub(crate) fn is_upper_first(name: &[u8]) -> bool
    ensures { result ≡ names.upper_first name.now }
{
    matches!(name, [b'A'..=b'Z', ..])
}

// Whether a name begins with a lower-case letter, as a group's does.
fn is_lower_first(name: &[u8]) -> bool
    ensures { result ≡ names.lower_first name.now }
{
    matches!(name, [b'a'..=b'z', ..])
}

/// Whether a name is a handler's: `on` and an upper-case letter.
fn is_handler_name(name: &[u8]) -> bool
    ensures { result ≡ names.is_handler_name name.now }
{
    match name {
        [b'o', b'n', rest @ ..] => is_upper_first(rest),
        _ => false,
    }
}

/// Whether a path is a handler's: its last name is.
pub(crate) fn is_handler_path(path: &Path) -> bool
    ensures { result ≡ names.is_handler_path path.now }
{
    match &path.second {
        Some(second) => is_handler_name(second.as_bytes()),
        None => is_handler_name(path.first.as_bytes()),
    }
}

// Single tokens

// The name that a lexeme is, which a word is too.
fn name_of(lexeme: &Lexeme) -> Option<&[u8]>
    ensures { option_copied result ≡ lexemes.name_of_lexeme (lexeme_of lexeme.now) }
{
    match lexeme {
        Lexeme::Plain(name) => Some(name.as_bytes()),
        Lexeme::Word(word) => Some(word.as_str().as_bytes()),
        _ => None,
    }
}

// Whether a token is a name that begins with an upper-case letter.
fn is_type_name(token: &Token) -> bool
    ensures { result ≡ names.name_is names.upper_first (Some (token_of token.now)) }
{
    match name_of(&token.lexeme) {
        Some(name) => is_upper_first(name),
        None => false,
    }
}

// Whether a token is a name that begins with a lower-case letter.
fn is_group_name(token: &Token) -> bool
    ensures { result ≡ names.name_is names.lower_first (Some (token_of token.now)) }
{
    match name_of(&token.lexeme) {
        Some(name) => is_lower_first(name),
        None => false,
    }
}

/// Whether the next token is a handler's name.
#[tactic(auto, unfolding(qml_expr::specs::Seen::input_of))]
pub(crate) fn sees_handler_name(cursor: &Cursor<'_>) -> bool
    ensures { result ≡ names.name_is names.is_handler_name (inputs.ahead (input_of cursor.now)) }
{
    match cursor.rest {
        [token, ..] => match name_of(&token.lexeme) {
            Some(name) => is_handler_name(name),
            None => false,
        },
        [] => false,
    }
}

/// Whether the next token is a name.
#[tactic(auto, unfolding(qml_expr::specs::Seen::input_of))]
pub(crate) fn sees_name(cursor: &Cursor<'_>) -> bool
    ensures { result ≡ lexemes.is_name (inputs.ahead (input_of cursor.now)) }
{
    match cursor.rest {
        [token, ..] => token.lexeme.is_name(),
        [] => false,
    }
}

/// Whether the next token is the name QtQuick.
#[tactic(auto, unfolding(qml_expr::specs::Seen::input_of))]
pub(crate) fn sees_qt_quick(cursor: &Cursor<'_>) -> bool
    ensures { result ≡ names.name_is spec.is_qt_quick (inputs.ahead (input_of cursor.now)) }
{
    match cursor.rest {
        [token, ..] => match name_of(&token.lexeme) {
            Some(name) => name == b"QtQuick".as_slice(),
            None => false,
        },
        [] => false,
    }
}

/// Whether there is a next token, and it is not `}`.
#[tactic(auto, unfolding(qml_expr::specs::Seen::input_of))]
pub(crate) fn goes_on_inside(cursor: &Cursor<'_>) -> bool
    ensures { result ≡ goes_on_inside (inputs.ahead (input_of cursor.now)) }
{
    !cursor.rest.is_empty() && !cursor.sees(Mark::CloseBrace)
}

/// Whether the next token begins a member that QML has and the engine has not.
pub(crate) fn sees_unsupported_member(cursor: &Cursor<'_>) -> bool
    ensures { result ≡ spec.is_unsupported_member (inputs.ahead (input_of cursor.now)) }
{
    cursor.sees_word(Word::Default)
        || cursor.sees_word(Word::Enum)
        || cursor.sees_word(Word::Required)
}

/// That QML has what begins with the next token, and the engine has not.
pub(crate) fn unsupported(cursor: &Cursor<'_>) -> DocFault
    ensures { result ≡ Unsupported (inputs.place (input_of cursor.now)) }
{
    DocFault::Unsupported { at: cursor.place() }
}

// Several tokens

/// Whether the tokens begin with a type's name and `{`.
#[tactic(auto, unfolding(qml_expr::specs::Seen::input_of))]
pub(crate) fn begins_object(cursor: &Cursor<'_>) -> bool
    ensures { result ≡ names.begins_object (input_of cursor.now).rest }
{
    match cursor.rest {
        [name, mark, ..] => is_type_name(name) && mark.lexeme.is_mark(Mark::OpenBrace),
        _ => false,
    }
}

/// Whether the tokens begin with a group's name and `{`.
#[tactic(auto, unfolding(qml_expr::specs::Seen::input_of))]
pub(crate) fn begins_group(cursor: &Cursor<'_>) -> bool
    ensures { result ≡ names.begins_group (input_of cursor.now).rest }
{
    match cursor.rest {
        [name, mark, ..] => is_group_name(name) && mark.lexeme.is_mark(Mark::OpenBrace),
        _ => false,
    }
}

/// Whether the tokens begin with a type's name and `on`.
#[tactic(auto, unfolding(qml_expr::specs::Seen::input_of))]
pub(crate) fn begins_on(cursor: &Cursor<'_>) -> bool
    ensures { result ≡ spec.begins_on (input_of cursor.now).rest }
{
    match cursor.rest {
        [name, word, ..] => is_type_name(name) && word.lexeme.is_word(Word::On),
        _ => false,
    }
}

/// Whether the tokens begin with a dotted name whose first letter is upper case.
#[tactic(auto, unfolding(qml_expr::specs::Seen::input_of))]
pub(crate) fn is_dotted_kind(cursor: &Cursor<'_>) -> bool
    ensures { result ≡ names.is_dotted_kind (input_of cursor.now).rest }
{
    match cursor.rest {
        [name, dot, next, ..] => {
            is_type_name(name) && dot.lexeme.is_mark(Mark::Dot) && next.lexeme.is_name()
        }
        _ => false,
    }
}

/// Whether the tokens begin with the dotted name of a type, and then with what may follow it.
#[tactic(auto, unfolding(qml_expr::specs::Seen::input_of))]
pub(crate) fn is_dotted_type(cursor: &Cursor<'_>, follower: Follower) -> bool
    ensures { result ≡ names.is_dotted_type (follows follower) (input_of cursor.now).rest }
{
    match cursor.rest {
        [first, behind @ ..] => match name_of(&first.lexeme) {
            Some(name) => {
                begins_dotted(behind) && is_upper_first(name) && ends_type(name, behind, follower)
            }
            None => false,
        },
        [] => false,
    }
}

// Whether the tokens begin with a dot.
fn begins_dotted(tokens: &[Token]) -> bool
    ensures { result ≡ lexemes.is_mark Dot (lexemes.head (tokens_of tokens.now)) }
{
    match tokens {
        [token, ..] => token.lexeme.is_mark(Mark::Dot),
        [] => false,
    }
}

// Whether a token is what may follow the dotted name of a type.
fn is_follower(token: &Token, follower: Follower) -> bool
    ensures { result ≡ follows follower (Some (token_of token.now)) }
{
    match follower {
        Follower::Brace => token.lexeme.is_mark(Mark::OpenBrace),
        Follower::BraceOrOn => {
            token.lexeme.is_mark(Mark::OpenBrace) || token.lexeme.is_word(Word::On)
        }
    }
}

// Whether the tokens begin with what may follow the dotted name of a type.
fn begins_with(tokens: &[Token], follower: Follower) -> bool
    ensures { result ≡ follows follower (lexemes.head (tokens_of tokens.now)) }
{
    match tokens {
        [token, ..] => is_follower(token, follower),
        [] => false,
    }
}

// The name behind a dot, where the tokens begin with both.
fn name_behind_dot(tokens: &[Token]) -> Option<&[u8]>
    ensures name { option_copied result ≡ name_behind_dot (tokens_of tokens.now) }
    ensures within { OnSome result (2 ≤ length tokens.now) }
{
    match tokens {
        [dot, next, ..] if dot.lexeme.is_mark(Mark::Dot) => name_of(&next.lexeme),
        _ => None,
    }
}

// Whether the last of names with dots between them, of which the first one stands before the tokens, is a
// type's, and what may follow it stands there.
fn ends_type(first: &[u8], behind: &[Token], follower: Follower) -> bool
    ensures { result ≡ names.ends_type (follows follower) (names.last_name first.now (tokens_of behind.now)) }
{
    let mut name = first;
    let mut rest = behind;
    while let Some(next) = name_behind_dot(rest) {
        name = next;
        rest = &rest[2..];
    }
    is_upper_first(name) && begins_with(rest, follower)
}
