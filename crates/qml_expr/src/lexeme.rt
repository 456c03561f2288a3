ghost use Rattle.std.specs.Prelude.{◌≡◌, is_some, IfOk};
ghost use Rattle.qml_grammar.specs.Lexemes.{is_mark_lexeme, is_word_lexeme, value_of_lexeme, value_of_word, name_of_lexeme, operand_name_of_lexeme, is_foreign_lexeme, is_foreign_operand_lexeme};
ghost use Rattle.qml_grammar.specs.Marks as marks;
ghost use Rattle.qml_grammar.specs.Words as words;
ghost use Rattle.qml_expr.specs.Seen.{lexeme_of, atom_of_lexeme, ordinary_name};

use crate::natural::Natural;
use qml_ast::{Name, Text, Value};
use qml_grammar::{Mark, Word};
use std::alloc::{AllocError, Global};

/// What a token says.
#[derive(Drop)]
pub enum Lexeme {
    /// A name that is no word.
    Plain(Name),
    Word(Word),
    /// A whole number.
    Integer(Natural),
    /// The values of the digits before and after the dot, each 2147483647 where the digits' value is more.
    Decimal(u32, u32),
    /// A text's value.
    Text(Text),
    Mark(Mark),
}

/// Whether both are the same mark.
fn is_same(mark: Mark, other: Mark) -> bool
    ensures { result ≡ marks.same_mark mark other }
{
    mark == other
}

/// Whether both are the same word.
fn is_same_word(word: Word, other: Word) -> bool
    ensures { result ≡ words.same_word word other }
{
    word == other
}

/// The name that a word is.
#[tactic(auto, using(crate::proofs::Words::word_text_short))]
fn word_name(alloc: Global, word: Word) -> Result<Name, AllocError>
    ensures { IfOk result (λ name. name ≡ words.word_text word) }
{
    Name::new(alloc, word.as_str())
}

/// Whether QML has the word where an expression begins, and the engine has not.
#[tactic(auto, unfolding(qml_grammar::specs::Words::is_unsupported))]
fn is_unsupported(word: Word) -> bool
    ensures { result ≡ words.is_unsupported word }
{
    matches!(
        word,
        Word::Function
            | Word::Switch
            | Word::Do
            | Word::Break
            | Word::Continue
            | Word::Try
            | Word::Throw
            | Word::New
            | Word::Delete
            | Word::TypeOf
            | Word::InstanceOf
            | Word::In
            | Word::Void
            | Word::With
            | Word::Class
            | Word::This
    )
}

/// Whether the word has a meaning where an expression begins.
#[tactic(auto, unfolding(qml_grammar::specs::Words::is_keyword))]
fn is_keyword(word: Word) -> bool
    ensures { result ≡ words.is_keyword word }
{
    matches!(
        word,
        Word::Var
            | Word::Let
            | Word::Const
            | Word::If
            | Word::Else
            | Word::While
            | Word::For
            | Word::Return
            | Word::True
            | Word::False
            | Word::Null
            | Word::Undefined
    )
}

/// Whether the word is a name where an expression begins.
fn is_ordinary(word: Word) -> bool
    ensures { result ≡ words.is_ordinary word }
{
    !(is_keyword(word) || is_unsupported(word))
}

impl Lexeme {
    /// Whether it is the mark.
    #[inline]
    pub fn is_mark(&self, mark: Mark) -> bool
        ensures { result ≡ is_mark_lexeme mark (lexeme_of self.now) }
    {
        match self {
            Lexeme::Mark(other) => is_same(mark, *other),
            _ => false,
        }
    }

    /// Whether it is the word.
    pub fn is_word(&self, word: Word) -> bool
        ensures { result ≡ is_word_lexeme word (lexeme_of self.now) }
    {
        match self {
            Lexeme::Word(other) => is_same_word(word, *other),
            _ => false,
        }
    }

    /// Whether it is a name where neither an expression nor a statement begins, as behind a dot. A word is
    /// one too.
    pub fn is_name(&self) -> bool
        ensures { result ≡ is_some (name_of_lexeme (lexeme_of self.now)) }
    {
        matches!(self, Lexeme::Plain(_) | Lexeme::Word(_))
    }

    /// Whether it is a name where an expression or a statement begins. A word with a meaning there is none.
    pub fn is_operand_name(&self) -> bool
        ensures { result ≡ is_some (operand_name_of_lexeme (lexeme_of self.now)) }
    {
        match self {
            Lexeme::Plain(_) => true,
            Lexeme::Word(word) => is_ordinary(*word),
            _ => false,
        }
    }

    /// Whether it alone is an expression: a literal or a name.
    pub fn is_atom(&self) -> bool
        ensures { result ≡ is_some (atom_of_lexeme (lexeme_of self.now)) }
    {
        match self {
            Lexeme::Integer(_) | Lexeme::Text(_) => true,
            Lexeme::Word(Word::True | Word::False | Word::Null | Word::Undefined) => true,
            _ => self.is_operand_name(),
        }
    }

    /// The name that it is where neither an expression nor a statement begins, as behind a dot, if it is
    /// one. The error is that memory ran out.
    pub fn name(&self, alloc: Global) -> Result<Option<Name>, AllocError>
        ensures { IfOk result (λ name. name ≡ name_of_lexeme (lexeme_of self.now)) }
    {
        match self {
            Lexeme::Plain(name) => Ok(Some(name.copy(alloc)?)),
            Lexeme::Word(word) => Ok(Some(word_name(alloc, *word)?)),
            _ => Ok(None),
        }
    }

    /// The name that it is where an expression or a statement begins, if it is one there. The error is that
    /// memory ran out.
    pub fn operand_name(&self, alloc: Global) -> Result<Option<Name>, AllocError>
        ensures { IfOk result (λ name. name ≡ operand_name_of_lexeme (lexeme_of self.now)) }
    {
        match self {
            Lexeme::Plain(name) => Ok(Some(name.copy(alloc)?)),
            Lexeme::Word(word) => ordinary_name(alloc, *word),
            _ => Ok(None),
        }
    }

    /// The value of the literal that it is, if it is one. The error is that memory for a text ran out.
    pub fn value(&self, alloc: Global) -> Result<Option<Value>, AllocError>
        ensures { IfOk result (λ value. value ≡ value_of_lexeme (lexeme_of self.now)) }
    {
        match self {
            Lexeme::Integer(value) => Ok(Some(Value::Int(value.to_i32()))),
            Lexeme::Text(text) => Ok(Some(Value::Str(text.copy(alloc)?))),
            Lexeme::Word(word) => Ok(word_value(*word)),
            _ => Ok(None),
        }
    }

    /// Whether QML has it in some place and the engine has it nowhere but in an import's version.
    pub fn is_foreign(&self) -> bool
        ensures { result ≡ is_foreign_lexeme (lexeme_of self.now) }
    {
        match self {
            Lexeme::Mark(mark) => is_same(*mark, Mark::OpenBracket),
            Lexeme::Decimal(_, _) => true,
            _ => false,
        }
    }

    /// Whether QML has it where an expression or a statement begins, and the engine has not.
    pub fn is_foreign_operand(&self) -> bool
        ensures { result ≡ is_foreign_operand_lexeme (lexeme_of self.now) }
    {
        match self {
            Lexeme::Mark(mark) => {
                is_same(*mark, Mark::OpenBracket) || is_same(*mark, Mark::OpenBrace)
            }
            Lexeme::Decimal(_, _) => true,
            Lexeme::Word(word) => is_unsupported(*word),
            _ => false,
        }
    }
}

/// The name that a word is where an expression begins, or none where it has a meaning there.
fn ordinary_name(alloc: Global, word: Word) -> Result<Option<Name>, AllocError>
    ensures { IfOk result (λ name. name ≡ ordinary_name word) }
{
    if !is_ordinary(word) {
        return Ok(None);
    }
    Ok(Some(word_name(alloc, word)?))
}

/// The value of a word that is a literal.
fn word_value(word: Word) -> Option<Value>
    ensures { result ≡ value_of_word word }
{
    match word {
        Word::True => Some(Value::Bool(true)),
        Word::False => Some(Value::Bool(false)),
        Word::Null => Some(Value::Obj(0)),
        Word::Undefined => Some(Value::Line(None)),
        _ => None,
    }
}
