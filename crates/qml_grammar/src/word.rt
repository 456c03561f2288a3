ghost use Rattle.std.specs.Prelude.{◌≡◌};

/// A name with a meaning of its own in some places: a keyword of statements and expressions, of members
/// or of imports. Elsewhere it is a name like others.
#[derive(Clone, Copy, Debug, PartialEq, Eq)]
pub enum Word {
    /// `var`
    Var,
    /// `let`
    Let,
    /// `const`
    Const,
    /// `if`
    If,
    /// `else`
    Else,
    /// `while`
    While,
    /// `for`
    For,
    /// `return`
    Return,
    /// `true`
    True,
    /// `false`
    False,
    /// `null`
    Null,
    /// `undefined`
    Undefined,
    /// `function`
    Function,
    /// `switch`
    Switch,
    /// `do`
    Do,
    /// `break`
    Break,
    /// `continue`
    Continue,
    /// `try`
    Try,
    /// `throw`
    Throw,
    /// `new`
    New,
    /// `delete`
    Delete,
    /// `typeof`
    TypeOf,
    /// `instanceof`
    InstanceOf,
    /// `in`
    In,
    /// `void`
    Void,
    /// `with`
    With,
    /// `class`
    Class,
    /// `this`
    This,
    /// `id`
    Id,
    /// `property`
    Property,
    /// `readonly`
    ReadOnly,
    /// `signal`
    Signal,
    /// `default`
    Default,
    /// `enum`
    Enum,
    /// `required`
    Required,
    /// `alias`
    Alias,
    /// `on`
    On,
    /// `import`
    Import,
    /// `as`
    As,
}

impl Word {
    ghost use Rattle.qml_grammar.specs.Words.{word_text, words_of_length, word_of};

    /// Each word once.
    pub const ALL: [Word; 39] = [
        Word::Var,
        Word::Let,
        Word::Const,
        Word::If,
        Word::Else,
        Word::While,
        Word::For,
        Word::Return,
        Word::True,
        Word::False,
        Word::Null,
        Word::Undefined,
        Word::Function,
        Word::Switch,
        Word::Do,
        Word::Break,
        Word::Continue,
        Word::Try,
        Word::Throw,
        Word::New,
        Word::Delete,
        Word::TypeOf,
        Word::InstanceOf,
        Word::In,
        Word::Void,
        Word::With,
        Word::Class,
        Word::This,
        Word::Id,
        Word::Property,
        Word::ReadOnly,
        Word::Signal,
        Word::Default,
        Word::Enum,
        Word::Required,
        Word::Alias,
        Word::On,
        Word::Import,
        Word::As,
    ];

    /// How the word is written.
    #[tactic(auto, unfolding(crate::specs::Words::word_text))]
    pub fn as_str(self) -> &'static str
        ensures { result.now ≡ word_text self }
    {
        match self {
            Word::Var => "var",
            Word::Let => "let",
            Word::Const => "const",
            Word::If => "if",
            Word::Else => "else",
            Word::While => "while",
            Word::For => "for",
            Word::Return => "return",
            Word::True => "true",
            Word::False => "false",
            Word::Null => "null",
            Word::Undefined => "undefined",
            Word::Function => "function",
            Word::Switch => "switch",
            Word::Do => "do",
            Word::Break => "break",
            Word::Continue => "continue",
            Word::Try => "try",
            Word::Throw => "throw",
            Word::New => "new",
            Word::Delete => "delete",
            Word::TypeOf => "typeof",
            Word::InstanceOf => "instanceof",
            Word::In => "in",
            Word::Void => "void",
            Word::With => "with",
            Word::Class => "class",
            Word::This => "this",
            Word::Id => "id",
            Word::Property => "property",
            Word::ReadOnly => "readonly",
            Word::Signal => "signal",
            Word::Default => "default",
            Word::Enum => "enum",
            Word::Required => "required",
            Word::Alias => "alias",
            Word::On => "on",
            Word::Import => "import",
            Word::As => "as",
        }
    }

    /// The word that is written so, or None where the name is a name like others.
    pub fn of_name(name: &str) -> Option<Word>
        ensures { result ≡ word_of name.now }
    {
        for word in Word::of_length(name.len()) {
            if word.as_str() == name {
                return Some(*word);
            }
        }
        None
    }

    /// The words of so many bytes, in the order of `ALL`: all that a name of that length can be.
    fn of_length(length: usize) -> &'static [Word]
        ensures { result.now ≡ words_of_length length }
    {
        if length == 2 {
            &[Word::If, Word::Do, Word::In, Word::Id, Word::On, Word::As]
        } else if length == 3 {
            &[Word::Var, Word::Let, Word::For, Word::Try, Word::New]
        } else if length == 4 {
            &[
                Word::Else,
                Word::True,
                Word::Null,
                Word::Void,
                Word::With,
                Word::This,
                Word::Enum,
            ]
        } else if length == 5 {
            &[
                Word::Const,
                Word::While,
                Word::False,
                Word::Break,
                Word::Throw,
                Word::Class,
                Word::Alias,
            ]
        } else if length == 6 {
            &[
                Word::Return,
                Word::Switch,
                Word::Delete,
                Word::TypeOf,
                Word::Signal,
                Word::Import,
            ]
        } else if length == 7 {
            &[Word::Default]
        } else if length == 8 {
            &[
                Word::Function,
                Word::Continue,
                Word::Property,
                Word::ReadOnly,
                Word::Required,
            ]
        } else if length == 9 {
            &[Word::Undefined]
        } else if length == 10 {
            &[Word::InstanceOf]
        } else {
            &[]
        }
    }
}
