ghost use Rattle.std.specs.Prelude.{◌≡◌};

/// A mark of the language.
#[derive(Clone, Copy, Debug, PartialEq, Eq)]
pub enum Mark {
    /// `{`
    OpenBrace,
    /// `}`
    CloseBrace,
    /// `(`
    OpenParen,
    /// `)`
    CloseParen,
    /// `[`
    OpenBracket,
    /// `]`
    CloseBracket,
    /// `;`
    Semicolon,
    /// `:`
    Colon,
    /// `,`
    Comma,
    /// `.`
    Dot,
    /// `?`
    Question,
    /// `+`
    Plus,
    /// `-`
    Minus,
    /// `*`
    Star,
    /// `/`
    Slash,
    /// `%`
    Percent,
    /// `!`
    Bang,
    /// `<`
    Less,
    /// `>`
    Greater,
    /// `<=`
    LessEqual,
    /// `>=`
    GreaterEqual,
    /// `==`
    EqualEqual,
    /// `!=`
    BangEqual,
    /// `===`
    TripleEqual,
    /// `!==`
    BangDoubleEqual,
    /// `&&`
    DoubleAmpersand,
    /// `||`
    DoubleBar,
    /// `=`
    Equal,
    /// `+=`
    PlusEqual,
    /// `-=`
    MinusEqual,
    /// `*=`
    StarEqual,
    /// `/=`
    SlashEqual,
    /// `++`
    DoublePlus,
    /// `--`
    DoubleMinus,
}

impl Mark {
    ghost use Rattle.qml_grammar.specs.Marks.{mark_text};

    /// How the mark is written.
    #[tactic(auto, unfolding(crate::specs::Marks::mark_text))]
    pub fn as_str(self) -> &'static str
        ensures { result.now ≡ mark_text self }
    {
        match self {
            Mark::OpenBrace => "{",
            Mark::CloseBrace => "}",
            Mark::OpenParen => "(",
            Mark::CloseParen => ")",
            Mark::OpenBracket => "[",
            Mark::CloseBracket => "]",
            Mark::Semicolon => ";",
            Mark::Colon => ":",
            Mark::Comma => ",",
            Mark::Dot => ".",
            Mark::Question => "?",
            Mark::Plus => "+",
            Mark::Minus => "-",
            Mark::Star => "*",
            Mark::Slash => "/",
            Mark::Percent => "%",
            Mark::Bang => "!",
            Mark::Less => "<",
            Mark::Greater => ">",
            Mark::LessEqual => "<=",
            Mark::GreaterEqual => ">=",
            Mark::EqualEqual => "==",
            Mark::BangEqual => "!=",
            Mark::TripleEqual => "===",
            Mark::BangDoubleEqual => "!==",
            Mark::DoubleAmpersand => "&&",
            Mark::DoubleBar => "||",
            Mark::Equal => "=",
            Mark::PlusEqual => "+=",
            Mark::MinusEqual => "-=",
            Mark::StarEqual => "*=",
            Mark::SlashEqual => "/=",
            Mark::DoublePlus => "++",
            Mark::DoubleMinus => "--",
        }
    }
}
