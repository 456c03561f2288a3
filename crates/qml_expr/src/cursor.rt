ghost use Rattle.std.specs.Prelude.{◌≡◌, is_some, IfOk, length};
ghost use Rattle.qml_ast.specs.declared.fault.DocFault.TheVariants.{TooDeep};
ghost use Rattle.qml_grammar.specs.Expressions.{begins_postfix};
ghost use Rattle.qml_grammar.specs.Inputs as spec;
ghost use Rattle.qml_grammar.specs.Lexemes.{is_mark, is_word, is_foreign, is_foreign_operand, atom_of, name_of, operand_name_of, looked_up, unary_operator};
ghost use Rattle.qml_expr.specs.Precedences.{table_at, begins_at};
ghost use Rattle.qml_expr.specs.Readings.{IsReading};
ghost use Rattle.qml_expr.specs.Seen.{input_of, lexeme_of, atom_of_lexeme};

use crate::lexeme::Lexeme;
use crate::precedence::Precedence;
use crate::token::Token;
use qml_ast::{BinOp, DocFault, Expr, Name, Span, UnOp};
use qml_grammar::{Mark, Word};
use sqlite_items::Boxed;
use std::alloc::{AllocError, Global};

/// Where reading stands among the tokens of a document.
#[derive(Clone, Copy)]
pub struct Cursor<'a> {
    /// The tokens that are left.
    pub rest: &'a [Token],
    /// The place after the document's last byte.
    pub end: Span,
    /// How many nodes the expression that is being read may still have.
    pub nodes: u32,
}

#[tactic(auto, unfolding(crate::specs::Seen::input_of))]
impl<'a> Cursor<'a> {
    /// How many tokens are left.
    pub fn left(&self) -> usize
        ensures { result ≡ length (input_of self.now).rest }
    {
        self.rest.len()
    }

    /// Whether the next token is the mark.
    #[inline]
    pub fn sees(&self, mark: Mark) -> bool
        ensures { result ≡ is_mark mark (spec.ahead (input_of self.now)) }
    {
        match self.rest {
            [token, ..] => token.lexeme.is_mark(mark),
            [] => false,
        }
    }

    /// Whether the next token is the word.
    pub fn sees_word(&self, word: Word) -> bool
        ensures { result ≡ is_word word (spec.ahead (input_of self.now)) }
    {
        match self.rest {
            [token, ..] => token.lexeme.is_word(word),
            [] => false,
        }
    }

    /// Whether the next token alone is an expression: a literal, or a name that may begin one.
    pub fn sees_atom(&self) -> bool
        ensures { result ≡ is_some (atom_of (spec.ahead (input_of self.now))) }
    {
        match self.rest {
            [token, ..] => token.lexeme.is_atom(),
            [] => false,
        }
    }

    /// Where the next token begins, or the document ends.
    pub fn place(&self) -> Span
        ensures { result ≡ spec.place (input_of self.now) }
    {
        match self.rest {
            [token, ..] => token.span,
            [] => self.end,
        }
    }

    // Whether the next token is one that the engine has nowhere in expressions.
    fn is_foreign(&self) -> bool
        ensures { result ≡ is_foreign (spec.ahead (input_of self.now)) }
    {
        match self.rest {
            [token, ..] => token.lexeme.is_foreign(),
            [] => false,
        }
    }

    // Whether the next token is one that begins an expression in QML, and none of the engine's.
    fn is_foreign_operand(&self) -> bool
        ensures { result ≡ is_foreign_operand (spec.ahead (input_of self.now)) }
    {
        match self.rest {
            [token, ..] => token.lexeme.is_foreign_operand(),
            [] => false,
        }
    }

    /// That the next token cannot stand there: `Unsupported` where QML has it in some place and the
    /// engine has not, and else `Syntax`.
    pub fn refusal(&self) -> DocFault
        ensures { result ≡ spec.refusal (input_of self.now) }
    {
        let at = self.place();
        if self.is_foreign() {
            DocFault::Unsupported { at }
        } else {
            DocFault::Syntax { at }
        }
    }

    /// That no expression or statement begins with the next token: `Unsupported` where one of QML's does,
    /// and else `Syntax`.
    pub fn operand_refusal(&self) -> DocFault
        ensures { result ≡ spec.operand_refusal (input_of self.now) }
    {
        let at = self.place();
        if self.is_foreign_operand() {
            DocFault::Unsupported { at }
        } else {
            DocFault::Syntax { at }
        }
    }

    /// That the next token would open a level or be a node too many.
    pub fn too_deep(&self) -> DocFault
        ensures { result ≡ TooDeep (spec.place (input_of self.now)) }
    {
        DocFault::TooDeep { at: self.place() }
    }

    /// The expression that the next token alone is, if it is one.
    pub(crate) fn atom(&self, alloc: Global) -> Result<Option<Boxed<Expr>>, AllocError>
        ensures { IfOk result (λ atom. atom ≡ atom_of (spec.ahead (input_of self.now))) }
    {
        match self.rest {
            [token, ..] => token_atom(alloc, &token.lexeme),
            [] => Ok(None),
        }
    }

    /// The operator that the next token is before its operand, if it is one.
    #[inline]
    pub fn unary_operator(&self) -> Option<UnOp>
        ensures { result ≡ looked_up unary_operator (spec.ahead (input_of self.now)) }
    {
        match self.rest {
            [token, ..] => match token.lexeme {
                Lexeme::Mark(Mark::Minus) => Some(UnOp::Neg),
                Lexeme::Mark(Mark::Plus) => Some(UnOp::Plus),
                Lexeme::Mark(Mark::Bang) => Some(UnOp::Not),
                _ => None,
            },
            [] => None,
        }
    }

    /// The operator of a level that the next token is between operands, if it is one but `&&` and `||`.
    #[inline]
    pub(crate) fn operator(&self, precedence: Precedence) -> Option<BinOp>
        ensures { result ≡ looked_up (table_at precedence) (spec.ahead (input_of self.now)) }
    {
        match self.rest {
            [token, ..] => match token.lexeme {
                Lexeme::Mark(mark) => precedence.operator(mark),
                _ => None,
            },
            [] => None,
        }
    }

    /// Whether the next token is an operator of the level.
    #[inline]
    pub(crate) fn begins(&self, precedence: Precedence) -> bool
        ensures { result ≡ begins_at precedence (spec.ahead (input_of self.now)) }
    {
        match precedence {
            Precedence::Product | Precedence::Sum | Precedence::Order | Precedence::Equality => self
                .operator(precedence)
                .is_some(),
            Precedence::And => self.sees(Mark::DoubleAmpersand),
            Precedence::Or => self.sees(Mark::DoubleBar),
        }
    }

    /// Whether a member or a call follows, behind what has it.
    #[inline]
    pub(crate) fn begins_postfix(&self) -> bool
        ensures { result ≡ begins_postfix (spec.ahead (input_of self.now)) }
    {
        self.sees(Mark::Dot) || self.sees(Mark::OpenParen)
    }

    /// Goes behind the next token.
    pub fn skip(&mut self)
        ensures { input_of self.new ≡ spec.after (input_of self.old) }
    {
        if let [_, rest @ ..] = self.rest {
            self.rest = rest;
        }
    }

    /// Goes behind the next token, which begins a node. The fault is `TooDeep` where the expression may
    /// have no more nodes.
    pub fn take_node(&mut self) -> Result<(), DocFault>
        ensures { IsReading (spec.take_node (input_of self.old)) result (input_of self.new) }
    {
        if self.nodes == 0 {
            return Err(DocFault::TooDeep { at: self.place() });
        }
        self.nodes -= 1;
        if let [_, rest @ ..] = self.rest {
            self.rest = rest;
        }
        Ok(())
    }

    /// Goes behind the next token, which has to be the mark: the fault is the refusal of it.
    pub fn expect(&mut self, mark: Mark) -> Result<(), DocFault>
        ensures { IsReading (spec.expect mark (input_of self.old)) result (input_of self.new) }
    {
        if !self.sees(mark) {
            return Err(self.refusal());
        }
        self.skip();
        Ok(())
    }

    /// The next token's name, and goes behind it. The fault is the refusal of a token that is no name.
    pub fn any_name(&mut self, alloc: Global) -> Result<Name, DocFault>
        ensures { IsReading (spec.any_name (input_of self.old)) result (input_of self.new) }
    {
        match self.name(alloc)? {
            Some(name) => {
                self.skip();
                Ok(name)
            }
            None => Err(self.refusal()),
        }
    }

    /// The name that the next token is where an expression or a statement begins, if it is one there. The
    /// error is that memory ran out.
    pub fn operand_name(&self, alloc: Global) -> Result<Option<Name>, AllocError>
        ensures { IfOk result (λ name. name ≡ operand_name_of (spec.ahead (input_of self.now))) }
    {
        match self.rest {
            [token, ..] => token.lexeme.operand_name(alloc),
            [] => Ok(None),
        }
    }

    /// The name that the next token is, if it is one, which a word is too. The error is that memory ran
    /// out.
    pub fn name(&self, alloc: Global) -> Result<Option<Name>, AllocError>
        ensures { IfOk result (λ name. name ≡ name_of (spec.ahead (input_of self.now))) }
    {
        match self.rest {
            [token, ..] => token.lexeme.name(alloc),
            [] => Ok(None),
        }
    }
}

// The expression that a token alone is, if it is one.
fn token_atom(alloc: Global, lexeme: &Lexeme) -> Result<Option<Boxed<Expr>>, AllocError>
    ensures { IfOk result (λ atom. atom ≡ atom_of_lexeme (lexeme_of lexeme.now)) }
{
    if let Some(value) = lexeme.value(alloc)? {
        return Ok(Some(Boxed::new(alloc, Expr::Lit(value))?));
    }
    match lexeme.operand_name(alloc)? {
        Some(name) => Ok(Some(Boxed::new(alloc, Expr::Name(name))?)),
        None => Ok(None),
    }
}
