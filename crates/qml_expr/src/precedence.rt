ghost use Rattle.std.specs.Prelude.{◌≡◌};
ghost use Rattle.qml_expr.specs.Precedences.{table_at};

use qml_ast::BinOp;
use qml_grammar::Mark;

/// A level of operators between operands, from those that bind tightest on.
#[derive(Clone, Copy)]
pub(crate) enum Precedence {
    /// `*`, `/` and `%`.
    Product,
    /// `+` and `-`.
    Sum,
    /// `<`, `<=`, `>` and `>=`.
    Order,
    /// `==`, `!=`, `===` and `!==`.
    Equality,
    /// `&&`
    And,
    /// `||`
    Or,
}

/// What stands between two operands.
#[derive(Clone, Copy)]
pub(crate) enum Joint {
    Operator(BinOp),
    /// `&&`
    Both,
    /// `||`
    Either,
}

impl Precedence {
    /// The operator that a mark is at this level, if it is one but `&&` and `||`.
    pub(crate) fn operator(self, mark: Mark) -> Option<BinOp>
        ensures { result ≡ table_at self mark }
    {
        match (self, mark) {
            (Precedence::Product, Mark::Star) => Some(BinOp::Mul),
            (Precedence::Product, Mark::Slash) => Some(BinOp::Div),
            (Precedence::Product, Mark::Percent) => Some(BinOp::Rem),
            (Precedence::Sum, Mark::Plus) => Some(BinOp::Add),
            (Precedence::Sum, Mark::Minus) => Some(BinOp::Sub),
            (Precedence::Order, Mark::Less) => Some(BinOp::Lt),
            (Precedence::Order, Mark::LessEqual) => Some(BinOp::Le),
            (Precedence::Order, Mark::Greater) => Some(BinOp::Gt),
            (Precedence::Order, Mark::GreaterEqual) => Some(BinOp::Ge),
            (Precedence::Equality, Mark::EqualEqual) => Some(BinOp::Eq),
            (Precedence::Equality, Mark::BangEqual) => Some(BinOp::Ne),
            (Precedence::Equality, Mark::TripleEqual) => Some(BinOp::Eq3),
            (Precedence::Equality, Mark::BangDoubleEqual) => Some(BinOp::Ne3),
            _ => None,
        }
    }
}
