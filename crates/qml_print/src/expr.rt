ghost use Rattle.std.specs.Prelude.{◌≡◌, ◌+◌, ◌≤◌, ◌++◌, codes, map, IfOk};
ghost use Rattle.qml_grammar.specs.CanonicalExpressions.{binary_strength, binary_text, bound, expr_text, join, printed, unary_space, unary_text};
ghost use Rattle.qml_grammar.specs.Canonical.{maybe_text};

use crate::literal::write_literal;
use crate::sheet::Sheet;
use qml_ast::{BinOp, Expr, UnOp};
use std::alloc::AllocError;

// How tightly each form binds. A number has no meaning but its order among the others.

/// A conditional, than which nothing binds less tightly.
pub(crate) const LOOSEST: u32 = 0;

/// `||`
const DISJUNCTION: u32 = 1;

/// `&&`
const CONJUNCTION: u32 = 2;

/// `==`, `!=`, `===` and `!==`.
const EQUALITY: u32 = 3;

/// `<`, `<=`, `>` and `>=`.
const ORDER: u32 = 4;

/// `+` and `-`.
const SUM: u32 = 5;

/// `*`, `/` and `%`.
const PRODUCT: u32 = 6;

/// An operator before its operand.
const UNARY: u32 = 7;

/// A member or a call.
const POSTFIX: u32 = 8;

/// A literal or a name.
const ATOM: u32 = 9;

/// An operator before its operand, as it is written.
fn unary_text(operator: UnOp) -> &'static [u8]
    ensures { result.now ≡ unary_text operator }
{
    match operator {
        UnOp::Neg => b"-",
        UnOp::Plus => b"+",
        UnOp::Not => b"!",
    }
}

/// An operator between two operands, as it is written, with the spaces round it.
fn binary_text(operator: BinOp) -> &'static [u8]
    ensures { result.now ≡ binary_text operator }
{
    match operator {
        BinOp::Add => b" + ",
        BinOp::Sub => b" - ",
        BinOp::Mul => b" * ",
        BinOp::Div => b" / ",
        BinOp::Rem => b" % ",
        BinOp::Lt => b" < ",
        BinOp::Le => b" <= ",
        BinOp::Gt => b" > ",
        BinOp::Ge => b" >= ",
        BinOp::Eq => b" == ",
        BinOp::Ne => b" != ",
        BinOp::Eq3 => b" === ",
        BinOp::Ne3 => b" !== ",
    }
}

/// How tightly an operator between two operands binds.
fn binary_strength(operator: BinOp) -> u32
    ensures strength { result ≡ binary_strength operator }
    ensures within { result ≤ PRODUCT }
{
    match operator {
        BinOp::Mul | BinOp::Div | BinOp::Rem => PRODUCT,
        BinOp::Add | BinOp::Sub => SUM,
        BinOp::Lt | BinOp::Le | BinOp::Gt | BinOp::Ge => ORDER,
        BinOp::Eq | BinOp::Ne | BinOp::Eq3 | BinOp::Ne3 => EQUALITY,
    }
}

/// How tightly the outermost form of an expression binds.
fn strength(expr: &Expr) -> u32
    ensures { result ≡ (printed expr.now).strength }
{
    match expr {
        Expr::Lit(_) | Expr::Name(_) => ATOM,
        Expr::Member(..) | Expr::Call(..) => POSTFIX,
        Expr::Unary(..) => UNARY,
        Expr::Binary(operator, ..) => binary_strength(*operator),
        Expr::And(..) => CONJUNCTION,
        Expr::Or(..) => DISJUNCTION,
        Expr::Cond(..) => LOOSEST,
    }
}

/// Writes an expression, in parentheses where it binds less tightly than `least`.
#[cycle(write_expr)]
pub(crate) fn write_expr(expr: &Expr, least: u32, out: &mut Sheet) -> Result<(), AllocError>
    ensures { IfOk result (λ _. out.new ≡ out.old ++ bound least (printed expr.now)) }
{
    if strength(expr) >= least {
        return write_bare(expr, out);
    }
    out.put(b"(")?;
    write_bare(expr, out)?;
    out.put(b")")
}

/// Writes an expression behind a text.
#[cycle(write_expr)]
pub(crate) fn write_behind(
    text: &[u8],
    expr: &Expr,
    least: u32,
    out: &mut Sheet,
) -> Result<(), AllocError>
    ensures { IfOk result (λ _. out.new ≡ out.old ++ (text.now ++ bound least (printed expr.now))) }
{
    out.put(text)?;
    write_expr(expr, least, out)
}

// Writes an expression without parentheses round it.
#[cycle(write_expr)]
fn write_bare(expr: &Expr, out: &mut Sheet) -> Result<(), AllocError>
    ensures { IfOk result (λ _. out.new ≡ out.old ++ (printed expr.now).text) }
{
    match expr {
        Expr::Lit(value) => write_literal(value, out),
        Expr::Name(name) => out.put(name.as_bytes()),
        Expr::Member(object, name) => {
            write_expr(object.get(), POSTFIX, out)?;
            out.put(b".")?;
            out.put(name.as_bytes())
        }
        Expr::Call(callee, arguments) => {
            write_expr(callee.get(), POSTFIX, out)?;
            out.put(b"(")?;
            write_arguments(arguments.as_slice(), out)?;
            out.put(b")")
        }
        Expr::Unary(operator, operand) => write_unary(*operator, operand.get(), out),
        Expr::Binary(operator, left, right) => {
            let strength = binary_strength(*operator);
            write_expr(left.get(), strength, out)?;
            write_behind(binary_text(*operator), right.get(), strength + 1, out)
        }
        Expr::And(left, right) => {
            write_expr(left.get(), CONJUNCTION, out)?;
            write_behind(b" && ", right.get(), CONJUNCTION + 1, out)
        }
        Expr::Or(left, right) => {
            write_expr(left.get(), DISJUNCTION, out)?;
            write_behind(b" || ", right.get(), DISJUNCTION + 1, out)
        }
        Expr::Cond(condition, then, otherwise) => {
            write_expr(condition.get(), DISJUNCTION, out)?;
            write_behind(b" ? ", then.get(), LOOSEST, out)?;
            write_behind(b" : ", otherwise.get(), LOOSEST, out)
        }
    }
}

// Writes an operator before its operand, with a space between equal signs.
#[cycle(write_expr)]
fn write_unary(operator: UnOp, operand: &Expr, out: &mut Sheet) -> Result<(), AllocError>
    ensures { let text = bound UNARY (printed operand.now) in
        IfOk result (λ _. out.new ≡ out.old ++ (unary_text operator ++ (unary_space operator text ++ text))) }
{
    out.put(unary_text(operator))?;
    let start = out.len();
    write_expr(operand, UNARY, out)?;
    match operator {
        UnOp::Neg => out.space_before(start, b'-'),
        UnOp::Plus => out.space_before(start, b'+'),
        UnOp::Not => Ok(()),
    }
}

// Writes the arguments of a call, with commas between them.
#[cycle(write_expr)]
fn write_arguments(arguments: &[Expr], out: &mut Sheet) -> Result<(), AllocError>
    ensures { IfOk result (λ _. out.new ≡ out.old ++ join (codes ", ") (map (bound 0) (map printed arguments.now))) }
{
    let [first, others @ ..] = arguments else {
        return Ok(());
    };
    write_expr(first, LOOSEST, out)?;
    for argument in others {
        write_behind(b", ", argument, LOOSEST, out)?;
    }
    Ok(())
}

/// Writes an expression behind a text, where there is one.
pub(crate) fn write_maybe(
    text: &[u8],
    expr: &Option<Expr>,
    out: &mut Sheet,
) -> Result<(), AllocError>
    ensures { IfOk result (λ _. out.new ≡ out.old ++ maybe_text text.now expr_text expr.now) }
{
    match expr {
        Some(expr) => write_behind(text, expr, LOOSEST, out),
        None => Ok(()),
    }
}
