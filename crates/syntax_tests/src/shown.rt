//! The forms of expressions and statements, with brackets round each part.

use qml_ast::{AssignOp, BinOp, Expr, LocalWord, Stmt, UnOp, to_text};
use sqlite_items::Boxed;
use std::alloc::{AllocError, Global};

fn operator_text(operator: BinOp) -> &'static str {
    match operator {
        BinOp::Add => " + ",
        BinOp::Sub => " - ",
        BinOp::Mul => " * ",
        BinOp::Div => " / ",
        BinOp::Rem => " % ",
        BinOp::Lt => " < ",
        BinOp::Le => " <= ",
        BinOp::Gt => " > ",
        BinOp::Ge => " >= ",
        BinOp::Eq => " == ",
        BinOp::Ne => " != ",
        BinOp::Eq3 => " === ",
        BinOp::Ne3 => " !== ",
    }
}

fn sign_text(operator: UnOp) -> &'static str {
    match operator {
        UnOp::Neg => "-",
        UnOp::Plus => "+",
        UnOp::Not => "!",
    }
}

// Expressions

/// Adds an expression behind a text.
#[cycle(show_expr)]
fn show_behind(alloc: Global, out: &mut String, text: &str, expr: &Expr) -> Result<(), AllocError> {
    out.push_str(text)?;
    show_expr(alloc, out, expr)
}

#[cycle(show_expr)]
fn show_arguments(alloc: Global, out: &mut String, arguments: &[Expr]) -> Result<(), AllocError> {
    out.push_str("[")?;
    for argument in arguments {
        out.push_str(" ")?;
        show_expr(alloc, out, argument)?;
    }
    out.push_str(" ]")
}

/// Adds an expression, with parentheses round each operator and its operands.
#[cycle(show_expr)]
pub(crate) fn show_expr(alloc: Global, out: &mut String, expr: &Expr) -> Result<(), AllocError> {
    match expr {
        Expr::Lit(value) => out.push_str(to_text(alloc, value)?.as_str()),
        Expr::Name(name) => out.push_str(name.as_str()),
        Expr::Member(object, name) => {
            show_expr(alloc, out, object.get())?;
            out.push_str(".")?;
            out.push_str(name.as_str())
        }
        Expr::Call(callee, arguments) => {
            show_expr(alloc, out, callee.get())?;
            show_arguments(alloc, out, arguments.as_slice())
        }
        Expr::Unary(operator, operand) => {
            out.push_str("(")?;
            out.push_str(sign_text(*operator))?;
            show_behind(alloc, out, " ", operand.get())?;
            out.push_str(")")
        }
        Expr::Binary(operator, left, right) => {
            show_behind(alloc, out, "(", left.get())?;
            show_behind(alloc, out, operator_text(*operator), right.get())?;
            out.push_str(")")
        }
        Expr::And(left, right) => {
            show_behind(alloc, out, "(", left.get())?;
            show_behind(alloc, out, " && ", right.get())?;
            out.push_str(")")
        }
        Expr::Or(left, right) => {
            show_behind(alloc, out, "(", left.get())?;
            show_behind(alloc, out, " || ", right.get())?;
            out.push_str(")")
        }
        Expr::Cond(condition, then, otherwise) => {
            show_behind(alloc, out, "(", condition.get())?;
            show_behind(alloc, out, " ? ", then.get())?;
            show_behind(alloc, out, " : ", otherwise.get())?;
            out.push_str(")")
        }
    }
}

/// Adds an expression, or `-` where there is none.
fn show_optional(alloc: Global, out: &mut String, expr: &Option<Expr>) -> Result<(), AllocError> {
    match expr {
        Some(expr) => show_expr(alloc, out, expr),
        None => out.push_str("-"),
    }
}

// Statements

fn local_text(word: LocalWord) -> &'static str {
    match word {
        LocalWord::Var => "var ",
        LocalWord::Let => "let ",
        LocalWord::Const => "const ",
    }
}

fn assign_text(operator: AssignOp) -> &'static str {
    match operator {
        AssignOp::Set => " = ",
        AssignOp::Add => " += ",
        AssignOp::Sub => " -= ",
        AssignOp::Mul => " *= ",
        AssignOp::Div => " /= ",
    }
}

/// Adds a statement in which there is no other one; nothing of others.
fn show_short(alloc: Global, out: &mut String, stmt: &Stmt) -> Result<(), AllocError> {
    match stmt {
        Stmt::Local(word, name, value) => {
            out.push_str(local_text(*word))?;
            out.push_str(name.as_str())?;
            out.push_str(" = ")?;
            show_optional(alloc, out, value)
        }
        Stmt::Assign(target, operator, value) => {
            show_expr(alloc, out, target)?;
            out.push_str(assign_text(*operator))?;
            show_expr(alloc, out, value)
        }
        Stmt::Step(target, up) => {
            show_expr(alloc, out, target)?;
            out.push_str(if *up { "++" } else { "--" })
        }
        Stmt::Do(expr) => show_expr(alloc, out, expr),
        Stmt::Return(value) => {
            out.push_str("return ")?;
            show_optional(alloc, out, value)
        }
        _ => Ok(()),
    }
}

/// Adds a statement in brackets, or `[-]` where there is none.
#[cycle(show_stmt)]
fn show_part(
    alloc: Global,
    out: &mut String,
    part: &Option<Boxed<Stmt>>,
) -> Result<(), AllocError> {
    out.push_str("[")?;
    match part {
        Some(part) => show_stmt(alloc, out, part.get())?,
        None => out.push_str("-")?,
    }
    out.push_str("]")
}

/// Adds statements in braces.
#[cycle(show_stmt)]
pub(crate) fn show_block(
    alloc: Global,
    out: &mut String,
    stmts: &[Stmt],
) -> Result<(), AllocError> {
    out.push_str("{")?;
    for stmt in stmts {
        out.push_str(" ")?;
        show_stmt(alloc, out, stmt)?;
    }
    out.push_str(" }")
}

/// Adds a statement, with brackets round each that is inside another one.
#[cycle(show_stmt)]
pub(crate) fn show_stmt(alloc: Global, out: &mut String, stmt: &Stmt) -> Result<(), AllocError> {
    match stmt {
        Stmt::Block(stmts) => show_block(alloc, out, stmts.as_slice()),
        Stmt::If(condition, then, otherwise) => {
            out.push_str("if ")?;
            show_expr(alloc, out, condition)?;
            out.push_str(" [")?;
            show_stmt(alloc, out, then.get())?;
            out.push_str("] ")?;
            show_part(alloc, out, otherwise)
        }
        Stmt::While(condition, body) => {
            out.push_str("while ")?;
            show_expr(alloc, out, condition)?;
            out.push_str(" [")?;
            show_stmt(alloc, out, body.get())?;
            out.push_str("]")
        }
        Stmt::For(first, condition, step, body) => {
            out.push_str("for ")?;
            show_part(alloc, out, first)?;
            out.push_str(" ")?;
            show_optional(alloc, out, condition)?;
            out.push_str(" ")?;
            show_part(alloc, out, step)?;
            out.push_str(" [")?;
            show_stmt(alloc, out, body.get())?;
            out.push_str("]")
        }
        _ => {
            show_short(alloc, out, stmt)?;
            out.push_str(";")
        }
    }
}
