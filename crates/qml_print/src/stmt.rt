ghost use Rattle.std.specs.Prelude.{◌≡◌, ◌++◌, codes, map, option_map, IfOk, if◌then◌else◌};
ghost use Rattle.qml_grammar.specs.Canonical.{assign_text, braced, for_head, local_word_text, maybe_text, stmt_lined, stmt_text};

use crate::expr::{LOOSEST, write_behind, write_expr, write_maybe};
use crate::sheet::Sheet;
use qml_ast::{AssignOp, Expr, LocalWord, Stmt};
use sqlite_items::Boxed;
use std::alloc::AllocError;

/// The word that declares a local, as it is written, with the space behind it.
fn local_word_text(word: LocalWord) -> &'static [u8]
    ensures { result.now ≡ local_word_text word }
{
    match word {
        LocalWord::Var => b"var ",
        LocalWord::Let => b"let ",
        LocalWord::Const => b"const ",
    }
}

/// The mark of an assignment, as it is written, with the spaces round it.
fn assign_text(operator: AssignOp) -> &'static [u8]
    ensures { result.now ≡ assign_text operator }
{
    match operator {
        AssignOp::Set => b" = ",
        AssignOp::Add => b" += ",
        AssignOp::Sub => b" -= ",
        AssignOp::Mul => b" *= ",
        AssignOp::Div => b" /= ",
    }
}

/// `++` or `--`, as it is written.
fn step_text(up: bool) -> &'static [u8]
    ensures { result.now ≡ (if up then codes "++" else codes "--") }
{
    if up { b"++" } else { b"--" }
}

/// Writes a statement as it stands in the head of a `for`: without a `;`, and nothing of one that
/// contains statements.
fn write_simple(stmt: &Stmt, out: &mut Sheet) -> Result<(), AllocError>
    ensures { IfOk result (λ _. out.new ≡ out.old ++ (stmt_lined stmt.now).bare) }
{
    match stmt {
        Stmt::Local(word, name, value) => {
            out.put(local_word_text(*word))?;
            out.put(name.as_bytes())?;
            write_maybe(b" = ", value, out)
        }
        Stmt::Assign(target, operator, value) => {
            write_expr(target, LOOSEST, out)?;
            write_behind(assign_text(*operator), value, LOOSEST, out)
        }
        Stmt::Step(target, up) => {
            write_expr(target, LOOSEST, out)?;
            out.put(step_text(*up))
        }
        Stmt::Do(expr) => write_expr(expr, LOOSEST, out),
        Stmt::Return(value) => {
            out.put(b"return")?;
            write_maybe(b" ", value, out)
        }
        Stmt::Empty | Stmt::Block(_) | Stmt::If(..) | Stmt::While(..) | Stmt::For(..) => Ok(()),
    }
}

/// Writes a part of the head of a `for` behind a text, where there is one.
fn write_part(text: &[u8], part: &Option<Boxed<Stmt>>, out: &mut Sheet) -> Result<(), AllocError>
    ensures { IfOk result (λ _. out.new ≡ out.old ++ maybe_text text.now (λ s. s.bare) (option_map stmt_lined part.now)) }
{
    match part {
        Some(part) => {
            out.put(text)?;
            write_simple(part.get(), out)
        }
        None => Ok(()),
    }
}

/// Writes the head of a `for` and the space behind it.
fn write_for_head(
    first: &Option<Boxed<Stmt>>,
    condition: &Option<Expr>,
    step: &Option<Boxed<Stmt>>,
    out: &mut Sheet,
) -> Result<(), AllocError>
    ensures { IfOk result (λ _. out.new ≡ out.old ++ for_head (option_map stmt_lined first.now) condition.now (option_map stmt_lined step.now)) }
{
    out.put(b"for (")?;
    write_part(b"", first, out)?;
    out.put(b";")?;
    write_maybe(b" ", condition, out)?;
    out.put(b";")?;
    write_part(b" ", step, out)?;
    out.put(b") ")
}

/// Writes a statement whose first line is indented by so many levels.
#[cycle(write_stmt)]
pub(crate) fn write_stmt(stmt: &Stmt, levels: usize, out: &mut Sheet) -> Result<(), AllocError>
    ensures { IfOk result (λ _. out.new ≡ out.old ++ stmt_text stmt.now levels) }
{
    match stmt {
        Stmt::Block(stmts) => write_block(stmts.as_slice(), levels, out),
        Stmt::If(condition, then, otherwise) => {
            out.put(b"if (")?;
            write_expr(condition, LOOSEST, out)?;
            out.put(b") ")?;
            write_stmt(then.get(), levels, out)?;
            write_otherwise(otherwise, levels, out)
        }
        Stmt::While(condition, body) => {
            out.put(b"while (")?;
            write_expr(condition, LOOSEST, out)?;
            out.put(b") ")?;
            write_stmt(body.get(), levels, out)
        }
        Stmt::For(first, condition, step, body) => {
            write_for_head(first, condition, step, out)?;
            write_stmt(body.get(), levels, out)
        }
        Stmt::Local(..)
        | Stmt::Assign(..)
        | Stmt::Step(..)
        | Stmt::Do(_)
        | Stmt::Empty
        | Stmt::Return(_) => {
            write_simple(stmt, out)?;
            out.put(b";")
        }
    }
}

// Writes what is done where an `if` does not hold, where there is something.
#[cycle(write_stmt)]
fn write_otherwise(
    otherwise: &Option<Boxed<Stmt>>,
    levels: usize,
    out: &mut Sheet,
) -> Result<(), AllocError>
    ensures { IfOk result (λ _. out.new ≡ out.old ++ maybe_text (codes " else ") (λ s. s.lined levels) (option_map stmt_lined otherwise.now)) }
{
    match otherwise {
        Some(otherwise) => {
            out.put(b" else ")?;
            write_stmt(otherwise.get(), levels, out)
        }
        None => Ok(()),
    }
}

/// Writes statements in braces, each on lines of its own.
#[cycle(write_stmt)]
pub(crate) fn write_block(stmts: &[Stmt], levels: usize, out: &mut Sheet) -> Result<(), AllocError>
    ensures { IfOk result (λ _. out.new ≡ out.old ++ braced (map stmt_text stmts.now) levels) }
{
    // No memory holds a text that is indented by more levels than a usize counts.
    let inner = levels.checked_add(1).ok_or(AllocError)?;
    out.put(b"{\n")?;
    for stmt in stmts {
        out.indent(inner)?;
        write_stmt(stmt, inner, out)?;
        out.put(b"\n")?;
    }
    out.indent(levels)?;
    out.put(b"}")
}
