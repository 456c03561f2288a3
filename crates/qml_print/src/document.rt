ghost use Rattle.std.specs.Prelude.{◌≡◌, ◌++◌, flat_map, IfOk};
ghost use Rattle.qml_grammar.specs.Canonical.{document_text, import_text, stmt_text};
ghost use Rattle.qml_grammar.specs.CanonicalExpressions.{expr_text};

use crate::decl::write_decl;
use crate::expr::{LOOSEST, write_expr};
use crate::sheet::Sheet;
use crate::stmt::write_stmt;
use qml_ast::{Document, Expr, Import, Stmt};
use std::alloc::{AllocError, Global};

/// The canonical text of a document, as bytes: its imports, one a line, and its outermost object. Lines end
/// in LF. The form is this engine's own, near the Qt 5 QML Coding Conventions.
///
/// # Errors
///
/// `AllocError` if memory runs out.
pub fn print(alloc: Global, document: &Document) -> Result<Vec<u8>, AllocError>
    ensures { IfOk result (λ bytes. bytes.items ≡ document_text document.now) }
{
    let mut out = Sheet::new(alloc);
    write_imports(document.imports.as_slice(), &mut out)?;
    write_decl(&document.root, 0, &mut out)?;
    out.put(b"\n")?;
    Ok(out.into_bytes())
}

/// The canonical text of an expression, as bytes.
///
/// # Errors
///
/// `AllocError` if memory runs out.
pub fn print_expr(alloc: Global, expr: &Expr) -> Result<Vec<u8>, AllocError>
    ensures { IfOk result (λ bytes. bytes.items ≡ expr_text expr.now) }
{
    let mut out = Sheet::new(alloc);
    write_expr(expr, LOOSEST, &mut out)?;
    Ok(out.into_bytes())
}

/// The canonical text of a statement that stands at no level, as bytes.
///
/// # Errors
///
/// `AllocError` if memory runs out.
pub fn print_stmt(alloc: Global, stmt: &Stmt) -> Result<Vec<u8>, AllocError>
    ensures { IfOk result (λ bytes. bytes.items ≡ stmt_text stmt.now 0) }
{
    let mut out = Sheet::new(alloc);
    write_stmt(stmt, 0, &mut out)?;
    Ok(out.into_bytes())
}

/// Writes imports, one a line.
fn write_imports(imports: &[Import], out: &mut Sheet) -> Result<(), AllocError>
    ensures { IfOk result (λ _. out.new ≡ out.old ++ flat_map import_text imports.now) }
{
    for import in imports {
        write_import(import, out)?;
    }
    Ok(())
}

/// Writes an import in a line.
fn write_import(import: &Import, out: &mut Sheet) -> Result<(), AllocError>
    ensures { IfOk result (λ _. out.new ≡ out.old ++ import_text import.now) }
{
    out.put(b"import ")?;
    out.put(import.module.as_bytes())?;
    out.put(b" ")?;
    out.put_number(import.major)?;
    out.put(b".")?;
    out.put_number(import.minor)?;
    out.put(b"\n")
}
