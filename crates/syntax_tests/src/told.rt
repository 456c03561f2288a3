//! Documents with their places.

use qml_ast::{
    Decl, Document, Expr, Import, Init, Member, MethodParam, Name, Path, SignalParam, Span, Stmt,
    to_text,
};
use std::alloc::{AllocError, Global};

/// Adds a place behind what stands there.
fn push_at(alloc: Global, told: &mut String, at: Span) -> Result<(), AllocError> {
    told.push_str(" ")?;
    told.push_str(at.to_string(alloc)?.as_str())
}

/// Adds a word and its place.
fn push_word(alloc: Global, told: &mut String, word: &str, at: Span) -> Result<(), AllocError> {
    told.push_str(word)?;
    push_at(alloc, told, at)
}

// Expressions, statements and paths

/// Adds a literal or a name; of other expressions only that they are ones.
fn push_expr(alloc: Global, told: &mut String, expr: &Expr) -> Result<(), AllocError> {
    match expr {
        Expr::Lit(value) => told.push_str(to_text(alloc, value)?.as_str()),
        Expr::Name(name) => told.push_str(name.as_str()),
        _ => told.push_str("expression"),
    }
}

fn stmt_text(stmt: &Stmt) -> &'static str {
    match stmt {
        Stmt::Assign(_, _, _) => "assignment",
        Stmt::Block(_) => "block",
        Stmt::Empty => "empty",
        Stmt::If(_, _, _) => "if",
        Stmt::Do(_) => "do",
        _ => "statement",
    }
}

fn push_path(alloc: Global, told: &mut String, path: &Path, at: Span) -> Result<(), AllocError> {
    told.push_str(path.first.as_str())?;
    if let Some(second) = &path.second {
        told.push_str(".")?;
        told.push_str(second.as_str())?;
    }
    push_at(alloc, told, at)
}

// Signals and methods

fn push_signal_params(
    alloc: Global,
    told: &mut String,
    params: &[SignalParam],
) -> Result<(), AllocError> {
    for param in params {
        told.push_str(" ")?;
        push_word(alloc, told, param.kind.as_str(), param.kind_span)?;
        told.push_str(" ")?;
        push_word(alloc, told, param.name.as_str(), param.name_span)?;
    }
    Ok(())
}

fn push_method_params(
    alloc: Global,
    told: &mut String,
    params: &[MethodParam],
) -> Result<(), AllocError> {
    for param in params {
        told.push_str(" ")?;
        push_word(alloc, told, param.name.as_str(), param.span)?;
    }
    Ok(())
}

/// Adds an id, a signal, a method or a handler; nothing of other members.
fn push_plain(alloc: Global, told: &mut String, member: &Member) -> Result<(), AllocError> {
    match member {
        Member::Id(name, span) => {
            told.push_str("id ")?;
            push_word(alloc, told, name.as_str(), *span)
        }
        Member::Signal { name, params, span } => {
            told.push_str("signal ")?;
            push_word(alloc, told, name.as_str(), *span)?;
            push_signal_params(alloc, told, params.as_slice())
        }
        Member::Method {
            name,
            params,
            body,
            span,
        } => {
            told.push_str("method ")?;
            push_word(alloc, told, name.as_str(), *span)?;
            push_method_params(alloc, told, params.as_slice())?;
            told.push_str(" of ")?;
            told.push_str(body.get().len().to_string(alloc)?.as_str())
        }
        Member::Handler { path, body, span } => {
            push_path(alloc, told, path, *span)?;
            told.push_str(" does ")?;
            told.push_str(stmt_text(body.get().get()))
        }
        _ => Ok(()),
    }
}

/// Adds what a property declares before its value.
fn push_declared(
    alloc: Global,
    told: &mut String,
    fixed: bool,
    kind: &Name,
    kind_span: Span,
) -> Result<(), AllocError> {
    told.push_str("property ")?;
    told.push_str(if fixed { "true " } else { "false " })?;
    push_word(alloc, told, kind.as_str(), kind_span)?;
    told.push_str(" ")
}

// Objects

/// Adds a value and its place.
#[cycle(told)]
fn push_init(alloc: Global, told: &mut String, init: &Init, at: Span) -> Result<(), AllocError> {
    told.push_str(" = ")?;
    match init {
        Init::Expr(expr) => push_expr(alloc, told, expr.get())?,
        Init::Object(object) => push_decl(alloc, told, object.get())?,
    }
    push_at(alloc, told, at)
}

#[cycle(told)]
fn push_member(alloc: Global, told: &mut String, member: &Member) -> Result<(), AllocError> {
    match member {
        Member::Property {
            fixed,
            kind,
            name,
            init,
            kind_span,
            value_span,
            span,
        } => {
            push_declared(alloc, told, *fixed, kind, *kind_span)?;
            push_word(alloc, told, name.as_str(), *span)?;
            match init {
                Some(init) => push_init(alloc, told, init, *value_span),
                None => push_word(alloc, told, " = nothing", *value_span),
            }
        }
        Member::Init {
            path,
            init,
            value_span,
            span,
        } => {
            push_path(alloc, told, path, *span)?;
            push_init(alloc, told, init, *value_span)
        }
        Member::Child(child) => push_decl(alloc, told, child),
        _ => push_plain(alloc, told, member),
    }
}

#[cycle(told)]
fn push_decl(alloc: Global, told: &mut String, decl: &Decl) -> Result<(), AllocError> {
    push_word(alloc, told, decl.name.as_str(), decl.span)?;
    told.push_str(" {")?;
    for member in decl.members.as_slice() {
        push_member(alloc, told, member)?;
        told.push_str("; ")?;
    }
    told.push_str("}")
}

fn push_imports(alloc: Global, told: &mut String, imports: &[Import]) -> Result<(), AllocError> {
    for import in imports {
        let Import {
            module,
            major,
            minor,
            span,
        } = import;
        let one = format!(in alloc; "{module} {major}.{minor} {span}; ")?;
        told.push_str(one.as_str())?;
    }
    Ok(())
}

/// The imports of a document and its objects, each part with its place.
pub(crate) fn told_document(alloc: Global, document: &Document) -> Result<String, AllocError> {
    let mut told = String::new(alloc);
    push_imports(alloc, &mut told, document.imports.as_slice())?;
    push_decl(alloc, &mut told, &document.root)?;
    Ok(told)
}
