ghost use Rattle.std.specs.Prelude.{◌≡◌, [], ◌++◌, codes, map, option_map, IfOk, if◌then◌else◌};
ghost use Rattle.qml_grammar.specs.Canonical.{braced, decl_text, init_text, maybe_text, member_text, method_params_text, path_text, signal_param_text, signal_params_text};
ghost use Rattle.qml_grammar.specs.CanonicalExpressions.{join};

use crate::expr::{LOOSEST, write_expr};
use crate::sheet::Sheet;
use crate::stmt::{write_block, write_stmt};
use qml_ast::{Decl, Init, Member, MethodParam, Name, Path, SignalParam};
use std::alloc::AllocError;

/// Writes one name, or two with a dot between them.
fn write_path(path: &Path, out: &mut Sheet) -> Result<(), AllocError>
    ensures { IfOk result (λ _. out.new ≡ out.old ++ path_text path.now) }
{
    out.put(path.first.as_bytes())?;
    match &path.second {
        Some(second) => {
            out.put(b".")?;
            out.put(second.as_bytes())
        }
        None => Ok(()),
    }
}

/// Writes a parameter of a signal.
fn write_signal_param(param: &SignalParam, out: &mut Sheet) -> Result<(), AllocError>
    ensures { IfOk result (λ _. out.new ≡ out.old ++ signal_param_text param.now) }
{
    out.put(param.kind.as_bytes())?;
    out.put(b" ")?;
    out.put(param.name.as_bytes())
}

/// Writes parameters of a signal with commas between them.
fn write_signal_list(params: &[SignalParam], out: &mut Sheet) -> Result<(), AllocError>
    ensures { IfOk result (λ _. out.new ≡ out.old ++ join (codes ", ") (map signal_param_text params.now)) }
{
    let [first, others @ ..] = params else {
        return Ok(());
    };
    write_signal_param(first, out)?;
    for param in others {
        out.put(b", ")?;
        write_signal_param(param, out)?;
    }
    Ok(())
}

/// Writes what a signal takes, in parentheses, if anything.
fn write_signal_params(params: &[SignalParam], out: &mut Sheet) -> Result<(), AllocError>
    ensures { IfOk result (λ _. out.new ≡ out.old ++ signal_params_text params.now) }
{
    if params.is_empty() {
        return Ok(());
    }
    out.put(b"(")?;
    write_signal_list(params, out)?;
    out.put(b")")
}

/// Writes names with commas between them.
fn write_method_names(params: &[MethodParam], out: &mut Sheet) -> Result<(), AllocError>
    ensures { IfOk result (λ _. out.new ≡ out.old ++ join (codes ", ") (map (λ p. p.name) params.now)) }
{
    let [first, others @ ..] = params else {
        return Ok(());
    };
    out.put(first.name.as_bytes())?;
    for param in others {
        out.put(b", ")?;
        out.put(param.name.as_bytes())?;
    }
    Ok(())
}

/// Writes what a method takes, in parentheses, and the space behind them.
fn write_method_params(params: &[MethodParam], out: &mut Sheet) -> Result<(), AllocError>
    ensures { IfOk result (λ _. out.new ≡ out.old ++ method_params_text params.now) }
{
    out.put(b"(")?;
    write_method_names(params, out)?;
    out.put(b") ")
}

/// Writes the declaration of a property as far as its name.
fn write_property(fixed: bool, kind: &Name, name: &Name, out: &mut Sheet) -> Result<(), AllocError>
    ensures { IfOk result (λ _. out.new ≡ out.old ++ ((if fixed then codes "readonly " else []) ++ (codes "property " ++ (kind.now ++ (codes " " ++ name.now))))) }
{
    let start: &[u8] = if fixed {
        b"readonly property "
    } else {
        b"property "
    };
    out.put(start)?;
    out.put(kind.as_bytes())?;
    out.put(b" ")?;
    out.put(name.as_bytes())
}

/// Writes a declaration whose first line is indented by so many levels.
#[cycle(write_decl)]
pub(crate) fn write_decl(decl: &Decl, levels: usize, out: &mut Sheet) -> Result<(), AllocError>
    ensures { IfOk result (λ _. out.new ≡ out.old ++ decl_text decl.now levels) }
{
    out.put(decl.name.as_bytes())?;
    out.put(b" ")?;
    write_members(decl.members.as_slice(), levels, out)
}

// Writes members in braces, each on lines of its own.
#[cycle(write_decl)]
fn write_members(members: &[Member], levels: usize, out: &mut Sheet) -> Result<(), AllocError>
    ensures { IfOk result (λ _. out.new ≡ out.old ++ braced (map member_text members.now) levels) }
{
    // No memory holds a text that is indented by more levels than a usize counts.
    let inner = levels.checked_add(1).ok_or(AllocError)?;
    out.put(b"{\n")?;
    for member in members {
        out.indent(inner)?;
        write_member(member, inner, out)?;
        out.put(b"\n")?;
    }
    out.indent(levels)?;
    out.put(b"}")
}

// Writes what a property is initialised with.
#[cycle(write_decl)]
fn write_init(init: &Init, levels: usize, out: &mut Sheet) -> Result<(), AllocError>
    ensures { IfOk result (λ _. out.new ≡ out.old ++ init_text init.now levels) }
{
    match init {
        Init::Expr(expr) => write_expr(expr.get(), LOOSEST, out),
        Init::Object(object) => write_decl(object.get(), levels, out),
    }
}

// Writes what a declared property is initialised with, where there is something.
#[cycle(write_decl)]
fn write_optional(init: &Option<Init>, levels: usize, out: &mut Sheet) -> Result<(), AllocError>
    ensures { IfOk result (λ _. out.new ≡ out.old ++ maybe_text (codes ": ") (λ x. x levels) (option_map init_text init.now)) }
{
    match init {
        Some(init) => {
            out.put(b": ")?;
            write_init(init, levels, out)
        }
        None => Ok(()),
    }
}

// Writes a member whose first line is indented by so many levels.
#[cycle(write_decl)]
fn write_member(member: &Member, levels: usize, out: &mut Sheet) -> Result<(), AllocError>
    ensures { IfOk result (λ _. out.new ≡ out.old ++ member_text member.now levels) }
{
    match member {
        Member::Id(name, _) => {
            out.put(b"id: ")?;
            out.put(name.as_bytes())
        }
        Member::Property {
            fixed,
            kind,
            name,
            init,
            ..
        } => {
            write_property(*fixed, kind, name, out)?;
            write_optional(init, levels, out)
        }
        Member::Signal { name, params, .. } => {
            out.put(b"signal ")?;
            out.put(name.as_bytes())?;
            write_signal_params(params.as_slice(), out)
        }
        Member::Init { path, init, .. } => {
            write_path(path, out)?;
            out.put(b": ")?;
            write_init(init, levels, out)
        }
        Member::Handler { path, body, .. } => {
            write_path(path, out)?;
            out.put(b": ")?;
            write_stmt(body.get().get(), levels, out)
        }
        Member::Method {
            name,
            params,
            body,
            ..
        } => {
            out.put(b"function ")?;
            out.put(name.as_bytes())?;
            write_method_params(params.as_slice(), out)?;
            write_block(body.get().as_slice(), levels, out)
        }
        Member::Child(child) => write_decl(child, levels, out),
    }
}
