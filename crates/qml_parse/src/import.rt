ghost use Rattle.std.specs.Prelude.{◌≡◌};
ghost use Rattle.qml_grammar.specs.Documents as spec;
ghost use Rattle.qml_grammar.specs.Ends.{ended};
ghost use Rattle.qml_grammar.specs.Inputs.{ahead, while_next};
ghost use Rattle.qml_grammar.specs.Lexemes.{is_word};
ghost use Rattle.qml_grammar.specs.declared.word.Word.TheVariants as words;
ghost use Rattle.qml_expr.specs.Readings.{IsReading};
ghost use Rattle.qml_expr.specs.Seen.{input_of, lexeme_of};

use crate::lookahead::{sees_name, sees_qt_quick, unsupported};
use qml_ast::{DocFault, Import, Name, Span};
use qml_expr::{Cursor, Lexeme};
use qml_grammar::{Mark, Word};
use qml_stmt::end;
use sqlite_items::Items;
use std::alloc::Global;

// The name of a module

// The first name of a module, which is QtQuick.
#[tactic(auto, unfolding(qml_grammar::specs::Documents::module_name))]
fn module_name(cursor: &mut Cursor<'_>) -> Result<(), DocFault>
    ensures { IsReading (spec.module_name (input_of cursor.old)) result (input_of cursor.new) }
{
    if sees_qt_quick(cursor) {
        cursor.skip();
        return Ok(());
    }
    if sees_name(cursor) {
        return Err(unsupported(cursor));
    }
    Err(cursor.refusal())
}

// Refuses what stands behind the dot behind the name of a module, which stands at `at`.
#[tactic(auto, unfolding(qml_grammar::specs::Documents::second_part))]
fn second_part(at: Span, cursor: &Cursor<'_>) -> Result<Import, DocFault>
    ensures { IsReading (spec.second_part at (input_of cursor.now)) result (input_of cursor.now) }
{
    if sees_name(cursor) {
        return Err(DocFault::Unsupported { at });
    }
    Err(cursor.refusal())
}

// The version

// The second part of a lawful version.
fn minor_of(lexeme: &Lexeme) -> Option<u32>
    ensures { result ≡ spec.minor_of_lexeme (lexeme_of lexeme.now) }
{
    match lexeme {
        Lexeme::Decimal(major, minor) if *major == 2 && *minor <= 15 => Some(*minor),
        _ => None,
    }
}

// The second part of the lawful version that the next token is, if it is one.
#[tactic(auto, unfolding(qml_expr::specs::Seen::input_of))]
fn minor(cursor: &Cursor<'_>) -> Option<u32>
    ensures { result ≡ spec.minor_of (ahead (input_of cursor.now)) }
{
    match cursor.rest {
        [token, ..] => minor_of(&token.lexeme),
        [] => None,
    }
}

// Whether the next token is a decimal.
#[tactic(auto, unfolding(qml_expr::specs::Seen::input_of))]
fn sees_decimal(cursor: &Cursor<'_>) -> bool
    ensures { result ≡ spec.is_decimal (ahead (input_of cursor.now)) }
{
    match cursor.rest {
        [token, ..] => matches!(token.lexeme, Lexeme::Decimal(_, _)),
        [] => false,
    }
}

// Whether the next token is a text.
#[tactic(auto, unfolding(qml_expr::specs::Seen::input_of))]
fn sees_text(cursor: &Cursor<'_>) -> bool
    ensures { result ≡ spec.is_text (ahead (input_of cursor.now)) }
{
    match cursor.rest {
        [token, ..] => matches!(token.lexeme, Lexeme::Text(_)),
        [] => false,
    }
}

// The version of the module whose name stands at `at`; its second part.
#[tactic(auto, unfolding(qml_grammar::specs::Documents::version))]
fn version(at: Span, cursor: &mut Cursor<'_>) -> Result<u32, DocFault>
    ensures { IsReading (spec.version at (input_of cursor.old)) result (input_of cursor.new) }
{
    match minor(cursor) {
        Some(minor) => {
            cursor.skip();
            Ok(minor)
        }
        None if sees_decimal(cursor) => Err(DocFault::Unsupported { at }),
        None => Err(cursor.refusal()),
    }
}

// Refuses `as`.
#[tactic(auto, unfolding(qml_grammar::specs::Documents::unnamed))]
fn unnamed(cursor: &Cursor<'_>) -> Result<(), DocFault>
    ensures { IsReading (spec.unnamed (input_of cursor.now)) result (input_of cursor.now) }
{
    if cursor.sees_word(Word::As) {
        return Err(unsupported(cursor));
    }
    Ok(())
}

// Imports

// The version of QtQuick, whose name stands at `span`.
#[tactic(auto, unfolding(qml_grammar::specs::Documents::import_version))]
fn import_version(alloc: Global, span: Span, cursor: &mut Cursor<'_>) -> Result<Import, DocFault>
    ensures { IsReading (spec.import_version span (input_of cursor.old)) result (input_of cursor.new) }
{
    let minor = version(span, cursor)?;
    unnamed(cursor)?;
    let module = Name::new(alloc, "QtQuick")?;
    Ok(Import {
        module,
        major: 2,
        minor,
        span,
    })
}

// The version behind the name of a module, which stands at `span`.
#[tactic(auto, unfolding(qml_grammar::specs::Documents::behind_module))]
fn behind_module(alloc: Global, span: Span, cursor: &mut Cursor<'_>) -> Result<Import, DocFault>
    ensures { IsReading (spec.behind_module span (input_of cursor.old)) result (input_of cursor.new) }
{
    if cursor.sees(Mark::Dot) {
        cursor.skip();
        return second_part(span, cursor);
    }
    import_version(alloc, span, cursor)
}

// The module and its version.
#[tactic(auto, unfolding(qml_grammar::specs::Documents::import_module))]
fn import_module(alloc: Global, cursor: &mut Cursor<'_>) -> Result<Import, DocFault>
    ensures { IsReading (spec.import_module (input_of cursor.old)) result (input_of cursor.new) }
{
    let span = cursor.place();
    module_name(cursor)?;
    behind_module(alloc, span, cursor)
}

// `import`, a module and its version, without an end.
#[tactic(auto, unfolding(qml_grammar::specs::Documents::import_in))]
fn import_alone(alloc: Global, cursor: &mut Cursor<'_>) -> Result<Import, DocFault>
    ensures { IsReading (spec.import_in (input_of cursor.old)) result (input_of cursor.new) }
{
    cursor.skip();
    if sees_text(cursor) {
        return Err(unsupported(cursor));
    }
    import_module(alloc, cursor)
}

// An import with its end.
#[tactic(auto, unfolding(qml_grammar::specs::Ends::ended, qml_expr::specs::Seen::input_of))]
fn import(alloc: Global, cursor: &mut Cursor<'_>) -> Result<Import, DocFault>
    ensures { IsReading (ended spec.import_in (input_of cursor.old)) result (input_of cursor.new) }
{
    let before = cursor.rest;
    let import = import_alone(alloc, cursor)?;
    end(before, cursor)?;
    Ok(import)
}

// One more import, behind others.
#[tactic(auto, unfolding(qml_grammar::specs::Documents::one_import))]
fn one_import(
    alloc: Global,
    before: Items<Import>,
    cursor: &mut Cursor<'_>,
) -> Result<Items<Import>, DocFault>
    ensures { IsReading (spec.one_import before (input_of cursor.old)) result (input_of cursor.new) }
{
    let import = import(alloc, cursor)?;
    let mut imports = before;
    imports.push(import)?;
    Ok(imports)
}

/// The imports of a document, as many as there are.
#[tactic(auto, unfolding(qml_grammar::specs::Documents::imports))]
pub(crate) fn imports(alloc: Global, cursor: &mut Cursor<'_>) -> Result<Items<Import>, DocFault>
    ensures { IsReading (spec.imports (input_of cursor.old)) result (input_of cursor.new) }
{
    further(alloc, Items::new(alloc), cursor)
}

// Further imports.
fn further(
    alloc: Global,
    first: Items<Import>,
    cursor: &mut Cursor<'_>,
) -> Result<Items<Import>, DocFault>
    ensures { IsReading (while_next (is_word words.Import) spec.one_import first (input_of cursor.old)) result (input_of cursor.new) }
{
    let mut imports = first;
    // Each turn takes a token.
    for _turn in 0..cursor.left() {
        if !cursor.sees_word(Word::Import) {
            return Ok(imports);
        }
        imports = one_import(alloc, imports, cursor)?;
    }
    Ok(imports)
}
