ghost use Rattle.std.specs.Prelude.{◌≡◌, ◌≢◌, ◌≤◌, ◌^◌, ◌⊎◌, length, Ok, Err, IfOk, IfErr};
ghost use Rattle.qml_ast.specs.declared.document.Document.{Document};
ghost use Rattle.qml_ast.specs.declared.fault.DocFault.TheVariants.{NoMemory};
ghost use Rattle.qml_grammar.specs.Documents as spec;
ghost use Rattle.qml_expr.specs.Readings.{IsReading};
ghost use Rattle.qml_expr.specs.Seen.{input_of, tokens_of};
ghost use Rattle.qml_tokens.specs.Spelled.{HasFault, Spells};
ghost use Rattle.qml_parse.specs.Parsed.{IsReadAs};

use crate::decl::object;
use crate::import::imports;
use crate::lookahead::{Follower, is_dotted_type, unsupported};
use qml_ast::{Decl, DocFault, Document, Span};
use qml_expr::{Cursor, Token};
use qml_lex::end_place;
use qml_tokens::tokens_of_text;
use sqlite_items::Boxed;
use std::alloc::Global;

/// How many levels a document may open within each other.
const MAX_LEVELS: usize = 64;

/// The document that a text of at most 2^31 bytes spells.
///
/// The fault is the first one, with its place: NotUtf8 with the length of the longest front that is UTF-8;
/// else BadToken at the first byte where no token, blank or comment begins, or where one begins that has no
/// end or is too long; else Syntax at a token that cannot stand there, Unsupported at what QML has there and
/// the engine has not, or TooDeep at the token that opens the 65th level or is the 201st node of an
/// expression. Lines and columns count from 1 on, columns in bytes. NoMemory comes where memory runs out.
///
/// The forms are those of the Qt 5 QML Reference (Structure of a QML Document, QML Object Attributes, Import
/// Statements), cut to the profile of this engine.
pub fn parse(alloc: Global, bytes: &[u8]) -> Result<Document, DocFault>
    requires { length bytes.now ≤ 2 ^ 31 }
    ensures read { IfOk result (IsReadAs bytes.now) }
    ensures refused { IfErr result (HasFault bytes.now) }
    ensures spelled { IfOk result (Spells bytes.now) }
    ensures complete { (d : Document) → Spells bytes.now d → (result ≡ Ok d) ⊎ (result ≡ Err NoMemory) }
{
    let tokens = tokens_of_text(alloc, bytes)?;
    read(alloc, tokens.as_slice(), end_place(bytes))
}

// The document that tokens spell, behind which a text ends at `end`.
#[tactic(auto, unfolding(qml_grammar::specs::Documents::reading, qml_expr::specs::Seen::input_of))]
fn read(alloc: Global, tokens: &[Token], end: Span) -> Result<Document, DocFault>
    ensures read { IfOk result (λ document. spec.reading (tokens_of tokens.now) end ≡ Ok document) }
    ensures refused { IfErr result (λ fault. fault ≢ NoMemory → spec.reading (tokens_of tokens.now) end ≡ Err fault) }
{
    let mut cursor = Cursor {
        rest: tokens,
        end,
        nodes: 0,
    };
    document(alloc, &mut cursor)
}

// Imports, an object and nothing more.
#[tactic(auto, unfolding(qml_grammar::specs::Documents::document))]
fn document(alloc: Global, cursor: &mut Cursor<'_>) -> Result<Document, DocFault>
    ensures { IsReading (spec.document (input_of cursor.old)) result (input_of cursor.new) }
{
    let imports = imports(alloc, cursor)?;
    let root = root(alloc, cursor)?;
    nothing_more(cursor)?;
    Ok(Document {
        imports,
        root: root.into_inner(),
    })
}

// The object that is the document's root.
#[tactic(auto, unfolding(qml_grammar::specs::Documents::root))]
fn root(alloc: Global, cursor: &mut Cursor<'_>) -> Result<Boxed<Decl>, DocFault>
    ensures { IsReading (spec.root (input_of cursor.old)) result (input_of cursor.new) }
{
    if is_dotted_type(cursor, Follower::Brace) {
        return Err(unsupported(cursor));
    }
    object(alloc, MAX_LEVELS, cursor)
}

// Refuses any token.
#[tactic(auto, unfolding(qml_grammar::specs::Documents::nothing_more, qml_expr::specs::Seen::input_of))]
fn nothing_more(cursor: &Cursor<'_>) -> Result<(), DocFault>
    ensures { IsReading (spec.nothing_more (input_of cursor.now)) result (input_of cursor.now) }
{
    if !cursor.rest.is_empty() {
        return Err(cursor.refusal());
    }
    Ok(())
}
