ghost use Rattle.std.specs.Prelude.{◌≡◌, ◌↔◌, ◌<◌, ◌^◌, ℕ, List, length, IsNone, IfSome, IfOk, IfErr};
ghost use Rattle.qml_ast.specs.Alike.{IsAlike};
ghost use Rattle.qml_ast.specs.declared.fault.DocFault.TheVariants.{NoMemory};
ghost use Rattle.qml_grammar.specs.Canonical.{document_text};
ghost use Rattle.qml_tokens.specs.Spelled.{HasFault, Spells};

use qml_ast::{DocFault, Document};
use qml_parse::parse;
use qml_print::print;
use std::alloc::Global;

/// How many bytes a text may have that is parsed.
const MAX_LEN: usize = 1 << 31;

/// The document that the canonical text of `document` is parsed as, or None where that text has more than
/// 2^31 bytes. A document that some text spells, as each that `parse` gives, comes back with other places at
/// most.
///
/// The fault is the canonical text's first one, which a document that some text spells has not; or NoMemory
/// where memory runs out.
pub fn print_and_parse(alloc: Global, document: &Document) -> Result<Option<Document>, DocFault>
    ensures alike { (text : List ℕ) → Spells text document.now →
        IfOk result (λ again. IfSome again (IsAlike document.now)) × IfErr result (λ fault. fault ≡ NoMemory) }
    ensures long { IfOk result (λ again. IsNone again ↔ (2 ^ 31 < length (document_text document.now))) }
    ensures spelled { IfOk result (λ again. IfSome again (Spells (document_text document.now))) }
    ensures refused { IfErr result (HasFault (document_text document.now)) }
{
    let text = print(alloc, document)?;
    if text.len() > MAX_LEN {
        return Ok(None);
    }
    Ok(Some(parse(alloc, text.as_slice())?))
}
