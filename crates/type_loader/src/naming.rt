ghost use Rattle.std.specs.Prelude.{◌≡◌, ◌↔◌, ◌≤◌, ◌^◌, length, IsTrue, IfOk, MatchOption};
ghost use Rattle.type_loader.specs.Naming.{file_of, IsLawful};

use qml_ast::Name;
use std::alloc::{AllocError, Global};

/// What a document's file has behind its type's name.
const ENDING: &str = ".qml";

/// Whether the type of that name may have a file.
pub(crate) fn has_lawful_file(name: &[u8]) -> bool
    ensures { IsTrue result ↔ IsLawful (file_of name.now) }
{
    !name.is_empty() && name.len() <= 251 && name.iter().all(|byte| *byte != b'/' && *byte != 0)
}

/// The type of that file, or none where no document can have that name.
pub(crate) fn type_of(file: &str) -> Option<&str>
    ensures { MatchOption result (IsLawful file.now → ⊥) (λ name. (file.now ≡ file_of name.now) × IsLawful file.now) }
{
    let name = file.strip_suffix(ENDING)?;
    if has_lawful_file(name.as_bytes()) {
        Some(name)
    } else {
        None
    }
}

/// The file of the type of that name.
pub(crate) fn file_name(alloc: Global, name: &str) -> Result<Name, AllocError>
    requires { IsLawful (file_of name.now) }
    ensures { IfOk result (λ file. file ≡ file_of name.now) }
{
    let mut file = String::from_str(alloc, name)?;
    file.push_str(ENDING)?;
    Name::new(alloc, file.as_str())
}
