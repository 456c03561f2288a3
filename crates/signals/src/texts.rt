ghost use Rattle.std.specs.Prelude.{◌≡◌, ◌++◌, map, fold, string_bytes, OnOk, IfOk};
ghost use Rattle.qml_ast.specs.TextForm.{text_of};
ghost use Rattle.signals.specs.Endings.{Gives};
ghost use Rattle.signals.specs.Values.{with_text, joined_texts, logged_text};

use crate::ending::Stop;
use qml_ast::{EvalFault, Text, Value, to_text};
use std::alloc::{AllocError, Global};

/// How many bytes a text has at most.
const MOST_BYTES: usize = 65_536;

// Adds the text of a value.
fn add_text(alloc: Global, value: &Value, joined: &mut String) -> Result<(), AllocError>
    ensures { OnOk result (string_bytes joined.new ≡ string_bytes joined.old ++ text_of value.now) }
{
    let text = to_text(alloc, value)?;
    joined.push_str(text.as_str())?;
    Ok(())
}

// Adds the texts of values, each after a space.
fn add_texts(alloc: Global, values: &[Value], joined: &mut String) -> Result<(), AllocError>
    ensures { OnOk result (string_bytes joined.new ≡ fold with_text (string_bytes joined.old) (map text_of values.now)) }
{
    for value in values {
        joined.push(' ')?;
        add_text(alloc, value, joined)?;
    }
    Ok(())
}

// The texts of values, with a space between each two.
fn joined(alloc: Global, values: &[Value]) -> Result<String, AllocError>
    ensures { IfOk result (λ joined. string_bytes joined ≡ joined_texts (map text_of values.now)) }
{
    let mut joined = String::new(alloc);
    match values {
        [first, rest @ ..] => {
            add_text(alloc, first, &mut joined)?;
            add_texts(alloc, rest, &mut joined)?;
            Ok(joined)
        }
        [] => Ok(joined),
    }
}

/// The texts of values as they are logged: with a space between each two, and TextTooLong where they have more than
/// 65,536 bytes together.
pub(crate) fn logged_text(alloc: Global, values: &[Value]) -> Result<Text, Stop>
    ensures { Gives (logged_text values.now) result }
{
    let joined = joined(alloc, values)?;
    if joined.len() > MOST_BYTES {
        return Err(Stop::Fault(EvalFault::TextTooLong));
    }
    Ok(Text::new(alloc, joined.as_str())?)
}
