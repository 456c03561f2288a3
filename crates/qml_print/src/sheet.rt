use qml_ast::{Value, to_text};
use std::alloc::{AllocError, Global};
use std::marker::Model;

/// A text that is being written. Contracts see its bytes.
#[derive(Drop)]
pub(crate) struct Sheet {
    alloc: Global,
    bytes: Vec<u8>,
}

impl Model for Sheet {
    ghost use Rattle.std.specs.Prelude.{ℕ, List};

    ghost Value = { List ℕ };

    ghost view = { λ sheet. sheet.bytes.items };
}

impl Sheet {
    ghost use Rattle.std.specs.Prelude.{◌≡◌, ℕ, ◌<◌, [], ◌++◌, List, length, codes, decimal, if◌then◌else◌, IfOk};
    ghost use Rattle.qml_ast.specs.TextForm.{text_of};
    ghost use Rattle.qml_grammar.specs.Canonical.{indent};
    ghost use Rattle.qml_grammar.specs.CanonicalExpressions.{begins_with};

    /// An empty text.
    pub fn new(alloc: Global) -> Sheet
        ensures { result ≡ [] }
    {
        Sheet {
            alloc,
            bytes: Vec::new(alloc),
        }
    }

    /// How many bytes there are.
    pub fn len(&self) -> usize
        ensures { result ≡ length self.now }
    {
        self.bytes.len()
    }

    /// The bytes.
    pub fn into_bytes(self) -> Vec<u8>
        ensures { result.items ≡ self }
    {
        let Sheet { alloc: _, bytes } = self;
        bytes
    }

    /// Writes a text behind what stands there.
    pub fn put(&mut self, text: &[u8]) -> Result<(), AllocError>
        ensures { IfOk result (λ _. self.new ≡ self.old ++ text.now) }
    {
        self.bytes.extend_from_slice(text)
    }

    /// Writes the text of a value.
    pub fn put_value(&mut self, value: &Value) -> Result<(), AllocError>
        ensures { IfOk result (λ _. self.new ≡ self.old ++ text_of value.now) }
    {
        let text = to_text(self.alloc, value)?;
        self.put(text.as_bytes())
    }

    /// Writes a number in decimal.
    pub fn put_number(&mut self, number: u32) -> Result<(), AllocError>
        ensures { IfOk result (λ _. self.new ≡ self.old ++ decimal number) }
    {
        let text = number.to_string(self.alloc)?;
        self.put(text.as_bytes())
    }

    /// Writes the spaces before a line at so many levels.
    pub fn indent(&mut self, levels: usize) -> Result<(), AllocError>
        ensures { IfOk result (λ _. self.new ≡ self.old ++ indent levels) }
    {
        for _level in 0..levels {
            self.put(b"    ")?;
        }
        Ok(())
    }

    /// Puts a space before what stands from `start` on, where that begins with `sign`.
    pub fn space_before(&mut self, start: usize, sign: u8) -> Result<(), AllocError>
        ensures { (before behind : List ℕ) → self.old ≡ before ++ behind → start ≡ length before →
            IfOk result (λ _. self.new ≡ before ++ ((if begins_with sign behind then codes " " else []) ++ behind)) }
    {
        if start < self.bytes.len() && self.bytes[start] == sign {
            self.bytes.insert(start, b' ')?;
        }
        Ok(())
    }
}
