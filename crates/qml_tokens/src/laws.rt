//! What holds of every text, whoever reads it. The function does nothing; its contract is a law.

ghost use Rattle.std.specs.Prelude.{ℕ, List};
ghost use Rattle.qml_tokens.specs.Laws.{HasOneReading};

/// A text has at most one list of tokens, and where it has one no fault but NoMemory.
pub fn a_text_has_one_reading()
    ensures { (bytes : List ℕ) → HasOneReading bytes }
{}
