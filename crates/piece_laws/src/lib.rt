//! Laws of texts that are made of tokens in their canonical spelling: they are lexed to just these tokens. They
//! stand on functions that do nothing, so that a crate above can cite them by a call.
#![tactic(auto)]

ghost use Rattle.std.specs.Prelude.{◌≡◌, ℕ, true, List};
ghost use Rattle.piece_laws.specs.Pieces.{Piece, pieces_text, placed, are_spaced, AreLawfulPieces, AreLawfulTokens, start};
ghost use Rattle.qml_grammar.specs.Lexemes.{Token};
ghost use Rattle.qml_tokens.specs.Spelled.{HasTokens};

/// The text of pieces that may stand beside each other has just their tokens, each at its place.
pub fn pieces_are_lexed()
    ensures { (ps : List Piece) → are_spaced ps ≡ true → AreLawfulPieces ps → HasTokens (pieces_text ps) (placed start ps) }
{}

/// Every token of a text can be spelled: its name is one, its number is in range, and its text is UTF-8 and not
/// too long.
pub fn tokens_are_lawful()
    ensures { (bytes : List ℕ) (ts : List Token) → HasTokens bytes ts → AreLawfulTokens ts }
{}
