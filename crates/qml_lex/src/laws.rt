//! What holds of every text, whoever reads it. The functions do nothing; each one's contract is a law.

ghost use Rattle.std.specs.Prelude.{◌≡◌, ℕ, List, Some};
ghost use Rattle.qml_lex.specs.Laws.{HasOneReading, IsLongestMark, StandInOrder, PlacesRise};
ghost use Rattle.qml_lex.specs.Marks.{mark_of};
ghost use Rattle.qml_lex.specs.Reading.{IsReadAs};
ghost use Rattle.qml_lex.specs.declared.token.Token.{Token};

/// A text has at most one list of tokens, at most one fault beside NoMemory, and never both.
pub fn a_text_has_one_reading()
    ensures { (bytes : List ℕ) → HasOneReading bytes }
{}

/// Of the marks with which a text begins the longest one is taken.
pub fn the_longest_mark_is_taken()
    ensures { (text mark : List ℕ) → mark_of text ≡ Some mark → IsLongestMark text mark }
{}

/// Tokens stand in their text one behind the other. Each has at least one byte, and its place is that of
/// its first byte.
pub fn tokens_stand_in_order()
    ensures { (bytes : List ℕ) (tokens : List Token) → IsReadAs bytes tokens → StandInOrder bytes 0 tokens }
{}

/// The place of a token comes before that of each later one.
pub fn places_rise()
    ensures { (bytes : List ℕ) (tokens : List Token) → IsReadAs bytes tokens → PlacesRise tokens }
{}
