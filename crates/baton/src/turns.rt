//! What two threads ask and answer, and when it is lawful.
ghost use Rattle.std.specs.Prelude.{List};

/// What crosses a gate. A turn is a question and its answer, each as its plain data, and the list of
/// turns before decides what may follow.
pub trait Turns {
    type Question: Send + Drop;

    type Answer: Send + Drop;

    /// What contracts see of a question.
    type Asked;

    /// What contracts see of an answer.
    type Told;

    ghost asked: { Self.Question → Self.Asked };

    ghost told: { Self.Answer → Self.Told };

    /// The question is lawful after these turns.
    ghost may_ask: { List (Self.Asked × Self.Told) → Self.Asked → Type 0 };

    /// The answer is lawful for its question after these turns.
    ghost may_answer: { List (Self.Asked × Self.Told) → Self.Asked → Self.Told → Type 0 };
}
