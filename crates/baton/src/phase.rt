//! The phases of a gate, as its word has them.

/// Where a gate stands. Only the asker ends `Fresh`, `Idle` and `Answered`, and only the server ends
/// `Asked` and `Working`; nothing ends `Closed`.
pub enum Phase {
    /// The slot is at home and empty.
    Fresh = 0,
    /// The slot is in the asker's hands.
    Idle = 1,
    /// The slot is at home with a question.
    Asked = 2,
    /// The slot is in the server's hands.
    Working = 3,
    /// The slot is at home with the question's answer.
    Answered = 4,
    /// The slot is at home and empty, and no question comes any more.
    Closed = 5,
}
