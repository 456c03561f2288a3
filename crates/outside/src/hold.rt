/// A moment at which a thread asks whether it may go on.
#[derive(Clone, Copy, PartialEq, Eq)]
pub enum HoldPoint {
    /// The GUI thread, before a command.
    Command,
    /// The loader thread, after an answer.
    Answered,
    /// The render thread, before it draws a frame.
    Drawing,
}

/// A test's hand on the order of threads. It has no meaning for contracts.
pub trait Hold {
    /// Returns when the thread may pass the `n`-th moment of this kind, counted from 1.
    fn pass(&self, point: HoldPoint, n: u64);
}

/// Holds nobody.
#[derive(Clone, Copy, PartialEq, Eq)]
pub struct NoHold;

impl Hold for NoHold {
    fn pass(&self, _point: HoldPoint, _n: u64) {}
}
