/// What was done to bring nodes in step with a scene.
#[derive(Clone, Copy, PartialEq, Eq)]
pub struct Synced {
    /// How many items were dirty, and how many released keys there were, together.
    pub visits: u64,
    /// How many nodes were made: groups of items that had none, and rectangles of items of which the number of
    /// rectangles changed.
    pub made: u64,
    /// How many nodes were freed.
    pub released: u64,
}
