/// What an item is anchored to, in pixels of its parent: another item, whose lines are at `place` and
/// `place + size` with the centre between them, or a line.
#[derive(Clone, Copy)]
pub struct Target {
    /// The near line: left or top.
    pub place: i64,
    /// The width or height; 0 where the target is a line.
    pub size: i64,
}

/// How an item is anchored on one axis. All lengths are in pixels.
#[derive(Clone, Copy)]
pub struct AxisRecord {
    /// The item that is filled.
    pub fill: Option<Target>,
    /// The item in whose centre this one stands.
    pub center_in: Option<Target>,
    /// The line that the left or top one is tied to.
    pub near: Option<i64>,
    /// The line that the right or bottom one is tied to.
    pub far: Option<i64>,
    /// What the centre line is tied to the centre of.
    pub center: Option<Target>,
    /// The margin at the left or top line.
    pub near_margin: i32,
    /// The margin at the right or bottom line.
    pub far_margin: i32,
    /// How far the centre lies to the right of, or below, the one that it is tied to.
    pub offset: i32,
    /// The width or height that the item has where its anchors give none. It counts for the place
    /// of an item that is centred, or tied by its right or bottom line alone.
    pub size: i32,
}

/// What is asked of an axis.
#[derive(Clone, Copy)]
pub enum AxisColumn {
    /// The x or y.
    Place,
    /// The width or height.
    Size,
}
