/// A loop that was found: a place that was read while its evaluation was under way, and the places between.
#[derive(Drop)]
pub struct LoopFound<P: Copy> {
    /// The place that was suspended.
    pub place: P,
    /// Its expression reads the first of these, each one's the next, and the last one's the place. Where
    /// there is none, its expression reads the place itself.
    pub chain: Vec<P>,
}
