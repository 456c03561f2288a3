/// Which of a slot's two values is meant.
#[derive(Clone, Copy, Debug, PartialEq, Eq, PartialOrd, Ord, Hash)]
pub enum Side {
    /// What the slot was set to.
    Set,
    /// What the slot shows, after what the engine itself puts in it.
    Shown,
}

/// One side of one slot of an object. Places are in the order of their objects, then of their slots, and
/// what is set comes before what is shown.
#[derive(Clone, Copy, Debug, PartialEq, Eq, PartialOrd, Ord, Hash)]
pub struct Place {
    /// The object's serial.
    pub serial: u64,
    /// The slot's number in the object, from 0.
    pub slot: u32,
    /// Which of the slot's values.
    pub side: Side,
}
