/// The key of a node of the scene graph. The slot of a node that was released may be used again.
#[derive(Clone, Copy, PartialEq, Eq)]
pub struct NodeKey {
    /// The number of the node's slot, from 0 on.
    pub slot: usize,
}
