ghost use Rattle.std.specs.Prelude.{◌≡◌};
ghost use Rattle.sg_nodes.specs.Bodies.{fresh_body};

/// What a node is.
#[derive(Clone, Copy, PartialEq, Eq)]
pub enum NodeKind {
    /// It has a place and a size, within which other nodes are drawn.
    Group,
    /// It is drawn in one colour.
    Rect,
}

/// A place and a size for other nodes, in pixels.
#[derive(Clone, Copy, PartialEq, Eq)]
pub struct GroupNode {
    /// The first column, from the left edge of the group round it.
    pub x: i32,
    /// The first row, from the top edge of the group round it.
    pub y: i32,
    /// How many columns it has.
    pub w: i32,
    /// How many rows it has.
    pub h: i32,
    /// Whether what is in it is drawn within it alone.
    pub clip: bool,
    /// Whether what is in it is drawn.
    pub shown: bool,
}

/// A rectangle of one colour, in pixels.
#[derive(Clone, Copy, PartialEq, Eq)]
pub struct RectNode {
    /// The first column, from the left edge of the group round it.
    pub x: i32,
    /// The first row, from the top edge of the group round it.
    pub y: i32,
    /// How many columns it has.
    pub w: i32,
    /// How many rows it has.
    pub h: i32,
    /// Its colour: alpha, red, green and blue, from the highest byte to the lowest.
    pub argb: u32,
}

/// What a node is, with what is known of it.
#[derive(Clone, Copy, PartialEq, Eq)]
pub enum NodeBody {
    Group(GroupNode),
    Rect(RectNode),
}

/// A node.
#[derive(Clone, Copy, PartialEq, Eq)]
pub struct Node {
    /// The serial of the item for which it was made.
    pub item: u64,
    pub body: NodeBody,
}

/// What a node of that kind is when it is made: at 0, 0 with no size; a group isn't shown and doesn't
/// clip, and a rectangle has the colour 0.
pub(crate) fn fresh_body(kind: NodeKind) -> NodeBody
    ensures { result ≡ fresh_body kind }
{
    match kind {
        NodeKind::Group => NodeBody::Group(GroupNode {
            x: 0,
            y: 0,
            w: 0,
            h: 0,
            clip: false,
            shown: false,
        }),
        NodeKind::Rect => NodeBody::Rect(RectNode {
            x: 0,
            y: 0,
            w: 0,
            h: 0,
            argb: 0,
        }),
    }
}
