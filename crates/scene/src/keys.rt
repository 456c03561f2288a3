ghost use Rattle.std.specs.Prelude.{◌≡◌, ◌+◌, ◌≤◌, ◌++◌, length, vec_len, vec_capacity};
ghost use Rattle.scene.specs.Keys.{rect_keys, keys_of};

use links::NodeKey;

/// The keys of the nodes of an item's own rectangles, in the order of painting.
#[derive(Clone, Copy, PartialEq, Eq)]
pub enum RectKeys {
    /// It has no rectangles.
    Zero,
    /// It has one.
    One(NodeKey),
    /// The inside, and the border's top, bottom, left and right.
    Five([NodeKey; 5]),
}

/// The keys of an item's nodes.
#[derive(Clone, Copy, PartialEq, Eq)]
pub struct ItemKeys {
    /// The key of its group, if it has nodes.
    pub group: Option<NodeKey>,
    /// The keys of its own rectangles.
    pub rects: RectKeys,
}

impl ItemKeys {
    /// The keys of an item that has no nodes yet.
    pub const NONE: ItemKeys = ItemKeys {
        group: None,
        rects: RectKeys::Zero,
    };
}

/// Puts keys at the end, for which there is room.
fn push_all(released: &mut Vec<NodeKey>, keys: &[NodeKey])
    requires { vec_len released.old + length keys.now ≤ vec_capacity released.old }
    ensures items { released.new.items ≡ released.old.items ++ keys.now }
    ensures capacity { vec_capacity released.new ≡ vec_capacity released.old }
{
    for key in keys {
        released.push_reserved(*key);
    }
}

/// Puts the keys of an item's rectangles at the end, for which there is room.
fn release_rects(released: &mut Vec<NodeKey>, rects: RectKeys)
    requires { vec_len released.old + 5 ≤ vec_capacity released.old }
    ensures items { released.new.items ≡ released.old.items ++ rect_keys rects }
    ensures capacity { vec_capacity released.new ≡ vec_capacity released.old }
    ensures few { vec_len released.new ≤ vec_len released.old + 5 }
{
    match rects {
        RectKeys::Zero => {}
        RectKeys::One(key) => released.push_reserved(key),
        RectKeys::Five(keys) => push_all(released, &keys),
    }
}

/// Puts an item's keys at the end, first its group's, for which there is room.
pub(crate) fn release(released: &mut Vec<NodeKey>, keys: ItemKeys)
    requires { vec_len released.old + 6 ≤ vec_capacity released.old }
    ensures items { released.new.items ≡ released.old.items ++ keys_of keys }
    ensures capacity { vec_capacity released.new ≡ vec_capacity released.old }
    ensures few { vec_len released.new ≤ vec_len released.old + 6 }
{
    if let Some(group) = keys.group {
        released.push_reserved(group);
    }
    release_rects(released, keys.rects);
}
