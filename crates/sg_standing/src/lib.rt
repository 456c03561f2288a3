//! When nodes agree with a scene, and when they stand for it: definitions, and laws of them. The laws stand
//! on functions that do nothing, so that a crate above can cite them by a call.
#![tactic(auto)]

ghost use Rattle.std.specs.Prelude.{◌≡◌, ℕ, [], Some};
ghost use Rattle.std.specs.FinMap as map;
ghost use Rattle.scene.specs.Picture.{Item, Picture, IsDirty, no_keys};
ghost use Rattle.sg_nodes.specs.declared.node.Node.{Node};
ghost use Rattle.sg_nodes.specs.Forest.{Forest, no_nodes};
ghost use Rattle.sg_standing.specs.Trees.{IsTree};
ghost use Rattle.sg_standing.specs.Changing.{IsChanged};
ghost use Rattle.sg_standing.specs.Standing.{Agree, Stand, HasNodes, IsOwned};

/// Where no nodes were made yet, they agree with each scene whose items are one tree, have no keys and
/// are all dirty, and that has no released key.
pub fn new_nodes_agree()
    ensures { (p : Picture) → IsTree p.items p.root
        → ((serial : ℕ) (item : Item) → map.get p.items serial ≡ Some item →
        (item.keys ≡ no_keys) × IsDirty p serial)
        → p.released ≡ [] → Agree no_nodes p }
{}

/// Nodes that stand for a scene are those of its items and no others: each item has its group and its
/// rectangles, with its children's groups below it, and each node is that of an item.
pub fn nodes_of_items()
    ensures items { (f : Forest) (p : Picture) (serial : ℕ) (item : Item) → Stand f p
        → map.get p.items serial ≡ Some item → HasNodes f p.items serial item }
    ensures nodes { (f : Forest) (p : Picture) (slot : ℕ) (node : Node) → Stand f p
        → f.node slot ≡ Some node → IsOwned p.items node.item slot }
{}

/// Nodes that agree with a scene agree with it after changes: of items that are repainted, added and taken
/// away, where each of which the nodes no longer are as its record says is dirty.
pub fn changes_agree()
    ensures { (f : Forest) (old new : Picture) → Agree f old → IsChanged old new → Agree f new }
{}
