ghost use Rattle.std.specs.Prelude.{◌≡◌, ◌≤◌, ℕ, length, [], Some, IsSome, map as list_map};
ghost use Rattle.std.specs.FinMap as map;
ghost use Rattle.scene.specs.Keys.{rect_keys};
ghost use Rattle.scene.specs.Picture.{Item};
ghost use Rattle.sg_nodes.specs.Forest.{IsForest, slot_of};
ghost use Rattle.sg_nodes.specs.Stored.{forest_of};
ghost use Rattle.sg_standing.specs.Standing.{group_slot};
ghost use Rattle.sg_sync.specs.Own.{IsIn, slot_or, slots_of, all_slots};
ghost use Rattle.sg_sync.specs.Linking.{linked, CanMove};
ghost use Rattle.sg_sync.specs.Dressing.{Dressing, AreParked, AreLinked};

use links::NodeKey;
use scene::{RectKeys, Scene};
use sg_nodes::Nodes;
use std::slice;

/// The key of the group of an item that has one.
pub(crate) fn group_key(scene: &Scene, serial: u64) -> NodeKey
    requires { IsSome (group_slot scene.now.items serial) }
    ensures { Some result.slot ≡ group_slot scene.now.items serial }
{
    let Some(keys) = scene.keys(serial) else {
        unreachable!()
    };
    let Some(group) = keys.group else {
        unreachable!()
    };
    group
}

/// The keys of an item's rectangles, in order.
pub(crate) fn rect_slice(keys: &RectKeys) -> &[NodeKey]
    ensures keys { result.now ≡ rect_keys keys.now }
    ensures few { length result.now ≤ 5 }
{
    match keys {
        RectKeys::Zero => &[],
        RectKeys::One(key) => slice::from_ref(key),
        RectKeys::Five(keys) => keys,
    }
}

/// Moves nodes to the end of a parent's children, in order.
fn hang_keys(nodes: &mut Nodes, keys: &[NodeKey], parent: NodeKey)
    requires can_move { CanMove (forest_of nodes.old) parent.slot (list_map slot_of keys.now) }
    requires forest { IsForest (forest_of nodes.old) }
    ensures after { forest_of nodes.new ≡ record (forest_of nodes.old) {
      children = linked (forest_of nodes.old).children (list_map slot_of keys.now) parent.slot;
    } }
    ensures forest { IsForest (forest_of nodes.new) }
{
    for key in keys {
        nodes.insert_before(*key, parent, None);
    }
}

/// Moves the groups of items to the end of a parent's children, in order.
fn hang_groups(nodes: &mut Nodes, scene: &Scene, serials: &[u64], parent: NodeKey)
    requires groups { (serial : ℕ) → IsIn serials.now serial → IsSome (group_slot scene.now.items serial) }
    requires can_move { CanMove (forest_of nodes.old) parent.slot (list_map (slot_or scene.now.items) serials.now) }
    requires forest { IsForest (forest_of nodes.old) }
    ensures after { forest_of nodes.new ≡ record (forest_of nodes.old) {
      children = linked (forest_of nodes.old).children (list_map (slot_or scene.now.items) serials.now) parent.slot;
    } }
    ensures forest { IsForest (forest_of nodes.new) }
{
    for serial in serials {
        nodes.insert_before(group_key(scene, *serial), parent, None);
    }
}

/// Moves what an item's group is to have as children to the end of a parent's children, in order.
fn hang(nodes: &mut Nodes, scene: &Scene, serial: u64, parent: NodeKey)
    requires is_item { IsSome (map.get scene.now.items serial) }
    requires grown { (item : Item) (child : ℕ) → map.get scene.now.items serial ≡ Some item
        → IsIn item.paint.children child → IsSome (group_slot scene.now.items child) }
    requires can_move { CanMove (forest_of nodes.old) parent.slot (slots_of scene.now.items serial) }
    requires forest { IsForest (forest_of nodes.old) }
    ensures after { forest_of nodes.new ≡ record (forest_of nodes.old) {
      children = linked (forest_of nodes.old).children (slots_of scene.now.items serial) parent.slot;
    } }
    ensures forest { IsForest (forest_of nodes.new) }
{
    let Some(paint) = scene.record(serial) else {
        unreachable!()
    };
    let Some(keys) = scene.keys(serial) else {
        unreachable!()
    };
    let (under, over) = paint.children.as_slice().split_at(paint.under);
    hang_groups(nodes, scene, under, parent);
    hang_keys(nodes, rect_slice(&keys.rects), parent);
    hang_groups(nodes, scene, over, parent);
}

/// Moves what each of some items wants below the root's group.
pub(crate) fn park_all(nodes: &mut Nodes, scene: &Scene, serials: &[u64], root: NodeKey)
    requires dressing { Dressing (forest_of nodes.old) scene.now.items scene.now.root [] }
    requires items { (serial : ℕ) → IsIn serials.now serial → IsSome (map.get scene.now.items serial) }
    requires is_root { nodes.old.root ≡ Some root.slot }
    requires is_group { group_slot scene.now.items scene.now.root ≡ Some root.slot }
    requires forest { IsForest (forest_of nodes.old) }
    ensures after { forest_of nodes.new ≡ record (forest_of nodes.old) {
      children = linked (forest_of nodes.old).children (all_slots scene.now.items serials.now) root.slot;
    } }
    ensures forest { IsForest (forest_of nodes.new) }
{
    for serial in serials {
        hang(nodes, scene, *serial, root);
    }
}

/// Moves what each of some items wants below the item's own group.
pub(crate) fn link_all(nodes: &mut Nodes, scene: &Scene, serials: &[u64])
    requires dressing { Dressing (forest_of nodes.old) scene.now.items scene.now.root [] }
    requires items { (serial : ℕ) → IsIn serials.now serial → IsSome (map.get scene.now.items serial) }
    requires is_root { nodes.old.root ≡ group_slot scene.now.items scene.now.root }
    requires parked { AreParked (forest_of nodes.old) scene.now.items scene.now.root }
    requires linked { AreLinked (forest_of nodes.old) scene.now.items serials.now }
    requires forest { IsForest (forest_of nodes.old) }
    ensures after { forest_of nodes.new ≡ record (forest_of nodes.old) { children = (forest_of nodes.new).children } }
    ensures linked { AreLinked (forest_of nodes.new) scene.now.items [] }
    ensures forest { IsForest (forest_of nodes.new) }
{
    for serial in serials {
        hang(nodes, scene, *serial, group_key(scene, *serial));
    }
}
