ghost use Rattle.std.specs.Prelude.{◌≡◌, ◌≢◌, ℕ, ◌+◌, ◌*◌, ◌<◌, ◌≤◌, ◌^◌, [], ◌∷◌, ◌++◌, Some, IsSome, length, slice_get, map as list_map};
ghost use Rattle.std.specs.FinMap as map;
ghost use Rattle.links.specs.declared.node_key.NodeKey.{NodeKey as Key};
ghost use Rattle.item_geometry.specs.Rectangle.{parts_of};
ghost use Rattle.sg_nodes.specs.declared.node.NodeBody.TheVariants.{Rect as RectBody};
ghost use Rattle.sg_nodes.specs.declared.node.Node.{Node};
ghost use Rattle.sg_nodes.specs.declared.node.NodeKind.TheVariants.{Group as GroupKind, Rect as RectKind};
ghost use Rattle.scene.specs.Keys.{rect_keys, group_keys, keys_of};
ghost use Rattle.scene.specs.Dirty.{without};
ghost use Rattle.scene.specs.Picture.{Item, with_keys};
ghost use Rattle.sg_nodes.specs.Bodies.{kind_of};
ghost use Rattle.sg_nodes.specs.Forest.{IsForest, IsLive, slot_of};
ghost use Rattle.sg_nodes.specs.Stored.{forest_of};
ghost use Rattle.sg_standing.specs.Standing.{group_of, rect_of};
ghost use Rattle.sg_sync.specs.Own.{IsIn};
ghost use Rattle.sg_sync.specs.Linking.{Distinct};
ghost use Rattle.sg_sync.specs.Dressing.{CanRenew, Dressing, AreLinked, HasNoParent, SamePaints};
ghost use Rattle.sg_sync.specs.Counting.{made_by, freed_by, made_for, freed_for, total, AllKeep};
ghost use Rattle.sg_sync.specs.Swapping.{Swapped, group_node, rect_node, IsOfItem};

use crate::link::rect_slice;
use crate::synced::Synced;
use item_geometry::{RectPart, Rects};
use links::NodeKey;
use scene::{ItemKeys, Paint, RectKeys, Scene};
use sg_nodes::{GroupNode, NodeKind, Nodes, RectNode};
use std::slice;

/// Frees nodes.
pub(crate) fn free_all(nodes: &mut Nodes, keys: &[NodeKey])
    requires live { (key : Key) → IsIn keys.now key → IsLive (forest_of nodes.old) key.slot }
    requires distinct { Distinct keys.now }
    requires forest { IsForest (forest_of nodes.old) }
    ensures swapped { Swapped (forest_of nodes.old) (forest_of nodes.new) keys.now [] keys.now [] }
    ensures spare { nodes.new.spare ≡ nodes.old.spare }
    ensures forest { IsForest (forest_of nodes.new) }
{
    for key in keys {
        nodes.release(*key);
    }
}

/// An item's group, as its record says.
fn group_node(paint: &Paint) -> GroupNode
    ensures { result ≡ group_of paint.now }
{
    GroupNode {
        x: paint.x,
        y: paint.y,
        w: paint.w,
        h: paint.h,
        clip: paint.clip,
        shown: paint.shown,
    }
}

/// One of an item's rectangles, as its record says.
fn rect_node(part: RectPart) -> RectNode
    ensures { result ≡ rect_of part }
{
    RectNode {
        x: part.x,
        y: part.y,
        w: part.w,
        h: part.h,
        argb: part.argb,
    }
}

/// The key of an item's group, which is made where it has none.
fn group_or_new(nodes: &mut Nodes, serial: u64, group: Option<NodeKey>) -> NodeKey
    requires of_item { (key : Key) → group ≡ Some key → IsOfItem (forest_of nodes.old) serial GroupKind key }
    requires room { 1 ≤ nodes.old.spare }
    requires forest { IsForest (forest_of nodes.old) }
    ensures swapped { (node : Node) × (((node.item ≡ serial) × (kind_of node.body ≡ GroupKind))
        × Swapped (forest_of nodes.old) (forest_of nodes.new) (group_keys group) (result ∷ []) [] (node ∷ [])) }
    ensures kept { (key : Key) → group ≡ Some key → result ≡ key }
    ensures spare { nodes.old.spare ≤ nodes.new.spare + 1 }
    ensures forest { IsForest (forest_of nodes.new) }
{
    match group {
        Some(key) => key,
        None => nodes.make(NodeKind::Group, serial),
    }
}

/// The key of an item's group, which is made where it has none, and is as the record says.
fn renew_group(nodes: &mut Nodes, serial: u64, group: Option<NodeKey>, paint: &Paint) -> NodeKey
    requires of_item { (key : Key) → group ≡ Some key → IsOfItem (forest_of nodes.old) serial GroupKind key }
    requires room { 1 ≤ nodes.old.spare }
    requires forest { IsForest (forest_of nodes.old) }
    ensures swapped { Swapped (forest_of nodes.old) (forest_of nodes.new) (group_keys group) (result ∷ []) [] (group_node serial paint.now ∷ []) }
    ensures kept { (key : Key) → group ≡ Some key → result ≡ key }
    ensures spare { nodes.old.spare ≤ nodes.new.spare + 1 }
    ensures forest { IsForest (forest_of nodes.new) }
{
    let key = group_or_new(nodes, serial, group);
    nodes.set_group(key, group_node(paint));
    key
}

/// A new node for one of an item's rectangles.
fn make_rect(nodes: &mut Nodes, serial: u64, part: RectPart) -> NodeKey
    requires room { 1 ≤ nodes.old.spare }
    requires forest { IsForest (forest_of nodes.old) }
    ensures swapped { Swapped (forest_of nodes.old) (forest_of nodes.new) [] (result ∷ []) [] (rect_node serial part ∷ []) }
    ensures spare { nodes.old.spare ≤ nodes.new.spare + 1 }
    ensures forest { IsForest (forest_of nodes.new) }
{
    let key = nodes.make(NodeKind::Rect, serial);
    nodes.set_rect(key, rect_node(part));
    key
}

/// New nodes for the rectangles of an item with a border.
fn make_five(nodes: &mut Nodes, serial: u64, parts: &[RectPart; 5]) -> [NodeKey; 5]
    requires room { 5 ≤ nodes.old.spare }
    requires forest { IsForest (forest_of nodes.old) }
    ensures swapped { Swapped (forest_of nodes.old) (forest_of nodes.new) [] result [] (list_map (rect_node serial) parts.now) }
    ensures spare { nodes.old.spare ≤ nodes.new.spare + 5 }
    ensures forest { IsForest (forest_of nodes.new) }
{
    let mut keys = [NodeKey { slot: 0 }; 5];
    for i in 0..5 {
        keys[i] = make_rect(nodes, serial, parts[i]);
    }
    keys
}

/// New nodes for an item's rectangles.
fn make_rects(nodes: &mut Nodes, serial: u64, rects: &Rects) -> RectKeys
    requires room { 5 ≤ nodes.old.spare }
    requires forest { IsForest (forest_of nodes.old) }
    ensures swapped { Swapped (forest_of nodes.old) (forest_of nodes.new) [] (rect_keys result) [] (list_map (rect_node serial) (parts_of rects.now)) }
    ensures spare { nodes.old.spare ≤ nodes.new.spare + 5 }
    ensures forest { IsForest (forest_of nodes.new) }
{
    match rects {
        Rects::Zero => RectKeys::Zero,
        Rects::One(part) => RectKeys::One(make_rect(nodes, serial, *part)),
        Rects::Five(parts) => RectKeys::Five(make_five(nodes, serial, parts)),
    }
}

/// Has the nodes of rectangles be as the record says.
fn set_rects(nodes: &mut Nodes, serial: u64, keys: &[NodeKey], parts: &[RectPart])
    requires len { length keys.now ≡ length parts.now }
    requires of_item { (key : Key) → IsIn keys.now key → IsOfItem (forest_of nodes.old) serial RectKind key }
    requires distinct { Distinct keys.now }
    requires forest { IsForest (forest_of nodes.old) }
    ensures swapped { Swapped (forest_of nodes.old) (forest_of nodes.new) keys.now keys.now [] (list_map (rect_node serial) parts.now) }
    ensures spare { nodes.new.spare ≡ nodes.old.spare }
    ensures forest { IsForest (forest_of nodes.new) }
{
    for i in 0..keys.len() {
        nodes.set_rect(keys[i], rect_node(parts[i]));
    }
}

/// An item's rectangles, in order.
fn part_slice(rects: &Rects) -> &[RectPart]
    ensures parts { result.now ≡ parts_of rects.now }
    ensures few { length result.now ≤ 5 }
{
    match rects {
        Rects::Zero => &[],
        Rects::One(part) => slice::from_ref(part),
        Rects::Five(parts) => parts,
    }
}

/// The keys of an item's rectangles, which are as the record says. Where it has another number of them
/// than before, its nodes are freed and others are made.
fn renew_rects(nodes: &mut Nodes, serial: u64, keys: RectKeys, rects: &Rects) -> RectKeys
    requires of_item { (key : Key) → IsIn (rect_keys keys) key → IsOfItem (forest_of nodes.old) serial RectKind key }
    requires distinct { Distinct (rect_keys keys) }
    requires room { 5 ≤ nodes.old.spare }
    requires forest { IsForest (forest_of nodes.old) }
    ensures swapped { Swapped (forest_of nodes.old) (forest_of nodes.new) (rect_keys keys) (rect_keys result) (rect_keys keys) (list_map (rect_node serial) (parts_of rects.now)) }
    ensures kept { length (rect_keys keys) ≡ length (parts_of rects.now) → result ≡ keys }
    ensures spare { nodes.old.spare ≤ nodes.new.spare + 5 }
    ensures forest { IsForest (forest_of nodes.new) }
{
    let old = rect_slice(&keys);
    let parts = part_slice(rects);
    if old.len() == parts.len() {
        set_rects(nodes, serial, old, parts);
        return keys;
    }
    free_all(nodes, old);
    make_rects(nodes, serial, rects)
}

/// Counts what is made and freed for an item with these keys.
fn count(keys: &ItemKeys, rects: &Rects, done: &mut Synced)
    requires made { done.old.made + 6 < 2 ^ 64 }
    requires released { done.old.released + 6 < 2 ^ 64 }
    ensures after { done.new ≡ record done.old {
      made = done.old.made + made_by keys.now rects.now;
      released = done.old.released + freed_by keys.now rects.now;
    } }
    ensures few_made { done.new.made ≤ done.old.made + 6 }
    ensures few_released { done.new.released ≤ done.old.released + 6 }
{
    if keys.group.is_none() {
        done.made += 1;
    }
    let old = rect_slice(&keys.rects).len();
    let new = part_slice(rects).len();
    if old != new {
        done.made += new as u64;
        done.released += old as u64;
    }
}

/// Brings an item's own nodes up to date, whatever they have as children, and answers their keys. The
/// item is then dirty no longer.
fn renew(nodes: &mut Nodes, scene: &mut Scene, serial: u64, done: &mut Synced) -> ItemKeys
    requires is_item { IsSome (map.get scene.old.items serial) }
    requires can_renew { (item : Item) → map.get scene.old.items serial ≡ Some item
        → CanRenew (forest_of nodes.old) serial item }
    requires room { 6 ≤ nodes.old.spare }
    requires made { done.old.made + 6 < 2 ^ 64 }
    requires released { done.old.released + 6 < 2 ^ 64 }
    requires forest { IsForest (forest_of nodes.old) }
    ensures swapped { (item : Item) → map.get scene.old.items serial ≡ Some item
        → Swapped (forest_of nodes.old) (forest_of nodes.new) (keys_of item.keys) (keys_of result) (rect_keys item.keys.rects)
        (group_node serial item.paint ∷ list_map (rect_node serial) (parts_of item.paint.rects)) }
    ensures kept { (item : Item) (key : Key) → map.get scene.old.items serial ≡ Some item
        → item.keys.group ≡ Some key → result.group ≡ Some key }
    ensures kept_rects { (item : Item) → map.get scene.old.items serial ≡ Some item
        → length (rect_keys item.keys.rects) ≡ length (parts_of item.paint.rects) → result.rects ≡ item.keys.rects }
    ensures group { IsSome result.group }
    ensures scene { scene.new ≡ record scene.old {
      items = with_keys serial result scene.old.items;
      dirty = without serial scene.old.dirty;
    } }
    ensures spare { nodes.old.spare ≤ nodes.new.spare + 6 }
    ensures counted { done.new ≡ record done.old {
      made = done.old.made + made_for (map.get scene.old.items serial);
      released = done.old.released + freed_for (map.get scene.old.items serial);
    } }
    ensures few_made { done.new.made ≤ done.old.made + 6 }
    ensures few_released { done.new.released ≤ done.old.released + 6 }
    ensures forest { IsForest (forest_of nodes.new) }
{
    let Some(paint) = scene.record(serial) else {
        unreachable!()
    };
    let Some(old) = scene.keys(serial) else {
        unreachable!()
    };
    count(&old, &paint.rects, done);
    let group = renew_group(nodes, serial, old.group, paint);
    let rects = renew_rects(nodes, serial, old.rects, &paint.rects);
    let keys = ItemKeys {
        group: Some(group),
        rects,
    };
    scene.set_keys(serial, keys);
    keys
}

/// Brings the own nodes of dirty items up to date, whatever they have as children.
pub(crate) fn renew_all(nodes: &mut Nodes, scene: &mut Scene, serials: &[u64], done: &mut Synced)
    requires dirty { scene.old.dirty ≡ serials.now }
    requires distinct { Distinct serials.now }
    requires items { (serial : ℕ) → IsIn serials.now serial → IsSome (map.get scene.old.items serial) }
    requires dressing { Dressing (forest_of nodes.old) scene.old.items scene.old.root serials.now }
    requires linked { AreLinked (forest_of nodes.old) scene.old.items serials.now }
    requires no_parent { HasNoParent (forest_of nodes.old) scene.old.items scene.old.root }
    requires room { 6 * length serials.now ≤ nodes.old.spare }
    requires made { done.old.made + 6 * length serials.now < 2 ^ 64 }
    requires released { done.old.released + 6 * length serials.now < 2 ^ 64 }
    requires forest { IsForest (forest_of nodes.old) }
    ensures dressing { Dressing (forest_of nodes.new) scene.new.items scene.new.root [] }
    ensures linked { AreLinked (forest_of nodes.new) scene.new.items serials.now }
    ensures no_parent { HasNoParent (forest_of nodes.new) scene.new.items scene.new.root }
    ensures paints { SamePaints scene.old.items scene.new.items }
    ensures others { (serial : ℕ) → ¬ IsIn serials.now serial
        → map.get scene.new.items serial ≡ map.get scene.old.items serial }
    ensures keep { AllKeep scene.old.items scene.new.items }
    ensures scene { scene.new ≡ record scene.old { items = scene.new.items; dirty = [] } }
    ensures counted { done.new ≡ record done.old {
      made = done.old.made + total made_for scene.old.items serials.now;
      released = done.old.released + total freed_for scene.old.items serials.now;
    } }
    ensures forest { IsForest (forest_of nodes.new) }
{
    for serial in serials {
        let _keys = renew(nodes, scene, *serial, done);
    }
}
