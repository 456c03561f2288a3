use links::NodeKey;
use sg_nodes::{GroupNode, NodeBody, NodeKind, Nodes, RectNode};
use std::alloc::AllocError;
use std::test::Fail;

fn is_sent<T: Send>(_value: &T) {}

/// A new group without a parent.
fn add_group(nodes: &mut Nodes, item: u64) -> Result<NodeKey, AllocError> {
    nodes.reserve(1)?;
    Ok(nodes.make(NodeKind::Group, item))
}

/// A new node at the end of the parent's children.
fn add_last(nodes: &mut Nodes, parent: NodeKey, kind: NodeKind) -> Result<NodeKey, AllocError> {
    nodes.reserve(1)?;
    let key = nodes.make(kind, 7);
    if nodes.get(parent).is_some() && key.slot != parent.slot {
        nodes.insert_before(key, parent, None);
    }
    Ok(key)
}

/// A new node before the parent's children, which has one at least.
fn add_first(nodes: &mut Nodes, parent: NodeKey, kind: NodeKind) -> Result<NodeKey, AllocError> {
    nodes.reserve(1)?;
    let key = nodes.make(kind, 7);
    if nodes.get(parent).is_some() && key.slot != parent.slot {
        if let Some(at) = nodes.first_child(parent) {
            if at.slot != key.slot {
                nodes.insert_before(key, parent, Some(at));
            }
        }
    }
    Ok(key)
}

fn release(nodes: &mut Nodes, key: NodeKey) {
    if nodes.get(key).is_some() {
        nodes.release(key);
    }
}

/// The first two children.
fn first_two(nodes: &Nodes, key: NodeKey) -> [Option<NodeKey>; 2] {
    match nodes.first_child(key) {
        Some(first) => [Some(first), nodes.next_sibling(first)],
        None => [None, None],
    }
}

/// Sets a node that is a group.
fn set_group(nodes: &mut Nodes, key: NodeKey, group: GroupNode) {
    if let Some(node) = nodes.get(key) {
        if let NodeBody::Group(_) = node.body {
            nodes.set_group(key, group);
        }
    }
}

/// Sets a node that is a rectangle.
fn set_rect(nodes: &mut Nodes, key: NodeKey, rect: RectNode) {
    if let Some(node) = nodes.get(key) {
        if let NodeBody::Rect(_) = node.body {
            nodes.set_rect(key, rect);
        }
    }
}

/// A new root.
fn add_root(nodes: &mut Nodes, item: u64) -> Result<NodeKey, AllocError> {
    nodes.reserve(1)?;
    let key = nodes.make(NodeKind::Group, item);
    nodes.set_root(key);
    Ok(key)
}

fn group(x: i32) -> GroupNode {
    GroupNode {
        x,
        y: 2,
        w: 3,
        h: 4,
        clip: true,
        shown: true,
    }
}

fn has_body(nodes: &Nodes, key: NodeKey, item: u64, body: NodeBody) -> bool {
    match nodes.get(key) {
        Some(node) => node.item == item && node.body == body,
        None => false,
    }
}

#[test]
fn children_are_in_order(rt: HostRuntime) -> Result<(), Fail> {
    let mut nodes = Nodes::new(rt.alloc());
    is_sent(&nodes);
    let root = add_group(&mut nodes, 1)?;
    let last = add_last(&mut nodes, root, NodeKind::Rect)?;
    let first = add_first(&mut nodes, root, NodeKind::Group)?;
    let both = first_two(&nodes, root) == [Some(first), Some(last)]
        && nodes.next_sibling(last).is_none();
    release(&mut nodes, first);
    let one = first_two(&nodes, root) == [Some(last), None];
    release(&mut nodes, root);
    assert!(rt; both && one && nodes.next_sibling(last).is_none() && nodes.get(root).is_none());
    Ok(())
}

#[test]
fn nodes_are_as_they_were_set(rt: HostRuntime) -> Result<(), Fail> {
    let mut nodes = Nodes::new(rt.alloc());
    let group_key = add_root(&mut nodes, 8)?;
    set_group(&mut nodes, group_key, group(1));
    let rect = RectNode {
        x: 1,
        y: 2,
        w: 3,
        h: 4,
        argb: 5,
    };
    let rooted = nodes.root() == Some(group_key)
        && has_body(&nodes, group_key, 8, NodeBody::Group(group(1)));
    let rect_key = add_last(&mut nodes, group_key, NodeKind::Rect)?;
    set_rect(&mut nodes, rect_key, rect);
    release(&mut nodes, group_key);
    assert!(rt;
        rooted && nodes.root().is_none() && has_body(&nodes, rect_key, 7, NodeBody::Rect(rect))
    );
    Ok(())
}
